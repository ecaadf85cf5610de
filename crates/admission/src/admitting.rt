ghost use Rattle.std.specs.Prelude.{◌≡◌};
ghost use Rattle.grammar.specs.TextPromises.{admits};
ghost use Rattle.layout.specs.Plans.{plan_of};
ghost use Rattle.rules.specs.Admission.{admit_code};
ghost use Rattle.script.specs.Meaning.{script_of};
ghost use Rattle.admission.specs.Admitted.{admitted};

use figures::figure;
use judge::judge;
use lattice::Lattice;
use layout::Plan;
use reading::read;
use rules::Refusal;
use script::Script;

// A script that was admitted, with its figure.
#[derive(Drop)]
pub struct Admitted {
    pub script: Script,
    pub figure: u32,
}

// No script is admitted with a higher figure.
const HIGHEST_FIGURE: u64 = 1_000_000;

// What becomes of a script that was read from a text of `size` bytes: refused for a flow at its place, else for its
// figure at the text's end, else admitted with its figure. Lattice and plan are taken as the caller below has them.
fn admit_script<L: Lattice>(
    lattice: &L,
    plan: &Plan,
    size: usize,
    script: Script,
) -> Result<Admitted, Refusal>
    ensures { admitted result ≡ admit_code (L.answers lattice.now) (plan_of plan.now) size (script_of script) }
{
    if let Some(place) = judge(lattice, plan, &script) {
        return Err(Refusal::FlowNotAllowed(place));
    }
    let steps = figure(&script, plan);
    if steps > HIGHEST_FIGURE {
        return Err(Refusal::FigureTooHigh(size));
    }
    Ok(Admitted {
        script,
        // it is at most the highest figure, so no bit is lost
        figure: steps as u32,
    })
}

// What becomes of a text: it is read, its flows are judged, and its figure is taken. Lattice and plan are taken as the caller has them.
#[tactic(auto, unfolding(rules::specs::Admission::admission))]
pub fn admit<L: Lattice>(lattice: &L, plan: &Plan, text: &[u8]) -> Result<Admitted, Refusal>
    ensures { admitted result ≡ admits (L.answers lattice.now) (plan_of plan.now) text.now }
{
    let script = read(plan, text)?;
    admit_script(lattice, plan, text.len(), script)
}
