// Judging a whole script, for one vendor that it may run for and for all of them. Lattice, plan and script are taken as callers have
// them, each on its own.
ghost use Rattle.std.specs.Prelude.{◌≡◌};
ghost use Rattle.layout.specs.Plans.{plan_of};
ghost use Rattle.rules.specs.Labels.{no_names};
ghost use Rattle.rules.specs.Evaluation.{run_for};
ghost use Rattle.rules.specs.Judging as rules;
ghost use Rattle.script.specs.Meaning.{script_of};
ghost use Rattle.judge.specs.Verdicts.{told, told_by, place_in, found, found_by, Of};
ghost use Rattle.judge.specs.Breaking.{Breaks, Explains};

use crate::broken::Broken;
use crate::context::Context;
use crate::judging::{Judge, least_of};
use crate::report::Report;
use crate::standing::Standing;
use lattice::Lattice;
use layout::Plan;
use policy::Policy;
use script::{MOST_STATEMENTS, Script};

// The first fault of a script at the valuations of one vendor that it may run for, in a context, which is left as it was.
pub fn judge_for<L: Lattice>(
    lattice: &L,
    plan: &Plan,
    script: &Script,
    vendor: u32,
    context: &mut Context,
) -> Result<(), Broken>
    ensures answer { found result ≡ rules.verdict (L.answers lattice.now) (plan_of plan.now) (script_of script.now) no_names (run_for vendor) context.old.label }
    ensures same { context.new.label ≡ context.old.label }
    ensures why { Of (told result) (λ b. Breaks (L.answers lattice.now) (plan_of plan.now) b (script_of script.now) no_names (run_for vendor) context.old.label) }
{
    judge_vendor(lattice, plan, script, vendor, context)
}

// The same, told as the caller likes.
#[tactic(auto, using(crate::proofs::Steps::at_end, crate::proofs::Steps::no_block))]
fn judge_vendor<L: Lattice, R: Report>(
    lattice: &L,
    plan: &Plan,
    script: &Script,
    vendor: u32,
    context: &mut Context,
) -> Result<(), R>
    ensures answer { found_by R.place_of result ≡ rules.verdict (L.answers lattice.now) (plan_of plan.now) (script_of script.now) no_names (run_for vendor) context.old.label }
    ensures same { context.new.label ≡ context.old.label }
    ensures why { Of (told_by R.whole result) (λ b. Breaks (L.answers lattice.now) (plan_of plan.now) b (script_of script.now) no_names (run_for vendor) context.old.label) }
{
    let first = script.first();
    if first > MOST_STATEMENTS {
        return Ok(());
    }
    let policy = Policy { lattice, plan };
    Judge { policy, script }.judge_block(first, &Standing::run_for(vendor), context)
}

// The fault with the least place over every vendor that the script may run for, with the context at the bottom.
#[tactic(auto, using(crate::proofs::Breaches::explained_for, rules::proofs::Turns::over_more), unfolding(rules::specs::Judging::judge))]
fn judge_all<L: Lattice, R: Report>(lattice: &L, plan: &Plan, script: &Script) -> Result<(), R>
    ensures answer { found_by R.place_of result ≡ rules.judge (L.answers lattice.now) (plan_of plan.now) (script_of script.now) }
    ensures why { Of (told_by R.whole result) (Explains (L.answers lattice.now) (plan_of plan.now) (script_of script.now)) }
{
    let vendors = plan.vendors();
    let mut context = Context {
        label: lattice.bottom(),
    };
    let mut least = Ok(());
    for me in 0..vendors {
        least = least_of(least, judge_vendor(lattice, plan, script, me, &mut context));
    }
    least
}

// Why a script is refused: the flow with the least place over every vendor that it may run for, with the context at the
// bottom, and a valuation at which that flow is not allowed.
pub fn explain<L: Lattice>(lattice: &L, plan: &Plan, script: &Script) -> Option<Broken>
    ensures answer { place_in result ≡ rules.judge (L.answers lattice.now) (plan_of plan.now) (script_of script.now) }
    ensures why { Of result (Explains (L.answers lattice.now) (plan_of plan.now) (script_of script.now)) }
{
    judge_all::<L, Broken>(lattice, plan, script).err()
}

// The verdict on a script: the place of the flow that it is refused for, or nothing.
pub fn judge<L: Lattice>(lattice: &L, plan: &Plan, script: &Script) -> Option<usize>
    ensures { result ≡ rules.judge (L.answers lattice.now) (plan_of plan.now) (script_of script.now) }
{
    judge_all::<L, usize>(lattice, plan, script).err()
}
