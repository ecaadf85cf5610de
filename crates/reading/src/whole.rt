// A whole text.
ghost use Rattle.std.specs.Prelude.{◌≡◌, Ok};
ghost use Rattle.rules.specs.Guards.{and_then};
ghost use Rattle.grammar.specs.Reading.{read_script, reading};
ghost use Rattle.layout.specs.Plans.{plan_of};
ghost use Rattle.reading.specs.Scripted.{scripted};

use crate::blocks::Close;
use crate::env::Env;
use crate::parser::Parser;
use clauses::{Names, Scope};
use grammar::Refusal;
use layout::Plan;
use script::{MOST_STATEMENTS, Script};

const MOST_BYTES: usize = 2048;

const MOST_BLOCKS: usize = 8;

const MOST_TURNS: usize = 2;

// Reads a text that is short enough.
fn read_script<'a>(plan: &'a Plan, text: &'a [u8]) -> Result<Script, Refusal>
    ensures { scripted result ≡ and_then (read_script (plan_of plan.now) text.now) (λ b. Ok b.code) }
{
    let names = Names::new();
    let env = Env {
        scope: Scope { plan, names },
        blocks: MOST_BLOCKS,
        turns: MOST_TURNS,
    };
    let mut parser = Parser::new(text);
    let whole = parser.read_rest(env, MOST_STATEMENTS, Close::End)?;
    let mut script = parser.script;
    script.begin_with(whole);
    Ok(script)
}

// Reads a text over a plan: to a script, or to the refusal of the first thing in it that is wrong. It allocates nothing, and
// the text is read where it stands.
#[tactic(auto, unfolding(grammar::specs::Reading::reading))]
pub fn read(plan: &Plan, text: &[u8]) -> Result<Script, Refusal>
    ensures { scripted result ≡ reading (plan_of plan.now) text.now }
{
    if text.len() > MOST_BYTES {
        return Err(Refusal::TextTooLong(MOST_BYTES));
    }
    read_script(plan, text)
}
