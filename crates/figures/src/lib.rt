// The figure of a script: a number of steps that no run of it passes, from the script and the plan alone.
#![tactic(auto)]

ghost use Rattle.std.specs.Prelude.{◌≡◌, ◌+◌, ◌*◌, ◌^◌, ◌<◌, ◌≤◌, min, map};
ghost use Rattle.layout.specs.Pairs.{pair_of};
ghost use Rattle.layout.specs.Plans.{plan_of};
ghost use Rattle.rules.specs.Lots.{longest, longest_of};
ghost use Rattle.rules.specs.Figures as rules;
ghost use Rattle.script.specs.Nodes.{block_at};
ghost use Rattle.script.specs.Meaning.{codes_of, script_of};

use layout::{Pair, Plan};
use script::{Script, Stmt};

// The first number past the limit on figures: a higher figure is not told apart from it.
const PAST_THE_LIMIT: u64 = 1_000_001;

// The length of the longest pair.
fn longest_pair(pairs: &[Pair]) -> u32
    ensures { result ≡ longest_of (map pair_of pairs.now) }
{
    pairs.iter().map(|pair| pair.length).max().unwrap_or(0)
}

// The length of a table's longest lot; 0 where there is no such table, as the rules have it.
fn longest_lot(plan: &Plan, table: u32) -> u32
    ensures { result ≡ longest (plan_of plan.now) table }
{
    plan.table(table as usize)
        .map_or(0, |found| longest_pair(found.lots()))
}

// A number, or the first past the limit where that is less.
fn capped(n: u64) -> u64
    ensures { result ≡ min n 1000001 }
{
    n.min(PAST_THE_LIMIT)
}

// The figure of a statement that makes `turns` turns of a block, or visits as many rows with none, with that of the rest of its own
// block.
fn turning(turns: u32, body: u64, rest: u64) -> u64
    requires { (body ≤ 1000001) × (rest ≤ 1000001) }
    ensures { result ≡ min (1 + turns * (1 + body) + rest) 1000001 }
{
    capped(1 + u64::from(turns) * (1 + body) + rest)
}

// The figure of a statement with two blocks, with that of the rest of its own block.
fn branching(first: u64, second: u64, rest: u64) -> u64
    requires { (first ≤ 1000001) × ((second ≤ 1000001) × (rest ≤ 1000001)) }
    ensures { result ≡ min (1 + (first + second) + rest) 1000001 }
{
    capped(1 + (first + second) + rest)
}

// The figure of a block.
#[tactic(auto, using(crate::proofs::Steps::turns_capped), unfolding(rules::specs::Figures::figure))]
fn block_figure(script: &Script, plan: &Plan, block: usize) -> u64
    ensures { result ≡ min (rules.figure (plan_of plan.now) (block_at (codes_of script.now) block)) 1000001 }
{
    let Some(node) = script.stmt(block) else {
        return 0;
    };
    let rest = block_figure(script, plan, node.rest);
    match node.stmt {
        Stmt::Var { .. } | Stmt::Set { .. } | Stmt::Add { .. } => capped(1 + rest),
        Stmt::If { first, second, .. } | Stmt::When { first, second, .. } => {
            let first = block_figure(script, plan, first);
            let second = block_figure(script, plan, second);
            branching(first, second, rest)
        }
        Stmt::Vendors { body } => {
            let turn = block_figure(script, plan, body);
            turning(plan.vendors(), turn, rest)
        }
        Stmt::Each { lot, body } => {
            let row = block_figure(script, plan, body);
            let most = longest_lot(plan, lot.table);
            turning(most, row, rest)
        }
        Stmt::Drop { lot, .. } | Stmt::Alter { lot, .. } => {
            turning(longest_lot(plan, lot.table), 0, rest)
        }
    }
}

// The figure of a script, exact up to the limit of 1,000,000; every figure above it is answered as 1,000,001.
pub fn figure(script: &Script, plan: &Plan) -> u64
    ensures { result ≡ min (rules.figure (plan_of plan.now) (script_of script.now)) 1000001 }
{
    block_figure(script, plan, script.first())
}
