// The values of expressions.
ghost use Rattle.std.specs.Prelude.{◌≡◌, map};
ghost use Rattle.inplace.specs.Held.{held};
ghost use Rattle.rules.specs.Evaluation as rules;
ghost use Rattle.script.specs.Nodes.{op_of};
ghost use Rattle.runner.specs.Values.{value_in};

use crate::env::Env;
use crate::locals::Locals;
use inplace::ArrayVec;
use lots::Row;
use script::{Expr, Op, Valuation};

fn operate(op: Op, a: u32, b: u32) -> u32
    ensures { result ≡ rules.operate (op_of op) a b }
{
    match op {
        Op::Plus => a.saturating_add(b),
        Op::Minus => a.saturating_sub(b),
        Op::Min => a.min(b),
        Op::Max => a.max(b),
        Op::Equal => u32::from(a == b),
        Op::Less => u32::from(a < b),
    }
}

// The value of the expression at a place.
#[tactic(auto, unfolding(rules::specs::Evaluation::eval))]
pub(crate) fn evaluate(env: &Env, locals: &Locals, at: usize) -> u32
    ensures { result ≡ value_in env.now locals.now at }
{
    match env.script.expr(at) {
        Expr::Literal(n) => n,
        Expr::Mine => env.mine(),
        Expr::OfIndex(level) => env.index(level),
        Expr::Variable(level) => locals.var(level),
        Expr::Cell(level, column) => env.cursor(level).get_or(column as usize, 0),
        Expr::Apply(op, left, right) => {
            let first = evaluate(env, locals, left);
            let second = evaluate(env, locals, right);
            operate(op, first, second)
        }
    }
}

// The row of the values of some expressions.
pub(crate) fn row_of(env: &Env, locals: &Locals, values: ArrayVec<usize, 4>) -> Row
    ensures { held result ≡ map (value_in env.now locals.now) (held values) }
{
    let mut row = Row::new(0);
    for at in values.as_slice() {
        let _ = row.push(evaluate(env, locals, *at));
    }
    row
}
