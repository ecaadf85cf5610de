// A small plan, and scripts that are built by hand.
use layout::{Pair, Plan};
use script::{Expr, Node, Script, Stmt};
use std::test::Fail;

// Three vendors, and a table of row family 1 and column families 1 and 2.
pub(crate) fn three_vendors() -> Result<Plan, Fail> {
    let mut plan = Plan::new();
    plan.set_vendors(3)
        .ok()
        .ok_or("the vendor count is refused")?;
    let lots = [
        Pair {
            offset: 0,
            length: 4,
        },
        Pair {
            offset: 4,
            length: 4,
        },
        Pair {
            offset: 8,
            length: 4,
        },
    ];
    plan.declare(1, &[1, 2], &lots)
        .ok()
        .ok_or("the table is refused")?;
    Ok(plan)
}

// A statement in front of the rest of its block.
pub(crate) fn push(script: &mut Script, stmt: Stmt, rest: usize) -> Result<usize, Fail> {
    Ok(
        script
            .push_stmt(Node { stmt, rest })
            .ok_or("no room for the statement")?,
    )
}

pub(crate) fn push_expr(script: &mut Script, expr: Expr) -> Result<usize, Fail> {
    Ok(script.push_expr(expr).ok_or("no room for the expression")?)
}
