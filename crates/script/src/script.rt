ghost use Rattle.std.specs.Prelude.{◌≡◌, true, length};
ghost use Rattle.inplace.specs.Held.{held};
ghost use Rattle.script.specs.Ordered.{exprs_ordered, stmts_ordered};

use crate::node::{Expr, Node};
use inplace::ArrayVec;

// A script: its expressions, its statements with the rests of their blocks, and the block that it begins with.
#[derive(Drop)]
pub struct Script {
    pub(crate) exprs: ArrayVec<Expr, 256>,
    pub(crate) stmts: ArrayVec<Node, 64>,
    pub(crate) first: usize,
    // Parts stand before what they are part of.
    ghost built: { exprs_ordered 0 (held exprs) ≡ true },
    ghost joined: { stmts_ordered (length (held exprs)) 1 (held stmts) ≡ true },
}
