// Reading a script node by node, by what the nodes stand for.
ghost use Rattle.std.specs.Prelude.{◌≡◌, true, IfSome, MatchOption};
ghost use Rattle.rules.specs.Scripts.Code.{stop};
ghost use Rattle.script.specs.Nodes.{expr_of, code_of, expr_at, block_at};
ghost use Rattle.script.specs.Ordered.{all_below, parts, blocks_in};
ghost use Rattle.script.specs.Meaning.{exprs_of, codes_of, script_of};

use crate::node::{Expr, Node};
use crate::script::Script;

impl Script {
    // The number of the block that the script begins with.
    pub fn first(&self) -> usize
        ensures { script_of self.now ≡ block_at (codes_of self.now) result }
    {
        self.first
    }

    // The expression at a place: what it stands for, by its parts, which stand further back. Where there is none it is 0, as what
    // the script stands for has it.
    pub fn expr(&self, at: usize) -> Expr
        ensures meaning { expr_at (exprs_of self.now) at ≡ expr_of (exprs_of self.now) result }
        ensures back { all_below at (parts result) ≡ true }
    {
        match self.exprs.get(at) {
            Some(node) => node,
            None => Expr::Literal(0),
        }
    }

    // The first statement of a block: what the block stands for, by its parts, which stand further back. Nothing where the
    // block is empty.
    pub fn stmt(&self, block: usize) -> Option<Node>
        ensures meaning { MatchOption result (block_at (codes_of self.now) block ≡ stop) (λ s. block_at (codes_of self.now) block ≡ code_of (exprs_of self.now) (codes_of self.now) s) }
        ensures back { IfSome result (λ s. all_below block (blocks_in s) ≡ true) }
    {
        if block == 0 {
            return None;
        }
        self.stmts.get(block - 1)
    }
}
