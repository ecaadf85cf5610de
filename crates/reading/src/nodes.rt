// A statement, pushed with the rest of its block.
ghost use Rattle.std.specs.Prelude.{◌≡◌, ◌+◌, true, length};
ghost use Rattle.script.specs.Nodes.{code_of, block_at};
ghost use Rattle.script.specs.Pushing.{stmt_room};
ghost use Rattle.script.specs.Meaning.{exprs_of, codes_of};
ghost use Rattle.reading.specs.Terms.{KeptBlocks};

use script::{Node, Script};

// The number of the block that has no statement.
pub(crate) const EMPTY_BLOCK: usize = 0;

// One statement more, for which there is room: the number of the block that begins with it.
pub(crate) fn push_stmt(script: &mut Script, node: Node) -> usize
    requires { stmt_room (exprs_of script.old) (codes_of script.old) node ≡ true }
    ensures value { result ≡ length (codes_of script.old) }
    ensures here { block_at (codes_of script.new) result ≡ code_of (exprs_of script.old) (codes_of script.old) node }
    ensures size { length (codes_of script.new) ≡ length (codes_of script.old) + 1 }
    ensures kept { KeptBlocks (codes_of script.old) (codes_of script.new) }
    ensures exprs { exprs_of script.new ≡ exprs_of script.old }
{
    script.push_stmt(node).unwrap()
}
