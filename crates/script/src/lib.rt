// A script as it is held: two lists of nodes, in which parts stand before what they are part of, so that nothing has to be
// allocated to build one.
#![tactic(auto)]

pub mod build;
pub mod node;
pub mod read;
pub mod script;
pub mod valuation;

pub use build::MOST_STATEMENTS;
pub use node::{Expr, Index, Lot, MOST_NAMES, Mark, Node, Op, Stmt};
pub use script::Script;
pub use valuation::Valuation;
