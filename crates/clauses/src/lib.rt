// The parts of a script's statements that ask nothing of the rest: tokens that are due, names in scope, and indexes, lots,
// labels and columns. Each is read as the grammar defines it.
#![tactic(auto)]

pub mod names;
pub mod parts;
pub mod steps;

pub use names::{Asked, Bound, Names};
pub use parts::{Access, Scope, read_column, read_index, read_label, read_lot};
pub use script::Lot;
pub use steps::{Placed, expect, read_name};
