// Texts of bytes cut into parts, and numbers read from them.
#![tactic(auto)]

pub mod cuts;
pub mod numbers;

pub use cuts::{Words, cut, split_once};
pub use numbers::number;
