// Labels and their order: what a lattice answers, the laws that it shows, and the three that are built.
#![tactic(auto)]

pub mod built;
pub mod order;

pub use built::{Compartments, Contributors, Grades};
pub use order::Lattice;
