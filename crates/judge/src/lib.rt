// Judging a script: whether each of its flows is allowed at every valuation, under any lattice of labels.
#![tactic(auto)]

pub mod broken;
pub mod context;
pub mod flows;
pub mod judging;
pub mod labels;
pub mod name;
pub mod promises;
pub mod report;
pub mod standing;
pub mod whole;

pub use broken::Broken;
pub use context::Context;
pub use promises::explained_flows_are_faults;
pub use whole::{explain, judge, judge_for};
