// Calls as values: lists of calls, when two of them agree at a label, which answers are heard there, and whether two plans
// or two lists of answers are the same.
#![tactic(auto)]

pub mod agreement;
pub mod call;
pub mod hearing;
pub mod sameness;
pub mod told;

pub use call::Call;
pub use hearing::Listener;
pub use sameness::{same_answers, same_plan};
