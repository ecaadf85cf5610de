// What everything means, as definitions, and what is proved of them. No other crate says it again.
#![tactic(auto)]

pub mod answer;
pub mod pairs;
pub mod promises;
pub mod refusal;

pub use answer::Answer;
pub use refusal::Refusal;
