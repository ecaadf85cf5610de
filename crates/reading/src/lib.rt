// Reads a script's text over a plan.
#![tactic(auto)]

mod blocks;
mod env;
mod expressions;
mod nodes;
mod openings;
mod parser;
mod statements;
mod values;
pub mod whole;

pub use whole::read;
