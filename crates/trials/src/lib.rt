// Trials of the other crates, as tables of cases.
#![tactic(auto)]

mod call_lines;
mod explanations;
mod labels;
mod questions;
#[cfg(test)]
mod small;
