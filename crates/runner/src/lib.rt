// Running a script over the lots of a bench: it needs no memory but its own.
#![tactic(auto)]

pub mod blocks;
pub mod env;
pub mod evaluate;
pub mod locals;
pub mod machine;
pub mod of_row;
pub mod whole;

pub use whole::run;
