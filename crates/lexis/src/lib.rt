// Reads a text's tokens where they stand. The text is never copied: a token holds its part of it.
#![tactic(auto)]

mod classes;
mod keywords;
mod marks;
mod numbers;
pub mod reader;
pub mod token;

pub use reader::Reader;
pub use token::{Found, Token, Wanted};
