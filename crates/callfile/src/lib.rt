// The call file: a line of bytes is read into a command, and a command is printed as its line.
#![tactic(auto)]

pub mod command;
pub mod fault;
pub mod read;

pub use command::{Command, Declaration, LatticeName};
pub use fault::Fault;
pub use read::read_line;
