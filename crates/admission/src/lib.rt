// The admission of a text: it is read to a script, its flows are judged and its figure is taken, as the rules say.
#![tactic(auto)]

pub mod admitting;

pub use admitting::{Admitted, admit};
