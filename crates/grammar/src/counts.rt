// How many statements of a text were begun, and how many atoms were read.
#[derive(Clone, Copy)]
pub struct Counts {
    pub begun: usize,
    pub atoms: usize,
}
