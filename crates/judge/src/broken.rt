use inplace::ArrayVec;

// A flow that is not allowed: what is wrong with it, and a valuation at which it is.
#[derive(Clone, Copy, PartialEq)]
pub struct Broken {
    // Where its statement starts in the text.
    pub place: usize,
    // The label that flows, and the one that it is held against and is not at or below.
    pub flowing: u64,
    pub limit: u64,
    // The vendor that the script runs for.
    pub me: u32,
    // The vendor that each index in scope at the statement stands for, the oldest index first.
    pub indexes: ArrayVec<u32, 64>,
}
