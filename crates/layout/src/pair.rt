ghost use Rattle.layout.specs.Pairs.{pair_of};

use crate::span::Span;

// A run of slots of a table: `length` of them, from `offset` on.
#[derive(Clone, Copy, PartialEq, Eq)]
pub struct Pair {
    pub offset: u32,
    pub length: u32,
}

impl Span for Pair {
    ghost pair = { pair_of };

    fn offset(&self) -> u32 {
        self.offset
    }

    fn length(&self) -> u32 {
        self.length
    }
}
