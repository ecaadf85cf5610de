ghost use Rattle.std.specs.Prelude.{◌≡◌, ◌+◌, ◌≤◌, nat_le};
ghost use Rattle.rules.specs.Pairs.{end};
ghost use Rattle.layout.specs.Pairs.{pair_of};

use layout::Pair;
use std::ops::Range;

// A vendor's part of a table: `length` slots from `offset` on. Rows lie in the first `count` of them, oldest first, and
// `lost` rows found no room. The slots are the table's, so a lot has a count of its rows and no list.
#[derive(Clone, Copy)]
pub struct Lot {
    pub(crate) offset: usize,
    pub(crate) length: usize,
    pub(crate) count: usize,
    pub(crate) lost: u32,
    ghost inside: { offset + length ≤ 256 },
    ghost fits: { count ≤ length },
}

impl Lot {
    ghost use Rattle.lots.specs.Lots.{span_of};

    // A lot with no row, at a pair.
    pub(crate) fn new(pair: &Pair) -> Self
        requires { end (pair_of pair.now) ≤ 256 }
        ensures span { span_of result ≡ pair_of pair.now }
        ensures empty { (result.count ≡ 0) × (result.lost ≡ 0) }
    {
        Lot {
            offset: pair.offset as usize,
            length: pair.length as usize,
            count: 0,
            lost: 0,
        }
    }

    pub(crate) fn is_full(&self) -> bool
        ensures { result ≡ nat_le self.now.length self.now.count }
    {
        self.length <= self.count
    }

    // All its slots.
    pub(crate) fn all(&self) -> Range<usize>
        ensures start { result.start ≡ self.now.offset }
        ensures end { result.end ≡ self.now.offset + self.now.length }
    {
        self.offset..self.offset + self.length
    }

    // The slots in which rows lie.
    pub(crate) fn in_use(&self) -> Range<usize>
        ensures start { result.start ≡ self.now.offset }
        ensures end { result.end ≡ self.now.offset + self.now.count }
    {
        self.offset..self.offset + self.count
    }
}
