ghost use Rattle.std.specs.Prelude.{◌≡◌, true, length, map};
ghost use Rattle.inplace.specs.Held.{held};
ghost use Rattle.rules.specs.Pairs.{laid};
ghost use Rattle.lots.specs.Lots.{span_of};

use crate::Row;
use crate::lot::Lot;
use inplace::ArrayVec;

// The slots of one table, all in place since nothing is allocated, and the lots of its vendors. The lots keep the rule of pairs, whatever is written.
#[derive(Clone, Copy)]
pub struct Table {
    pub(crate) slots: [Row; 256],
    pub(crate) lots: ArrayVec<Lot, 32>,
    ghost whole: { length slots ≡ 256 },
    ghost kept: { laid 0 256 (map span_of (held lots)) ≡ true },
}
