// Reading a lot. Where there is none it has no rows and no room, as the rules have it.
ghost use Rattle.std.specs.Prelude.{◌≡◌, ◌≤◌, length, MatchOption, nat_le};
ghost use Rattle.inplace.specs.Held.{held};
ghost use Rattle.rules.specs.Pairs.{pair_at};
ghost use Rattle.lots.specs.Rows.{RowAt};
ghost use Rattle.lots.specs.Lots.{lot_at};
ghost use Rattle.lots.specs.Tables.{lots_in, pairs_in};

use crate::Row;
use crate::table::Table;

impl Table {
    // How many rows a lot has.
    pub(crate) fn count(&self, vendor: usize) -> usize
        ensures { result ≡ length (lot_at (lots_in self.now) vendor).rows }
    {
        self.lots.get(vendor).map_or(0, |lot| lot.count)
    }

    // How many rows a lot has lost.
    pub(crate) fn lost(&self, vendor: usize) -> u32
        ensures { result ≡ (lot_at (lots_in self.now) vendor).lost }
    {
        self.lots.get(vendor).map_or(0, |lot| lot.lost)
    }

    // Whether a lot has no room for a row.
    pub(crate) fn is_full(&self, vendor: usize) -> bool
        ensures { result ≡ nat_le (pair_at (pairs_in self.now) vendor).length (length (lot_at (lots_in self.now) vendor).rows) }
    {
        self.lots.get(vendor).is_none_or(|lot| lot.is_full())
    }

    // The row at a place, where 0 is the newest.
    pub(crate) fn row_at(&self, vendor: usize, place: usize) -> Option<Row>
        ensures { MatchOption result (length (lot_at (lots_in self.now) vendor).rows ≤ place) (λ row. RowAt (lot_at (lots_in self.now) vendor).rows place (held row)) }
    {
        let lot = self.lots.get(vendor)?;
        if place >= lot.count {
            return None;
        }
        Some(self.slots[lot.offset + (lot.count - 1 - place)])
    }
}
