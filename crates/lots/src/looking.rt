// Reading the lots of a bench. Where there is no such lot, it reads as one with no rows and no room, as the rules have it.
ghost use Rattle.std.specs.Prelude.{◌≡◌, ◌≤◌, [], length, MatchOption, nat_le, slice_index, slice_index_or};
ghost use Rattle.inplace.specs.Held.{held};
ghost use Rattle.lots.specs.Rows.{RowAt};
ghost use Rattle.lots.specs.Stores.{lots_of, pairs_of, room_in, TableOf, NoTable};

use crate::Row;
use crate::store::Store;
use crate::table::Table;
use layout::LotId;

impl Store {
    // A table, where there is one.
    pub(crate) fn table(&self, table: usize) -> Option<&Table>
        ensures { MatchOption result (NoTable self.now table) (λ s. TableOf self.now table s.now) }
    {
        self.tables.as_slice().get(table)
    }

    // How many rows a lot has.
    pub fn count(&self, lot: LotId<usize>) -> usize
        ensures { result ≡ length (lots_of self.now lot.table lot.vendor).rows }
    {
        self.table(lot.table)
            .map_or(0, |found| found.count(lot.vendor))
    }

    // How many rows a lot has lost.
    pub fn lost(&self, lot: LotId<usize>) -> u32
        ensures { result ≡ (lots_of self.now lot.table lot.vendor).lost }
    {
        self.table(lot.table)
            .map_or(0, |found| found.lost(lot.vendor))
    }

    // Whether a lot has no room for a row.
    pub fn is_full(&self, lot: LotId<usize>) -> bool
        ensures { result ≡ nat_le (room_in (pairs_of self.now) lot.table lot.vendor) (length (lots_of self.now lot.table lot.vendor).rows) }
    {
        self.table(lot.table)
            .is_none_or(|found| found.is_full(lot.vendor))
    }

    // The row of a lot at a place, where 0 is the newest.
    pub fn row_at(&self, lot: LotId<usize>, place: usize) -> Option<Row>
        ensures { MatchOption result (length (lots_of self.now lot.table lot.vendor).rows ≤ place) (λ row. RowAt (lots_of self.now lot.table lot.vendor).rows place (held row)) }
    {
        self.table(lot.table)?.row_at(lot.vendor, place)
    }

    // A cell of the row at a place; 0 where there is none.
    pub fn cell(&self, lot: LotId<usize>, place: usize, column: usize) -> u32
        ensures { result ≡ slice_index (slice_index_or (lots_of self.now lot.table lot.vendor).rows place []) column }
    {
        self.row_at(lot, place)
            .map_or(0, |row| row.get_or(column, 0))
    }
}
