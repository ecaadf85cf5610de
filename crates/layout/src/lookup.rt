// What a plan has at a place. Each is total: where there is no such table or column, the answer says so, or is 0, as the rules
// have it.
ghost use Rattle.std.specs.Prelude.{◌≡◌, ◌≤◌, length, slice_index, MatchOption};
ghost use Rattle.rules.specs.Agreement.{lot_exists};
ghost use Rattle.rules.specs.Lots.{table_at, width};
ghost use Rattle.layout.specs.Tables.{table_of};
ghost use Rattle.layout.specs.Plans.{plan_of};

use crate::lot_id::LotId;
use crate::plan::Plan;
use crate::table::Table;

impl Plan {
    // A table, where there is one.
    pub fn table(&self, table: usize) -> Option<&Table>
        ensures { MatchOption result (length (plan_of self.now).tables ≤ table) (λ t. table_of t.now ≡ table_at (plan_of self.now) table) }
    {
        self.tables().get(table)
    }

    // Whether there is such a lot.
    pub fn has_lot(&self, lot: LotId<u32>) -> bool
        ensures { result ≡ lot_exists (plan_of self.now) lot.table lot.vendor }
    {
        (lot.table as usize) < self.tables().len() && lot.vendor < self.vendors()
    }

    // The family of a table's rows.
    pub fn row_family(&self, table: usize) -> u32
        ensures { result ≡ (table_at (plan_of self.now) table).row }
    {
        self.table(table).map_or(0, |found| found.row())
    }

    // The family of a column.
    pub fn column_family(&self, table: usize, column: usize) -> u32
        ensures { result ≡ slice_index (table_at (plan_of self.now) table).columns column }
    {
        self.table(table).map_or(0, |found| found.column(column))
    }

    // How many columns a table has.
    pub fn width(&self, table: usize) -> usize
        ensures { result ≡ width (plan_of self.now) table }
    {
        self.table(table).map_or(0, |found| found.columns().len())
    }
}
