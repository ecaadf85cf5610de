// Writing to a lot: no slot outside it is changed.
ghost use Rattle.std.specs.Prelude.{◌≡◌, slice_set};
ghost use Rattle.inplace.specs.Held.{held};
ghost use Rattle.rules.specs.Pairs.{pair_at};
ghost use Rattle.rules.specs.Lots.{enter_row};
ghost use Rattle.rules.specs.Evaluation.{drop_rows, alter_rows};
ghost use Rattle.lots.specs.Lots.{lot_at, OnlyIn};
ghost use Rattle.lots.specs.Tables.{lots_in, pairs_in};

use crate::Row;
use crate::part::{add, alter_by, drop_by};
use crate::reading::Reading;
use crate::table::Table;

impl Table {
    // Puts a row in front of a lot, or counts it as lost where the lot is full.
    pub(crate) fn enter(&mut self, vendor: usize, row: Row)
        ensures lots { lots_in self.new ≡ slice_set (lots_in self.old) vendor (enter_row (pair_at (pairs_in self.old) vendor).length (held row) (lot_at (lots_in self.old) vendor)) }
        ensures pairs { pairs_in self.new ≡ pairs_in self.old }
        ensures outside { OnlyIn (pair_at (pairs_in self.old) vendor) self.old.slots self.new.slots }
    {
        let Some(mut lot) = self.lots.get(vendor) else {
            return;
        };
        if lot.is_full() {
            lot.lost = lot.lost.saturating_add(1);
            self.lots.set(vendor, lot);
            return;
        }
        add(&mut self.slots[lot.all()], lot.count, row);
        lot.count += 1;
        self.lots.set(vendor, lot);
    }

    // Drops the rows of a lot whose condition is not 0.
    pub(crate) fn drop_rows<R: Reading>(&mut self, vendor: usize, condition: &R)
        ensures lots { lots_in self.new ≡ slice_set (lots_in self.old) vendor (drop_rows (R.reads condition.now) (lot_at (lots_in self.old) vendor)) }
        ensures pairs { pairs_in self.new ≡ pairs_in self.old }
        ensures outside { OnlyIn (pair_at (pairs_in self.old) vendor) self.old.slots self.new.slots }
    {
        let Some(mut lot) = self.lots.get(vendor) else {
            return;
        };
        lot.count = drop_by(&mut self.slots[lot.in_use()], condition);
        self.lots.set(vendor, lot);
    }

    // Sets a column in the rows of a lot whose condition is not 0.
    pub(crate) fn alter_rows<V: Reading, C: Reading>(
        &mut self,
        vendor: usize,
        column: usize,
        value: &V,
        condition: &C,
    )
        ensures lots { lots_in self.new ≡ slice_set (lots_in self.old) vendor (alter_rows column (V.reads value.now) (C.reads condition.now) (lot_at (lots_in self.old) vendor)) }
        ensures pairs { pairs_in self.new ≡ pairs_in self.old }
        ensures outside { OnlyIn (pair_at (pairs_in self.old) vendor) self.old.slots self.new.slots }
    {
        if let Some(lot) = self.lots.get(vendor) {
            alter_by(&mut self.slots[lot.in_use()], column, value, condition);
        }
    }
}
