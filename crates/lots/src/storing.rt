// Writing to the lots of a bench. The pairs stay, and no slot outside the lot is changed.
ghost use Rattle.std.specs.Prelude.{◌≡◌};
ghost use Rattle.rules.specs.Lots.{put_lot};
ghost use Rattle.rules.specs.Evaluation.{drop_rows, alter_rows};
ghost use Rattle.inplace.specs.Held.{held};
ghost use Rattle.lots.specs.Stores.{lots_of, pairs_of, slots_of, row_entered, OnlyInLot};

use crate::Row;
use crate::reading::Reading;
use crate::store::Store;
use layout::LotId;

impl Store {
    // Puts a row in front of a lot, or counts it as lost where the lot is full. Nothing is changed where there is no such
    // lot.
    pub fn add(&mut self, lot: LotId<usize>, row: Row)
        ensures lots { lots_of self.new ≡ row_entered (pairs_of self.old) lot.table lot.vendor (held row) (lots_of self.old) }
        ensures pairs { pairs_of self.new ≡ pairs_of self.old }
        ensures outside { OnlyInLot (pairs_of self.old) lot.table lot.vendor (slots_of self.old) (slots_of self.new) }
    {
        self.tables
            .modify(lot.table, |table| table.enter(lot.vendor, row));
    }

    // Drops the rows of a lot whose condition is not 0; the others keep their order.
    pub fn drop_rows<R: Reading>(&mut self, lot: LotId<usize>, condition: &R)
        ensures lots { lots_of self.new ≡ put_lot (lots_of self.old) lot.table lot.vendor (drop_rows (R.reads condition.now) (lots_of self.old lot.table lot.vendor)) }
        ensures pairs { pairs_of self.new ≡ pairs_of self.old }
        ensures outside { OnlyInLot (pairs_of self.old) lot.table lot.vendor (slots_of self.old) (slots_of self.new) }
    {
        self.tables
            .modify(lot.table, |table| table.drop_rows(lot.vendor, condition));
    }

    // Sets a column in the rows of a lot whose condition is not 0, each from its own old cells. Whoever alters
    // has column, value and condition apart, and each function below hands them on as they are.
    pub fn alter_rows<V: Reading, C: Reading>(
        &mut self,
        lot: LotId<usize>,
        column: usize,
        value: &V,
        condition: &C,
    )
        ensures lots { lots_of self.new ≡ put_lot (lots_of self.old) lot.table lot.vendor (alter_rows column (V.reads value.now) (C.reads condition.now) (lots_of self.old lot.table lot.vendor)) }
        ensures pairs { pairs_of self.new ≡ pairs_of self.old }
        ensures outside { OnlyInLot (pairs_of self.old) lot.table lot.vendor (slots_of self.old) (slots_of self.new) }
    {
        self.tables.modify(
            lot.table,
            |table| table.alter_rows(lot.vendor, column, value, condition),
        );
    }
}
