// What is done to a lot's part of the slots, which is lent on: its rows lie at the front, oldest first.
ghost use Rattle.std.specs.Prelude.{◌≡◌, ◌<◌, ◌≤◌, length, take, slice_set};
ghost use Rattle.inplace.specs.Held.{held};
ghost use Rattle.rules.specs.Evaluation.{drop_rows, alter_rows};
ghost use Rattle.lots.specs.Rows.{newest, lot_of_rows, changed};

use crate::Row;
use crate::reading::Reading;

// Puts a row in front, into the first slot that is free.
pub(crate) fn add(part: &mut [Row], count: usize, row: Row)
    requires { count < length part.old }
    ensures { part.new ≡ slice_set part.old count row }
{
    part[count] = row;
}

// Drops the rows whose condition is not 0: the others move up in their order. Answers how many are left.
pub(crate) fn drop_by<R: Reading>(rows: &mut [Row], condition: &R) -> usize
    ensures rows { newest (take result rows.new) ≡ (drop_rows (R.reads condition.now) (lot_of_rows rows.old)).rows }
    ensures few { result ≤ length rows.old }
{
    // Rows are moved within the slice, which has no `retain`, and there is no heap for another list.
    let mut left = 0;
    for i in 0..rows.len() {
        let row = rows[i];
        if condition.value(&row) == 0 {
            rows[left] = row;
            left += 1;
        }
    }
    left
}

// A row after an alteration: the column is set, from the cells as they were, where the condition is not 0.
fn altered<V: Reading, C: Reading>(row: &Row, column: usize, value: &V, condition: &C) -> Row
    ensures { held result ≡ changed column (V.reads value.now) (C.reads condition.now) (held row.now) }
{
    if condition.value(row) == 0 {
        return *row;
    }
    row.with(column, value.value(row))
}

// Sets a column in the rows whose condition is not 0, each from its own old cells.
pub(crate) fn alter_by<V: Reading, C: Reading>(
    rows: &mut [Row],
    column: usize,
    value: &V,
    condition: &C,
)
    ensures { newest rows.new ≡ (alter_rows column (V.reads value.now) (C.reads condition.now) (lot_of_rows rows.old)).rows }
{
    for row in rows.iter_mut() {
        *row = altered(row, column, value, condition);
    }
}
