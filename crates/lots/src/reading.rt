// What a row is asked for: the condition under which it is dropped or altered, or the value that it gets.
ghost use Rattle.std.specs.Prelude.{◌≡◌, ℕ, List};
ghost use Rattle.inplace.specs.Held.{held};

use crate::Row;

// A number read from the cells of a row. It is a trait and no closure, since clauses name what is read as a function of the
// cells, where the calls of an `Fn` are a relation.
pub trait Reading {
    ghost reads: { Self → List ℕ → ℕ };

    fn value(&self, row: &Row) -> u32
        ensures { result ≡ reads self.now (held row.now) };
}
