ghost use Rattle.std.specs.Prelude.{◌≡◌, map, take, slice_index};
ghost use Rattle.layout.specs.Pairs.{pair_of};
ghost use Rattle.layout.specs.Tables.{table_of, declared};

use crate::pair::Pair;
use inplace::ArrayVec;

// A declared table: the family of its rows, the families of its columns, and for each vendor the pair of slots that is
// the vendor's lot.
#[derive(Clone, Copy, PartialEq)]
pub struct Table {
    row: u32,
    columns: ArrayVec<u32, 4>,
    lots: ArrayVec<Pair, 32>,
}

impl Table {
    pub(crate) fn new(row: u32, columns: &[u32], lots: &[Pair]) -> Self
        ensures { table_of result ≡ declared row (take 4 columns.now) (take 32 lots.now) }
    {
        let unused = Pair {
            offset: 0,
            length: 0,
        };
        Table {
            row,
            columns: ArrayVec::from_slice(0, columns),
            lots: ArrayVec::from_slice(unused, lots),
        }
    }

    // The family of the rows.
    pub fn row(&self) -> u32
        ensures { result ≡ (table_of self.now).row }
    {
        self.row
    }

    // The families of the columns.
    pub fn columns(&self) -> &[u32]
        ensures { result.now ≡ (table_of self.now).columns }
    {
        self.columns.as_slice()
    }

    // The family of a column; 0 where there is none, as the rules have it.
    pub fn column(&self, column: usize) -> u32
        ensures { result ≡ slice_index (table_of self.now).columns column }
    {
        self.columns.get_or(column, 0)
    }

    // The lots, one for each vendor.
    pub fn lots(&self) -> &[Pair]
        ensures { map pair_of result.now ≡ (table_of self.now).lots }
    {
        self.lots.as_slice()
    }
}
