// What a bench holds when it opens: every lot is empty, and nothing is lost.
ghost use Rattle.std.specs.Prelude.{◌≡◌, ◌≤◌, true, map, length};
ghost use Rattle.rules.specs.Pairs.{laid};
ghost use Rattle.rules.specs.Lots.{no_rows};
ghost use Rattle.layout.specs.Pairs.{pair_of};
ghost use Rattle.layout.specs.Plans.{plan_of};
ghost use Rattle.lots.specs.Tables.{lots_in, pairs_in};
ghost use Rattle.lots.specs.Stores.{lots_of, pairs_of, plan_pairs};

use crate::Row;
use crate::lot::Lot;
use crate::store::Store;
use crate::table::Table;
use inplace::ArrayVec;
use layout::{Pair, Plan};

impl Table {
    // Empty lots at the given pairs.
    pub(crate) fn new(pairs: &[Pair]) -> Self
        requires { (laid 0 256 (map pair_of pairs.now) ≡ true) × (length pairs.now ≤ 32) }
        ensures lots { lots_in result ≡ map (λ _. no_rows) pairs.now }
        ensures pairs { pairs_in result ≡ map pair_of pairs.now }
    {
        let nowhere = Pair {
            offset: 0,
            length: 0,
        };
        let mut lots = ArrayVec::new(Lot::new(&nowhere));
        for pair in pairs {
            let _ = lots.push(Lot::new(pair));
        }
        let blank = Row::new(0);
        Table {
            slots: [blank; 256],
            lots,
        }
    }
}

impl Store {
    // The store of a new bench: the lots of a plan, with no row in them.
    pub fn new(plan: &Plan) -> Self
        ensures lots { lots_of result ≡ (λ _ _. no_rows) }
        ensures pairs { pairs_of result ≡ plan_pairs (plan_of plan.now) }
    {
        let unused = Table::new(&[]);
        let mut tables = ArrayVec::new(unused);
        let declared = plan.tables();
        for table in declared {
            let _ = tables.push(Table::new(table.lots()));
        }
        Store { tables }
    }
}
