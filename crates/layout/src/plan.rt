ghost use Rattle.std.specs.Prelude.{◌≡◌, true};
ghost use Rattle.rules.specs.Plans.{sound};
ghost use Rattle.layout.specs.Tables.{laid_out};

use crate::table::Table;
use inplace::ArrayVec;

// The plan of a bench. It keeps the rule of pairs and every limit, whatever calls are made on it.
#[derive(PartialEq, Drop)]
pub struct Plan {
    pub(crate) vendors: u32,
    pub(crate) tables: ArrayVec<Table, 4>,
    ghost kept: { sound (laid_out vendors tables) ≡ true },
}
