use crate::table::Table;
use inplace::ArrayVec;

// The rows of a bench, table by table. It holds all that they will ever need in place. Clauses see three things of it, the
// lots, their pairs and the slots, and so no one view.
#[derive(Drop)]
pub struct Store {
    pub(crate) tables: ArrayVec<Table, 4>,
}
