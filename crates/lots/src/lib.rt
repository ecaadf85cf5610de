// The rows of a bench, in the slots of its tables: everything is held in place, so no call can want for memory.
//
// A `Row` lies in a slot. A lot's part of the slots is lent to the functions of `part`, which write there; a `Table` has
// the slots and the lots of one table, and a `Store` has the tables of a bench.
#![tactic(auto)]

pub mod looking;
pub mod lot;
pub mod opening;
pub mod part;
pub mod promises;
pub mod reading;
pub mod reads;
pub mod store;
pub mod storing;
pub mod table;
pub mod writes;

use inplace::ArrayVec;
pub use promises::{lots_are_those_of_the_plan, lots_keep_to_their_room, rows_keep_their_width};
pub use reading::Reading;
pub use store::Store;

// A row has up to four cells.
pub type Row = ArrayVec<u32, 4>;
