// The plan of a bench: the vendor count, the tables, and which slots of each table are whose.
#![tactic(auto)]

pub mod declare;
pub mod lookup;
pub mod lot_id;
pub mod pair;
pub mod plan;
pub mod shape;
pub mod span;
pub mod table;

pub use declare::HIGHEST_FAMILY;
pub use lot_id::LotId;
pub use pair::Pair;
pub use plan::Plan;
pub use rules::Refusal;
pub use span::{Span, keep_the_rule};
pub use table::Table;
