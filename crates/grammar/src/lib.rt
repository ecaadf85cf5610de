// How a script's text is read, as definitions, and what is proved of them. No other crate says it again.
#![tactic(auto)]

pub mod counts;
pub mod keywords;
pub mod marks;
pub mod openings;
pub mod reading;
pub mod readings;
pub mod scopes;
pub mod tokens;

pub use counts::Counts;
pub use keywords::Keyword;
pub use marks::Mark;
pub use openings::Opening;
pub use rules::Refusal;
pub use scopes::NameKind;
