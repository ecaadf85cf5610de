// The statements, by the keyword that each begins with.

#[derive(Clone, Copy)]
pub enum Opening {
    Var,
    Set,
    If,
    When,
    Vendors,
    Each,
    Add,
    Drop,
    Alter,
}
