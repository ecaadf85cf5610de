// The nodes of a script. A name is its level: how many names were in scope where it was made.
use inplace::ArrayVec;

// The most names in scope.
pub const MOST_NAMES: usize = 16;

// Which vendor is meant: one by its number, the vendor that the script runs for, or the one that an index stands for.
#[derive(Clone, Copy)]
pub enum Index {
    Number(u32),
    Me,
    Level(usize),
}

// The label that a variable is given: the bottom, or the tag of a family and a vendor.
#[derive(Clone, Copy)]
pub enum Mark {
    Open,
    Tag(u32, Index),
}

#[derive(Clone, Copy)]
pub enum Op {
    Plus,
    Minus,
    Min,
    Max,
    Equal,
    Less,
}

// An expression; the parts of an operation are given by their places in the script's list of expressions.
#[derive(Clone, Copy)]
pub enum Expr {
    Literal(u32),
    Mine,
    OfIndex(usize),
    Variable(usize),
    // The level of a cursor, and a column of the row that it stands at.
    Cell(usize, u32),
    Apply(Op, usize, usize),
}

// A lot: its table, and whose it is.
#[derive(Clone, Copy)]
pub struct Lot {
    pub table: u32,
    pub owner: Index,
}

// A statement. Block 0 is the empty one, and block n + 1 begins with the node at n: a number and no `Option`, since the numbers of
// blocks are the measure of every recursion over a script. A statement that can break a flow rule has its
// place, the byte of the text where it starts.
#[derive(Clone, Copy)]
pub enum Stmt {
    Var {
        mark: Mark,
    },
    Set {
        place: usize,
        level: usize,
        value: usize,
    },
    If {
        condition: usize,
        first: usize,
        second: usize,
    },
    When {
        left: Index,
        right: Index,
        first: usize,
        second: usize,
    },
    Vendors {
        body: usize,
    },
    Each {
        lot: Lot,
        body: usize,
    },
    Add {
        place: usize,
        lot: Lot,
        values: ArrayVec<usize, 4>,
    },
    Drop {
        place: usize,
        lot: Lot,
        condition: usize,
    },
    Alter {
        place: usize,
        lot: Lot,
        column: u32,
        value: usize,
        condition: usize,
    },
}

// A statement with the rest of its block.
#[derive(Clone, Copy)]
pub struct Node {
    pub stmt: Stmt,
    pub rest: usize,
}
