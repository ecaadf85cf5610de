ghost use Rattle.std.specs.Prelude.{◌≡◌};
ghost use Rattle.rules.specs.Refusals.{number, place};

use std::fmt;

// Why a call is sent back. From `TextTooLong` on the case holds the place in the script's text, in bytes from 0.
#[derive(Clone, Copy, PartialEq, Eq)]
pub enum Refusal {
    // The vendor count is not 1 to 32.
    VendorCount,
    // The vendor count is set after a table was declared.
    VendorCountFixed,
    // A fifth table is declared.
    TooManyTables,
    // The column families are none or more than 4.
    ColumnCount,
    // A family is above 3.
    FamilyTooHigh,
    // The pairs are not one for each vendor.
    PairCount,
    // A pair starts before the end of the one before it, or ends past the table.
    PairRule,
    // The clearance is no label.
    ClearanceNoLabel,
    // The table is not declared.
    NoSuchTable,
    // The vendor is not below the vendor count.
    NoSuchVendor,
    // The column is not in the table.
    NoSuchColumn,
    // The values are not one for each column.
    ValueCount,
    // What is asked for is not at or below the clearance.
    NotCleared,
    // The lot has no row at that place.
    NoSuchRow,
    // The posted lot is full.
    LotFull,
    // The slot is above 3.
    NoSuchSlot,
    // The slot holds no script.
    SlotEmpty,
    // The text has more than 2,048 bytes.
    TextTooLong(usize),
    // No token can be read here.
    NoToken(usize),
    // The grammar has no such token here, or the text ends too soon.
    Unexpected(usize),
    // The name is unknown or of the wrong kind.
    WrongName(usize),
    // The name is already in scope.
    NameTaken(usize),
    // A family is above 3, or a table, column or index number is outside the plan.
    OutsidePlan(usize),
    // `add` has too many expressions or too few.
    ExpressionCount(usize),
    // A table is written inside an `each` over it.
    WrittenInEach(usize),
    // A limit on nesting, names in scope, statements or atoms is passed.
    LimitPassed(usize),
    // A flow is not allowed.
    FlowNotAllowed(usize),
    // The figure is above 1,000,000.
    FigureTooHigh(usize),
}

impl Refusal {
    // Its number, from 1 to 28.
    pub fn number(&self) -> u32
        ensures { result ≡ number self.now }
    {
        match self {
            Refusal::VendorCount => 1,
            Refusal::VendorCountFixed => 2,
            Refusal::TooManyTables => 3,
            Refusal::ColumnCount => 4,
            Refusal::FamilyTooHigh => 5,
            Refusal::PairCount => 6,
            Refusal::PairRule => 7,
            Refusal::ClearanceNoLabel => 8,
            Refusal::NoSuchTable => 9,
            Refusal::NoSuchVendor => 10,
            Refusal::NoSuchColumn => 11,
            Refusal::ValueCount => 12,
            Refusal::NotCleared => 13,
            Refusal::NoSuchRow => 14,
            Refusal::LotFull => 15,
            Refusal::NoSuchSlot => 16,
            Refusal::SlotEmpty => 17,
            Refusal::TextTooLong(_) => 18,
            Refusal::NoToken(_) => 19,
            Refusal::Unexpected(_) => 20,
            Refusal::WrongName(_) => 21,
            Refusal::NameTaken(_) => 22,
            Refusal::OutsidePlan(_) => 23,
            Refusal::ExpressionCount(_) => 24,
            Refusal::WrittenInEach(_) => 25,
            Refusal::LimitPassed(_) => 26,
            Refusal::FlowNotAllowed(_) => 27,
            Refusal::FigureTooHigh(_) => 28,
        }
    }

    // The place in the script's text, which the numbers from 18 on bring.
    pub fn place(&self) -> Option<usize>
        ensures { result ≡ place self.now }
    {
        match self {
            Refusal::TextTooLong(at)
            | Refusal::NoToken(at)
            | Refusal::Unexpected(at)
            | Refusal::WrongName(at)
            | Refusal::NameTaken(at)
            | Refusal::OutsidePlan(at)
            | Refusal::ExpressionCount(at)
            | Refusal::WrittenInEach(at)
            | Refusal::LimitPassed(at)
            | Refusal::FlowNotAllowed(at)
            | Refusal::FigureTooHigh(at) => Some(*at),
            _ => None,
        }
    }
}

// Its words, without the place.
impl fmt::Display for Refusal {
    fn fmt<W: fmt::Write>(&self, f: &mut fmt::Formatter<W>) -> fmt::Result {
        let words = match self {
            Refusal::VendorCount => "the vendor count is not 1 to 32",
            Refusal::VendorCountFixed => "the vendor count is set after a table was declared",
            Refusal::TooManyTables => "there are four tables already",
            Refusal::ColumnCount => "the column families are not one to four",
            Refusal::FamilyTooHigh => "a family is above 3",
            Refusal::PairCount => "the pairs are not one for each vendor",
            Refusal::PairRule =>
                "a pair starts before the end of the one before, or ends past slot 256",
            Refusal::ClearanceNoLabel => "the clearance is no label",
            Refusal::NoSuchTable => "the table is not declared",
            Refusal::NoSuchVendor => "the vendor is not below the vendor count",
            Refusal::NoSuchColumn => "the column is not in the table",
            Refusal::ValueCount => "the values are not one for each column",
            Refusal::NotCleared => "the clearance is not high enough",
            Refusal::NoSuchRow => "the lot has no row at that place",
            Refusal::LotFull => "the lot is full",
            Refusal::NoSuchSlot => "the slot is above 3",
            Refusal::SlotEmpty => "the slot is empty",
            Refusal::TextTooLong(_) => "the text has more than 2048 bytes",
            Refusal::NoToken(_) => "no token can be read here",
            Refusal::Unexpected(_) =>
                "the grammar has no such token here, or the text ends too soon",
            Refusal::WrongName(_) => "the name is unknown or of the wrong kind",
            Refusal::NameTaken(_) => "the name is already in scope",
            Refusal::OutsidePlan(_) =>
                "a family, table, column or index number is outside the plan",
            Refusal::ExpressionCount(_) => "the expressions of add are not one for each column",
            Refusal::WrittenInEach(_) => "the table is written inside an each over it",
            Refusal::LimitPassed(_) => "a limit on nesting, names, statements or atoms is passed",
            Refusal::FlowNotAllowed(_) => "a flow is not allowed",
            Refusal::FigureTooHigh(_) => "the figure is above 1000000",
        };
        f.write_str(words)
    }
}
