// The parts of a statement that have no parts of their own kind: an index, a lot, a variable's label.
ghost use Rattle.std.specs.Prelude.{◌≡◌};
ghost use Rattle.grammar.specs.Clauses.{read_index, read_owner, read_table, read_lot, read_label};
ghost use Rattle.grammar.specs.Expressions.{read_column};
ghost use Rattle.layout.specs.Plans.{plan_of};
ghost use Rattle.lexis.specs.Meaning.{text_of, place_of};
ghost use Rattle.script.specs.Nodes.{index_of, mark_of};
ghost use Rattle.clauses.specs.Names.{scope_of};
ghost use Rattle.clauses.specs.Outcomes.{parted, itself, lot_of, is_written};

use crate::names::{Asked, Names};
use crate::steps::{Placed, expect, read_number};
use grammar::{Keyword, Mark, Refusal};
use layout::{HIGHEST_FAMILY, Plan};
use lexis::{Reader, Token};
use script::{Index, Lot, Mark as Label};

// What names and numbers are looked up in: the plan, and the names in scope.
#[derive(Clone, Copy)]
pub struct Scope<'a> {
    pub plan: &'a Plan,
    pub names: Names<'a>,
}

// What a lot is named for: its rows are read, or written.
#[derive(Clone, Copy, PartialEq, Eq)]
pub enum Access {
    Read,
    Write,
}

// An index: a vendor's number, `me`, or a name that stands for a vendor.
pub fn read_index(reader: &mut Reader<'_>, scope: &Scope<'_>) -> Result<Index, Refusal>
    ensures value { parted index_of (place_of reader.new) result ≡ read_index (text_of reader.old) (plan_of scope.now.plan.now) (scope_of scope.now.names) (place_of reader.old) }
    ensures text { text_of reader.new ≡ text_of reader.old }
{
    let found = reader.next()?;
    match found.token {
        Token::Name(value) => {
            let place = found.place;
            let bound = scope.names.use_name(Asked::Index, Placed { value, place })?;
            Ok(Index::Level(bound.level))
        }
        Token::Number { digits: _, value } => {
            if value >= scope.plan.vendors() {
                return Err(Refusal::OutsidePlan(found.place));
            }
            Ok(Index::Number(value))
        }
        token if token.is(Keyword::Me) => Ok(Index::Me),
        _ => Err(Refusal::Unexpected(found.place)),
    }
}

// An index in brackets.
pub(crate) fn read_owner(reader: &mut Reader<'_>, scope: &Scope<'_>) -> Result<Index, Refusal>
    ensures value { parted index_of (place_of reader.new) result ≡ read_owner (text_of reader.old) (plan_of scope.now.plan.now) (scope_of scope.now.names) (place_of reader.old) }
    ensures text { text_of reader.new ≡ text_of reader.old }
{
    expect(reader, Mark::OpenBracket)?;
    let index = read_index(reader, scope)?;
    expect(reader, Mark::CloseBracket)?;
    Ok(index)
}

// A table's number.
pub(crate) fn read_table(
    reader: &mut Reader<'_>,
    scope: &Scope<'_>,
    access: Access,
) -> Result<u32, Refusal>
    ensures value { parted itself (place_of reader.new) result ≡ read_table (text_of reader.old) (plan_of scope.now.plan.now) (scope_of scope.now.names) (is_written access) (place_of reader.old) }
    ensures text { text_of reader.new ≡ text_of reader.old }
{
    let number = read_number(reader)?;
    if number.value as usize >= scope.plan.tables().len() {
        return Err(Refusal::OutsidePlan(number.place));
    }
    if access == Access::Write && scope.names.walk(number.value) {
        return Err(Refusal::WrittenInEach(number.place));
    }
    Ok(number.value)
}

pub fn read_lot(reader: &mut Reader<'_>, scope: &Scope<'_>, access: Access) -> Result<Lot, Refusal>
    ensures value { parted lot_of (place_of reader.new) result ≡ read_lot (text_of reader.old) (plan_of scope.now.plan.now) (scope_of scope.now.names) (is_written access) (place_of reader.old) }
    ensures text { text_of reader.new ≡ text_of reader.old }
{
    expect(reader, Mark::AtSign)?;
    let table = read_table(reader, scope, access)?;
    let owner = read_owner(reader, scope)?;
    Ok(Lot { table, owner })
}

// A variable's label.
pub fn read_label(reader: &mut Reader<'_>, scope: &Scope<'_>) -> Result<Label, Refusal>
    ensures value { parted mark_of (place_of reader.new) result ≡ read_label (text_of reader.old) (plan_of scope.now.plan.now) (scope_of scope.now.names) (place_of reader.old) }
    ensures text { text_of reader.new ≡ text_of reader.old }
{
    let found = reader.next()?;
    match found.token {
        Token::Number { digits: _, value } => {
            if value > HIGHEST_FAMILY {
                return Err(Refusal::OutsidePlan(found.place));
            }
            let owner = read_owner(reader, scope)?;
            Ok(Label::Tag(value, owner))
        }
        token if token.is(Keyword::Open) => Ok(Label::Open),
        _ => Err(Refusal::Unexpected(found.place)),
    }
}

// A column's number, in a table of the plan.
pub fn read_column(reader: &mut Reader<'_>, plan: &Plan, table: usize) -> Result<u32, Refusal>
    ensures value { parted itself (place_of reader.new) result ≡ read_column (text_of reader.old) (plan_of plan.now) table (place_of reader.old) }
    ensures text { text_of reader.new ≡ text_of reader.old }
{
    let number = read_number(reader)?;
    if number.value as usize >= plan.width(table) {
        return Err(Refusal::OutsidePlan(number.place));
    }
    Ok(number.value)
}
