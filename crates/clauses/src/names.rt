// The names in scope, held in place.
ghost use Rattle.std.specs.Prelude.{◌≡◌, ◌<◌, true, [], length, Ok, IfOk};
ghost use Rattle.std.specs.Option.{option_map};
ghost use Rattle.grammar.specs.Scopes.{look_up, may_make, use_name, most_names};
ghost use Rattle.grammar.specs.Clauses.{walks, walked};
ghost use Rattle.clauses.specs.Names.{bound_of, bound_result, scope_of, with_name, asks};

use crate::steps::Placed;
use grammar::{NameKind, Refusal};
use inplace::ArrayVec;
use script::MOST_NAMES;

// A name: its letters, which are part of the text, and what it stands for.
#[derive(Clone, Copy)]
pub(crate) struct Name<'a> {
    letters: &'a [u8],
    kind: NameKind,
}

// The names in scope, the newest last.
#[derive(Clone, Copy)]
pub struct Names<'a> {
    list: ArrayVec<Name<'a>, MOST_NAMES>,
}

// What a name stands for, and how many names were in scope where it was made.
#[derive(Clone, Copy)]
pub struct Bound {
    pub kind: NameKind,
    pub level: usize,
}

// What a use of a name asks for. It is no closure, of which a public function has to require that it can be called.
#[derive(Clone, Copy)]
pub enum Asked {
    Variable,
    Index,
    Cursor,
    Value,
}

impl Asked {
    pub(crate) fn allows(self, kind: NameKind) -> bool
        ensures { result ≡ asks self kind }
    {
        matches!(
            (self, kind),
            (Asked::Variable | Asked::Value, NameKind::Variable)
                | (Asked::Index | Asked::Value, NameKind::Index)
                | (Asked::Cursor, NameKind::Cursor(_))
        )
    }
}

// Whether a name is a cursor over a table.
fn goes_through(kind: NameKind, table: u32) -> bool
    ensures { result ≡ walks table kind }
{
    matches!(kind, NameKind::Cursor(own) if own == table as usize)
}

impl<'a> Names<'a> {
    // No name.
    pub fn new() -> Self
        ensures { scope_of result ≡ [] }
    {
        let unused = Name {
            letters: &[],
            kind: NameKind::Variable,
        };
        Names {
            list: ArrayVec::new(unused),
        }
    }

    // One name more; the same names where there is no room for it.
    pub fn with(&self, letters: &'a [u8], kind: NameKind) -> Names<'a>
        ensures { scope_of result ≡ with_name letters.now kind (scope_of self.now) }
    {
        let mut list = self.list;
        let _ = list.push(Name { letters, kind });
        Names { list }
    }

    // What a name stands for.
    pub(crate) fn look_up(&self, word: &[u8]) -> Option<Bound>
        ensures { option_map bound_of result ≡ look_up word.now (scope_of self.now) }
    {
        let names = self.list.as_slice();
        let level = names.iter().rposition(|name| word == name.letters)?;
        let kind = names[level].kind;
        Some(Bound { kind, level })
    }

    // How many names there are.
    fn count(&self) -> usize
        ensures { result ≡ length (scope_of self.now) }
    {
        self.list.len()
    }

    // Whether a cursor over a table is in scope.
    pub(crate) fn walk(&self, table: u32) -> bool
        ensures { result ≡ walked table (scope_of self.now) }
    {
        let names = self.list.as_slice();
        names.iter().any(|name| goes_through(name.kind, table))
    }

    // Whether a name may be made.
    pub fn may_make(&self, word: Placed<&[u8]>) -> Result<(), Refusal>
        ensures value { result ≡ may_make word.entry.place word.entry.value.now (scope_of self.now) }
        ensures room { result ≡ Ok tt → length (scope_of self.now) < most_names }
    {
        if self.look_up(word.value).is_some() {
            return Err(Refusal::NameTaken(word.place));
        }
        if self.count() >= MOST_NAMES {
            return Err(Refusal::LimitPassed(word.place));
        }
        Ok(())
    }

    // What a name is used for.
    pub fn use_name(&self, asked: Asked, word: Placed<&[u8]>) -> Result<Bound, Refusal>
        ensures value { bound_result result ≡ use_name word.entry.place (asks asked) word.entry.value.now (scope_of self.now) }
        ensures kind { IfOk result (λ bound. asks asked bound.kind ≡ true) }
    {
        self.look_up(word.value)
            .filter(|bound| asked.allows(bound.kind))
            .ok_or(Refusal::WrongName(word.place))
    }
}
