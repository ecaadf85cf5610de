// The statements that have no blocks.
ghost use Rattle.std.specs.Prelude.{◌≡◌, ◌<◌, length, IfOk};
ghost use Rattle.grammar.specs.Scopes.{most_names};
ghost use Rattle.grammar.specs.Statements.{naming, read_target, read_change, new_name, read_value, read_where, read_over, read_var, read_set, read_drop, read_alter};
ghost use Rattle.lexis.specs.Meaning.{text_of, place_of};
ghost use Rattle.clauses.specs.Names.{scope_of};
ghost use Rattle.clauses.specs.Outcomes.{seen, letters, is_written};
ghost use Rattle.reading.specs.Terms.{termed, Grown};
ghost use Rattle.reading.specs.Stated.{env_of, target_of, changed, Changed, over_of, stated, Told};

use crate::env::Env;
use crate::parser::Parser;
use clauses::{Access, Asked, Lot, Placed, expect, read_column, read_label, read_lot, read_name};
use grammar::{Keyword, Mark, NameKind, Refusal};
use lexis::Reader;
use script::Stmt;

pub(crate) const MOST_PARENS: usize = 8;

// A new name for the rows of a lot.
#[derive(Clone, Copy)]
pub(crate) struct Over<'a> {
    pub(crate) word: &'a [u8],
    pub(crate) lot: Lot,
}

// What an `alter` changes: the rows of a lot, under a name, and their column.
#[derive(Clone, Copy)]
pub(crate) struct Target<'a> {
    pub(crate) word: &'a [u8],
    pub(crate) lot: Lot,
    pub(crate) column: u32,
}

// Its value and its condition, by their places among the script's expressions.
#[derive(Clone, Copy)]
pub(crate) struct Change {
    pub(crate) value: usize,
    pub(crate) condition: usize,
}

// A new name, which may be made.
pub(crate) fn read_new_name<'a>(
    reader: &mut Reader<'a>,
    env: &Env<'a>,
) -> Result<Placed<&'a [u8]>, Refusal>
    ensures value { seen letters (place_of reader.new) result ≡ new_name (text_of reader.old) (env_of env.now) (place_of reader.old) }
    ensures room { IfOk result (λ _. length (scope_of env.now.scope.names) < most_names) }
    ensures text { text_of reader.new ≡ text_of reader.old }
{
    let word = read_name(reader)?;
    env.scope.names.may_make(word)?;
    Ok(word)
}

// A new name and a lot, with `in` between them.
pub(crate) fn read_over<'a>(
    reader: &mut Reader<'a>,
    env: &Env<'a>,
    access: Access,
) -> Result<Over<'a>, Refusal>
    ensures value { over_of (place_of reader.new) result ≡ read_over (text_of reader.old) (env_of env.now) (is_written access) (place_of reader.old) }
    ensures room { IfOk result (λ _. length (scope_of env.now.scope.names) < most_names) }
    ensures text { text_of reader.new ≡ text_of reader.old }
{
    let word = read_new_name(reader, env)?;
    expect(reader, Keyword::In)?;
    let lot = read_lot(reader, &env.scope, access)?;
    Ok(Over {
        word: word.value,
        lot,
    })
}

// What an `alter` changes, up to the equals sign.
fn read_target<'a>(reader: &mut Reader<'a>, env: &Env<'a>) -> Result<Target<'a>, Refusal>
    ensures value { target_of (place_of reader.new) result ≡ read_target (text_of reader.old) (env_of env.now) (place_of reader.old) }
    ensures room { IfOk result (λ _. length (scope_of env.now.scope.names) < most_names) }
    ensures text { text_of reader.new ≡ text_of reader.old }
{
    let over = read_over(reader, env, Access::Write)?;
    expect(reader, Mark::Dot)?;
    let column = read_column(reader, env.scope.plan, over.lot.table as usize)?;
    expect(reader, Mark::Equals)?;
    Ok(Target {
        word: over.word,
        lot: over.lot,
        column,
    })
}

impl<'a> Parser<'a> {
    // The variable is in scope from the semicolon on.
    #[tactic(auto, using(crate::proofs::Grows::some_block))]
    pub(crate) fn read_var(&mut self, env: &mut Env<'a>) -> Result<Stmt, Refusal>
        ensures value { stated self.new (scope_of env.new.scope.names) result ≡ read_var (text_of self.old.reader) (env_of env.old) 0 (place_of self.old.reader) self.old.counts }
        ensures env { IfOk result (λ _. env_of env.new ≡ naming (env_of env.old) (scope_of env.new.scope.names)) }
        ensures text { text_of self.new.reader ≡ text_of self.old.reader }
        ensures grown { Told self.old self.new result }
    {
        let word = read_new_name(&mut self.reader, env)?;
        expect(&mut self.reader, Keyword::At)?;
        let mark = read_label(&mut self.reader, &env.scope)?;
        expect(&mut self.reader, Mark::Semicolon)?;
        *env = env.with(word.value, NameKind::Variable);
        Ok(Stmt::Var { mark })
    }

    // An expression of a statement.
    pub(crate) fn read_value(&mut self, env: &Env<'a>) -> Result<usize, Refusal>
        ensures value { termed self.new result ≡ read_value (text_of self.old.reader) (env_of env.now) (place_of self.old.reader) self.old.counts }
        ensures text { text_of self.new.reader ≡ text_of self.old.reader }
        ensures grown { Grown self.old self.new result }
    {
        self.read_expr(&env.scope, MOST_PARENS)
    }

    #[tactic(auto, using(crate::proofs::Grows::some_block))]
    pub(crate) fn read_set(&mut self, env: &Env<'a>, place: usize) -> Result<Stmt, Refusal>
        ensures value { stated self.new (scope_of env.now.scope.names) result ≡ read_set (text_of self.old.reader) (env_of env.now) place (place_of self.old.reader) self.old.counts }
        ensures text { text_of self.new.reader ≡ text_of self.old.reader }
        ensures grown { Told self.old self.new result }
    {
        let word = read_name(&mut self.reader)?;
        let bound = env.scope.names.use_name(Asked::Variable, word)?;
        expect(&mut self.reader, Mark::Equals)?;
        let value = self.read_value(env)?;
        expect(&mut self.reader, Mark::Semicolon)?;
        Ok(Stmt::Set {
            place,
            level: bound.level,
            value,
        })
    }

    // A condition behind `where`.
    fn read_where(&mut self, env: &Env<'a>) -> Result<usize, Refusal>
        ensures value { termed self.new result ≡ read_where (text_of self.old.reader) (env_of env.now) (place_of self.old.reader) self.old.counts }
        ensures text { text_of self.new.reader ≡ text_of self.old.reader }
        ensures grown { Grown self.old self.new result }
    {
        expect(&mut self.reader, Keyword::Where)?;
        self.read_value(env)
    }

    #[tactic(auto, using(crate::proofs::Grows::some_block))]
    pub(crate) fn read_drop(&mut self, env: &Env<'a>, place: usize) -> Result<Stmt, Refusal>
        ensures value { stated self.new (scope_of env.now.scope.names) result ≡ read_drop (text_of self.old.reader) (env_of env.now) place (place_of self.old.reader) self.old.counts }
        ensures text { text_of self.new.reader ≡ text_of self.old.reader }
        ensures grown { Told self.old self.new result }
    {
        let over = read_over(&mut self.reader, env, Access::Write)?;
        let inner = env.visit(over.word, over.lot.table);
        let condition = self.read_where(&inner)?;
        expect(&mut self.reader, Mark::Semicolon)?;
        Ok(Stmt::Drop {
            place,
            lot: over.lot,
            condition,
        })
    }

    // The value and the condition of an `alter`.
    fn read_change(&mut self, env: &Env<'a>) -> Result<Change, Refusal>
        ensures value { changed self.new result ≡ read_change (text_of self.old.reader) (env_of env.now) (place_of self.old.reader) self.old.counts }
        ensures text { text_of self.new.reader ≡ text_of self.old.reader }
        ensures grown { Changed self.old self.new result }
    {
        let value = self.read_value(env)?;
        let condition = self.read_where(env)?;
        Ok(Change { value, condition })
    }

    #[tactic(auto, using(crate::proofs::Grows::some_block))]
    pub(crate) fn read_alter(&mut self, env: &Env<'a>, place: usize) -> Result<Stmt, Refusal>
        ensures value { stated self.new (scope_of env.now.scope.names) result ≡ read_alter (text_of self.old.reader) (env_of env.now) place (place_of self.old.reader) self.old.counts }
        ensures text { text_of self.new.reader ≡ text_of self.old.reader }
        ensures grown { Told self.old self.new result }
    {
        let target = read_target(&mut self.reader, env)?;
        let inner = env.visit(target.word, target.lot.table);
        let change = self.read_change(&inner)?;
        expect(&mut self.reader, Mark::Semicolon)?;
        Ok(Stmt::Alter {
            place,
            lot: target.lot,
            column: target.column,
            value: change.value,
            condition: change.condition,
        })
    }
}
