// Blocks and the statements that have them, by recursion over the statements that may still be begun: their number is the
// measure, which the definitions too keep apart from what a statement is read in.
ghost use Rattle.std.specs.Prelude.{◌≡◌, ◌<◌, IfOk};
ghost use Rattle.rules.specs.Scripts.{Code};
ghost use Rattle.grammar.specs.Statements.{naming, read_block, read_else, two_blocks, read_if, read_when, read_vendors, read_each, read_statement};
ghost use Rattle.grammar.specs.Reading.{begin, most_statements, read_rest};
ghost use Rattle.lexis.specs.Meaning.{meaning, text_of, place_of};
ghost use Rattle.clauses.specs.Names.{scope_of};
ghost use Rattle.reading.specs.Stated.{env_of, stated, Told};
ghost use Rattle.reading.specs.Blocks.{closes, within, going, built, paired, Grew, Paired};

use crate::env::Env;
use crate::nodes::{EMPTY_BLOCK, push_stmt};
use crate::openings::opening_of;
use crate::parser::Parser;
use crate::statements::{read_new_name, read_over};
use clauses::{Access, expect, read_index};
use grammar::{Keyword, Mark, NameKind, Opening, Refusal};
use lexis::Token;
use script::{MOST_STATEMENTS, Node, Stmt};

// What closes that which is read: the brace of a block, or the end of the text. It is no type parameter,
// since no theorem can be stated of a cycle of calls whose functions differ in theirs.
#[derive(Clone, Copy)]
pub(crate) enum Close {
    Brace,
    End,
}

impl Close {
    fn is(self, token: Token<'_>) -> bool
        ensures { result ≡ closes self (meaning token.entry) }
    {
        match self {
            Close::Brace => token.is(Mark::CloseBrace),
            Close::End => matches!(token, Token::End),
        }
    }
}

// Two blocks that were read, by their numbers.
#[derive(Clone, Copy)]
pub(crate) struct Two {
    pub(crate) first: usize,
    pub(crate) second: usize,
}

impl<'a> Parser<'a> {
    // What is left of a block, up to what closes it, where so many statements are left: the block's number.
    #[cycle(blocks)]
    pub(crate) fn read_rest(
        &mut self,
        env: Env<'a>,
        left: usize,
        close: Close,
    ) -> Result<usize, Refusal>
        ensures value { built self.new result ≡ read_rest (text_of self.old.reader) left (closes close) (env_of env.entry) (place_of self.old.reader) self.old.counts }
        ensures text { text_of self.new.reader ≡ text_of self.old.reader }
        ensures grown { Grew self.old self.new result }
    {
        let found = self.reader.next()?;
        if close.is(found.token) {
            return Ok(EMPTY_BLOCK);
        }
        let Some(opening) = opening_of(found.token) else {
            return Err(Refusal::Unexpected(found.place));
        };
        if self.counts.begun >= MOST_STATEMENTS {
            return Err(Refusal::LimitPassed(found.place));
        }
        if left == 0 {
            return Err(Refusal::LimitPassed(found.place));
        }
        self.read_going(env, found.place, left - 1, close, opening)
    }

    // A statement whose keyword was read, and the rest of its block.
    #[cycle(blocks)]
    fn read_going(
        &mut self,
        env: Env<'a>,
        place: usize,
        left: usize,
        close: Close,
        opening: Opening,
    ) -> Result<usize, Refusal>
        requires { self.old.counts.begun < most_statements }
        ensures value { built self.new result ≡ going (text_of self.old.reader) left (closes close) (env_of env.entry) place (place_of self.old.reader) (begin self.old.counts) opening }
        ensures text { text_of self.new.reader ≡ text_of self.old.reader }
        ensures grown { Grew self.old self.new result }
    {
        let mut inner = env;
        self.counts.begun += 1;
        let stmt = self.read_statement(&mut inner, place, left, opening)?;
        let rest = self.read_rest(inner, left, close)?;
        Ok(push_stmt(&mut self.script, Node { stmt, rest }))
    }

    // The statement that a keyword begins, which was read and stands at a place.
    #[cycle(blocks)]
    fn read_statement(
        &mut self,
        env: &mut Env<'a>,
        place: usize,
        left: usize,
        opening: Opening,
    ) -> Result<Stmt, Refusal>
        ensures value { stated self.new (scope_of env.new.scope.names) result ≡ read_statement (within (text_of self.old.reader) left) (text_of self.old.reader) (env_of env.old) place (place_of self.old.reader) self.old.counts opening }
        ensures env { IfOk result (λ _. env_of env.new ≡ naming (env_of env.old) (scope_of env.new.scope.names)) }
        ensures text { text_of self.new.reader ≡ text_of self.old.reader }
        ensures grown { Told self.old self.new result }
    {
        match opening {
            Opening::Var => self.read_var(env),
            Opening::Set => self.read_set(env, place),
            Opening::If => self.read_if(env, left),
            Opening::When => self.read_when(env, left),
            Opening::Vendors => self.read_vendors(env, place, left),
            Opening::Each => self.read_each(env, left),
            Opening::Add => self.read_add(env, place),
            Opening::Drop => self.read_drop(env, place),
            Opening::Alter => self.read_alter(env, place),
        }
    }

    // A block in its braces.
    #[cycle(blocks)]
    fn read_block(&mut self, env: &Env<'a>, left: usize) -> Result<usize, Refusal>
        ensures value { built self.new result ≡ read_block (within (text_of self.old.reader) left) (text_of self.old.reader) (env_of env.now) (place_of self.old.reader) self.old.counts }
        ensures text { text_of self.new.reader ≡ text_of self.old.reader }
        ensures grown { Grew self.old self.new result }
    {
        let brace = expect(&mut self.reader, Mark::OpenBrace)?;
        if env.blocks == 0 {
            return Err(Refusal::LimitPassed(brace.place));
        }
        let deeper = Env {
            blocks: env.blocks - 1,
            ..*env
        };
        self.read_rest(deeper, left, Close::Brace)
    }

    // The block behind `else`, or the empty one where there is no `else`.
    #[cycle(blocks)]
    fn read_else(&mut self, env: &Env<'a>, left: usize) -> Result<usize, Refusal>
        ensures value { built self.new result ≡ read_else (within (text_of self.old.reader) left) (text_of self.old.reader) (env_of env.now) (place_of self.old.reader) self.old.counts }
        ensures text { text_of self.new.reader ≡ text_of self.old.reader }
        ensures grown { Grew self.old self.new result }
    {
        if !self.reader.next_is(Keyword::Else) {
            return Ok(EMPTY_BLOCK);
        }
        expect(&mut self.reader, Keyword::Else)?;
        self.read_block(env, left)
    }

    // Two blocks, of which the second may be left out.
    #[cycle(blocks)]
    fn read_two(&mut self, env: &Env<'a>, left: usize) -> Result<Two, Refusal>
        ensures value { (before : Code → Code → Code → Code) → paired self.new (scope_of env.now.scope.names) before result ≡ two_blocks (within (text_of self.old.reader) left) (text_of self.old.reader) (env_of env.now) before (place_of self.old.reader) self.old.counts }
        ensures text { text_of self.new.reader ≡ text_of self.old.reader }
        ensures grown { Paired self.old self.new result }
    {
        let first = self.read_block(env, left)?;
        let second = self.read_else(env, left)?;
        Ok(Two { first, second })
    }

    #[cycle(blocks)]
    fn read_if(&mut self, env: &Env<'a>, left: usize) -> Result<Stmt, Refusal>
        ensures value { stated self.new (scope_of env.now.scope.names) result ≡ read_if (within (text_of self.old.reader) left) (text_of self.old.reader) (env_of env.now) 0 (place_of self.old.reader) self.old.counts }
        ensures text { text_of self.new.reader ≡ text_of self.old.reader }
        ensures grown { Told self.old self.new result }
    {
        let condition = self.read_value(env)?;
        let two = self.read_two(env, left)?;
        Ok(Stmt::If {
            condition,
            first: two.first,
            second: two.second,
        })
    }

    #[cycle(blocks)]
    fn read_when(&mut self, env: &Env<'a>, left: usize) -> Result<Stmt, Refusal>
        ensures value { stated self.new (scope_of env.now.scope.names) result ≡ read_when (within (text_of self.old.reader) left) (text_of self.old.reader) (env_of env.now) 0 (place_of self.old.reader) self.old.counts }
        ensures text { text_of self.new.reader ≡ text_of self.old.reader }
        ensures grown { Told self.old self.new result }
    {
        let one = read_index(&mut self.reader, &env.scope)?;
        expect(&mut self.reader, Mark::Equals)?;
        let other = read_index(&mut self.reader, &env.scope)?;
        let two = self.read_two(env, left)?;
        Ok(Stmt::When {
            left: one,
            right: other,
            first: two.first,
            second: two.second,
        })
    }

    #[cycle(blocks)]
    fn read_vendors(&mut self, env: &Env<'a>, place: usize, left: usize) -> Result<Stmt, Refusal>
        ensures value { stated self.new (scope_of env.now.scope.names) result ≡ read_vendors (within (text_of self.old.reader) left) (text_of self.old.reader) (env_of env.now) place (place_of self.old.reader) self.old.counts }
        ensures text { text_of self.new.reader ≡ text_of self.old.reader }
        ensures grown { Told self.old self.new result }
    {
        if env.turns == 0 {
            return Err(Refusal::LimitPassed(place));
        }
        let word = read_new_name(&mut self.reader, env)?;
        let turning = Env {
            turns: env.turns - 1,
            ..env.with(word.value, NameKind::Index)
        };
        let body = self.read_block(&turning, left)?;
        Ok(Stmt::Vendors { body })
    }

    #[cycle(blocks)]
    fn read_each(&mut self, env: &Env<'a>, left: usize) -> Result<Stmt, Refusal>
        ensures value { stated self.new (scope_of env.now.scope.names) result ≡ read_each (within (text_of self.old.reader) left) (text_of self.old.reader) (env_of env.now) 0 (place_of self.old.reader) self.old.counts }
        ensures text { text_of self.new.reader ≡ text_of self.old.reader }
        ensures grown { Told self.old self.new result }
    {
        let over = read_over(&mut self.reader, env, Access::Read)?;
        let visiting = env.visit(over.word, over.lot.table);
        let body = self.read_block(&visiting, left)?;
        Ok(Stmt::Each {
            lot: over.lot,
            body,
        })
    }
}
