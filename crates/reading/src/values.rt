// The statement `add`, by recursion over the expressions still due.
ghost use Rattle.std.specs.Prelude.{◌≡◌, ◌+◌, ◌-◌, ◌<◌, true, map, length};
ghost use Rattle.inplace.specs.Held.{held};
ghost use Rattle.rules.specs.Lots.{width};
ghost use Rattle.grammar.specs.Statements.{read_values, read_add};
ghost use Rattle.layout.specs.Plans.{plan_of};
ghost use Rattle.lexis.specs.Meaning.{text_of, place_of};
ghost use Rattle.script.specs.Nodes.{expr_at};
ghost use Rattle.script.specs.Ordered.{all_below};
ghost use Rattle.script.specs.Meaning.{exprs_of};
ghost use Rattle.clauses.specs.Names.{scope_of};
ghost use Rattle.reading.specs.Stated.{env_of, stated, Told};
ghost use Rattle.reading.specs.Added.{valued, Added};

use crate::env::Env;
use crate::parser::Parser;
use crate::statements::MOST_PARENS;
use clauses::{Access, Scope, expect, read_lot};
use grammar::{Mark, Refusal};
use inplace::ArrayVec;
use layout::Plan;
use script::Stmt;

impl<'a> Parser<'a> {
    // One expression and so many more, up to the closing parenthesis; their places join those of the expressions before.
    fn read_values(
        &mut self,
        scope: &Scope<'a>,
        more: usize,
        values: &mut ArrayVec<usize, 4>,
    ) -> Result<(), Refusal>
        requires inside { all_below (length (exprs_of self.old.script)) (held values.old) ≡ true }
        requires room { length (held values.old) + more < 4 }
        ensures value { valued self.new (held values.new) result ≡ read_values (text_of self.old.reader) (plan_of scope.now.plan.now) (scope_of scope.now.names) more (map (expr_at (exprs_of self.old.script)) (held values.old)) (place_of self.old.reader) self.old.counts.atoms }
        ensures text { text_of self.new.reader ≡ text_of self.old.reader }
        ensures grown { Added self.old self.new (held values.new) result }
    {
        let value = self.read_expr(scope, MOST_PARENS)?;
        let found = self.reader.next()?;
        let _ = values.push(value);
        match found.token {
            token if token.is(Mark::Comma) => {
                if more == 0 {
                    return Err(Refusal::ExpressionCount(found.place));
                }
                self.read_values(scope, more - 1, values)
            }
            token if token.is(Mark::CloseParen) => {
                if more != 0 {
                    return Err(Refusal::ExpressionCount(found.place));
                }
                Ok(())
            }
            _ => Err(Refusal::Unexpected(found.place)),
        }
    }

    #[tactic(auto, using(crate::proofs::Grows::some_block))]
    pub(crate) fn read_add(&mut self, env: &Env<'a>, place: usize) -> Result<Stmt, Refusal>
        ensures value { stated self.new (scope_of env.now.scope.names) result ≡ read_add (text_of self.old.reader) (env_of env.now) place (place_of self.old.reader) self.old.counts }
        ensures text { text_of self.new.reader ≡ text_of self.old.reader }
        ensures grown { Told self.old self.new result }
    {
        let lot = read_lot(&mut self.reader, &env.scope, Access::Write)?;
        expect(&mut self.reader, Mark::OpenParen)?;
        let mut values = ArrayVec::new(0);
        let more = further_columns(env.scope.plan, lot.table);
        self.read_values(&env.scope, more, &mut values)?;
        expect(&mut self.reader, Mark::Semicolon)?;
        Ok(Stmt::Add { place, lot, values })
    }
}

// How many columns a table has behind its first.
fn further_columns(plan: &Plan, table: u32) -> usize
    ensures value { result ≡ width (plan_of plan.now) table - 1 }
    ensures few { result < 4 }
{
    plan.width(table as usize).saturating_sub(1)
}
