// Running a block over the lots.
ghost use Rattle.std.specs.Prelude.{◌≡◌, [], length, slice_index_or};
ghost use Rattle.inplace.specs.Held.{held};
ghost use Rattle.lots.specs.Stores.{lots_of};
ghost use Rattle.runner.specs.Values.{block_in};
ghost use Rattle.runner.specs.Standing.{Runs};
ghost use Rattle.runner.specs.Turns.{Turned, Walked};

use crate::env::{Env, Name};
use crate::evaluate::{evaluate, row_of};
use crate::machine::Machine;
use layout::LotId;
use lots::{Row, Store};
use script::{Stmt, Valuation};

// The row of a lot at a place, newest first; one without cells where there is none, as in the rules.
fn row_in(lots: &Store, lot: LotId<usize>, place: usize) -> Row
    ensures { held result ≡ slice_index_or (lots_of lots.now lot.table lot.vendor).rows place [] }
{
    lots.row_at(lot, place).unwrap_or(Row::new(0))
}

impl<'l> Machine<'l> {
    // The turns of `vendors`: one for each vendor.
    #[cycle(run)]
    fn run_vendors(&mut self, env: &Env, body: usize)
        ensures same_reference { self.new.lots.ghost_name ≡ self.old.lots.ghost_name }
        ensures does { Turned env.now (block_in env.now body) env.now.vendors self.old self.new }
    {
        for vendor in 0..env.vendors {
            self.begin();
            let inner = env.with(Name::Index(vendor));
            self.run_block(&inner, body);
        }
    }

    // The turns of `each`: one for each row that the lot has where they begin. They go by place, since the body may write to
    // other lots meanwhile.
    #[cycle(run)]
    fn run_each(&mut self, env: &Env, lot: LotId<usize>, body: usize)
        ensures same_reference { self.new.lots.ghost_name ≡ self.old.lots.ghost_name }
        ensures does { Walked env.now lot.table lot.vendor (block_in env.now body) (length (lots_of self.old.lots.now lot.table lot.vendor).rows) self.old self.new }
    {
        let count = self.lots.count(lot);
        for place in 0..count {
            self.begin();
            let inner = env.with(Name::Cursor(row_in(self.lots, lot, place)));
            self.run_block(&inner, body);
        }
    }

    // Runs a block and what it holds. It is long, since it has an arm for each statement.
    #[cycle(run)]
    pub(crate) fn run_block(&mut self, env: &Env, block: usize)
        ensures same_reference { self.new.lots.ghost_name ≡ self.old.lots.ghost_name }
        ensures does { Runs env.now (block_in env.now block) self.old self.new }
    {
        let Some(node) = env.script.stmt(block) else {
            return;
        };
        match node.stmt {
            Stmt::Var { .. } => {
                self.set_var(env.names.len(), 0);
                let inner = env.with(Name::Variable);
                self.run_block(&inner, node.rest);
            }
            Stmt::Set { level, value, .. } => {
                let x = evaluate(env, &self.locals, value);
                self.set_var(level, x);
                self.run_block(env, node.rest);
            }
            Stmt::If {
                condition,
                first,
                second,
            } => {
                let x = evaluate(env, &self.locals, condition);
                let taken = if x == 0 { second } else { first };
                self.begin();
                self.run_block(env, taken);
                self.run_block(env, node.rest);
            }
            Stmt::When {
                left,
                right,
                first,
                second,
            } => {
                let same = env.whom(left) == env.whom(right);
                let taken = if same { first } else { second };
                self.begin();
                self.run_block(env, taken);
                self.run_block(env, node.rest);
            }
            Stmt::Vendors { body } => {
                self.begin();
                self.run_vendors(env, body);
                self.run_block(env, node.rest);
            }
            Stmt::Each { lot, body } => {
                self.begin();
                self.run_each(env, env.lot(lot), body);
                self.run_block(env, node.rest);
            }
            Stmt::Add { lot, values, .. } => {
                let row = row_of(env, &self.locals, values);
                self.add_row(env.lot(lot), row);
                self.run_block(env, node.rest);
            }
            Stmt::Drop { lot, condition, .. } => {
                self.drop_rows(env, env.lot(lot), condition);
                self.run_block(env, node.rest);
            }
            Stmt::Alter {
                lot,
                column,
                value,
                condition,
                ..
            } => {
                let lot = env.lot(lot);
                self.alter_rows(env, lot, column as usize, value, condition);
                self.run_block(env, node.rest);
            }
        }
    }
}
