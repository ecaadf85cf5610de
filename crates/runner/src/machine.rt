// What a run changes, and what the statements without a block do, each with its steps.
ghost use Rattle.std.specs.Prelude.{◌≡◌, true};
ghost use Rattle.inplace.specs.Held.{held};
ghost use Rattle.rules.specs.Plans.{Plan};
ghost use Rattle.rules.specs.Scoping.{nameable};
ghost use Rattle.rules.specs.Evaluation.{State, do_set, do_add, do_drop, do_alter, count_steps};
ghost use Rattle.runner.specs.Values.{row_value};
ghost use Rattle.runner.specs.Standing.{Stands, Does, LotThere};

use crate::env::Env;
use crate::locals::Locals;
use crate::of_row::OfRow;
use layout::LotId;
use lots::{Row, Store};

// What a run changes: its own variables and steps, and the lots of the bench.
// That the lots stay the same reference speaks of a machine before and after, so each method says it.
#[derive(Drop)]
pub(crate) struct Machine<'l> {
    pub(crate) locals: Locals,
    pub(crate) lots: &'l mut Store,
}

impl<'l> Machine<'l> {
    // Begins a statement or a turn: one step.
    pub(crate) fn begin(&mut self)
        ensures same_reference { self.new.lots.ghost_name ≡ self.old.lots.ghost_name }
        ensures does { Does self.old self.new (count_steps 1) }
    {
        self.locals.count(1);
    }

    // Sets a variable, or begins it.
    pub(crate) fn set_var(&mut self, level: usize, value: u32)
        ensures same_reference { self.new.lots.ghost_name ≡ self.old.lots.ghost_name }
        ensures does { nameable level ≡ true → Does self.old self.new (do_set level value) }
    {
        self.locals.count(1);
        self.locals.put(level, value);
    }

    // Adds a row to a lot.
    pub(crate) fn add_row(&mut self, lot: LotId<usize>, row: Row)
        ensures same_reference { self.new.lots.ghost_name ≡ self.old.lots.ghost_name }
        ensures does { (plan : Plan) (st : State) → LotThere plan lot.table lot.vendor → Stands plan self.old st → Stands plan self.new (do_add plan lot.table lot.vendor (held row) st) }
    {
        self.locals.count(1);
        self.lots.add(lot, row);
    }

    // Drops the rows of a lot for which an expression is not 0.
    pub(crate) fn drop_rows(&mut self, env: &Env, lot: LotId<usize>, condition: usize)
        ensures same_reference { self.new.lots.ghost_name ≡ self.old.lots.ghost_name }
        ensures does { Does self.old self.new (do_drop lot.table lot.vendor (row_value env.now self.old.locals condition)) }
    {
        let visited = self.lots.count(lot);
        let rule = OfRow {
            env,
            locals: &self.locals,
            at: condition,
        };
        self.lots.drop_rows(lot, &rule);
        self.locals.count(1);
        self.locals.count(visited);
    }

    // Sets a column in the rows of a lot for which an expression is not 0.
    pub(crate) fn alter_rows(
        &mut self,
        env: &Env,
        lot: LotId<usize>,
        column: usize,
        value: usize,
        condition: usize,
    )
        ensures same_reference { self.new.lots.ghost_name ≡ self.old.lots.ghost_name }
        ensures does { Does self.old self.new (do_alter lot.table lot.vendor column (row_value env.now self.old.locals value) (row_value env.now self.old.locals condition)) }
    {
        let seen = self.lots.count(lot);
        let change = OfRow {
            env,
            locals: &self.locals,
            at: value,
        };
        let rule = OfRow {
            env,
            locals: &self.locals,
            at: condition,
        };
        self.lots.alter_rows(lot, column, &change, &rule);
        self.locals.count(1);
        self.locals.count(seen);
    }
}
