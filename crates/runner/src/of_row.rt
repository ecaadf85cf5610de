// A row that is asked for a number.
ghost use Rattle.std.specs.Prelude.{◌≡◌};
ghost use Rattle.runner.specs.Values.{row_value};

use crate::env::{Env, Name};
use crate::evaluate::evaluate;
use crate::locals::Locals;
use lots::{Reading, Row};

// An expression under one cursor more, which stands at the row.
#[derive(Drop)]
pub(crate) struct OfRow<'a> {
    pub(crate) env: &'a Env<'a>,
    pub(crate) locals: &'a Locals,
    pub(crate) at: usize,
}

#[tactic(auto, unfolding(crate::specs::Values::row_value))]
impl<'a> Reading for OfRow<'a> {
    ghost reads = { λ e. row_value e.env.now e.locals.now e.at };

    fn value(&self, row: &Row) -> u32 {
        evaluate(&self.env.with(Name::Cursor(*row)), self.locals, self.at)
    }
}
