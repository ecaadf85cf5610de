// The flows of each flat statement, held against the lattice where the statement stands. Where it stands, the label of its context and
// its place in the text come from three hands and meet in these calls alone.
ghost use Rattle.std.specs.Prelude.{◌≡◌, ◌<◌, map};
ghost use Rattle.layout.specs.Plans.{plan_of};
ghost use Rattle.rules.specs.Flows.{set_flows, cells_flow, add_flows, drop_flows, alter_flows};
ghost use Rattle.rules.specs.Judging as rules;
ghost use Rattle.script.specs.Nodes.{expr_at};
ghost use Rattle.script.specs.Meaning.{exprs_of};
ghost use Rattle.judge.specs.Names.{depth_of, scope_of, val_of};
ghost use Rattle.judge.specs.Verdicts.{told_by, found_by, Of};
ghost use Rattle.judge.specs.Breaking.{Breach, SetBreaks, CellBreaks, AddBreaks, DropBreaks, AlterBreaks};

use crate::judging::Judge;
use crate::name::Name;
use crate::report::Report;
use crate::standing::Standing;
use lattice::Lattice;
use layout::LotId;

// The labels of a flow: the one that flows, and the one that it is held against.
#[derive(Clone, Copy)]
pub struct Flow {
    pub(crate) flowing: u64,
    pub(crate) limit: u64,
}

impl<'a, L: Lattice> Judge<'a, L> {
    // Holds a flow of the statement at a place against the lattice: the one question that it is asked of it.
    fn check_flow<R: Report>(&self, standing: &Standing, place: usize, flow: Flow) -> Result<(), R>
        ensures answer { found_by R.place_of result ≡ rules.flow place ((L.answers self.now.policy.lattice.now).below flow.flowing flow.limit) }
        ensures why { Of (told_by R.whole result) (λ b. Breach (L.answers self.now.policy.lattice.now) b place (scope_of standing.now) (val_of standing.now) flow.flowing flow.limit) }
    {
        if self.policy.lattice.below(flow.flowing, flow.limit) {
            return Ok(());
        }
        Err(R::of(place, flow, standing))
    }

    // `set`: context and expression, against the variable's label.
    pub(crate) fn check_set<R: Report>(
        &self,
        standing: &Standing,
        context: u64,
        place: usize,
        level: usize,
        value: usize,
    ) -> Result<(), R>
        ensures answer { found_by R.place_of result ≡ rules.flow place (set_flows (L.answers self.now.policy.lattice.now) (plan_of self.now.policy.plan.now) (scope_of standing.now) context level (expr_at (exprs_of self.now.script.now) value)) }
        ensures why { Of (told_by R.whole result) (λ b. SetBreaks (L.answers self.now.policy.lattice.now) (plan_of self.now.policy.plan.now) b (scope_of standing.now) (val_of standing.now) context place level (expr_at (exprs_of self.now.script.now) value)) }
    {
        let written = self.expr_label(standing, value);
        let flow = Flow {
            flowing: self.policy.lattice.join(context, written),
            limit: self.held_label(standing.at(level)),
        };
        self.check_flow(standing, place, flow)
    }

    // Each expression of `add` against the label of its cell.
    #[tactic(auto, using(crate::proofs::Cells::cell_more, crate::proofs::Cells::cell_none, crate::proofs::Cells::cell_breaks))]
    fn check_cells<R: Report>(
        &self,
        standing: &Standing,
        place: usize,
        lot: LotId<u32>,
        values: &[usize],
    ) -> Result<(), R>
        ensures answer { found_by R.place_of result ≡ rules.flow place (cells_flow (L.answers self.now.policy.lattice.now) (plan_of self.now.policy.plan.now) (scope_of standing.now) lot.table lot.vendor 0 (map (expr_at (exprs_of self.now.script.now)) values.now)) }
        ensures why { Of (told_by R.whole result) (λ b. CellBreaks (L.answers self.now.policy.lattice.now) (plan_of self.now.policy.plan.now) b (scope_of standing.now) (val_of standing.now) place lot.table lot.vendor (map (expr_at (exprs_of self.now.script.now)) values.now)) }
    {
        for (column, value) in values.iter().enumerate() {
            let cell = Flow {
                flowing: self.expr_label(standing, *value),
                limit: self.policy.cell_label(lot, column),
            };
            self.check_flow(standing, place, cell)?;
        }
        Ok(())
    }

    // `add`: the context against the row label, then each expression against its cell's.
    pub(crate) fn check_add<R: Report>(
        &self,
        standing: &Standing,
        context: u64,
        place: usize,
        lot: LotId<u32>,
        values: &[usize],
    ) -> Result<(), R>
        ensures answer { found_by R.place_of result ≡ rules.flow place (add_flows (L.answers self.now.policy.lattice.now) (plan_of self.now.policy.plan.now) (scope_of standing.now) context lot.table lot.vendor (map (expr_at (exprs_of self.now.script.now)) values.now)) }
        ensures why { Of (told_by R.whole result) (λ b. AddBreaks (L.answers self.now.policy.lattice.now) (plan_of self.now.policy.plan.now) b (scope_of standing.now) (val_of standing.now) context place lot.table lot.vendor (map (expr_at (exprs_of self.now.script.now)) values.now)) }
    {
        let rows = Flow {
            flowing: context,
            limit: self.policy.row_label(lot),
        };
        self.check_flow(standing, place, rows)?;
        self.check_cells(standing, place, lot, values)
    }

    // `drop`: context and condition, against the row label.
    pub(crate) fn check_drop<R: Report>(
        &self,
        standing: &Standing,
        context: u64,
        place: usize,
        lot: LotId<u32>,
        condition: usize,
    ) -> Result<(), R>
        requires { depth_of standing.now < 64 }
        ensures answer { found_by R.place_of result ≡ rules.flow place (drop_flows (L.answers self.now.policy.lattice.now) (plan_of self.now.policy.plan.now) (scope_of standing.now) context lot.table lot.vendor (expr_at (exprs_of self.now.script.now) condition)) }
        ensures why { Of (told_by R.whole result) (λ b. DropBreaks (L.answers self.now.policy.lattice.now) (plan_of self.now.policy.plan.now) b (scope_of standing.now) (val_of standing.now) context place lot.table lot.vendor (expr_at (exprs_of self.now.script.now) condition)) }
    {
        let inner = standing.enter(Name::Cursor(lot));
        let deciding = self.expr_label(&inner, condition);
        let flow = Flow {
            flowing: self.policy.lattice.join(context, deciding),
            limit: self.policy.row_label(lot),
        };
        self.check_flow(standing, place, flow)
    }

    // `alter`: context, value and condition, against the cell's label.
    pub(crate) fn check_alter<R: Report>(
        &self,
        standing: &Standing,
        context: u64,
        place: usize,
        lot: LotId<u32>,
        column: u32,
        value: usize,
        condition: usize,
    ) -> Result<(), R>
        requires { depth_of standing.now < 64 }
        ensures answer { found_by R.place_of result ≡ rules.flow place (alter_flows (L.answers self.now.policy.lattice.now) (plan_of self.now.policy.plan.now) (scope_of standing.now) context lot.table lot.vendor column (expr_at (exprs_of self.now.script.now) value) (expr_at (exprs_of self.now.script.now) condition)) }
        ensures why { Of (told_by R.whole result) (λ b. AlterBreaks (L.answers self.now.policy.lattice.now) (plan_of self.now.policy.plan.now) b (scope_of standing.now) (val_of standing.now) context place lot.table lot.vendor column (expr_at (exprs_of self.now.script.now) value) (expr_at (exprs_of self.now.script.now) condition)) }
    {
        let inner = standing.enter(Name::Cursor(lot));
        let written = self.expr_label(&inner, value);
        let changed = self.policy.lattice.join(context, written);
        let deciding = self.expr_label(&inner, condition);
        let flow = Flow {
            flowing: self.policy.lattice.join(changed, deciding),
            limit: self.policy.cell_label(lot, column as usize),
        };
        self.check_flow(standing, place, flow)
    }
}
