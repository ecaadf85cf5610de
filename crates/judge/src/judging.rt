// The judge: where a block breaks a flow rule first, where it stands.
ghost use Rattle.std.specs.Prelude.{◌≡◌, ℕ, ◌+◌, ◌<◌, ◌≤◌, ◌⊎◌};
ghost use Rattle.layout.specs.Plans.{plan_of};
ghost use Rattle.rules.specs.Labels.{enter, cursor, turn as index-name};
ghost use Rattle.rules.specs.Evaluation.{put_index};
ghost use Rattle.rules.specs.Flows.{if_context, each_context};
ghost use Rattle.rules.specs.Judging as rules;
ghost use Rattle.script.specs.Nodes.{expr_at, block_at, code_of};
ghost use Rattle.script.specs.Meaning.{exprs_of, codes_of};
ghost use Rattle.judge.specs.Names.{depth_of, scope_of, val_of};
ghost use Rattle.judge.specs.Blocks.{highest_block};
ghost use Rattle.judge.specs.Verdicts.{told_by, found_by, Of, own_fault, inner_verdict, rest_verdict};
ghost use Rattle.judge.specs.Breaking.{BreaksFirst, BreaksInside, BreaksBehind, Breaks};

use crate::context::{Context, raise};
use crate::name::Name;
use crate::report::Report;
use crate::standing::Standing;
use lattice::Lattice;
use layout::LotId;
use policy::Policy;
use script::{Node, Script, Stmt, Valuation};

// Judges a script under a policy. Where a statement stands is a value of its block, and the context a record that a guard borrows,
// so each is passed on its own.
#[derive_where(Clone, Copy)]
pub(crate) struct Judge<'a, L: Lattice> {
    pub(crate) policy: Policy<'a, L>,
    pub(crate) script: &'a Script,
}

// The fault with the least place; of two at one place, the one that was found first.
pub(crate) fn least_of<R: Report>(so_far: Result<(), R>, newest: Result<(), R>) -> Result<(), R>
    ensures place { found_by R.place_of result ≡ rules.least_of (found_by R.place_of so_far) (found_by R.place_of newest) }
    ensures value { (result ≡ so_far) ⊎ (result ≡ newest) }
{
    match (so_far, newest) {
        (Err(earlier), Err(later)) if later.place() < earlier.place() => newest,
        (Err(_), _) => so_far,
        (Ok(()), _) => newest,
    }
}

impl<'a, L: Lattice> Judge<'a, L> {
    // The fault of a statement's own flow, in a context; a statement that only holds blocks, or makes a name, has none.
    fn own_fault<R: Report>(&self, node: &Node, standing: &Standing, context: u64) -> Result<(), R>
        requires { depth_of standing.now < 64 }
        ensures answer { found_by R.place_of result ≡ own_fault (L.answers self.now.policy.lattice.now) (plan_of self.now.policy.plan.now) (scope_of standing.now) (val_of standing.now) context (code_of (exprs_of self.now.script.now) (codes_of self.now.script.now) node.now) }
        ensures why { Of (told_by R.whole result) (λ b. BreaksFirst (L.answers self.now.policy.lattice.now) (plan_of self.now.policy.plan.now) b (scope_of standing.now) (val_of standing.now) context (code_of (exprs_of self.now.script.now) (codes_of self.now.script.now) node.now)) }
    {
        match node.stmt {
            Stmt::Set {
                place,
                level,
                value,
            } => self.check_set(standing, context, place, level, value),
            Stmt::Add { place, lot, values } => {
                let lot = standing.lot(lot);
                self.check_add(standing, context, place, lot, values.as_slice())
            }
            Stmt::Drop {
                place,
                lot,
                condition,
            } => self.check_drop(standing, context, place, standing.lot(lot), condition),
            Stmt::Alter {
                place,
                lot,
                column,
                value,
                condition,
            } => {
                let lot = standing.lot(lot);
                self.check_alter(standing, context, place, lot, column, value, condition)
            }
            _ => Ok(()),
        }
    }

    // The first fault of a block, in text order; over the turns of `vendors`, the least of theirs. The context is left as it
    // was.
    #[cycle(blocks)]
    #[tactic(auto, using(crate::proofs::Steps::at_end, crate::proofs::Steps::in_parts, crate::proofs::Breaches::own_told))]
    pub(crate) fn judge_block<R: Report>(
        &self,
        block: usize,
        standing: &Standing,
        context: &mut Context,
    ) -> Result<(), R>
        requires { depth_of standing.now + block ≤ 64 }
        ensures answer { found_by R.place_of result ≡ rules.verdict (L.answers self.now.policy.lattice.now) (plan_of self.now.policy.plan.now) (block_at (codes_of self.now.script.now) block) (scope_of standing.now) (val_of standing.now) context.old.label }
        ensures same { context.new.label ≡ context.old.label }
        ensures why { Of (told_by R.whole result) (λ b. Breaks (L.answers self.now.policy.lattice.now) (plan_of self.now.policy.plan.now) b (block_at (codes_of self.now.script.now) block) (scope_of standing.now) (val_of standing.now) context.old.label) }
    {
        let Some(node) = self.script.stmt(block) else {
            return Ok(());
        };
        self.own_fault(&node, standing, context.label)?;
        self.judge_inner(&node, standing, context)?;
        self.judge_rest(&node, standing, context)
    }

    // The first fault of the blocks inside a statement. Of the two of `when` that is the first where the indexes stand for
    // one vendor, else the second.
    #[cycle(blocks)]
    fn judge_inner<R: Report>(
        &self,
        node: &Node,
        standing: &Standing,
        context: &mut Context,
    ) -> Result<(), R>
        requires { depth_of standing.now + highest_block node.now < 64 }
        ensures answer { found_by R.place_of result ≡ inner_verdict (L.answers self.now.policy.lattice.now) (plan_of self.now.policy.plan.now) (scope_of standing.now) (val_of standing.now) context.old.label (code_of (exprs_of self.now.script.now) (codes_of self.now.script.now) node.now) }
        ensures same { context.new.label ≡ context.old.label }
        ensures why { Of (told_by R.whole result) (λ b. BreaksInside (L.answers self.now.policy.lattice.now) (plan_of self.now.policy.plan.now) b (scope_of standing.now) (val_of standing.now) context.old.label (code_of (exprs_of self.now.script.now) (codes_of self.now.script.now) node.now)) }
    {
        match node.stmt {
            Stmt::If {
                condition,
                first,
                second,
            } => self.judge_branches(condition, first, second, standing, context),
            Stmt::When {
                left,
                right,
                first,
                second,
            } => {
                if standing.whom(left) == standing.whom(right) {
                    self.judge_block(first, standing, context)
                } else {
                    self.judge_block(second, standing, context)
                }
            }
            Stmt::Vendors { body } => self.judge_turns(body, standing, context),
            Stmt::Each { lot, body } => self.judge_rows(standing.lot(lot), body, standing, context),
            _ => Ok(()),
        }
    }

    // The first fault of what follows a statement in its block, where a variable that the statement makes is in scope.
    #[cycle(blocks)]
    fn judge_rest<R: Report>(
        &self,
        node: &Node,
        standing: &Standing,
        context: &mut Context,
    ) -> Result<(), R>
        requires { depth_of standing.now + highest_block node.now < 64 }
        ensures answer { found_by R.place_of result ≡ rest_verdict (L.answers self.now.policy.lattice.now) (plan_of self.now.policy.plan.now) (scope_of standing.now) (val_of standing.now) context.old.label (code_of (exprs_of self.now.script.now) (codes_of self.now.script.now) node.now) }
        ensures same { context.new.label ≡ context.old.label }
        ensures why { Of (told_by R.whole result) (λ b. BreaksBehind (L.answers self.now.policy.lattice.now) (plan_of self.now.policy.plan.now) b (scope_of standing.now) (val_of standing.now) context.old.label (code_of (exprs_of self.now.script.now) (codes_of self.now.script.now) node.now)) }
    {
        match node.stmt {
            Stmt::Var { mark } => {
                let inner = standing.enter(standing.marked(mark));
                self.judge_block(node.rest, &inner, context)
            }
            _ => self.judge_block(node.rest, standing, context),
        }
    }

    // Both blocks of `if`, in the context raised by the label of its condition.
    #[cycle(blocks)]
    fn judge_branches<R: Report>(
        &self,
        condition: usize,
        first: usize,
        second: usize,
        standing: &Standing,
        context: &mut Context,
    ) -> Result<(), R>
        requires { (depth_of standing.now + first ≤ 64) × (depth_of standing.now + second ≤ 64) }
        ensures answer { let raised = if_context (L.answers self.now.policy.lattice.now) (plan_of self.now.policy.plan.now) (scope_of standing.now) context.old.label (expr_at (exprs_of self.now.script.now) condition) in found_by R.place_of result ≡ rules.earlier (rules.verdict (L.answers self.now.policy.lattice.now) (plan_of self.now.policy.plan.now) (block_at (codes_of self.now.script.now) first) (scope_of standing.now) (val_of standing.now) raised) (rules.verdict (L.answers self.now.policy.lattice.now) (plan_of self.now.policy.plan.now) (block_at (codes_of self.now.script.now) second) (scope_of standing.now) (val_of standing.now) raised) }
        ensures same { context.new.label ≡ context.old.label }
        ensures why { let raised = if_context (L.answers self.now.policy.lattice.now) (plan_of self.now.policy.plan.now) (scope_of standing.now) context.old.label (expr_at (exprs_of self.now.script.now) condition) in Of (told_by R.whole result) (λ b. Breaks (L.answers self.now.policy.lattice.now) (plan_of self.now.policy.plan.now) b (block_at (codes_of self.now.script.now) first) (scope_of standing.now) (val_of standing.now) raised ⊎ Breaks (L.answers self.now.policy.lattice.now) (plan_of self.now.policy.plan.now) b (block_at (codes_of self.now.script.now) second) (scope_of standing.now) (val_of standing.now) raised) }
    {
        let label = self.expr_label(standing, condition);
        let raised = raise(self.policy.lattice, context, label);
        self.judge_block(first, standing, raised.context)?;
        self.judge_block(second, standing, raised.context)
    }

    // The block of `each`, in the context raised by the label of the lot's rows.
    #[cycle(blocks)]
    fn judge_rows<R: Report>(
        &self,
        lot: LotId<u32>,
        body: usize,
        standing: &Standing,
        context: &mut Context,
    ) -> Result<(), R>
        requires { depth_of standing.now + body < 64 }
        ensures answer { found_by R.place_of result ≡ rules.verdict (L.answers self.now.policy.lattice.now) (plan_of self.now.policy.plan.now) (block_at (codes_of self.now.script.now) body) (enter (scope_of standing.now) (cursor lot.table lot.vendor)) (val_of standing.now) (each_context (L.answers self.now.policy.lattice.now) (plan_of self.now.policy.plan.now) context.old.label lot.table lot.vendor) }
        ensures same { context.new.label ≡ context.old.label }
        ensures why { Of (told_by R.whole result) (λ b. Breaks (L.answers self.now.policy.lattice.now) (plan_of self.now.policy.plan.now) b (block_at (codes_of self.now.script.now) body) (enter (scope_of standing.now) (cursor lot.table lot.vendor)) (val_of standing.now) (each_context (L.answers self.now.policy.lattice.now) (plan_of self.now.policy.plan.now) context.old.label lot.table lot.vendor)) }
    {
        let inner = standing.enter(Name::Cursor(lot));
        let label = self.policy.row_label(lot);
        let raised = raise(self.policy.lattice, context, label);
        self.judge_block(body, &inner, raised.context)
    }

    // The block of `vendors` for every vendor: a turn's fault is kept, and the next turn judged.
    #[cycle(blocks)]
    fn judge_turns<R: Report>(
        &self,
        body: usize,
        standing: &Standing,
        context: &mut Context,
    ) -> Result<(), R>
        requires { depth_of standing.now + body < 64 }
        ensures answer { found_by R.place_of result ≡ rules.over (λ v. rules.verdict (L.answers self.now.policy.lattice.now) (plan_of self.now.policy.plan.now) (block_at (codes_of self.now.script.now) body) (enter (scope_of standing.now) index-name) (put_index (val_of standing.now) (scope_of standing.now).depth v) context.old.label) (plan_of self.now.policy.plan.now).vendors }
        ensures same { context.new.label ≡ context.old.label }
        ensures why { Of (told_by R.whole result) (λ b. ((v : ℕ) × (v < (plan_of self.now.policy.plan.now).vendors) × Breaks (L.answers self.now.policy.lattice.now) (plan_of self.now.policy.plan.now) b (block_at (codes_of self.now.script.now) body) (enter (scope_of standing.now) index-name) (put_index (val_of standing.now) (scope_of standing.now).depth v) context.old.label)) }
    {
        let mut inner = standing.enter(Name::Turn(0));
        let mut least = Ok(());
        for vendor in 0..self.policy.plan.vendors() {
            inner.turn_to(standing, vendor);
            let turn = self.judge_block(body, &inner, context);
            least = least_of(least, turn);
        }
        least
    }
}
