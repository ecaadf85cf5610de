// The labels of variables, columns and expressions, where a statement stands.
ghost use Rattle.std.specs.Prelude.{◌≡◌};
ghost use Rattle.layout.specs.Plans.{plan_of};
ghost use Rattle.rules.specs.Labels.{held_label, column_label, expr_label};
ghost use Rattle.script.specs.Nodes.{expr_at};
ghost use Rattle.script.specs.Meaning.{exprs_of};
ghost use Rattle.judge.specs.Names.{name_of, scope_of};

use crate::judging::Judge;
use crate::name::Name;
use crate::standing::Standing;
use lattice::Lattice;
use script::Expr;

impl<'a, L: Lattice> Judge<'a, L> {
    // The label of a variable; the top where the name is none.
    pub(crate) fn held_label(&self, name: Name) -> u64
        ensures { result ≡ held_label (L.answers self.now.policy.lattice.now) (name_of name) }
    {
        match name {
            Name::Open => self.policy.lattice.bottom(),
            Name::Tagged(family, vendor) => self.policy.lattice.tag(family, vendor),
            _ => self.policy.lattice.top(),
        }
    }

    // The label of a column of the row that a cursor stands at; the top where the name is no cursor.
    fn column_label(&self, name: Name, column: u32) -> u64
        ensures { result ≡ column_label (L.answers self.now.policy.lattice.now) (plan_of self.now.policy.plan.now) (name_of name) column }
    {
        match name {
            Name::Cursor(lot) => self.policy.cell_label(lot, column as usize),
            _ => self.policy.lattice.top(),
        }
    }

    // The label of the expression at a place: the join over its atoms.
    #[tactic(auto, unfolding(rules::specs::Labels::expr_label))]
    pub(crate) fn expr_label(&self, standing: &Standing, at: usize) -> u64
        ensures { result ≡ expr_label (L.answers self.now.policy.lattice.now) (plan_of self.now.policy.plan.now) (scope_of standing.now) (expr_at (exprs_of self.now.script.now) at) }
    {
        match self.script.expr(at) {
            Expr::Literal(_) | Expr::Mine | Expr::OfIndex(_) => self.policy.lattice.bottom(),
            Expr::Variable(level) => self.held_label(standing.at(level)),
            Expr::Cell(level, column) => self.column_label(standing.at(level), column),
            Expr::Apply(_, left, right) => {
                let first = self.expr_label(standing, left);
                let second = self.expr_label(standing, right);
                self.policy.lattice.join(first, second)
            }
        }
    }
}
