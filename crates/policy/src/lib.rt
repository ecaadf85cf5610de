// Which label the rows and cells of a lot have: what a lattice says of a plan's families.
#![tactic(auto)]

ghost use Rattle.std.specs.Prelude.{◌≡◌};
ghost use Rattle.layout.specs.Plans.{plan_of};
ghost use Rattle.rules.specs.Labels.{row_label, cell_label};

use lattice::Lattice;
use layout::{LotId, Plan};

// A plan under a lattice: together they give every row and every cell its label.
#[derive_where(Clone, Copy)]
pub struct Policy<'a, L: Lattice> {
    pub lattice: &'a L,
    pub plan: &'a Plan,
}

impl<'a, L: Lattice> Policy<'a, L> {
    // The label of the rows of a lot.
    pub fn row_label(&self, lot: LotId<u32>) -> u64
        ensures { result ≡ row_label (L.answers self.now.lattice.now) (plan_of self.now.plan.now) lot.table lot.vendor }
    {
        self.lattice
            .tag(self.plan.row_family(lot.table as usize), lot.vendor)
    }

    // The label of a cell of a lot's rows.
    pub fn cell_label(&self, lot: LotId<u32>, column: usize) -> u64
        ensures { result ≡ cell_label (L.answers self.now.lattice.now) (plan_of self.now.plan.now) lot.table lot.vendor column }
    {
        let family = self.plan.column_family(lot.table as usize, column);
        let own = self.lattice.tag(family, lot.vendor);
        self.lattice.join(self.row_label(lot), own)
    }
}
