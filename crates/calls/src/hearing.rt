// Which posts are struck out at a label, and whose answers are heard there.
ghost use Rattle.std.specs.Prelude.{◌≡◌};
ghost use Rattle.layout.specs.Plans.{plan_of};
ghost use Rattle.rules.specs.Agreement.{unseen, hears};
ghost use Rattle.calls.specs.Meaning.{call_of};

use crate::call::Call;
use lattice::Lattice;
use policy::Policy;

// Whoever hears answers at a label, of a bench with this policy.
#[derive_where(Clone, Copy)]
pub struct Listener<'a, L: Lattice> {
    pub policy: Policy<'a, L>,
    pub label: u64,
}

impl<'a, L: Lattice> Listener<'a, L> {
    // Whether what has this label is at or below the listener's.
    pub(crate) fn sees(&self, label: u64) -> bool
        ensures { result ≡ (L.answers self.now.policy.lattice.now).below label self.now.label }
    {
        self.policy.lattice.below(label, self.label)
    }

    // Whether the call is a post that is struck out at the label.
    pub(crate) fn is_unseen(&self, call: &Call) -> bool
        ensures { result ≡ unseen (L.answers self.now.policy.lattice.now) (plan_of self.now.policy.plan.now) self.now.label (call_of call.now) }
    {
        match call {
            Call::Post { lot, .. } => {
                self.policy.plan.has_lot(*lot) && !self.sees(self.policy.row_label(*lot))
            }
            _ => false,
        }
    }

    // Whether the answer of a call is heard at the label: that of a read whose clearance is at or below it, and that of
    // any other call but a post that is struck out.
    pub fn hears(&self, call: &Call) -> bool
        ensures { result ≡ hears (L.answers self.now.policy.lattice.now) (plan_of self.now.policy.plan.now) self.now.label (call_of call.now) }
    {
        match call {
            Call::Look { clearance, .. }
            | Call::Count { clearance, .. }
            | Call::Meter { clearance } => self.sees(*clearance),
            _ => !self.is_unseen(call),
        }
    }
}
