// What is told of a flow that is not allowed: its place alone, or all that an explanation says. One judge serves both, and
// who asks for the place alone pays for no more.
ghost use Rattle.std.specs.Prelude.{◌≡◌, ℕ, Option, Some, None, false};
ghost use Rattle.lattice.specs.Order.{Order};
ghost use Rattle.judge.specs.declared.broken.Broken.{Broken as Explanation};
ghost use Rattle.judge.specs.Names.{scope_of, val_of};
ghost use Rattle.judge.specs.Verdicts.{Of};
ghost use Rattle.judge.specs.Breaking.{Breach};

use crate::broken::Broken;
use crate::flows::Flow;
use crate::standing::Standing;

pub(crate) trait Report: Copy {
    // The place that it tells.
    ghost place_of: { Self → ℕ };

    // The whole of the flow, where it tells that too.
    ghost whole: { Self → Option Explanation };

    // What is told of a flow of the statement at a place.
    fn of(place: usize, flow: Flow, standing: &Standing) -> Self
        ensures place { place_of result ≡ place }
        ensures whole { (o : Order) → o.below flow.flowing flow.limit ≡ false → Of (whole result) (λ b. Breach o b place (scope_of standing.now) (val_of standing.now) flow.flowing flow.limit) };

    fn place(&self) -> usize
        ensures { result ≡ place_of self.now };
}

impl Report for usize {
    ghost place_of = { λ p. p };

    ghost whole = { λ _. None };

    fn of(place: usize, _flow: Flow, _standing: &Standing) -> usize {
        place
    }

    fn place(&self) -> usize {
        *self
    }
}

impl Report for Broken {
    ghost place_of = { λ b. b.place };

    ghost whole = { λ b. Some b };

    #[tactic(auto, unfolding(crate::specs::Names::val_of))]
    fn of(place: usize, flow: Flow, standing: &Standing) -> Broken {
        Broken {
            place,
            flowing: flow.flowing,
            limit: flow.limit,
            me: standing.mine,
            indexes: standing.indexes(),
        }
    }

    fn place(&self) -> usize {
        self.place
    }
}
