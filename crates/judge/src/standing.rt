// Where a statement stands: what is made, changed and looked up of the names in scope.
ghost use Rattle.std.specs.Prelude.{◌≡◌, ◌+◌, ◌<◌};
ghost use Rattle.inplace.specs.Held.{held};
ghost use Rattle.rules.specs.Labels.{no_names, enter, name_at, held as variable, turn, mark_at};
ghost use Rattle.rules.specs.Evaluation.{run_for, put_index, whom};
ghost use Rattle.script.specs.Nodes.{index_of, mark_of};
ghost use Rattle.judge.specs.Names.{name_of, turn_vendor, depth_of, Inside, scope_of, val_of, with_name, lot_of};
ghost use Rattle.judge.specs.Breaking.{indexes_below};

use crate::name::Name;
use inplace::ArrayVec;
use layout::LotId;
use script::{Lot, Mark, Valuation};

// The vendor that the script runs for, and the names in scope, by level. A script has at most 64 statements, and on the
// way to a statement each of them makes at most one name, so 64 places always do.
#[derive(Clone, Copy)]
pub(crate) struct Standing {
    pub(crate) mine: u32,
    pub(crate) names: ArrayVec<Name, 64>,
}

impl Standing {
    // At the start of a script that runs for a vendor: no name is in scope.
    #[tactic(auto, unfolding(crate::specs::Names::scope_of, crate::specs::Names::val_of))]
    pub(crate) fn run_for(vendor: u32) -> Self
        ensures scope { scope_of result ≡ no_names }
        ensures val { val_of result ≡ run_for vendor }
        ensures depth { depth_of result ≡ 0 }
    {
        Standing {
            mine: vendor,
            names: ArrayVec::new(Name::Unknown),
        }
    }

    // One name more. That there is room is a fact of what stands and of the block that is judged, so it is no fact of this type alone.
    #[tactic(auto, using(crate::proofs::Levels::entered_scope, crate::proofs::Levels::entered_val))]
    pub(crate) fn enter(&self, name: Name) -> Self
        requires { depth_of self.now < 64 }
        ensures scope { scope_of result ≡ enter (scope_of self.now) (name_of name) }
        ensures val { val_of result ≡ with_name (val_of self.now) (scope_of self.now).depth name }
        ensures depth { depth_of result ≡ depth_of self.now + 1 }
        ensures inside { Inside result self.now }
    {
        let mut inner = *self;
        let _ = inner.names.push(name);
        inner
    }

    // Inside another: the newest name is the index of a turn, in place of what it was. A turn so costs no standing of its own.
    #[tactic(auto, using(crate::proofs::Levels::entered_scope, crate::proofs::Levels::turned_val, crate::proofs::Levels::turned))]
    pub(crate) fn turn_to(&mut self, outer: &Standing, vendor: u32)
        requires { Inside self.now outer.now }
        ensures scope { scope_of self.new ≡ enter (scope_of outer.now) turn }
        ensures val { val_of self.new ≡ put_index (val_of outer.now) (scope_of outer.now).depth vendor }
        ensures depth { depth_of self.new ≡ depth_of outer.now + 1 }
        ensures inside { Inside self.new outer.now }
    {
        self.names.set(outer.names.len(), Name::Turn(vendor));
    }

    // What the name at a level is.
    #[tactic(auto, using(crate::proofs::Levels::name_there), unfolding(crate::specs::Names::scope_of, crate::specs::Names::val_of))]
    pub(crate) fn at(&self, level: usize) -> Name
        ensures name { name_of result ≡ name_at (scope_of self.now) level }
        ensures vendor { turn_vendor result ≡ (val_of self.now).indexes level }
    {
        self.names.get_or(level, Name::Unknown)
    }

    // The name that a variable with a mark is.
    pub(crate) fn marked(&self, mark: Mark) -> Name
        ensures { name_of result ≡ variable (mark_at (val_of self.now) (mark_of mark)) }
    {
        match mark {
            Mark::Open => Name::Open,
            Mark::Tag(family, owner) => Name::Tagged(family, self.whom(owner)),
        }
    }

    // The lot that is meant.
    pub(crate) fn lot(&self, lot: Lot) -> LotId<u32>
        ensures { result ≡ lot_of lot.table (whom (val_of self.now) (index_of lot.owner)) }
    {
        LotId {
            table: lot.table,
            vendor: self.whom(lot.owner),
        }
    }

    // The vendors of the indexes in scope, the oldest first.
    pub(crate) fn indexes(&self) -> ArrayVec<u32, 64>
        ensures { held result ≡ indexes_below (scope_of self.now) (val_of self.now) (scope_of self.now).depth }
    {
        let mut vendors = ArrayVec::new(0);
        for name in self.names.as_slice() {
            if let Name::Turn(vendor) = name {
                let _ = vendors.push(*vendor);
            }
        }
        vendors
    }
}

// At a level that is no index the vendor is 0, as in the rules.
impl Valuation for Standing {
    ghost val = { val_of };

    #[tactic(auto, unfolding(crate::specs::Names::val_of))]
    fn mine(&self) -> u32 {
        self.mine
    }

    fn index(&self, level: usize) -> u32 {
        match self.at(level) {
            Name::Turn(vendor) => vendor,
            _ => 0,
        }
    }
}
