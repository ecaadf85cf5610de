// What a block is run in: what its names stand for. Where no name more can be in scope, nothing is changed.
ghost use Rattle.std.specs.Prelude.{◌≡◌};
ghost use Rattle.inplace.specs.Held.{held};
ghost use Rattle.rules.specs.Evaluation as rules;
ghost use Rattle.script.specs.Nodes.{index_of};
ghost use Rattle.runner.specs.Names.{val_of, val_with, cursors_of, cursors_with, Nameless, Renamed};

use inplace::ArrayVec;
use layout::LotId;
use lots::Row;
use script::{Lot, MOST_NAMES, Script, Valuation};

// What a name in scope stands for; the value of a variable is kept with the locals of the run.
#[derive(Clone, Copy)]
pub(crate) enum Name {
    Variable,
    // A vendor.
    Index(u32),
    // The row that it stands at.
    Cursor(Row),
}

// What a block is run in: the script, the vendor that it runs for, how many vendors there are, and the names in scope,
// each at its level.
#[derive(Clone, Copy)]
pub(crate) struct Env<'s> {
    pub(crate) script: &'s Script,
    pub(crate) mine: u32,
    pub(crate) vendors: u32,
    pub(crate) names: ArrayVec<Name, MOST_NAMES>,
}

#[tactic(auto, unfolding(crate::specs::Names::val_of, crate::specs::Names::cursors_of))]
impl<'s> Env<'s> {
    // No name is in scope.
    pub(crate) fn new(script: &'s Script, mine: u32, vendors: u32) -> Self
        ensures script { result.script.now ≡ script.now }
        ensures names { Nameless result mine vendors }
    {
        Env {
            script,
            mine,
            vendors,
            names: ArrayVec::new(Name::Variable),
        }
    }

    // With one name more in scope.
    pub(crate) fn with(&self, name: Name) -> Self
        ensures script { result.script.now ≡ self.now.script.now }
        ensures names { Renamed self.now result (val_with self.now name) (cursors_with self.now name) }
    {
        let mut env = *self;
        let _ = env.names.push(name);
        env
    }

    // The row that a cursor stands at; at a level that is none it has no cell, as in the rules.
    pub(crate) fn cursor(&self, level: usize) -> Row
        ensures { held result ≡ cursors_of self.now level }
    {
        match self.names.get_or(level, Name::Variable) {
            Name::Cursor(row) => row,
            _ => Row::new(0),
        }
    }

    // The lot that is meant, in numbers as wide as the lots have them.
    pub(crate) fn lot(&self, lot: Lot) -> LotId<usize>
        ensures { result ≡ record { table = lot.table; vendor = rules.whom (val_of self.now) (index_of lot.owner) } }
    {
        LotId {
            table: lot.table as usize,
            vendor: self.whom(lot.owner) as usize,
        }
    }
}

// At a level that is no index the vendor is 0, as in the rules.
#[tactic(auto, unfolding(crate::specs::Names::val_of))]
impl<'s> Valuation for Env<'s> {
    ghost val = { val_of };

    fn mine(&self) -> u32 {
        self.mine
    }

    fn index(&self, level: usize) -> u32 {
        match self.names.get_or(level, Name::Variable) {
            Name::Index(vendor) => vendor,
            _ => 0,
        }
    }
}
