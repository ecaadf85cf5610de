// What stands behind an index.
ghost use Rattle.std.specs.Prelude.{◌≡◌};
ghost use Rattle.rules.specs.Evaluation as rules;
ghost use Rattle.script.specs.Nodes.{index_of};

use crate::node::Index;

// Whatever knows the vendor that a script runs for, and the vendor of each index in scope.
pub trait Valuation {
    // The valuation of the rules that it stands for.
    ghost val: { Self → rules.Valuation };

    // The vendor that the script runs for.
    fn mine(&self) -> u32
        ensures { result ≡ (val self.now).mine };

    // The vendor of the index at a level.
    fn index(&self, level: usize) -> u32
        ensures { result ≡ (val self.now).indexes level };

    // The vendor that is meant.
    fn whom(&self, index: Index) -> u32
        ensures { result ≡ rules.whom (val self.now) (index_of index) }
    {
        match index {
            Index::Number(vendor) => vendor,
            Index::Me => self.mine(),
            Index::Level(level) => self.index(level),
        }
    }
}
