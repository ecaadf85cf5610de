// Counting steps, and reading and writing variables.
ghost use Rattle.std.specs.Prelude.{◌≡◌, ◌+◌, min, if◌then◌else◌};
ghost use Rattle.rules.specs.Lots.{last_word, upd};
ghost use Rattle.rules.specs.Scoping.{nameable};
ghost use Rattle.runner.specs.Names.{vars_of};

use script::MOST_NAMES;

// What a run has of its own: its variables, each at its level, and the steps counted so far. All levels are in use, since a
// variable of a block that has ended keeps its value.
#[derive(Drop)]
pub(crate) struct Locals {
    pub(crate) vars: [u32; MOST_NAMES],
    pub(crate) steps: u32,
}

#[tactic(auto, unfolding(crate::specs::Names::vars_of))]
impl Locals {
    // Every variable is 0, and no step is counted.
    pub(crate) fn new() -> Locals
        ensures vars { vars_of result ≡ (λ _. 0) }
        ensures steps { result.steps ≡ 0 }
    {
        Locals {
            vars: [0; MOST_NAMES],
            steps: 0,
        }
    }

    // The value of a variable; 0 where no name can have that level, as a variable begins in the rules.
    pub(crate) fn var(&self, level: usize) -> u32
        ensures { result ≡ vars_of self.now level }
    {
        self.vars.get(level).copied().unwrap_or(0)
    }

    // Sets a variable, where a name can have that level; by its index, since of a write through `get_mut` nothing is known
    // afterwards.
    pub(crate) fn put(&mut self, level: usize, value: u32)
        ensures vars { vars_of self.new ≡ (if nameable level then upd (vars_of self.old) level value else vars_of self.old) }
        ensures steps { self.new.steps ≡ self.old.steps }
    {
        if level < MOST_NAMES {
            self.vars[level] = value;
        }
    }

    // Some more steps; the count stops at the largest number.
    pub(crate) fn count(&mut self, more: usize)
        ensures vars { vars_of self.new ≡ vars_of self.old }
        ensures steps { self.new.steps ≡ min (self.old.steps + more) last_word }
    {
        let more = u32::try_from(more).unwrap_or(u32::MAX);
        self.steps = self.steps.saturating_add(more);
    }
}
