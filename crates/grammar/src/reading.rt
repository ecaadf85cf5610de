// Theorems about the reading of whole texts.
ghost use Rattle.grammar.specs.ReadingCases.{Scripts, Refusals, Limits};

// The worked texts are read to their scripts.
pub fn worked_scripts()
    ensures { Scripts }
{}

// The worked refusals come with their numbers at their places.
pub fn worked_refusals()
    ensures { Refusals }
{}

// Each limit of a text lets its last through and refuses the next.
pub fn worked_limits()
    ensures { Limits }
{}
