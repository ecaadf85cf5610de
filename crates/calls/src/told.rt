// Theorems: no two calls, answers or refusals are taken for each other.
ghost use Rattle.calls.specs.Told.{RefusalsToldApart, AnswersToldApart, CallsToldApart};

// Calls that stand for one call have the same fields, slices by what they hold.
pub fn calls_are_told_apart()
    ensures { CallsToldApart }
{}

// An answer is known by its kind and its values.
pub fn answers_are_told_apart()
    ensures { AnswersToldApart }
{}

// A refusal is known by its number and its place.
pub fn refusals_are_told_apart()
    ensures { RefusalsToldApart }
{}
