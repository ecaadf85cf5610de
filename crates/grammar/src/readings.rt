// Theorems about scripts that are read. Some have a name from `rules`: they say the same with the reading of texts in the place
// of the one that is left open there.
ghost use Rattle.grammar.specs.ReadScripts.{ReadScriptsAreWellMade};
ghost use Rattle.grammar.specs.TextPromises.{TwoBenchesOfTexts, MeterOfTexts, LotsKeptUnderTexts, FirstFaultOfAText, WorkedTexts};

// A script that is read uses names only where they are in scope, stays inside the plan, writes no table inside an `each`
// over it, and its statements stand at rising places.
pub fn read_scripts_are_well_made()
    ensures { ReadScriptsAreWellMade }
{}

// Two lists of calls that agree at a label are answered alike to those who hear there, texts of scripts and all.
pub fn two_benches_answer_alike()
    ensures { TwoBenchesOfTexts }
{}

// The meter is the steps of the newest accepted run, and at most the figure that it answered.
pub fn meter_stays_within_the_figure()
    ensures { MeterOfTexts }
{}

// After any list of calls every lot is within its length, and every number in it fits 32 bits.
pub fn lots_are_kept()
    ensures { LotsKeptUnderTexts }
{}

// The place of a refused flow is that of the earliest statement with a flow that is not allowed.
pub fn first_fault_counts()
    ensures { FirstFaultOfAText }
{}

// The worked cases, from the text on.
pub fn worked_texts_hold()
    ensures { WorkedTexts }
{}
