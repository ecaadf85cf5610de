// The theorems about these rules. Each function's contract is one of them; docs/promises.md says them in plain words.
ghost use Rattle.lattice.specs.Order.{Laws};
ghost use Rattle.rules.specs.Promises.{Confinement, Lockstep, JudgeIsExact, TwoBenches, Metered, Frames, Why, Kept};
ghost use Rattle.rules.specs.Deciding.{AgreementIsDecided};
ghost use Rattle.rules.specs.Examples.{Worked, RestsOnTheJudge};

use lattice::{Compartments, Lattice};

// An allowed block in a context that is not seen changes nothing that is seen.
pub fn hidden_blocks_change_nothing_seen()
    ensures { Confinement }
{}

// An allowed block from two states that look the same ends in two that do.
pub fn blocks_run_in_lockstep()
    ensures { Lockstep }
{}

// The judge finds no fault exactly where every flow is allowed, and the fault that it finds is the first.
pub fn judge_is_exact()
    ensures { JudgeIsExact }
{}

// Two lists of calls that agree at a label are answered alike to those who hear there.
pub fn two_benches_answer_alike()
    ensures { TwoBenches }
{}

// The meter is the steps of the newest accepted run, and at most the figure that it answered.
pub fn meter_stays_within_the_figure()
    ensures { Metered }
{}

// A refused call and a read change nothing, a post one lot, an admission one slot, a run lots and meter.
pub fn calls_change_only_their_own()
    ensures { Frames }
{}

// A call is sent back with a number exactly when that number's condition is the first that holds.
pub fn refusals_have_their_reason()
    ensures { Why }
{}

// After any list of calls every lot has its rows within its length and its columns, and every number fits 32 bits.
pub fn lots_are_kept()
    ensures { Kept }
{}

// Every lattice in code is lawful, so that what is promised of lawful lattices holds of it.
pub fn lattices_are_lawful<L: Lattice>(lattice: &L)
    ensures { Laws (L.Lattice.answers lattice.now) }
{}

// Without the judge two lists that agree are answered differently.
pub fn promise_rests_on_the_judge()
    ensures { RestsOnTheJudge }
{
    lattices_are_lawful(&Compartments);
}

// The worked cases.
pub fn worked_cases_hold()
    ensures { Worked }
{}

// Whether two lists of calls agree at a label can be worked out, and the verdict is agreement.
pub fn agreement_is_decided()
    ensures { AgreementIsDecided }
{}
