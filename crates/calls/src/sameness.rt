// Whether two plans, or two lists of answers, are the same.
ghost use Rattle.std.specs.Prelude.{◌≡◌, Decides};
ghost use Rattle.layout.specs.Plans.{plan_of};

use layout::Plan;
use rules::Answer;

// Whether two plans have the same vendor count, tables, families and pairs.
#[tactic(auto, using(crate::proofs::Plans::plan_verdict))]
pub fn same_plan(left: &Plan, right: &Plan) -> bool
    ensures { Decides result (plan_of left.now ≡ plan_of right.now) }
{
    *left == *right
}

// Whether two lists have the same answers in the same order: a refusal's number and its place are told too.
#[tactic(auto, using(crate::proofs::AnswerLists::answers_verdict))]
pub fn same_answers(left: &[Answer], right: &[Answer]) -> bool
    ensures { Decides result (left.now ≡ right.now) }
{
    left == right
}
