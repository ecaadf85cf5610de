// Running a whole script.
ghost use Rattle.layout.specs.Plans.{plan_of};
ghost use Rattle.script.specs.Meaning.{script_of};
ghost use Rattle.runner.specs.Whole.{Ready, Ran};

use crate::env::Env;
use crate::locals::Locals;
use crate::machine::Machine;
use layout::Plan;
use lots::Store;
use script::Script;

// Runs a script for a vendor and answers its steps: lots and steps are then those of the rules, for every script as the
// ones that are read, on the lots of its plan.
pub fn run(script: &Script, plan: &Plan, vendor: u32, lots: &mut Store) -> u32
    ensures { Ready (plan_of plan.now) (script_of script.now) vendor lots.old → Ran (plan_of plan.now) (script_of script.now) vendor lots.old lots.new result }
{
    let env = Env::new(script, vendor, plan.vendors());
    let mut machine = Machine {
        locals: Locals::new(),
        lots,
    };
    machine.run_block(&env, script.first());
    machine.locals.steps
}
