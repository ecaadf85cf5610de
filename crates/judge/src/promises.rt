// What is proved of explanations. Its contract is the theorem.
ghost use Rattle.judge.specs.Breaking.{ExplainedFlowsAreFaults};

// A flow that an explanation means breaks its rule: its statement is one at which the rules find a fault.
pub fn explained_flows_are_faults()
    ensures { ExplainedFlowsAreFaults }
{}
