// The worked examples, as a fact about the words of the calls' contracts.
#![tactic(auto)]

ghost use Rattle.examples.specs.Worked.{WorkedExamples};

// What the calls answer on the two racks that are worked through by hand.
pub fn worked_examples()
    ensures { WorkedExamples }
{}
