ghost use Rattle.board.specs.First.{FaultsAreFirst};
ghost use Rattle.board.specs.Reached.{DisturbsNothingElse, ObservesNothingElse};

/// An access has no fault exactly where both stages allow each of its bytes; else it has that of the first byte, in address
/// order, that one of them refuses, by the stage that does, of which the first is asked before the second. The function
/// does nothing; its contract is the law.
#[tactic(auto, using(crate::proofs::First::faults_are_first))]
pub fn a_fault_is_of_the_first_refused_byte()
    ensures { FaultsAreFirst }
{}

/// A step of a core, on the machine and in the model, leaves each byte that one of both stages doesn't let it write, and
/// each port of which they let it neither read nor write a byte. The function does nothing; its contract is the law.
#[tactic(auto, using(crate::proofs::Reached::disturbs_nothing_else))]
pub fn a_step_disturbs_nothing_else()
    ensures { DisturbsNothingElse }
{}

/// A step of a core does the same over any two memories that are equal at each byte that both stages let it read
/// or execute, and any two states of the ports that are equal for those of which they let it read or write a byte: nothing
/// of the others shows in its registers, in what it stores, in what it does to ports, or in what it comes to. The
/// function does nothing; its contract is the law.
#[tactic(auto, using(crate::proofs::Reached::observes_nothing_else))]
pub fn a_step_observes_nothing_else()
    ensures { ObservesNothingElse }
{}
