ghost use Rattle.hypercalls.specs.Laws.{LooksAtItsOwn, OutcomesLawful, SameAlone};

/// The law of a call: its outcome looks at nothing of another VM. Where two configurations are the same without the others,
/// it is the same in both; and so it is that of the VM alone. The function does nothing; its contract is the law.
pub fn a_call_is_its_vms_alone()
    ensures own { LooksAtItsOwn }
    ensures alone { SameAlone }
{}

/// The law of outcomes: a ring is of an event of a shared memory that the caller lists, and a core that is turned on is one
/// of the VM's that was off. The function does nothing; its contract is the law.
#[tactic(auto, using(crate::proofs::Lawful::outcomes_lawful))]
pub fn outcomes_are_lawful()
    ensures { OutcomesLawful }
{}
