ghost use Rattle.vm_model.specs.Alone.{InputsAgree, OwnStepsAgree, OtherStepsAgree, RunsAsIfAlone, SeesItsOwn};
ghost use Rattle.vm_model.specs.Apart.{WellFormedApart, WellFormedGranular};

/// A step of a core of a VM that the configuration keeps apart from the others does the same to it in the whole machine
/// and alone on it. The function does nothing; its contract is the law.
pub fn a_vm_steps_as_if_alone()
    ensures { OwnStepsAgree }
{}

/// A step of any other core does to a VM that the configuration keeps apart from the others what it emits: the writes of
/// bytes in the VM's windows, and nothing else. The function does nothing; its contract is the law.
pub fn others_only_write_windows()
    ensures { OtherStepsAgree }
{}

/// A byte that a port is given does the same to a VM in the whole machine and alone on it, where the port is its own, and
/// nothing where it isn't. The function does nothing; its contract is the law.
pub fn inputs_reach_their_vm_alone()
    ensures { InputsAgree }
{}

/// A VM's view of a run has steps of its own cores, inputs to its own ports and writes of bytes in its windows, and nothing
/// else of the others. The function does nothing; its contract is the law.
#[tactic(auto, using(crate::proofs::View::sees_its_own))]
pub fn a_view_has_nothing_else()
    ensures { SeesItsOwn }
{}

/// After every schedule, a VM that the configuration keeps apart from the others has the memory, registers, powers and
/// consoles that it has after its own run: alone on the machine, over its own steps and inputs and what the others stored
/// in its windows. The function does nothing; its contract is the law.
pub fn a_vm_runs_as_if_alone()
    ensures { RunsAsIfAlone }
{}

/// A configuration that keeps the rules and the key table keeps each of its VMs apart from the others, with every image that
/// fits its place, and each 16 bytes of a map are of one kind. So the laws of this crate speak of every VM of such a
/// configuration. The function does nothing; its contract is the law.
pub fn a_well_formed_configuration_keeps_its_vms_apart()
    ensures apart { WellFormedApart }
    ensures granular { WellFormedGranular }
{}
