ghost use Rattle.hypervisor.specs.Steps.{StepsAlike};

/// Where a board has the shape of a configuration, the entries of a core realise its map, and its best interrupt stands in
/// its list registers, a step of the core on the board, for which no line is raised, is the step of the model. The function does
/// nothing; its contract is the law.
pub fn a_core_steps_as_in_the_model()
    ensures { StepsAlike }
{}
