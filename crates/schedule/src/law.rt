//! Laws over the definitions alone.
ghost use Rattle.std.specs.Prelude.{◌≡◌, ◌≤◌, ◌↔◌, ℕ, List, Some, length, slice_get};
ghost use Rattle.bao_config.specs.Fits.{ConfigFits};
ghost use Rattle.bao_wellformed.specs.WellFormed.{IsWellFormed};
ghost use Rattle.mpu_packer.specs.declared.packing.PackError.{PackError};
ghost use Rattle.mpu_packer.specs.declared.packing.PackError.TheVariants.{OutOfMemory};
ghost use Rattle.mpu_packer.specs.Plan.{CountsRuns, TellsTooMany};
ghost use Rattle.mpu_packer.specs.Runs.{core_runs};
ghost use Rattle.vm_model.specs.Apart.{FitRooms};
ghost use Rattle.schedule.specs.Line.{line_of};
ghost use Rattle.schedule.specs.Spelled.{SpellsStep, SpellsInput};
ghost use Rattle.schedule.specs.Lawful.{IsLawful};
ghost use Rattle.schedule.specs.Workload.{workload_config, workload_events, workload_images};
ghost use Rattle.schedule.specs.declared.line.Line.TheVariants as line;

/// A line says a step, or an input, exactly where it is written as that one.
pub fn laws_of_lines()
    ensures steps { (text : List ℕ) (core count : ℕ) → (line_of text ≡ line.Step core count) ↔ SpellsStep core count text }
    ensures inputs { (text : List ℕ) (port byte : ℕ) → (line_of text ≡ line.Input port byte) ↔ SpellsInput port byte text }
{}

/// What a schedule that is read from a file promises, a generated workload promises too, whatever its number: its
/// configuration breaks no rule and is one that the key table allows, no core has more runs than entries, so that its
/// packing fails for want of memory alone, each image fits the room of its VM, and the events are such as a schedule gives.
pub fn laws_of_workloads()
    ensures well_formed { (n : ℕ) → IsWellFormed (workload_config n) }
    ensures fits { (n : ℕ) → ConfigFits (workload_config n) }
    ensures runs { (n core most : ℕ) → slice_get (workload_config n).platform.cores core ≡ Some most
        → length (core_runs (workload_config n) core) ≤ most }
    ensures packs { (n core : ℕ) (fault : PackError) → TellsTooMany (workload_config n) core fault
        → CountsRuns (workload_config n) core fault → fault ≡ OutOfMemory }
    ensures rooms { (n : ℕ) → FitRooms (workload_config n) (workload_images n) }
    ensures lawful { (n : ℕ) → IsLawful (workload_config n) (workload_events n) }
{}
