ghost use Rattle.bao_wellformed.specs.Laws.{AloneWellFormed, MapsApart, CoresApart, CoresOfPlatform, CoresOwned, PortsApart, PlacesOwn, StartsExecutable, MapsGranular, HypervisorAbsent, FramesAbsent, MapsInSpace, HypervisorInSpace, LackingLeast, ClashLeast};
ghost use Rattle.bao_wellformed.specs.Windows.{WindowsSound};

/// The laws by which VMs are apart: a byte that two of them both have is a window of both on one shared memory, no core
/// and no port is given to two, and each VM alone makes a well-formed configuration. The function does nothing; its contract is the laws.
pub fn laws_of_separation()
    ensures maps { MapsApart }
    ensures cores { CoresApart }
    ensures owners { CoresOwned }
    ensures ports { PortsApart }
    ensures alone { AloneWellFormed }
{}

/// The laws of one VM: its cores are the platform's; and of its map: its place is memory of its own, it starts in memory that it may execute, each 64 bytes are of
/// one kind, nothing of it is above 2^48, and neither the hypervisor's range nor an emulated frame of the interrupt
/// controller is in it. The function does nothing; its contract is the laws.
pub fn laws_of_maps()
    ensures cores { CoresOfPlatform }
    ensures places { PlacesOwn }
    ensures starts { StartsExecutable }
    ensures granular { MapsGranular }
    ensures hypervisor_absent { HypervisorAbsent }
    ensures frames_absent { FramesAbsent }
    ensures in_space { MapsInSpace }
    ensures hypervisor_in_space { HypervisorInSpace }
{}

/// The bytes that rules 20 to 22 name are the least of all that break them, not only of the bounds that are tried. The
/// function does nothing; its contract is the laws.
pub fn laws_of_least_bytes()
    ensures lacking { LackingLeast }
    ensures clash { ClashLeast }
{}

/// The laws of windows on shared memories: each names a shared memory, no VM has two on one, and each has an interrupt
/// number for each event. The function does nothing; its contract is the laws.
#[tactic(auto, using(crate::proofs::Windowed::windows_sound))]
pub fn laws_of_windows()
    ensures { WindowsSound }
{}
