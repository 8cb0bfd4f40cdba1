ghost use Rattle.std.specs.Prelude.{◌≡◌, ◌≤◌, ◌+◌, ◌<◌, All, length, map};
ghost use Rattle.bao_types.specs.ByteRange.{end};
ghost use Rattle.bao_types.specs.Region.{granule};
ghost use Rattle.mpu_packer.specs.Packing.{entry_of};
ghost use Rattle.region_list.specs.Layers.{AreInSpace, IsInSpace};

use crate::class::{attribute_of, execute_never_of, permission_of};
use arrayvec::ArrayVec;
use bao_types::{GRANULE, Region};
use region_list::Run;

/// The most entries that a core has.
pub(crate) const MAX_ENTRIES: usize = 32;

/// The packing of a core.
#[derive(Debug, Drop)]
pub struct Plan {
    pub core: u8,
    /// One entry for each run, in address order.
    pub entries: ArrayVec<Region, MAX_ENTRIES>,
    /// The first byte of each run.
    pub starts: ArrayVec<u64, MAX_ENTRIES>,
}

/// The plan of a core whose runs are these.
pub(crate) fn plan_of(core: u8, runs: &[Run]) -> Plan
    requires room { length runs.now ≤ 32 }
    requires in_space { AreInSpace runs.now }
    requires sizes { All (λ run. granule ≤ run.range.size) runs.now }
    ensures core { result.core ≡ core }
    ensures entries { result.entries.items ≡ map entry_of runs.now }
    ensures starts { result.starts.items ≡ map (λ run. run.range.base) runs.now }
{
    let mut entries = ArrayVec::new();
    let mut starts = ArrayVec::new();
    for run in runs {
        entries.push(entry_of(run));
        starts.push(run.range.base);
    }
    Plan {
        core,
        entries,
        starts,
    }
}

/// The entry of a run.
fn entry_of(run: &Run) -> Region
    requires in_space { IsInSpace run.now.range }
    requires size { granule ≤ run.now.range.size }
    ensures { result ≡ entry_of run.now }
{
    Region {
        base: run.range.base + 4 * permission_of(run.class) + 2 * execute_never_of(run.class),
        limit: run.range.end() - GRANULE + 2 * attribute_of(run.class) + 1,
    }
}
