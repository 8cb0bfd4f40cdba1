//! The runs of a core.
ghost use Rattle.std.specs.Prelude.{◌≡◌, ◌≤◌, ◌<◌, ℕ, All, IfOk, OnOk};
ghost use Rattle.bao_types.specs.ByteRange.{address_space_end, end};
ghost use Rattle.bao_wellformed.specs.Checked.{checked_data};
ghost use Rattle.bao_wellformed.specs.ByteRules.{kind_in};
ghost use Rattle.bao_wellformed.specs.Map.{class_of, grant, guest_class, has_core, owner};
ghost use Rattle.region_list.specs.Layers.{AreInSpace};
ghost use Rattle.region_list.specs.Ranges.{class_of_byte};
ghost use Rattle.region_list.specs.Runs.{AreMaximalRuns};

use bao_types::{Class, OutOfMemory};
use bao_wellformed::{Checked, MapEntry, grant, has_core, map_of};
use region_list::{Ranges, Run};
use std::alloc::Global;

/// The maximal runs of bytes of one class, as this core has them.
pub(crate) fn runs_of(alloc: Global, checked: &Checked, core: u8) -> Result<Vec<Run>, OutOfMemory>
    ensures maximal { IfOk result (λ runs. AreMaximalRuns (class_of (checked_data checked.now) core) runs.items) }
    ensures in_space { IfOk result (λ runs. AreInSpace runs.items) }
{
    let mut ranges = Ranges::new(alloc);
    insert_guest(alloc, &mut ranges, checked, core)?;
    ranges.insert(alloc, checked.config().hyp, Class::Hyp)?;
    ranges.runs(alloc)
}

/// Gives each byte the class that it has for the VM of the core.
fn insert_guest(
    alloc: Global,
    ranges: &mut Ranges,
    checked: &Checked,
    core: u8,
) -> Result<(), OutOfMemory>
    requires { (at : ℕ) → class_of_byte ranges.old at ≡ Class.Nothing }
    ensures { let cfg = checked_data checked.now in
        OnOk result ((at : ℕ) → class_of_byte ranges.new at ≡ guest_class cfg (owner cfg core) at) }
{
    for vm in checked.config().vms.as_slice() {
        if has_core(vm, core) {
            let entries = map_of(checked.config(), vm);
            return insert_map(alloc, ranges, entries.as_slice());
        }
    }
    Ok(())
}

/// Lays the entries of a map over one another.
fn insert_map(alloc: Global, ranges: &mut Ranges, entries: &[MapEntry]) -> Result<(), OutOfMemory>
    requires empty { (at : ℕ) → class_of_byte ranges.old at ≡ Class.Nothing }
    requires in_space { All (λ entry. end entry.range ≤ address_space_end) entries.now }
    ensures { OnOk result ((at : ℕ) → class_of_byte ranges.new at ≡ grant (kind_in entries.now at)) }
{
    for entry in entries {
        ranges.insert(alloc, entry.range, grant(entry.kind))?;
    }
    Ok(())
}
