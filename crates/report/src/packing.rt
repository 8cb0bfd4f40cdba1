//! The text of a packing.
ghost use Rattle.std.specs.Prelude.{◌≡◌, ◌<◌, ◌≤◌, ◌++◌, length, map};
ghost use Rattle.outside.specs.Sink.{Takes, HasCause};
ghost use Rattle.bao_config.specs.Config.{config_data};
ghost use Rattle.bao_wellformed.specs.Checked.{checked_data};
ghost use Rattle.bao_wellformed.specs.Map.{owner};
ghost use Rattle.report.specs.Packing.{packing_text, packed_text, packed_line, packed_name, packed_counts, entry_line, entries_text, owner_name, cores_packed};

use crate::line::Line;
use bao_config::Config;
use bao_types::Region;
use bao_wellformed::{Checked, has_core};
use mpu_packer::Plan;
use outside::{Sink, SinkFailed};
use text_lines::{push_decimal, push_hex, push_text};

/// Writes the packing of the cores, of which these are the first ones in order: each core with its entries, then `ok`.
#[tactic(auto, using(outside::proofs::Puts::in_parts), unfolding(crate::specs::Packing::ok_line))]
pub fn write_packing<K: Sink>(
    sink: &mut K,
    checked: &Checked,
    plans: &[Plan],
) -> Result<(), SinkFailed>
    requires { length plans.now ≤ length (checked_data checked.now).platform.cores }
    ensures taken { Takes (K.taken sink.old) (K.taken sink.new)
        (packing_text (checked_data checked.now) (map (λ plan. plan.entries.items) plans.now)) result }
    ensures cause { HasCause (K.faults sink.old) (K.faults sink.new) result }
{
    write_plans(sink, checked.config(), plans)?;
    sink.put(b"ok\n")
}

/// The cores in order, each with its entries.
#[tactic(auto, using(outside::proofs::Puts::begun))]
fn write_plans<K: Sink>(sink: &mut K, config: &Config, plans: &[Plan]) -> Result<(), SinkFailed>
    requires { length plans.now ≤ length (config_data config.now).platform.cores }
    ensures taken { Takes (K.taken sink.old) (K.taken sink.new)
        (cores_packed (config_data config.now) 0 (map (λ plan. plan.entries.items) plans.now)) result }
    ensures cause { HasCause (K.faults sink.old) (K.faults sink.new) result }
{
    for (core, plan) in plans.iter().enumerate() {
        write_plan(sink, config, core as u8, &plan.entries)?;
    }
    Ok(())
}

/// A core with its entries.
#[tactic(auto, using(outside::proofs::Puts::in_parts), unfolding(crate::specs::Packing::packed_text))]
fn write_plan<K: Sink>(
    sink: &mut K,
    config: &Config,
    core: u8,
    entries: &[Region],
) -> Result<(), SinkFailed>
    requires core { core < length (config_data config.now).platform.cores }
    requires few { length entries.now ≤ 32 }
    ensures taken { Takes (K.taken sink.old) (K.taken sink.new) (packed_text (config_data config.now) core entries.now) result }
    ensures cause { HasCause (K.faults sink.old) (K.faults sink.new) result }
{
    let most = config.platform.cores[usize::from(core)];
    put_packed(
        sink,
        core,
        owner_name(config, core),
        entries.len() as u32,
        most,
    )?;
    write_entries(sink, entries)
}

/// The name of the VM that has the core, `-` where none does.
fn owner_name(config: &Config, core: u8) -> &[u8]
    ensures name { result.now ≡ owner_name (owner (config_data config.now) core) }
    ensures len { length result.now ≤ 16 }
{
    for vm in config.vms.as_slice() {
        if has_core(vm, core) {
            return vm.name.as_str().as_bytes();
        }
    }
    b"-"
}

/// `core C vm NAME runs R entries N`
fn put_packed<K: Sink>(
    sink: &mut K,
    core: u8,
    name: &[u8],
    runs: u32,
    most: u8,
) -> Result<(), SinkFailed>
    requires { length name.now ≤ 16 }
    ensures taken { Takes (K.taken sink.old) (K.taken sink.new) (packed_line core name.now runs most) result }
    ensures cause { HasCause (K.faults sink.old) (K.faults sink.new) result }
{
    let mut line = Line::new();
    push_name(&mut line, core, name);
    push_counts(&mut line, runs, most);
    sink.put(&line)
}

#[tactic(auto, unfolding(crate::specs::Packing::packed_name))]
fn push_name(line: &mut Line, core: u8, name: &[u8])
    requires line { length line.old.items ≡ 0 }
    requires name { length name.now ≤ 16 }
    ensures text { line.new.items ≡ line.old.items ++ packed_name core name.now }
    ensures len { length line.new.items ≤ 64 }
{
    push_text(line, b"core ");
    push_decimal(line, u32::from(core));
    push_text(line, b" vm ");
    push_text(line, name);
}

#[tactic(auto, unfolding(crate::specs::Packing::packed_counts))]
fn push_counts(line: &mut Line, runs: u32, most: u8)
    requires { length line.old.items ≤ 64 }
    ensures { line.new.items ≡ line.old.items ++ packed_counts runs most }
{
    push_text(line, b" runs ");
    push_decimal(line, runs);
    push_text(line, b" entries ");
    push_decimal(line, u32::from(most));
    push_text(line, b"\n");
}

/// The entries of a core.
#[tactic(auto, using(outside::proofs::Puts::begun))]
fn write_entries<K: Sink>(sink: &mut K, entries: &[Region]) -> Result<(), SinkFailed>
    requires { length entries.now ≤ 32 }
    ensures taken { Takes (K.taken sink.old) (K.taken sink.new) (entries_text 0 entries.now) result }
    ensures cause { HasCause (K.faults sink.old) (K.faults sink.new) result }
{
    for (i, entry) in entries.iter().enumerate() {
        put_entry(sink, i as u32, entry)?;
    }
    Ok(())
}

/// `entry I H H`
#[tactic(auto, unfolding(crate::specs::Packing::entry_line))]
fn put_entry<K: Sink>(sink: &mut K, i: u32, entry: &Region) -> Result<(), SinkFailed>
    ensures taken { Takes (K.taken sink.old) (K.taken sink.new) (entry_line i entry.now) result }
    ensures cause { HasCause (K.faults sink.old) (K.faults sink.new) result }
{
    let mut line = Line::new();
    push_text(&mut line, b"entry ");
    push_decimal(&mut line, i);
    push_text(&mut line, b" ");
    push_hex(&mut line, 16, entry.base);
    push_text(&mut line, b" ");
    push_hex(&mut line, 16, entry.limit);
    push_text(&mut line, b"\n");
    sink.put(&line)
}
