ghost use Rattle.std.specs.Prelude.{◌≡◌, ◌++◌, true, length};
ghost use Rattle.outside.specs.Sink.{Takes, HasCause};
ghost use Rattle.bao_wellformed.specs.Checked.{checked_data};
ghost use Rattle.hypervisor.specs.Hyp.{stands_for};
ghost use Rattle.report.specs.Section.{report, sections};

use crate::section::write_section;
use bao_wellformed::Checked;
use board::Board;
use hypervisor::Hyp;
use outside::{Sink, SinkFailed};

/// Writes the report of the machine for which hypervisor and board stand: a section for each VM, then `done`.
#[tactic(auto, using(outside::proofs::Puts::in_parts), unfolding(crate::specs::Lines::done_line))]
pub fn write_report<K: Sink, B: Board>(
    sink: &mut K,
    board: &B,
    checked: &Checked,
    hyp: &Hyp,
) -> Result<(), SinkFailed>
    requires fitted { (B.state board.now).fitted ≡ true }
    requires cores { length (B.state board.now).shape.cores ≡ length (checked_data checked.now).platform.cores }
    ensures taken { Takes (K.taken sink.old) (K.taken sink.new)
        (report (checked_data checked.now) (stands_for (checked_data checked.now) hyp.now (B.state board.now))) result }
    ensures cause { HasCause (K.faults sink.old) (K.faults sink.new) result }
{
    write_sections(sink, board, checked, hyp)?;
    sink.put(b"done\n")
}

/// The sections of the VMs, in the configuration's order.
#[tactic(auto, using(outside::proofs::Puts::begun))]
fn write_sections<K: Sink, B: Board>(
    sink: &mut K,
    board: &B,
    checked: &Checked,
    hyp: &Hyp,
) -> Result<(), SinkFailed>
    requires fitted { (B.state board.now).fitted ≡ true }
    requires cores { length (B.state board.now).shape.cores ≡ length (checked_data checked.now).platform.cores }
    ensures taken { let cfg = checked_data checked.now in
        Takes (K.taken sink.old) (K.taken sink.new) (sections cfg (stands_for cfg hyp.now (B.state board.now)) cfg.vms) result }
    ensures cause { HasCause (K.faults sink.old) (K.faults sink.new) result }
{
    for vm in checked.config().vms.as_slice() {
        write_section(sink, board, checked.config(), vm, hyp)?;
    }
    Ok(())
}
