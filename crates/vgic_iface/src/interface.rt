ghost use Rattle.std.specs.Prelude.{◌≡◌, ◌<◌, not};
ghost use Rattle.vgic_iface.specs.Active.{running, with_priority, without_running};
ghost use Rattle.vgic_iface.specs.Interface.{acknowledged, best_listed, ended, is_signalled, is_unlisted, listed_signal, lists_acknowledged, lists_ended};

use crate::lists::{best_listed, make_active, make_inactive};
use bao_types::{ID_END, IfaceRegs, ListReg};

/// What ICC_IAR1_EL1 reads where no interrupt is signalled.
pub const NO_INTERRUPT: u16 = 1023;

/// The interrupt that the core may take, by its list registers. None exactly where no listed id may be taken.
pub fn signal(iface: &IfaceRegs, lists: &[ListReg; 4]) -> Option<u16>
    ensures { result ≡ listed_signal iface.now lists.now }
{
    // Asked before every step of a core, of which most have the group off or nothing pending.
    if !iface.group {
        return None;
    }
    let best = best_listed(lists);
    if is_signalled(iface, best) {
        Some(best % 128)
    } else {
        None
    }
}

/// Takes the interrupt that is signalled: it becomes active and is pending no longer, and its priority becomes active.
/// Where there is none the answer is None, and nothing changes (ICC_IAR1_EL1).
pub fn acknowledge(iface: &mut IfaceRegs, lists: &mut [ListReg; 4]) -> Option<u16>
    ensures value { result ≡ listed_signal iface.old lists.old }
    ensures after { iface.new ≡ acknowledged iface.old (best_listed lists.old) }
    ensures lists { lists.new ≡ lists_acknowledged iface.old lists.old }
{
    let best = best_listed(lists);
    if !is_signalled(iface, best) {
        return None;
    }
    let id = best % 128;
    make_active(lists, id);
    iface.active = with_priority(iface.active, best / 128);
    Some(id)
}

/// Ends an interrupt: the running priority is active no longer, nor is the id. An id of 96 or more changes nothing
/// (ICC_EOIR1_EL1). False exactly where the id is below 96 and stands in no list register; its end in the table is then
/// still to come.
pub fn end(iface: &mut IfaceRegs, lists: &mut [ListReg; 4], id: u16) -> bool
    ensures found { result ≡ not (is_unlisted lists.old id) }
    ensures after { iface.new ≡ ended iface.old id }
    ensures lists { lists.new ≡ lists_ended lists.old id }
{
    if id >= ID_END {
        return true;
    }
    iface.active = without_running(iface.active);
    make_inactive(lists, id)
}

/// The running priority: the least active one, 0xFF where there is none (ICC_RPR_EL1).
pub fn running(iface: &IfaceRegs) -> u8
    ensures { result ≡ running iface.now.active }
{
    least_active(iface.active)
}

/// Whether the core may take an interrupt of this rank.
fn is_signalled(iface: &IfaceRegs, best: u16) -> bool
    ensures { result ≡ is_signalled iface.now best }
{
    iface.group && best / 128 < u16::from(iface.pmr.min(running(iface)))
}

/// The least of the active priorities.
fn least_active(active: u32) -> u8
    ensures { result ≡ running active }
{
    if active == 0 {
        0xff
    } else {
        (8 * active.trailing_zeros()) as u8
    }
}

/// The active priorities and one more.
fn with_priority(active: u32, priority: u16) -> u32
    requires { priority < 256 }
    ensures { result ≡ with_priority active priority }
{
    active | 1 << (priority / 8)
}

/// The active priorities without the least one.
fn without_running(active: u32) -> u32
    ensures { result ≡ without_running active }
{
    if active == 0 {
        0
    } else {
        active - (1 << active.trailing_zeros())
    }
}
