//! The summary: a line for each VM.
ghost use Rattle.std.specs.Prelude.{◌≡◌, ◌+◌, ◌*◌, ◌%◌, ◌^◌, ◌<◌, ◌≤◌, ◌++◌, true, All, length, sum};
ghost use Rattle.std.specs.List.{flat_map};
ghost use Rattle.outside.specs.Sink.{Takes, HasCause};
ghost use Rattle.bao_config.specs.Data.{vm_data};
ghost use Rattle.bao_wellformed.specs.Checked.{checked_data};
ghost use Rattle.board.specs.Ports.{outputs};
ghost use Rattle.hypervisor.specs.Hyp.{stands_for};
ghost use Rattle.report.specs.Summary.{summary, vm_summary, summary_line, summary_head, summary_counts, first_x0, dev_output, joined_output, checksum};

use crate::line::Line;
use bao_config::{Dev, Vm};
use bao_wellformed::Checked;
use board::{Board, CONSOLES};
use hypervisor::Hyp;
use outside::{Sink, SinkFailed};
use text_lines::{push_hex, push_long_decimal, push_text};

/// What consoles have put out together.
#[derive(Clone, Copy)]
struct Output {
    /// The number of bytes.
    len: u64,
    /// Their sum modulo 2^32.
    sum: u32,
}

/// Writes the summary of the machine for which hypervisor and board stand: a line for each VM, by one put, then `done`. It
/// shows no core's power, so `hyp` serves the contract alone.
#[tactic(auto, using(outside::proofs::Puts::in_parts), unfolding(crate::specs::Lines::done_line))]
pub fn write_summary<K: Sink, B: Board>(
    sink: &mut K,
    board: &B,
    checked: &Checked,
    hyp: &Hyp,
) -> Result<(), SinkFailed>
    requires fitted { (B.state board.now).fitted ≡ true }
    requires cores { length (B.state board.now).shape.cores ≡ length (checked_data checked.now).platform.cores }
    ensures taken { Takes (K.taken sink.old) (K.taken sink.new)
        (summary (checked_data checked.now) (stands_for (checked_data checked.now) hyp.now (B.state board.now))) result }
    ensures cause { HasCause (K.faults sink.old) (K.faults sink.new) result }
{
    write_vms(sink, board, checked)?;
    sink.put(b"done\n")
}

/// The lines of the VMs, in the configuration's order.
#[tactic(auto, using(outside::proofs::Puts::begun))]
fn write_vms<K: Sink, B: Board>(
    sink: &mut K,
    board: &B,
    checked: &Checked,
) -> Result<(), SinkFailed>
    requires fitted { (B.state board.now).fitted ≡ true }
    requires cores { length (B.state board.now).shape.cores ≡ length (checked_data checked.now).platform.cores }
    ensures taken { let m = B.state board.now in
        Takes (K.taken sink.old) (K.taken sink.new)
        (flat_map (vm_summary m.cores (outputs m.ports)) (checked_data checked.now).vms) result }
    ensures cause { HasCause (K.faults sink.old) (K.faults sink.new) result }
{
    for vm in checked.config().vms.as_slice() {
        write_vm(sink, board, vm)?;
    }
    Ok(())
}

/// The line of a VM, whose cores the board has.
fn write_vm<K: Sink, B: Board>(sink: &mut K, board: &B, vm: &Vm) -> Result<(), SinkFailed>
    requires fitted { (B.state board.now).fitted ≡ true }
    requires name { length vm.now.name ≤ 16 }
    requires cores { All (λ core. core < length (B.state board.now).shape.cores) vm.now.cores.items }
    ensures taken { let m = B.state board.now in
        Takes (K.taken sink.old) (K.taken sink.new) (vm_summary m.cores (outputs m.ports) (vm_data vm.now)) result }
    ensures cause { HasCause (K.faults sink.old) (K.faults sink.new) result }
{
    let name = vm.name.as_str().as_bytes();
    let x0 = first_x0(board, &vm.cores);
    let output = joined_output(board, &vm.devs);
    put_summary(sink, name, x0, output)
}

/// X0 of the first of these cores, 0 where there is none.
fn first_x0<B: Board>(board: &B, cores: &[u8]) -> u64
    requires fitted { (B.state board.now).fitted ≡ true }
    requires cores { All (λ core. core < length (B.state board.now).shape.cores) cores.now }
    ensures { result ≡ first_x0 (B.state board.now).cores cores.now }
{
    match cores.first() {
        Some(core) => board.core_view(*core).x[0],
        None => 0,
    }
}

/// What the consoles among a VM's devs have put out.
fn joined_output<B: Board>(board: &B, devs: &[Dev]) -> Output
    requires fitted { (B.state board.now).fitted ≡ true }
    requires few { length devs.now ≤ 16 }
    ensures len { result.len ≡ length (joined_output (outputs (B.state board.now).ports) devs.now) }
    ensures sum { result.sum ≡ checksum (joined_output (outputs (B.state board.now).ports) devs.now) }
{
    let mut joined = Output { len: 0, sum: 0 };
    for dev in devs {
        let output = dev_output(board, dev);
        joined.len += output.len;
        joined.sum = joined.sum.wrapping_add(output.sum);
    }
    joined
}

/// What a dev has put out, where it is a console.
fn dev_output<B: Board>(board: &B, dev: &Dev) -> Output
    requires fitted { (B.state board.now).fitted ≡ true }
    ensures len { result.len ≡ length (dev_output (outputs (B.state board.now).ports) dev.now) }
    ensures few { result.len < 2 ^ 32 }
    ensures sum { result.sum ≡ checksum (dev_output (outputs (B.state board.now).ports) dev.now) }
{
    if dev.port >= CONSOLES {
        return Output { len: 0, sum: 0 };
    }
    Output {
        len: u64::from(board.port_len(dev.port)),
        sum: output_sum(board, dev.port),
    }
}

/// The sum of the bytes that a port has put out, modulo 2^32.
fn output_sum<B: Board>(board: &B, port: u8) -> u32
    requires fitted { (B.state board.now).fitted ≡ true }
    requires port { port < 16 }
    ensures { result ≡ checksum (outputs (B.state board.now).ports port) }
{
    let mut sum: u32 = 0;
    for i in 0..board.port_len(port) {
        sum = sum.wrapping_add(u32::from(board.port_byte(port, i)));
    }
    sum
}

/// `vm NAME x0 H out LEN sum P`
fn put_summary<K: Sink>(
    sink: &mut K,
    name: &[u8],
    x0: u64,
    output: Output,
) -> Result<(), SinkFailed>
    requires { length name.now ≤ 16 }
    ensures taken { Takes (K.taken sink.old) (K.taken sink.new) (summary_line name.now x0 output.len output.sum) result }
    ensures cause { HasCause (K.faults sink.old) (K.faults sink.new) result }
{
    let mut line = Line::new();
    push_head(&mut line, name, x0);
    push_counts(&mut line, output);
    sink.put(&line)
}

#[tactic(auto, unfolding(crate::specs::Summary::summary_head))]
fn push_head(line: &mut Line, name: &[u8], x0: u64)
    requires line { length line.old.items ≡ 0 }
    requires name { length name.now ≤ 16 }
    ensures text { line.new.items ≡ line.old.items ++ summary_head name.now x0 }
    ensures len { length line.new.items ≤ 64 }
{
    push_text(line, b"vm ");
    push_text(line, name);
    push_text(line, b" x0 ");
    push_hex(line, 16, x0);
}

#[tactic(auto, unfolding(crate::specs::Summary::summary_counts))]
fn push_counts(line: &mut Line, output: Output)
    requires { length line.old.items ≤ 64 }
    ensures { line.new.items ≡ line.old.items ++ summary_counts output.len output.sum }
{
    push_text(line, b" out ");
    push_long_decimal(line, output.len);
    push_text(line, b" sum ");
    push_hex(line, 8, u64::from(output.sum));
    push_text(line, b"\n");
}
