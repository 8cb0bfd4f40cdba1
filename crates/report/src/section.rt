ghost use Rattle.std.specs.Prelude.{◌≡◌, ℕ, ◌+◌, ◌*◌, ◌<◌, ◌≤◌, ◌++◌, true, [], ◌∷◌, All, length};
ghost use Rattle.outside.specs.Sink.{Takes, HasCause};
ghost use Rattle.board.specs.Ports.{outputs};
ghost use Rattle.report.specs.Lines.{console_line};
ghost use Rattle.text_lines.specs.Digits.{hex_bytes};
ghost use Rattle.bao_types.specs.ByteRange.{address_space_end, end};
ghost use Rattle.bao_config.specs.Config.{config_data};
ghost use Rattle.bao_config.specs.Data.{vm_data};
ghost use Rattle.bao_wellformed.specs.Map.{map_of};
ghost use Rattle.bao_wellformed.specs.ByteRules.{kind_in};
ghost use Rattle.hypervisor.specs.Hyp.{stands_for};
ghost use Rattle.report.specs.Section.{vm_text, cores_text, core_text, consoles_text, console_text, memory_text, all_groups, is_memory, are_zero, run_of};
ghost use Rattle.report.specs.Groups.{alike_text, groups_text, plain_group, IsBeside};

use crate::lines::{put_byte, put_console_head, put_core, put_end, put_memory, put_vm};
use crate::registers::write_registers;
use arrayvec::ArrayVec;
use bao_config::{Config, Dev, Vm};
use bao_types::ADDRESS_SPACE_END;
use bao_wellformed::{Kind, MapEntry, kind_in, map_of};
use board::{Board, CONSOLES};
use hypervisor::Hyp;
use outside::{Sink, SinkFailed};

/// How many groups of 16 bytes the address space has.
const ALL_GROUPS: u64 = ADDRESS_SPACE_END / 16;

/// The section of a VM, whose cores the board has.
#[tactic(auto, using(outside::proofs::Puts::in_parts), unfolding(crate::specs::Section::vm_text))]
pub fn write_section<K: Sink, B: Board>(
    sink: &mut K,
    board: &B,
    config: &Config,
    vm: &Vm,
    hyp: &Hyp,
) -> Result<(), SinkFailed>
    requires fitted { (B.state board.now).fitted ≡ true }
    requires name { length vm.now.name ≤ 16 }
    requires cores { All (λ core. core < length (B.state board.now).shape.cores) vm.now.cores.items }
    requires space { All (λ entry. end entry.range ≤ address_space_end) (map_of (config_data config.now) (vm_data vm.now)) }
    ensures taken { Takes (K.taken sink.old) (K.taken sink.new)
        (vm_text (config_data config.now) (stands_for (config_data config.now) hyp.now (B.state board.now)) (vm_data vm.now)) result }
    ensures cause { HasCause (K.faults sink.old) (K.faults sink.new) result }
{
    let name = vm.name.as_str().as_bytes();
    put_vm(sink, name)?;
    write_cores(sink, board, &vm.cores, hyp)?;
    write_consoles(sink, board, &vm.devs)?;
    write_memory(sink, board, &map_of(config, vm))?;
    put_end(sink, name)
}

/// The virtual cores of a VM, each on its physical core.
#[tactic(auto, using(outside::proofs::Puts::begun))]
fn write_cores<K: Sink, B: Board>(
    sink: &mut K,
    board: &B,
    cores: &[u8],
    hyp: &Hyp,
) -> Result<(), SinkFailed>
    requires fitted { (B.state board.now).fitted ≡ true }
    requires cores { All (λ core. core < length (B.state board.now).shape.cores) cores.now }
    requires few { length cores.now ≤ 8 }
    ensures taken { Takes (K.taken sink.old) (K.taken sink.new)
        (cores_text hyp.now.powers (B.state board.now).cores 0 cores.now) result }
    ensures cause { HasCause (K.faults sink.old) (K.faults sink.new) result }
{
    for (j, core) in cores.iter().enumerate() {
        write_core(sink, board, j as u8, *core, hyp)?;
    }
    Ok(())
}

/// A virtual core: whether it is on, and its registers.
#[tactic(auto, using(outside::proofs::Puts::in_parts), unfolding(crate::specs::Section::core_text))]
fn write_core<K: Sink, B: Board>(
    sink: &mut K,
    board: &B,
    j: u8,
    core: u8,
    hyp: &Hyp,
) -> Result<(), SinkFailed>
    requires fitted { (B.state board.now).fitted ≡ true }
    requires core { core < length (B.state board.now).shape.cores }
    ensures taken { Takes (K.taken sink.old) (K.taken sink.new) (core_text hyp.now.powers (B.state board.now).cores j core) result }
    ensures cause { HasCause (K.faults sink.old) (K.faults sink.new) result }
{
    put_core(sink, j, hyp.power_of_core(core))?;
    write_registers(sink, &board.core_view(core))
}

/// What the consoles among a VM's devs have put out, in their order.
#[tactic(auto, using(outside::proofs::Puts::begun))]
fn write_consoles<K: Sink, B: Board>(
    sink: &mut K,
    board: &B,
    devs: &[Dev],
) -> Result<(), SinkFailed>
    requires fitted { (B.state board.now).fitted ≡ true }
    ensures taken { Takes (K.taken sink.old) (K.taken sink.new) (consoles_text (outputs (B.state board.now).ports) devs.now) result }
    ensures cause { HasCause (K.faults sink.old) (K.faults sink.new) result }
{
    for dev in devs {
        write_console_of(sink, board, dev)?;
    }
    Ok(())
}

/// What a port has put out, where it is a console.
#[tactic(auto, using(crate::proofs::Progress::nothing_taken), unfolding(crate::specs::Section::console_text))]
fn write_console_of<K: Sink, B: Board>(sink: &mut K, board: &B, dev: &Dev) -> Result<(), SinkFailed>
    requires fitted { (B.state board.now).fitted ≡ true }
    ensures taken { Takes (K.taken sink.old) (K.taken sink.new) (console_text (outputs (B.state board.now).ports) dev.now) result }
    ensures cause { HasCause (K.faults sink.old) (K.faults sink.new) result }
{
    if dev.port >= CONSOLES {
        return Ok(());
    }
    write_console(sink, board, dev.port)
}

/// What a console has put out.
#[tactic(auto, using(outside::proofs::Puts::in_parts), unfolding(crate::specs::Lines::console_line))]
fn write_console<K: Sink, B: Board>(sink: &mut K, board: &B, port: u8) -> Result<(), SinkFailed>
    requires fitted { (B.state board.now).fitted ≡ true }
    requires port { port < 16 }
    ensures taken { Takes (K.taken sink.old) (K.taken sink.new) (console_line port (outputs (B.state board.now).ports port)) result }
    ensures cause { HasCause (K.faults sink.old) (K.faults sink.new) result }
{
    put_console_head(sink, port)?;
    write_output(sink, board, port)?;
    sink.put(b"\n")
}

#[tactic(auto, using(crate::proofs::Texts::bytes_begin, crate::proofs::Texts::bytes_go_on, crate::proofs::Texts::bytes_stop, crate::proofs::Texts::bytes_end))]
fn write_output<K: Sink, B: Board>(sink: &mut K, board: &B, port: u8) -> Result<(), SinkFailed>
    requires fitted { (B.state board.now).fitted ≡ true }
    requires port { port < 16 }
    ensures taken { Takes (K.taken sink.old) (K.taken sink.new) (hex_bytes (outputs (B.state board.now).ports port)) result }
    ensures cause { HasCause (K.faults sink.old) (K.faults sink.new) result }
{
    for i in 0..board.port_len(port) {
        put_byte(sink, board.port_byte(port, i))?;
    }
    Ok(())
}

/// The memory of a VM by its map: each group of 16 bytes that isn't all zero.
#[tactic(auto, using(outside::proofs::Puts::begun))]
fn write_memory<K: Sink, B: Board>(
    sink: &mut K,
    board: &B,
    map: &[MapEntry],
) -> Result<(), SinkFailed>
    requires fitted { (B.state board.now).fitted ≡ true }
    requires space { All (λ entry. end entry.range ≤ address_space_end) map.now }
    ensures taken { Takes (K.taken sink.old) (K.taken sink.new)
        (memory_text (kind_in map.now) (B.state board.now).bytes all_groups 0) result }
    ensures cause { HasCause (K.faults sink.old) (K.faults sink.new) result }
{
    let mut group = 0;
    while group < ALL_GROUPS {
        // The bytes up to the next change are of one kind.
        let next = (next_change(map, 16 * group) + 15) / 16;
        write_alike(
            sink,
            board,
            kind_in(map, 16 * group),
            16 * group,
            next - group,
        )?;
        group = next;
    }
    Ok(())
}

/// An address up to which all bytes from `at` on are what the byte at `at` is.
fn next_change(map: &[MapEntry], at: u64) -> u64
    requires at { at < address_space_end }
    requires space { All (λ entry. end entry.range ≤ address_space_end) map.now }
    ensures above { at < result }
    ensures space { result ≤ address_space_end }
    ensures alike { (a : ℕ) → at ≤ a → a < result → kind_in map.now a ≡ kind_in map.now at }
{
    let mut next = ADDRESS_SPACE_END;
    for entry in map {
        next = nearer(at, next, entry.range.base);
        next = nearer(at, next, entry.range.end());
    }
    next
}

/// The bound, where it lies between two addresses, else the second of them.
fn nearer(at: u64, next: u64, bound: u64) -> u64
    requires { at < next }
    ensures above { at < result }
    ensures below { result ≤ next }
    ensures beside { IsBeside bound at result }
{
    if at < bound && bound < next {
        bound
    } else {
        next
    }
}

/// Groups of 16 bytes that are all of one kind, where that is memory.
#[tactic(auto, using(crate::proofs::Progress::nothing_taken), unfolding(crate::specs::Groups::alike_text))]
fn write_alike<K: Sink, B: Board>(
    sink: &mut K,
    board: &B,
    kind: Kind,
    first: u64,
    groups: u64,
) -> Result<(), SinkFailed>
    requires fitted { (B.state board.now).fitted ≡ true }
    requires range { first + 16 * groups ≤ address_space_end }
    ensures taken { Takes (K.taken sink.old) (K.taken sink.new) (alike_text kind (B.state board.now).bytes groups first) result }
    ensures cause { HasCause (K.faults sink.old) (K.faults sink.new) result }
{
    if !is_memory(kind) {
        return Ok(());
    }
    write_groups(sink, board, first, groups)
}

/// Whether a VM has memory where a byte is of this kind.
fn is_memory(kind: Kind) -> bool
    ensures { result ≡ is_memory kind }
{
    match kind {
        Kind::Ram { .. } | Kind::Window { .. } => true,
        Kind::Port { .. } | Kind::Hole => false,
    }
}

/// This many groups of 16 bytes of memory from an address on, those that aren't all zero.
#[tactic(auto, using(crate::proofs::Progress::under_way, crate::proofs::Texts::groups_go_on, crate::proofs::Texts::groups_stop, crate::proofs::Texts::groups_end))]
fn write_groups<K: Sink, B: Board>(
    sink: &mut K,
    board: &B,
    first: u64,
    groups: u64,
) -> Result<(), SinkFailed>
    requires fitted { (B.state board.now).fitted ≡ true }
    requires range { first + 16 * groups ≤ address_space_end }
    ensures taken { Takes (K.taken sink.old) (K.taken sink.new) (groups_text (B.state board.now).bytes groups first) result }
    ensures cause { HasCause (K.faults sink.old) (K.faults sink.new) result }
{
    let mut at = first;
    for i in 0..groups {
        write_group(sink, board, at)?;
        at += 16;
    }
    Ok(())
}

#[tactic(auto, using(crate::proofs::Progress::nothing_taken, crate::proofs::Runs::length_run_of), unfolding(crate::specs::Groups::plain_group))]
fn write_group<K: Sink, B: Board>(sink: &mut K, board: &B, at: u64) -> Result<(), SinkFailed>
    requires fitted { (B.state board.now).fitted ≡ true }
    requires range { at + 16 ≤ address_space_end }
    ensures taken { Takes (K.taken sink.old) (K.taken sink.new) (plain_group (B.state board.now).bytes at) result }
    ensures cause { HasCause (K.faults sink.old) (K.faults sink.new) result }
{
    let bytes = read_group(board, at);
    if are_zero(&bytes) {
        return Ok(());
    }
    put_memory(sink, at, &bytes)
}

/// The 16 bytes from an address on.
#[tactic(auto, using(crate::proofs::Runs::run_of_none, crate::proofs::Runs::run_of_more, crate::proofs::Runs::length_run_of))]
fn read_group<B: Board>(board: &B, at: u64) -> ArrayVec<u8, 16>
    requires fitted { (B.state board.now).fitted ≡ true }
    requires range { at + 16 ≤ address_space_end }
    ensures { result.items ≡ run_of (B.state board.now).bytes at 16 }
{
    let mut bytes = ArrayVec::new();
    for i in 0..16 {
        bytes.push(board.byte_at(at + i));
    }
    bytes
}

fn are_zero(bytes: &[u8]) -> bool
    ensures { result ≡ are_zero bytes.now }
{
    bytes.iter().all(|byte| *byte == 0)
}
