ghost use Rattle.std.specs.Prelude.{◌≡◌, ◌≤◌, ◌++◌, length};
ghost use Rattle.outside.specs.Sink.{Takes, HasCause};
ghost use Rattle.report.specs.Lines.{vm_line, end_line, core_parked_line, register_line, nonzero_line, x_name, console_head, memory_line};
ghost use Rattle.text_lines.specs.Newline.{newline};
ghost use Rattle.std.specs.Fmt.{decimal};
ghost use Rattle.numerals.specs.Hex.{hex};
ghost use Rattle.report.specs.Section.{power_line};

use crate::line::Line;
use hypercalls::Power;
use outside::{Sink, SinkFailed};
use text_lines::{push_decimal, push_hex, push_hex_bytes, push_text};

/// `vm NAME`
#[tactic(auto, unfolding(crate::specs::Lines::vm_line))]
pub fn put_vm<K: Sink>(sink: &mut K, name: &[u8]) -> Result<(), SinkFailed>
    requires { length name.now ≤ 16 }
    ensures taken { Takes (K.taken sink.old) (K.taken sink.new) (vm_line name.now) result }
    ensures cause { HasCause (K.faults sink.old) (K.faults sink.new) result }
{
    put_named(sink, b"vm ", name)
}

/// `end NAME`
#[tactic(auto, unfolding(crate::specs::Lines::end_line))]
pub fn put_end<K: Sink>(sink: &mut K, name: &[u8]) -> Result<(), SinkFailed>
    requires { length name.now ≤ 16 }
    ensures taken { Takes (K.taken sink.old) (K.taken sink.new) (end_line name.now) result }
    ensures cause { HasCause (K.faults sink.old) (K.faults sink.new) result }
{
    put_named(sink, b"end ", name)
}

/// A word and a name.
fn put_named<K: Sink>(sink: &mut K, word: &[u8], name: &[u8]) -> Result<(), SinkFailed>
    requires word { length word.now ≤ 16 }
    requires name { length name.now ≤ 16 }
    ensures taken { Takes (K.taken sink.old) (K.taken sink.new) (word.now ++ (name.now ++ newline)) result }
    ensures cause { HasCause (K.faults sink.old) (K.faults sink.new) result }
{
    let mut line = Line::new();
    push_text(&mut line, word);
    push_text(&mut line, name);
    push_text(&mut line, b"\n");
    sink.put(&line)
}

/// A word, a number and the rest of the line.
fn put_numbered<K: Sink>(
    sink: &mut K,
    word: &[u8],
    number: u32,
    rest: &[u8],
) -> Result<(), SinkFailed>
    requires word { length word.now ≤ 16 }
    requires rest { length rest.now ≤ 16 }
    ensures taken { Takes (K.taken sink.old) (K.taken sink.new) (word.now ++ (decimal number ++ rest.now)) result }
    ensures cause { HasCause (K.faults sink.old) (K.faults sink.new) result }
{
    let mut line = Line::new();
    push_text(&mut line, word);
    push_decimal(&mut line, number);
    push_text(&mut line, rest);
    sink.put(&line)
}

/// A register with this many hexadecimal digits.
#[tactic(auto, unfolding(crate::specs::Lines::register_line))]
pub fn put_register<K: Sink>(
    sink: &mut K,
    name: &[u8],
    digits: u32,
    value: u64,
) -> Result<(), SinkFailed>
    requires name { length name.now ≤ 16 }
    requires digits { digits ≤ 16 }
    ensures taken { Takes (K.taken sink.old) (K.taken sink.new) (register_line name.now digits value) result }
    ensures cause { HasCause (K.faults sink.old) (K.faults sink.new) result }
{
    let mut line = Line::new();
    push_text(&mut line, name);
    push_text(&mut line, b" ");
    push_hex(&mut line, digits, value);
    push_text(&mut line, b"\n");
    sink.put(&line)
}

/// A 64-bit register, where it isn't zero.
#[tactic(auto, using(crate::proofs::Progress::nothing_taken), unfolding(crate::specs::Lines::nonzero_line))]
pub fn put_nonzero<K: Sink>(sink: &mut K, name: &[u8], value: u64) -> Result<(), SinkFailed>
    requires { length name.now ≤ 16 }
    ensures taken { Takes (K.taken sink.old) (K.taken sink.new) (nonzero_line name.now value) result }
    ensures cause { HasCause (K.faults sink.old) (K.faults sink.new) result }
{
    if value == 0 {
        return Ok(());
    }
    put_register(sink, name, 16, value)
}

/// `core J on`, `core J off` or `core J parked ESR FAR`. A core that the machine doesn't have is off.
#[tactic(auto, unfolding(crate::specs::Lines::core_on_line, crate::specs::Lines::core_off_line))]
pub fn put_core<K: Sink>(sink: &mut K, j: u8, power: Option<Power>) -> Result<(), SinkFailed>
    ensures taken { Takes (K.taken sink.old) (K.taken sink.new) (power_line j power) result }
    ensures cause { HasCause (K.faults sink.old) (K.faults sink.new) result }
{
    match power {
        Some(Power::On) => put_numbered(sink, b"core ", u32::from(j), b" on\n"),
        Some(Power::Off) | None => put_numbered(sink, b"core ", u32::from(j), b" off\n"),
        Some(Power::Parked { esr, far }) => put_parked(sink, j, esr, far),
    }
}

/// `core J parked ESR FAR`, with 8 and 16 hexadecimal digits.
#[tactic(auto, unfolding(crate::specs::Lines::core_parked_line))]
fn put_parked<K: Sink>(sink: &mut K, j: u8, esr: u64, far: u64) -> Result<(), SinkFailed>
    ensures taken { Takes (K.taken sink.old) (K.taken sink.new) (core_parked_line j esr far) result }
    ensures cause { HasCause (K.faults sink.old) (K.faults sink.new) result }
{
    let mut line = Line::new();
    push_text(&mut line, b"core ");
    push_decimal(&mut line, u32::from(j));
    push_text(&mut line, b" parked ");
    push_hex(&mut line, 8, esr);
    push_text(&mut line, b" ");
    push_hex(&mut line, 16, far);
    push_text(&mut line, b"\n");
    sink.put(&line)
}

/// A general register, where it isn't zero.
#[tactic(auto, unfolding(crate::specs::Lines::x_name))]
pub fn put_x<K: Sink>(sink: &mut K, n: u8, value: u64) -> Result<(), SinkFailed>
    ensures taken { Takes (K.taken sink.old) (K.taken sink.new) (nonzero_line (x_name n) value) result }
    ensures cause { HasCause (K.faults sink.old) (K.faults sink.new) result }
{
    let mut name = Line::new();
    push_text(&mut name, b"x");
    push_decimal(&mut name, u32::from(n));
    put_nonzero(sink, &name, value)
}

/// `console ID=`
#[tactic(auto, unfolding(crate::specs::Lines::console_head))]
pub fn put_console_head<K: Sink>(sink: &mut K, id: u8) -> Result<(), SinkFailed>
    ensures taken { Takes (K.taken sink.old) (K.taken sink.new) (console_head id) result }
    ensures cause { HasCause (K.faults sink.old) (K.faults sink.new) result }
{
    put_numbered(sink, b"console ", u32::from(id), b"=")
}

/// Two digits of a byte.
pub fn put_byte<K: Sink>(sink: &mut K, byte: u8) -> Result<(), SinkFailed>
    ensures taken { Takes (K.taken sink.old) (K.taken sink.new) (hex 2 byte) result }
    ensures cause { HasCause (K.faults sink.old) (K.faults sink.new) result }
{
    let mut line = Line::new();
    push_hex(&mut line, 2, u64::from(byte));
    sink.put(&line)
}

/// `m`, an address and 16 bytes.
#[tactic(auto, unfolding(crate::specs::Lines::memory_line))]
pub fn put_memory<K: Sink>(sink: &mut K, at: u64, bytes: &[u8]) -> Result<(), SinkFailed>
    requires { length bytes.now ≤ 16 }
    ensures taken { Takes (K.taken sink.old) (K.taken sink.new) (memory_line at bytes.now) result }
    ensures cause { HasCause (K.faults sink.old) (K.faults sink.new) result }
{
    let mut line = Line::new();
    push_text(&mut line, b"m ");
    push_hex(&mut line, 16, at);
    push_text(&mut line, b" ");
    push_hex_bytes(&mut line, bytes);
    push_text(&mut line, b"\n");
    sink.put(&line)
}
