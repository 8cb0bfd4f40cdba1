//! The registers of a core in a section: PC and PSTATE always, all others where they aren't zero.
ghost use Rattle.std.specs.Prelude.{◌≤◌, All, length, map};
ghost use Rattle.outside.specs.Sink.{Takes, HasCause};
ghost use Rattle.report.specs.Registers.{general_text, named, nonzero_lines, registers_text};

use crate::lines::{put_nonzero, put_register, put_x};
use board::CoreView;
use outside::{Sink, SinkFailed};

/// A register with the name that it is shown by.
type Named<'a> = (&'a [u8], u64);

/// The registers of a core: PC and PSTATE, and of all others those that aren't zero.
#[tactic(auto, using(outside::proofs::Puts::in_parts), unfolding(crate::specs::Registers::registers_text))]
pub fn write_registers<K: Sink>(sink: &mut K, view: &CoreView) -> Result<(), SinkFailed>
    ensures taken { Takes (K.taken sink.old) (K.taken sink.new) (registers_text view.now) result }
    ensures cause { HasCause (K.faults sink.old) (K.faults sink.new) result }
{
    put_register(sink, b"pc", 16, view.pc)?;
    put_register(sink, b"pstate", 8, u64::from(view.pstate))?;
    write_nonzero(sink, &[(b"sp_el0", view.sp0), (b"sp_el1", view.sp1)])?;
    write_general(sink, &view.x)?;
    write_nonzero(
        sink,
        &[
            (b"elr_el1", view.elr),
            (b"spsr_el1", view.spsr),
            (b"esr_el1", view.esr),
            (b"far_el1", view.far),
            (b"vbar_el1", view.vbar),
            (b"sctlr_el1", view.sctlr),
        ],
    )
}

/// The registers that aren't zero.
#[tactic(auto, using(outside::proofs::Puts::begun))]
fn write_nonzero<K: Sink>(sink: &mut K, registers: &[Named]) -> Result<(), SinkFailed>
    requires names { All (λ register. length register.0.now ≤ 16) registers.now }
    ensures taken { Takes (K.taken sink.old) (K.taken sink.new)
        (nonzero_lines (map (λ register. named register.0.now register.1) registers.now)) result }
    ensures cause { HasCause (K.faults sink.old) (K.faults sink.new) result }
{
    for register in registers {
        put_nonzero(sink, register.0, register.1)?;
    }
    Ok(())
}

/// The general registers that aren't zero.
#[tactic(auto, using(crate::proofs::Texts::general_begins, crate::proofs::Texts::general_goes_on, crate::proofs::Texts::general_stops, crate::proofs::Texts::general_ends))]
fn write_general<K: Sink>(sink: &mut K, values: &[u64; 31]) -> Result<(), SinkFailed>
    ensures taken { Takes (K.taken sink.old) (K.taken sink.new) (general_text 0 values.now) result }
    ensures cause { HasCause (K.faults sink.old) (K.faults sink.new) result }
{
    for (n, value) in values.iter().enumerate() {
        put_x(sink, n as u8, *value)?;
    }
    Ok(())
}
