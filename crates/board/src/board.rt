ghost use Rattle.std.specs.Prelude.{◌≡◌, ◌<◌, length, slice_index, slice_index_or, OnOk, OnErr, IsTrue, ◌==◌, true, false};
ghost use Rattle.std.specs.List.{list_any};
ghost use Rattle.bao_types.specs.Shape.{shape_data};

use crate::CoreView;
use bao_types::{ListReg, OutOfMemory, Region, Shape};
use std::alloc::Global;

/// The ports below this number are consoles.
pub const CONSOLES: u8 = 8;

/// Why a core stopped after a step.
#[derive(Clone, Copy, Debug, PartialEq, Eq)]
pub enum Exit {
    /// The core has executed one instruction, or has taken an exception or an interrupt at EL1.
    Ran,
    /// An interrupt line is raised for the core, and EL2 is to take it ([`Board::ack`]). Nothing has changed but what the core's
    /// timer made of its line.
    Irq,
    /// An exception goes to EL2: a call, or an abort that stage 2 makes. HVC leaves PC at the next instruction, all else
    /// leaves it at the instruction; the other registers and memory are as before.
    Sync {
        /// The syndrome, as ESR_EL2 has it.
        esr: u64,
        /// The fault address of an abort, else 0.
        far: u64,
    },
    /// The core has ended an interrupt that stands in none of its list registers; its end is EL2's. The instruction is carried
    /// out, and the running priority has been dropped.
    End {
        /// The interrupt's number, below 96.
        id: u16,
    },
}

/// A machine with memory, cores and ports, whose cores' EL2 entries decide what a guest may touch.
///
/// Its ports are those of the standard list: 0 to 7 are consoles, 8 to 11 scratch ports and 12 to 15 tickers. A board is fitted
/// once with its shape. Every call but `fit` and `entered` asks that it is fitted, and a core, entry or port in a call is one of
/// the shape's.
pub trait Board {
    ghost use Rattle.board.specs.Machine.{Machine, IsFittable, fitted_with, over, AreUsed, IsSafeEntry, with_entry, entries_at, with_core, core_at, restarted, with_lists, acked, stepped, step_exit};
    ghost use Rattle.board.specs.Machine.{port_given};
    ghost use Rattle.a64_state.specs.Registers.{with_x, x_of};
    ghost use Rattle.a64_execute.specs.Branch.{advanced};
    ghost use Rattle.bao_types.specs.Region.{no_region, IsWithinMasks};
    ghost use Rattle.bao_types.specs.ListReg.{lists_at};
    ghost use Rattle.board.specs.Ports.{outputs, port_count, standard_ports};
    ghost use Rattle.gic_core.specs.Lines.{least_raised};
    ghost use Rattle.board.specs.View.{view_of};

    /// What the board is at a moment.
    ghost state: { Self → Machine };

    /// Fits the board: memory and entries are zero, the cores are reset, and the ports, which are newly made, stay as they
    /// are and have room for the events. After a refusal the board isn't fitted.
    fn fit(&mut self, alloc: Global, shape: &Shape) -> Result<(), OutOfMemory>
        requires unfitted { (state self.old).fitted ≡ false }
        requires fittable { IsFittable (shape_data shape.now) }
        requires new { (state self.old).ports ≡ standard_ports }
        ensures ok { OnOk result (state self.new ≡ fitted_with (shape_data shape.now) (state self.old)) }
        ensures err { OnErr result ((state self.new).fitted ≡ false) }
        ensures ports { OnErr result ((state self.new).ports ≡ (state self.old).ports) };

    /// Copies the bytes of an image into memory, from the address `at` on.
    fn load(&mut self, at: u64, bytes: &[u8])
        requires fitted { (state self.old).fitted ≡ true }
        requires at_rest { (state self.old).entered ≡ 0 }
        requires used { AreUsed (state self.old).shape at (length bytes.now) }
        ensures { state self.new ≡ record (state self.old) { bytes = over at bytes.now (state self.old).bytes } };

    /// Sets an EL2 entry of a core.
    fn set_entry(&mut self, core: u8, index: u8, entry: Region)
        requires fitted { (state self.old).fitted ≡ true }
        requires at_rest { (state self.old).entered ≡ 0 }
        requires core { core < length (state self.old).shape.cores }
        requires index { index < length (entries_at (state self.old).entries core) }
        requires bits { IsWithinMasks entry }
        requires safe { IsSafeEntry (state self.old).shape entry }
        ensures { state self.new ≡ with_entry (state self.old) core index entry };

    /// An EL2 entry of a core.
    fn entry(&self, core: u8, index: u8) -> Region
        requires fitted { (state self.now).fitted ≡ true }
        requires core { core < length (state self.now).shape.cores }
        requires index { index < length (entries_at (state self.now).entries core) }
        ensures { result ≡ slice_index_or (entries_at (state self.now).entries core) index no_region };

    /// Resets a core, whose list registers become free, and lets it begin at `pc` with `arg` in X0.
    fn reset_core(&mut self, core: u8, pc: u64, arg: u64)
        requires fitted { (state self.old).fitted ≡ true }
        requires core { core < length (state self.old).shape.cores }
        ensures { state self.new ≡ restarted (state self.old) core pc arg };

    /// A general register of a core: X0 to X30 by their numbers.
    fn gpr(&self, core: u8, n: u8) -> u64
        requires fitted { (state self.now).fitted ≡ true }
        requires core { core < length (state self.now).shape.cores }
        requires register { n < 31 }
        ensures { result ≡ x_of (core_at (state self.now).cores core) n };

    /// Sets a general register of a core: X0 to X30 by their numbers.
    fn set_gpr(&mut self, core: u8, n: u8, value: u64)
        requires fitted { (state self.old).fitted ≡ true }
        requires core { core < length (state self.old).shape.cores }
        requires register { n < 31 }
        ensures { state self.new ≡ with_core (state self.old) core (with_x (core_at (state self.old).cores core) n value) };

    /// Lets a core go on after the instruction at its PC.
    fn skip(&mut self, core: u8)
        requires fitted { (state self.old).fitted ≡ true }
        requires core { core < length (state self.old).shape.cores }
        ensures { state self.new ≡ with_core (state self.old) core (advanced (core_at (state self.old).cores core)) };

    /// The list registers of a core.
    fn lists(&self, core: u8) -> [ListReg; 4]
        requires fitted { (state self.now).fitted ≡ true }
        requires core { core < length (state self.now).shape.cores }
        ensures { result ≡ lists_at (state self.now).lists core };

    /// Sets the list registers of a core.
    fn set_lists(&mut self, core: u8, lists: &[ListReg; 4])
        requires fitted { (state self.old).fitted ≡ true }
        requires core { core < length (state self.old).shape.cores }
        ensures { state self.new ≡ with_lists (state self.old) core lists.now };

    /// Takes the least interrupt that is raised for a core, and clears its line. None exactly where no line is raised for it;
    /// then nothing changes.
    fn ack(&mut self, core: u8) -> Option<u16>
        requires fitted { (state self.old).fitted ≡ true }
        requires core { core < length (state self.old).shape.cores }
        ensures value { result ≡ least_raised (state self.old).lines core }
        ensures state { state self.new ≡ acked (state self.old) core };

    /// Lets a core take one step, at the system count `now`: its timer is looked at first; then, where no line is raised for the
    /// core, it takes an interrupt that its list registers signal, or an instruction, or the exception that comes in its place.
    fn step(&mut self, core: u8, now: u64) -> Exit
        requires fitted { (state self.old).fitted ≡ true }
        requires core { core < length (state self.old).shape.cores }
        requires spent { (state self.old).spent < (state self.old).shape.events }
        ensures state { state self.new ≡ stepped (state self.old) core now }
        ensures exit { result ≡ step_exit (state self.old) core now };

    /// Gives a port, which the shape has, a byte.
    fn port_input(&mut self, port: u8, byte: u8)
        requires fitted { (state self.old).fitted ≡ true }
        requires port { IsTrue (list_any (λ spot. spot.id == port) (state self.old).shape.ports) }
        requires spent { (state self.old).spent < (state self.old).shape.events }
        ensures { state self.new ≡ port_given (state self.old) port byte };

    /// The byte at an address: 0 where no memory is in use.
    fn byte_at(&self, at: u64) -> u8
        requires { (state self.now).fitted ≡ true }
        ensures { result ≡ (state self.now).bytes at };

    /// The registers of a core that a report shows.
    fn core_view(&self, core: u8) -> CoreView
        requires fitted { (state self.now).fitted ≡ true }
        requires core { core < length (state self.now).shape.cores }
        ensures { result ≡ view_of (core_at (state self.now).cores core) };

    /// How many bytes a port has put out; 0 where it is no console.
    fn port_len(&self, port: u8) -> u32
        requires fitted { (state self.now).fitted ≡ true }
        requires port { port < port_count }
        ensures { result ≡ length (outputs (state self.now).ports port) };

    /// One of the bytes that a port has put out.
    fn port_byte(&self, port: u8, i: u32) -> u8
        requires fitted { (state self.now).fitted ≡ true }
        requires port { port < port_count }
        requires place { i < length (outputs (state self.now).ports port) }
        ensures { result ≡ slice_index (outputs (state self.now).ports port) i };

    /// How many steps have been taken since the board was fitted.
    fn entered(&self) -> u64
        ensures { result ≡ (state self.now).entered };
}
