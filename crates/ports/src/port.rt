ghost use Rattle.std.specs.Prelude.{◌≡◌, ℕ, ◌+◌, ◌*◌, ◌<◌, ◌≤◌, length, slice_index, OnOk};
ghost use Rattle.bao_types.specs.Shape.{event_limit, port_size};
ghost use Rattle.ports.specs.PortState.{byte_count, kind_of, output_of, PortState};
ghost use Rattle.ports.specs.Registers.{after_input, after_read, after_write, line_of_input, line_of_write, value_read};

use bao_types::OutOfMemory;
use std::alloc::Global;

/// What a port does.
#[derive(Clone, Copy, Debug, PartialEq, Eq)]
pub enum PortKind {
    /// Takes bytes in and gives bytes out.
    Console,
    /// Sixteen words that keep what is written.
    Scratch,
    /// Counts input bytes.
    Ticker,
}

/// A device port.
///
/// No call but `reserve` takes memory: it makes the room for the bytes that writes and inputs add. Offsets and widths
/// are in bytes.
pub trait Port: Drop {
    ghost state: { Self → PortState };

    // how many writes and inputs there is room for
    ghost spare: { Self → ℕ };

    /// What the port does.
    fn kind(&self) -> PortKind
        ensures { result ≡ kind_of (state self.now) };

    /// Makes room for two writes or inputs per event.
    fn reserve(&mut self, alloc: Global, events: u32) -> Result<(), OutOfMemory>
        requires events { events ≤ event_limit }
        requires bytes { byte_count (state self.old) ≤ 2 * event_limit }
        ensures room { OnOk result (2 * events ≤ spare self.new) }
        ensures kept { spare self.old ≤ spare self.new }
        ensures state { state self.new ≡ state self.old };

    /// Reads `width` bytes at `offset`. A read may take a byte that waits.
    fn read(&mut self, offset: u32, width: u32) -> u64
        requires { offset + width ≤ port_size }
        ensures value { result ≡ value_read (state self.old) offset width }
        ensures state { state self.new ≡ after_read (state self.old) offset width }
        ensures spare { spare self.new ≡ spare self.old };

    /// Writes the low `width` bytes of `value` at `offset`, and answers whether the port's line is raised.
    fn write(&mut self, offset: u32, width: u32, value: u64) -> bool
        requires access { offset + width ≤ port_size }
        requires spare { 1 ≤ spare self.old }
        ensures line { result ≡ line_of_write (state self.old) offset width value }
        ensures state { state self.new ≡ after_write (state self.old) offset width value }
        ensures spare { spare self.old ≤ spare self.new + 1 };

    /// Takes an input byte, and answers whether the port's line is raised.
    fn input(&mut self, byte: u8) -> bool
        requires { 1 ≤ spare self.old }
        ensures line { result ≡ line_of_input (state self.old) }
        ensures state { state self.new ≡ after_input (state self.old) byte }
        ensures spare { spare self.old ≤ spare self.new + 1 };

    /// How many bytes a console has put out; 0 for the other kinds.
    fn out_len(&self) -> u32
        ensures { result ≡ length (output_of (state self.now)) };

    /// The byte of this number that a console has put out, the first one being 0.
    fn out_at(&self, i: u32) -> u8
        requires { i < length (output_of (state self.now)) }
        ensures { result ≡ slice_index (output_of (state self.now)) i };
}
