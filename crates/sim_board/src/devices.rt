//! The ports of a board, where they stand, and what a step does to them.
ghost use Rattle.std.specs.Prelude.{◌≡◌, ℕ, ◌+◌, ◌*◌, ◌≤◌, ◌<◌, ◌%◌, false, List, [], All, IsTrue, OnOk, length, slice_index, map};
ghost use Rattle.std.specs.Option.{option_map};
ghost use Rattle.bao_types.specs.Bytes.{IsWidth};
ghost use Rattle.bao_types.specs.Shape.{event_limit, port_size};
ghost use Rattle.ports.specs.PortState.{byte_count, output_of};
ghost use Rattle.ports.specs.Registers.{after_input, after_read, after_write, line_of_input, line_of_write, value_read};
ghost use Rattle.gic_core.specs.Lines.{quiet_lines};
ghost use Rattle.board.specs.Interrupts.{lines_given, with_port_if};
ghost use Rattle.board.specs.Judge.{has_no_port};
ghost use Rattle.board.specs.Machine.{port_places};
ghost use Rattle.board.specs.Ports.{element_read, element_written, is_port, outputs, port_count, with_port};
ghost use Rattle.sim_board.specs.Devices.{AreAccessed, DevicesData, least_room, places_in, states_of};
ghost use Rattle.sim_board.specs.Gap.{IsGap};

use crate::gap::Gap;
use crate::spots::{PortByte, port_at};
use arrayvec::ArrayVec;
use bao_types::{OutOfMemory, PortSpot, weight_after};
use gic_core::Lines;
use ports::Port;
use std::alloc::Global;

/// The ports of a board and the interrupt lines that they raise, as its calls and a core's step reach them.
pub(crate) trait Devices {
    // where the ports stand that the board's shape has, what each port keeps, and which interrupt lines are raised
    ghost view: { Self → DevicesData };

    // for how many writes and inputs each port has room, of as many as a board takes at most
    ghost room: { Self → ℕ };

    /// Whether none of this many bytes is a port's.
    fn has_no_port(&self, at: u64, count: u8) -> bool
        ensures { result ≡ has_no_port (places_in (view self.now)) at count };

    /// Reads an element in the port that has its first byte; None where none has.
    fn read(&mut self, at: u64, width: u32) -> Option<u64>
        requires width { IsWidth width }
        requires aligned { at % width ≡ 0 }
        ensures value { result ≡ option_map (λ byte. value_read ((view self.old).ports byte.port) byte.offset width)
            (places_in (view self.old) at) }
        ensures accessed { AreAccessed (λ places. element_read (places at) width) (view self.old) (view self.new) }
        ensures room { room self.new ≡ room self.old };

    /// Writes an element, the lowest bytes of a value, in the port that has its first byte, and answers whether one has. The
    /// port's line is raised where the write asks for it.
    fn write(&mut self, at: u64, width: u32, value: u128) -> bool
        requires width { IsWidth width }
        requires aligned { at % width ≡ 0 }
        requires room { 1 ≤ room self.old }
        ensures port { result ≡ is_port (places_in (view self.old)) at }
        ensures apart { result ≡ false → IsTrue (has_no_port (places_in (view self.old)) at width) }
        ensures accessed { AreAccessed (λ places. element_written (places at) width value) (view self.old) (view self.new) }
        ensures room { room self.old ≤ room self.new + 1 };

    /// Gives a port a byte, and raises its line where the byte asks for it.
    fn input(&mut self, port: u8, byte: u8)
        requires port { port < port_count }
        requires room { 1 ≤ room self.old }
        ensures states { (view self.new).ports ≡ with_port port (after_input ((view self.old).ports port) byte) (view self.old).ports }
        ensures lines { (view self.new).lines ≡ lines_given (view self.old).ports port (view self.old).lines }
        ensures room { room self.old ≤ room self.new + 1 }
        ensures spots { (view self.new).spots ≡ (view self.old).spots };

    /// Makes room in each port for two writes or inputs of each event.
    fn reserve(&mut self, alloc: Global, events: u32) -> Result<(), OutOfMemory>
        requires events { events ≤ event_limit }
        requires bytes { (port : ℕ) → byte_count ((view self.old).ports port) ≤ 2 * event_limit }
        ensures room { OnOk result (2 * events ≤ room self.new) }
        ensures states { (view self.new).ports ≡ (view self.old).ports }
        ensures lines { (view self.new).lines ≡ (view self.old).lines }
        ensures spots { (view self.new).spots ≡ (view self.old).spots };

    /// Lets the ports stand at these addresses, with no line raised; `near` is one that most accesses are near.
    fn stand(&mut self, places: ArrayVec<PortSpot, 16>, near: u64)
        requires numbers { All (λ spot. spot.id < port_count) places.items }
        requires bases { All (λ spot. spot.base % port_size ≡ 0) places.items }
        ensures spots { (view self.new).spots ≡ places.items }
        ensures lines { (view self.new).lines ≡ quiet_lines places.items }
        ensures states { (view self.new).ports ≡ (view self.old).ports }
        ensures room { room self.new ≡ room self.old };

    /// How many bytes a port has put out.
    fn out_len(&self, port: u8) -> u32
        requires { port < port_count }
        ensures { result ≡ length (outputs (view self.now).ports port) };

    /// One of the bytes that a port has put out.
    fn out_at(&self, port: u8, i: u32) -> u8
        requires port { port < port_count }
        requires place { i < length (outputs (view self.now).ports port) }
        ensures { result ≡ slice_index (outputs (view self.now).ports port) i };
}

/// Ports of which nothing is known but that they are ports.
#[derive(Drop)]
pub(crate) struct BoxedPorts {
    /// By their numbers.
    ports: Vec<Box<dyn Port>>,
    spots: ArrayVec<PortSpot, 16>,
    /// Addresses that need no look at each spot.
    gap: Gap,
    /// The interrupt lines of these spots, and of the cores' timers.
    pub lines: Lines,
    ghost count: { length ports.items ≡ port_count },
    ghost numbers: { All (λ spot. spot.id < port_count) spots.items },
    ghost bases: { All (λ spot. spot.base % port_size ≡ 0) spots.items },
    ghost free: { IsGap spots.items gap },
}

impl Devices for BoxedPorts {
    ghost view = { λ devices. record {
      spots = devices.spots.items;
      ports = states_of (map (λ port. (Port-box port).state port.value) devices.ports.items);
      lines = devices.lines;
    } };

    ghost room = { λ devices. least_room (map (λ port. (Port-box port).spare port.value) devices.ports.items) };

    #[inline(always)]
    fn has_no_port(&self, at: u64, count: u8) -> bool {
        self.gap.has_all(at, count) || has_no_port_bytewise(&self.spots, at, count)
    }

    #[inline(never)]
    fn read(&mut self, at: u64, width: u32) -> Option<u64> {
        match port_at(&self.spots, at) {
            Some(byte) => Some(read_one(
                &mut self.ports[usize::from(byte.port)],
                byte.offset,
                width,
            )),
            None => None,
        }
    }

    #[inline(never)]
    fn write(&mut self, at: u64, width: u32, value: u128) -> bool {
        match port_at(&self.spots, at) {
            Some(byte) => {
                let part = (value % weight_after(width)) as u64;
                let raised = write_one(
                    &mut self.ports[usize::from(byte.port)],
                    byte.offset,
                    width,
                    part,
                );
                raise_port_if(&mut self.lines, raised, byte.port);
                true
            }
            None => false,
        }
    }

    fn input(&mut self, port: u8, byte: u8) {
        let raised = input_one(&mut self.ports[usize::from(port)], byte);
        raise_port_if(&mut self.lines, raised, port);
    }

    fn reserve(&mut self, alloc: Global, events: u32) -> Result<(), OutOfMemory> {
        for i in 0..self.ports.len() {
            reserve_one(&mut self.ports[i], alloc, events)?;
        }
        Ok(())
    }

    fn stand(&mut self, places: ArrayVec<PortSpot, 16>, near: u64) {
        self.gap = Gap::around(&places, near);
        self.lines = Lines::new(&places);
        self.spots = places;
    }

    fn out_len(&self, port: u8) -> u32 {
        out_len_of(&self.ports[usize::from(port)])
    }

    fn out_at(&self, port: u8, i: u32) -> u8 {
        out_at_of(&self.ports[usize::from(port)], i)
    }
}

impl BoxedPorts {
    /// These ports, none of which stands anywhere yet.
    pub fn new(ports: Vec<Box<dyn Port>>) -> BoxedPorts
        requires { length ports.items ≡ port_count }
        ensures states { (⟦<BoxedPorts as Devices>⟧.view result).ports ≡ states_of (map (λ port. state port) ports.items) }
        ensures spots { (⟦<BoxedPorts as Devices>⟧.view result).spots ≡ [] }
    {
        BoxedPorts {
            ports,
            spots: ArrayVec::new(),
            gap: Gap::NONE,
            lines: Lines::new(&ArrayVec::new()),
        }
    }
}

/// Whether none of this many bytes is a port's, byte by byte.
#[inline(never)]
fn has_no_port_bytewise(spots: &[PortSpot], at: u64, count: u8) -> bool
    requires numbers { All (λ spot. spot.id < port_count) spots.now }
    requires bases { All (λ spot. spot.base % port_size ≡ 0) spots.now }
    ensures { result ≡ has_no_port (port_places spots.now) at count }
{
    if count == 0 {
        return true;
    }
    if port_at(spots, at).is_some() {
        return false;
    }
    has_no_port_bytewise(spots, at.wrapping_add(1), count - 1)
}

/// Reads in one port.
fn read_one(port: &mut Box<dyn Port>, offset: u32, width: u32) -> u64
    requires { offset + width ≤ port_size }
    ensures value { result ≡ value_read (state port.old) offset width }
    ensures state { state port.new ≡ after_read (state port.old) offset width }
    ensures spare { spare port.new ≡ spare port.old }
{
    port.read(offset, width)
}

/// Gives one port a byte, and answers whether that raises its line.
fn input_one(port: &mut Box<dyn Port>, byte: u8) -> bool
    requires { 1 ≤ spare port.old }
    ensures line { result ≡ line_of_input (state port.old) }
    ensures state { state port.new ≡ after_input (state port.old) byte }
    ensures spare { spare port.old ≤ spare port.new + 1 }
{
    port.input(byte)
}

/// Makes room in one port.
fn reserve_one(port: &mut Box<dyn Port>, alloc: Global, events: u32) -> Result<(), OutOfMemory>
    requires events { events ≤ event_limit }
    requires bytes { byte_count (state port.old) ≤ 2 * event_limit }
    ensures room { OnOk result (2 * events ≤ spare port.new) }
    ensures state { state port.new ≡ state port.old }
{
    port.reserve(alloc, events)
}

/// Writes in one port, and answers whether that raises its line.
fn write_one(port: &mut Box<dyn Port>, offset: u32, width: u32, value: u64) -> bool
    requires access { offset + width ≤ port_size }
    requires spare { 1 ≤ spare port.old }
    ensures line { result ≡ line_of_write (state port.old) offset width value }
    ensures state { state port.new ≡ after_write (state port.old) offset width value }
    ensures spare { spare port.old ≤ spare port.new + 1 }
{
    port.write(offset, width, value)
}

/// Raises the line of a port, or leaves all as they are.
fn raise_port_if(lines: &mut Lines, raised: bool, port: u8)
    ensures { lines.new ≡ with_port_if raised port lines.old }
{
    if raised {
        lines.raise_port(port);
    }
}

/// How many bytes one port has put out.
fn out_len_of(port: &Box<dyn Port>) -> u32
    ensures { result ≡ length (output_of (state port.now)) }
{
    port.out_len()
}

/// One of the bytes that one port has put out.
fn out_at_of(port: &Box<dyn Port>, i: u32) -> u8
    requires { i < length (output_of (state port.now)) }
    ensures { result ≡ slice_index (output_of (state port.now)) i }
{
    port.out_at(i)
}
