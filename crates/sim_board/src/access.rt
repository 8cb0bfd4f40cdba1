//! Loads and stores: each is judged as a whole, and nothing of it is done where a byte is refused.
ghost use Rattle.std.specs.Prelude.{◌≡◌, ◌+◌, ◌≤◌, ◌%◌, false, IsTrue};
ghost use Rattle.std.specs.Bool.{OnTrue};
ghost use Rattle.bao_types.specs.Bytes.{IsWidth};
ghost use Rattle.a64_execute.specs.Want.{bytes_of, IsAccess};
ghost use Rattle.board.specs.Stage.{by_entries, by_regions};
ghost use Rattle.board.specs.Judge.{all_from, first_fault, has_no_port};
ghost use Rattle.board.specs.Attempt.{is_misaligned};
ghost use Rattle.board.specs.Machine.{written};
ghost use Rattle.board.specs.Ports.{element_read, element_stored, element_value, element_written, elements_read, elements_stored, elements_value, elements_written};
ghost use Rattle.phys_bank.specs.Banks.{byte_at, is_kept};
ghost use Rattle.sim_board.specs.Devices.{AreAccessed, is_backed, places_in, source_in};
ghost use Rattle.sim_board.specs.Memory.{IsSpanned};
ghost use Rattle.sim_board.specs.declared.access.Way.TheVariants as way;
ghost use Rattle.sim_board.specs.Step.{way_of};

use crate::devices::Devices;
use crate::judge::{first_fault, passes_at_once};
use crate::memory::{store, word_at};
use a64_address::MemShape;
use a64_state::Core;
use bao_types::{Access, weight_after};
use board::Fault;
use phys_bank::Banks;
use pmsa_table::Table;

/// How a load or a store is carried out, once each of its bytes is judged.
#[derive(Clone, Copy)]
pub(crate) enum Way {
    /// In memory: no byte is a port's.
    Memory,
    /// Element by element: some byte is a port's.
    Port,
    /// Not at all.
    Refused(Fault),
}

/// Whether one look at the last hit tells that a load or a store is carried out in memory. False says nothing.
#[tactic(auto, using(crate::proofs::Ways::plain))]
#[inline(always)]
pub(crate) fn is_plain<D: Devices>(
    core: &Core,
    table: &Table,
    devices: &D,
    access: Access,
    shape: &MemShape,
) -> bool
    requires { IsAccess shape.now }
    ensures { OnTrue result (way.Memory ≡ way_of
        (first_fault (by_regions core.now) (by_entries table.now) access shape.now.at (bytes_of shape.now))
        (has_no_port (places_in (D.view devices.now)) shape.now.at (bytes_of shape.now))) }
{
    let count = byte_count(shape) as u8;
    if !passes_at_once(core, table, access, shape.at, count) {
        return false;
    }
    devices.has_no_port(shape.at, count)
}

/// How a load or a store is carried out.
#[inline(always)]
pub(crate) fn judge<D: Devices>(
    core: &Core,
    table: &mut Table,
    devices: &D,
    access: Access,
    shape: &MemShape,
) -> Way
    requires { IsAccess shape.now }
    ensures way { result ≡ way_of
        (first_fault (by_regions core.now) (by_entries table.old) access shape.now.at (bytes_of shape.now))
        (has_no_port (places_in (D.view devices.now)) shape.now.at (bytes_of shape.now)) }
    ensures entries { table.new ≡ table.old }
{
    let count = byte_count(shape) as u8;
    match first_fault(core, table, access, shape.at, count) {
        Some(fault) => Way::Refused(fault),
        None => way_allowed(devices, shape.at, count),
    }
}

/// How an access is carried out each of whose bytes is allowed.
#[inline(always)]
fn way_allowed<D: Devices>(devices: &D, at: u64, count: u8) -> Way
    ensures { result ≡ way_of None (has_no_port (places_in (D.view devices.now)) at count) }
{
    if devices.has_no_port(at, count) {
        Way::Memory
    } else {
        Way::Port
    }
}

/// The bytes of an access.
#[inline(always)]
pub(crate) fn byte_count(shape: &MemShape) -> u32
    requires { IsAccess shape.now }
    ensures value { result ≡ bytes_of shape.now }
    ensures spanned { IsSpanned result }
    ensures bound { result ≤ 16 }
{
    shape.width * u32::from(shape.count)
}

/// Reads the elements of a load, each in memory or in the port that has its first byte. The first of them is lowest.
pub(crate) fn read_elements<D: Devices>(memory: &Banks, devices: &mut D, shape: &MemShape) -> u128
    requires access { IsAccess shape.now }
    requires aligned { is_misaligned shape.now ≡ false }
    ensures value { result
        ≡ elements_value (source_in (byte_at memory.now) (D.view devices.old)) shape.now.at shape.now.width shape.now.count }
    ensures accessed { AreAccessed (λ places. elements_read places shape.now.at shape.now.width shape.now.count)
        (D.view devices.old) (D.view devices.new) }
    ensures room { D.room devices.new ≡ D.room devices.old }
{
    let first = read_element(memory, devices, shape.at, shape.width);
    if shape.count == 1 {
        return u128::from(first);
    }
    let next = shape.at.wrapping_add(u64::from(shape.width));
    let second = read_element(memory, devices, next, shape.width);
    u128::from(second) * weight_after(shape.width) + u128::from(first)
}

/// Reads one element.
fn read_element<D: Devices>(memory: &Banks, devices: &mut D, at: u64, width: u32) -> u64
    requires width { IsWidth width }
    requires aligned { at % width ≡ 0 }
    ensures value { result
        ≡ element_value (D.view devices.old).ports (byte_at memory.now) (places_in (D.view devices.old) at) at width }
    ensures accessed { AreAccessed (λ places. element_read (places at) width) (D.view devices.old) (D.view devices.new) }
    ensures room { D.room devices.new ≡ D.room devices.old }
{
    match devices.read(at, width) {
        Some(got) => got,
        None => word_at(memory, at, width),
    }
}

/// Writes the elements of a store, each in memory or in the port that has its first byte, with the lowest bytes of the value
/// first.
pub(crate) fn write_elements<D: Devices>(
    memory: &mut Banks,
    devices: &mut D,
    shape: &MemShape,
    value: u128,
)
    requires access { IsAccess shape.now }
    requires aligned { is_misaligned shape.now ≡ false }
    requires backed { IsTrue (all_from (is_backed (D.view devices.old).spots (is_kept memory.old)) shape.now.at (bytes_of shape.now)) }
    requires room { 2 ≤ D.room devices.old }
    ensures kept { is_kept memory.new ≡ is_kept memory.old }
    ensures bytes { byte_at memory.new
        ≡ written (elements_stored (places_in (D.view devices.old)) shape.now.at shape.now.width shape.now.count value)
        (byte_at memory.old) }
    ensures accessed { AreAccessed (λ places. elements_written places shape.now.at shape.now.width shape.now.count value)
        (D.view devices.old) (D.view devices.new) }
    ensures room { D.room devices.old ≤ D.room devices.new + 2 }
{
    write_element(memory, devices, shape.at, shape.width, value);
    if shape.count == 2 {
        let next = shape.at.wrapping_add(u64::from(shape.width));
        write_element(
            memory,
            devices,
            next,
            shape.width,
            value / weight_after(shape.width),
        );
    }
}

/// Writes one element.
fn write_element<D: Devices>(memory: &mut Banks, devices: &mut D, at: u64, width: u32, value: u128)
    requires width { IsWidth width }
    requires aligned { at % width ≡ 0 }
    requires backed { IsTrue (all_from (is_backed (D.view devices.old).spots (is_kept memory.old)) at width) }
    requires room { 1 ≤ D.room devices.old }
    ensures kept { is_kept memory.new ≡ is_kept memory.old }
    ensures bytes { byte_at memory.new
        ≡ written (element_stored (places_in (D.view devices.old) at) at width value) (byte_at memory.old) }
    ensures accessed { AreAccessed (λ places. element_written (places at) width value) (D.view devices.old) (D.view devices.new) }
    ensures room { D.room devices.old ≤ D.room devices.new + 1 }
{
    if !devices.write(at, width, value) {
        store(memory, at, width, value);
    }
}
