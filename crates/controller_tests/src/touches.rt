//! Guests that store to the controller's registers and then load from them, of whatever width and wherever.

use crate::boards::{ONE_CORE, Vm, check_part, told};
use std::alloc::Global;
use std::process::Abort;
use std::test::Fail;

/// The distributor.
pub(crate) const GICD: u64 = 0xaf00_0000;

/// The redistributor of core 0.
pub(crate) const GICR: u64 = 0xaf10_0000;

/// Its second frame.
pub(crate) const SGI: u64 = 0xaf11_0000;

/// The redistributor of core 1.
pub(crate) const GICR_1: u64 = 0xaf12_0000;

/// Its second frame.
pub(crate) const SGI_1: u64 = 0xaf13_0000;

/// A width, a place, and the value to store.
pub(crate) type Store = (u32, u64, u64);

/// A width, and a place.
pub(crate) type Load = (u32, u64);

/// What a row shows, what is stored, what is loaded into X2 and the registers after it, and the lines of those that aren't
/// zero.
pub(crate) type Touched = (
    &'static str,
    &'static [Store],
    &'static [Load],
    &'static str,
);

/// A guest whose code takes places and values, one after the other, from its data.
#[derive(Drop)]
struct Program {
    code: Vec<u8>,
    data: Vec<u8>,
}

/// Where the data begins in the image.
const DATA: usize = 0x4000;

/// `add x29, x29, #4, lsl #12` after `adr x29, .`
const TO_THE_DATA: [u32; 2] = [0x1000_001d, 0x9140_13bd];

/// `ldr x0, [x29], #8`
const NEXT_VALUE: u32 = 0xf840_87a0;

/// `ldr x1, [x29], #8`
const NEXT_PLACE: u32 = 0xf840_87a1;

/// `strb w0, [x1]`; the other widths have the size in bits 31 and 30.
const STORE: u32 = 0x3900_0020;

/// `ldrb w0, [x1]`
const LOAD: u32 = 0x3940_0020;

/// The size of an access in its word.
fn size(width: u32) -> u32 {
    match width {
        1 => 0,
        2 => 0x4000_0000,
        4 => 0x8000_0000,
        _ => 0xc000_0000,
    }
}

impl Program {
    fn push_word(&mut self, word: u32) -> Result<(), Fail> {
        self.code.extend_from_slice(&word.to_le_bytes())?;
        Ok(())
    }

    fn push_number(&mut self, number: u64) -> Result<(), Fail> {
        self.data.extend_from_slice(&number.to_le_bytes())?;
        Ok(())
    }

    fn store(&mut self, store: Store) -> Result<(), Fail> {
        let (width, place, value) = store;
        self.push_number(place)?;
        self.push_number(value)?;
        self.push_word(NEXT_PLACE)?;
        self.push_word(NEXT_VALUE)?;
        self.push_word(STORE | size(width))
    }

    fn load(&mut self, load: Load, register: u32) -> Result<(), Fail> {
        let (width, place) = load;
        self.push_number(place)?;
        self.push_word(NEXT_PLACE)?;
        self.push_word(LOAD | size(width) | register)
    }
}

/// The program of a row.
fn written(alloc: Global, stores: &[Store], loads: &[Load]) -> Result<Program, Fail> {
    let mut program = Program {
        code: Vec::new(alloc),
        data: Vec::new(alloc),
    };
    for word in TO_THE_DATA {
        program.push_word(word)?;
    }
    for store in stores {
        program.store(*store)?;
    }
    for (register, load) in (2..).zip(loads.iter()) {
        program.load(*load, register)?;
    }
    Ok(program)
}

/// Runs the program of stores and loads in a VM, and looks for the lines of what it loaded, after that of the last place.
pub(crate) fn check_touched(
    rt: &impl Abort,
    alloc: Global,
    vm: Vm,
    shows: &str,
    stores: &[Store],
    loads: &[Load],
    wanted: &str,
) -> Result<(), Fail> {
    let Program { code, data } = written(alloc, stores, loads)?;
    let steps = code.len() / 4;
    let (end, read) = (0x10_0000 + code.len() as u64, 0x10_4000 + data.len() as u64);
    let mut image = code;
    image.resize(DATA, 0)?;
    image.extend_from_slice(&data)?;
    let schedule = "s 0 0\n".repeat(alloc, steps)?;
    let told = told(alloc, &[vm], [image.as_slice(), &[]], schedule.as_str())?;
    let last = loads.last().map_or(0, |load| load.1);
    let whole = format!(in alloc; "x1 {last:016x}\n{wanted}x29 {read:016x}\n")?;
    check_part(rt, shows, told.as_str(), whole.as_str());
    let on = format!(in alloc; "core 0 on\npc {end:016x}\npstate 000003c5\n")?;
    check_part(rt, shows, told.as_str(), on.as_str());
    Ok(())
}

/// Runs the program of each row.
pub(crate) fn check_all(
    rt: &impl Abort,
    alloc: Global,
    vm: Vm,
    rows: &[Touched],
) -> Result<(), Fail> {
    for (shows, stores, loads, wanted) in rows {
        check_touched(rt, alloc, vm, shows, stores, loads, wanted)?;
    }
    Ok(())
}

/// Each aligned access to eight bytes: bytes go to X2 to X9, halves to X10 to X13, words to X14 and X15, and all to X16.
static SWEEP: [Load; 15] = [
    (1, 0),
    (1, 1),
    (1, 2),
    (1, 3),
    (1, 4),
    (1, 5),
    (1, 6),
    (1, 7),
    (2, 0),
    (2, 2),
    (2, 4),
    (2, 6),
    (4, 0),
    (4, 4),
    (8, 0),
];

/// What a row shows, what is stored, the first of eight bytes that are loaded in all ways, and the lines of those that
/// aren't zero.
pub(crate) type Swept = (&'static str, &'static [Store], u64, &'static str);

fn check_swept(rt: &impl Abort, alloc: Global, vm: Vm, row: &Swept) -> Result<(), Fail> {
    let (shows, stores, start, wanted) = *row;
    let mut loads = Vec::new(alloc);
    for (width, offset) in SWEEP.as_slice() {
        loads.push((*width, start | *offset))?;
    }
    check_touched(rt, alloc, vm, shows, stores, loads.as_slice(), wanted)
}

/// Sweeps over the eight bytes of each row.
pub(crate) fn check_sweeps(
    rt: &impl Abort,
    alloc: Global,
    vm: Vm,
    rows: &[Swept],
) -> Result<(), Fail> {
    for row in rows {
        check_swept(rt, alloc, vm, row)?;
    }
    Ok(())
}

/// What a row shows, a store in front, the widths that don't store there, the first of eight bytes to which they store a
/// value, and what two registers of 32 bits read then.
pub(crate) type Ignored = (
    &'static str,
    Store,
    &'static [u32],
    u64,
    u64,
    [Load; 2],
    &'static str,
);

fn check_ignored_row(rt: &impl Abort, alloc: Global, row: &Ignored) -> Result<(), Fail> {
    let (shows, first, widths, start, value, loads, wanted) = row;
    let mut stores = Vec::new(alloc);
    stores.push(*first)?;
    for (width, offset) in SWEEP.as_slice() {
        if widths.contains(width) {
            stores.push((*width, *start | *offset, *value))?;
        }
    }
    check_touched(rt, alloc, ONE_CORE, shows, stores.as_slice(), loads, wanted)
}

/// Tries what each row's register ignores.
pub(crate) fn check_ignored(rt: &impl Abort, alloc: Global, rows: &[Ignored]) -> Result<(), Fail> {
    for row in rows {
        check_ignored_row(rt, alloc, row)?;
    }
    Ok(())
}
