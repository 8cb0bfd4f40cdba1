//! The shape of the board that a configuration asks for, part by part, and the powers of its cores at boot.

use crate::samples::{changed, checked};
use bao_types::Shape;
use bao_wellformed::Checked;
use hypercalls::Power;
use hypervisor::Hyp;
use std::alloc::{AllocError, Global};
use std::process::Abort;
use vm_create::shape_for;

/// What a row shows, the changes of the sample, and what is said of the shape for that many events: the banks, the cores by
/// entries and affinity, the ports with their masks, the used ranges and the events, then the powers.
type Row = (
    &'static str,
    &'static [(&'static str, &'static str)],
    &'static str,
);

fn ranges_text(alloc: Global, shape: &Shape) -> Result<String, AllocError> {
    let mut text = String::new(alloc);
    for bank in shape.banks.as_slice() {
        let words = format!(in alloc; "bank {:x}+{:x} ", bank.base, bank.size)?;
        text.push_str(words.as_str())?;
    }
    for range in shape.used.as_slice() {
        let words = format!(in alloc; "used {:x}+{:x} ", range.base, range.size)?;
        text.push_str(words.as_str())?;
    }
    Ok(text)
}

fn places_text(alloc: Global, shape: &Shape) -> Result<String, AllocError> {
    let mut text = String::new(alloc);
    for core in shape.cores.as_slice() {
        let words = format!(in alloc; "core {}:{} ", core.entries, core.affinity)?;
        text.push_str(words.as_str())?;
    }
    for port in shape.ports.as_slice() {
        let words = format!(in alloc;
            "port {} {:x} spi {} cores {} ",
            port.id, port.base, port.spi, port.cores
        )?;
        text.push_str(words.as_str())?;
    }
    Ok(text)
}

fn powers_text(alloc: Global, checked: &Checked) -> Result<String, AllocError> {
    let hyp = Hyp::new(checked);
    let mut text = String::new(alloc);
    for (core, _) in checked
        .config()
        .platform
        .cores
        .as_slice()
        .iter()
        .enumerate()
    {
        let word = match hyp.power_of_core(core as u8) {
            Some(Power::On) => " on",
            Some(Power::Off) => " off",
            Some(Power::Parked { .. }) => " parked",
            None => " none",
        };
        text.push_str(word)?;
    }
    Ok(text)
}

fn said_of(alloc: Global, checked: &Checked) -> Result<String, AllocError> {
    let shape = shape_for(checked, 1000);
    let ranges = ranges_text(alloc, &shape)?;
    let places = places_text(alloc, &shape)?;
    let powers = powers_text(alloc, checked)?;
    format!(in alloc; "{ranges}{places}events {}{powers}", shape.events)
}

fn check_rows(rt: &impl Abort, alloc: Global, rows: &[Row]) -> Result<(), AllocError> {
    for (shows, changes, expected) in rows {
        let text = changed(alloc, changes)?;
        let said = match checked(alloc, text.as_str()) {
            Some(Ok(checked)) => said_of(alloc, &checked)?,
            Some(Err(_)) => "refused".to_owned(alloc)?,
            None => "not read".to_owned(alloc)?,
        };
        assert!(rt; said.as_str() == *expected, "{shows}: {said}");
    }
    Ok(())
}

#[rattlefmt::skip]
static SHAPES: [Row; 3] = [
    ("the sample",
        &[],
        "bank 0+200000 used 100000+10000 used 140000+10000 used 180000+1000 core 16:0 core 16:0 port 0 9c090000 spi 32 cores 1 port 1 9c0a0000 spi 33 cores 2 events 1000 on on"),
    ("a VM of two cores, of which the later one is its first, and a core of no VM",
        &[("cores = [16, 16]", "cores = [16, 8, 4, 2]"), ("cores = [1]", "cores = [2, 1]")],
        "bank 0+200000 used 100000+10000 used 140000+10000 used 180000+1000 core 16:0 core 8:1 core 4:0 core 2:0 port 0 9c090000 spi 32 cores 1 port 1 9c0a0000 spi 33 cores 6 events 1000 on off on off"),
    ("two banks, two regions of the first VM, and a port of no VM",
        &[("banks = [{ base = 0x0, size = 0x200000 }]", "banks = [{ base = 0x400000, size = 0x100000 }, { base = 0x0, size = 0x200000 }]"),
            ("regions = [{ base = 0x100000,", "regions = [{ base = 0x400000, size = 0x40, access = \"r\" }, { base = 0x100000,"),
            ("devs = [{ port = 0, irq = 40 }]\n", "")],
        "bank 400000+100000 bank 0+200000 used 400000+40 used 100000+10000 used 140000+10000 used 180000+1000 core 16:0 core 16:0 port 0 9c090000 spi 32 cores 0 port 1 9c0a0000 spi 33 cores 2 events 1000 on on"),
];

#[test]
fn shapes_that_configurations_ask_for(rt: HostRuntime) -> Result<(), AllocError> {
    check_rows(&rt, rt.alloc(), &SHAPES)
}
