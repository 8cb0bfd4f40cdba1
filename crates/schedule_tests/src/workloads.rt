//! Tests of the generated workload.
use bao_types::OutOfMemory;
use hypervisor::Event;
use schedule::{Workload, make_workload};
use std::alloc::{AllocError, Global};
use std::process::Abort;

/// A number, and of its workload the VMs with the words of their images, the first twenty events and all from the
/// 199,997th on. The rows were worked out by another program, from the words of the rule alone.
#[rattlefmt::skip]
static ROWS: [(u32, &str); 4] = [
    (0, "g0 g0.bin d2b38121 f2800001 10007fc2 d297b7e0 911d7400 927d2004 f8246840 39000020 17fffffc\n\
        g1 g1.bin d2b38121 f2800801 10007fc2 d2878220 910d6400 927d2004 f8246840 39000020 17fffffc\n\
        |s 0 0|s 1 1|s 1 2|s 0 3|s 0 4|s 1 5|i 0 69|s 1 7|s 0 8|s 1 9|s 1 10|s 1 11|s 0 12|s 1 13|s 1 14|s 0 15|s 0 16|s 1 17|i 0 243|s 0 19\n\
        |s 0 199997|s 0 199998|i 0 212\n"),
    (1, "g0 g0.bin d2b38121 f2800001 10007fc2 d296fac0 911b7c00 927d2004 f8246840 39000020 17fffffc\n\
        g1 g1.bin d2b38121 f2800801 10007fc2 d28e1980 912cc800 927d2004 f8246840 39000020 17fffffc\n\
        g2 g2.bin d2b38121 f2801001 10007fc2 d2876b40 91090000 927d2004 f8246840 39000020 17fffffc\n\
        |s 1 0|s 1 1|s 0 2|s 0 3|s 1 4|s 2 5|s 0 6|s 0 7|s 1 8|s 1 9|s 0 10|i 2 24|s 0 12|s 1 13|s 2 14|s 0 15|s 0 16|s 1 17|s 2 18|s 2 19\n\
        |s 1 199997|s 2 199998|s 2 199999\n"),
    (2, "g0 g0.bin d2b38121 f2800001 10007fc2 d2963d80 91198400 927d2004 f8246840 39000020 17fffffc\n\
        g1 g1.bin d2b38121 f2800801 10007fc2 d294b100 910c3000 927d2004 f8246840 39000020 17fffffc\n\
        g2 g2.bin d2b38121 f2801001 10007fc2 d29a08e0 911fe000 927d2004 f8246840 39000020 17fffffc\n\
        g3 g3.bin d2b38121 f2801801 10007fc2 d28d6f80 9125cc00 927d2004 f8246840 39000020 17fffffc\n\
        |s 3 0|s 1 1|s 2 2|s 1 3|s 3 4|s 0 5|s 0 6|s 3 7|s 2 8|s 2 9|s 0 10|s 0 11|s 2 12|s 2 13|s 2 14|s 1 15|s 2 16|s 2 17|s 1 18|s 2 19\n\
        |s 3 199997|s 0 199998|s 0 199999\n"),
    (4294967295, "g0 g0.bin d2b38121 f2800001 10007fc2 d29067e0 912f3800 927d2004 f8246840 39000020 17fffffc\n\
        g1 g1.bin d2b38121 f2800801 10007fc2 d2937a00 91399c00 927d2004 f8246840 39000020 17fffffc\n\
        |s 1 0|i 1 237|s 1 2|s 0 3|i 1 21|s 0 5|s 0 6|s 0 7|i 1 243|s 0 9|s 0 10|s 1 11|i 0 54|s 1 13|s 1 14|s 1 15|s 1 16|s 1 17|s 0 18|s 0 19\n\
        |s 0 199997|s 0 199998|s 0 199999\n"),
];

fn made(alloc: Global, n: u32) -> Result<Workload, AllocError> {
    match make_workload(alloc, n) {
        Ok(workload) => Ok(workload),
        Err(OutOfMemory) => Err(AllocError),
    }
}

/// Writes the words of an image after a text.
fn tell_words(alloc: Global, text: &mut String, image: &[u8]) -> Result<(), AllocError> {
    for place in 0..image.len() / 4 {
        text.push(' ')?;
        for byte in image.iter().skip(4 * place).take(4).rev() {
            let digits = format!(in alloc; "{byte:02x}")?;
            text.push_str(&digits)?;
        }
    }
    Ok(())
}

/// An event after a bar, as it is written in a schedule.
fn cell(alloc: Global, event: &Event) -> Result<String, AllocError> {
    match event {
        Event::Step { core, count } => format!(in alloc; "|s {core} {count}"),
        Event::Input { port, byte } => format!(in alloc; "|i {port} {byte}"),
    }
}

/// Writes at most twenty events from a number on after a text, as a line.
fn tell_events(
    alloc: Global,
    text: &mut String,
    events: &[Event],
    first: usize,
) -> Result<(), AllocError> {
    for event in events.iter().skip(first).take(20) {
        let said = cell(alloc, event)?;
        text.push_str(&said)?;
    }
    text.push('\n')
}

fn told(alloc: Global, n: u32) -> Result<String, AllocError> {
    let workload = made(alloc, n)?;
    let mut text = String::new(alloc);
    for (vm, image) in workload.config.vms.iter().zip(workload.images.iter()) {
        let names = format!(in alloc; "{} {}", vm.name.as_str(), vm.image.as_str())?;
        text.push_str(&names)?;
        tell_words(alloc, &mut text, image.as_slice())?;
        text.push('\n')?;
    }
    tell_events(alloc, &mut text, workload.events.as_slice(), 0)?;
    tell_events(alloc, &mut text, workload.events.as_slice(), 199_997)?;
    Ok(text)
}

fn check_row(rt: &impl Abort, alloc: Global, n: u32, want: &str) -> Result<(), AllocError> {
    let said = told(alloc, n)?;
    assert!(rt; said.as_str() == want, "{n}: {said}");
    Ok(())
}

#[test]
fn workloads(rt: HostRuntime) -> Result<(), AllocError> {
    for (n, want) in ROWS.as_slice() {
        check_row(&rt, rt.alloc(), *n, want)?;
    }
    Ok(())
}

#[test]
fn one_number_gives_one_workload(rt: HostRuntime) -> Result<(), AllocError> {
    let one = made(rt.alloc(), 7)?;
    let other = made(rt.alloc(), 7)?;
    assert!(rt;
        one.events == other.events && one.images == other.images && one.config == other.config
    );
    Ok(())
}
