//! Runs of the top call over a shelf and a sink in memory.

use crate::told::{bytes_of, digits, with_ends};
use asm_run::run_asm;
use outside::{MemShelf, MemSink};
use std::alloc::{AllocError, Global};
use std::process::Abort;

/// The words; the content of the file `f`; the fetch and the put that fail; and the status's number with what was written.
type Row = (&'static str, &'static str, u32, u32, &'static str);

/// The content is text, with `~` for each end of a line. No call fails where the number is 0.
#[rattlefmt::skip]
static SOURCES: [Row; 16] = [
    ("asm f", "movz x0, 5, 0~here:~b here~", 0, 0, "0 a00080d200000014"),
    ("asm f", "", 0, 0, "0 "),
    ("asm f", "b there~", 0, 0, "15 bad line 1 rule 3~"),
    ("asm f", "nop~movz x0, 65536, 0~", 0, 0, "15 bad line 2 rule 2~"),
    ("list f", "abc", 0, 0, "16 bad length 3~"),
    ("", "", 0, 0, "2 usage: asm FILE or list FILE~"),
    ("asm", "", 0, 0, "2 usage: asm FILE or list FILE~"),
    ("asm f f", "", 0, 0, "2 usage: asm FILE or list FILE~"),
    ("ASM f", "", 0, 0, "2 usage: asm FILE or list FILE~"),
    ("run f", "", 0, 0, "2 usage: asm FILE or list FILE~"),
    ("asm g", "", 0, 0, "3 read fault file~"),
    ("list f", "", 1, 0, "3 read fault file~"),
    ("asm f", "nop~", 0, 1, "9 "),
    ("asm f", "q~", 0, 1, "15 "),
    ("asm g", "", 0, 1, "3 "),
    ("list f", "abc", 0, 1, "16 "),
];

/// The same with an image, by its bytes.
#[rattlefmt::skip]
static IMAGES: [Row; 3] = [
    ("list f", "a00080d200000014", 0, 0, "0 movz x0, 5, 0~b 0~"),
    ("list f", "", 0, 0, "0 "),
    ("list f", "1f2003d5", 0, 1, "9 "),
];

/// The verb, of how many zeros the file is, and what is told.
#[rattlefmt::skip]
static LENGTHS: [(&str, usize, &str); 4] = [
    ("asm f", 16_777_216, "15 bad line 1 rule 1~"),
    ("asm f", 16_777_217, "4 too long file limit 16777216~"),
    ("list f", 1_048_574, "16 bad length 1048574~"),
    ("list f", 1_048_577, "4 too long file limit 1048576~"),
];

/// The words between blanks.
fn words_in(alloc: Global, text: &str) -> Result<Vec<String>, AllocError> {
    let mut words = Vec::new(alloc);
    for word in text.split_whitespace() {
        words.push(word.to_owned(alloc)?)?;
    }
    Ok(words)
}

/// A shelf with one file, `f`.
fn shelf_with(alloc: Global, content: Vec<u8>, failing: u32) -> Result<MemShelf, AllocError> {
    let names = vec![in alloc; "f".to_owned(alloc)?]?;
    let contents = vec![in alloc; content]?;
    Ok(MemShelf::new(alloc, names, contents, vec![in alloc; failing]?))
}

/// Bytes as text, with `~` for each end of a line; where they aren't text, two digits for each.
fn shown(alloc: Global, bytes: &[u8]) -> Result<String, AllocError> {
    match std::str::from_utf8(bytes) {
        Ok(text) => text.replace(alloc, '\n', "~"),
        Err(_) => digits(alloc, bytes),
    }
}

/// The number of the status, and what was written.
fn told_run(
    alloc: Global,
    words: &str,
    content: Vec<u8>,
    failing_fetch: u32,
    failing_put: u32,
) -> Result<String, AllocError> {
    let mut shelf = shelf_with(alloc, content, failing_fetch)?;
    let mut sink = MemSink::new(alloc, 4096, vec![in alloc; failing_put]?)?;
    let words = words_in(alloc, words)?;
    let number = run_asm(alloc, &words, &mut shelf, &mut sink).number();
    let text = shown(alloc, sink.taken())?;
    format!(in alloc; "{number} {text}")
}

fn check_run(
    rt: &impl Abort,
    alloc: Global,
    row: &Row,
    content: Vec<u8>,
) -> Result<(), AllocError> {
    let (words, file, failing_fetch, failing_put, want) = *row;
    let said = told_run(alloc, words, content, failing_fetch, failing_put)?;
    assert!(rt; said.as_str() == want, "{words} {file}: {said}");
    Ok(())
}

#[test]
fn sources(rt: HostRuntime) -> Result<(), AllocError> {
    let alloc = rt.alloc();
    for row in SOURCES.as_slice() {
        check_run(&rt, alloc, row, with_ends(alloc, row.1)?.into_bytes())?;
    }
    Ok(())
}

#[test]
fn images(rt: HostRuntime) -> Result<(), AllocError> {
    let alloc = rt.alloc();
    for row in IMAGES.as_slice() {
        check_run(&rt, alloc, row, bytes_of(alloc, row.1)?)?;
    }
    Ok(())
}

#[test]
fn lengths(rt: HostRuntime) -> Result<(), AllocError> {
    let alloc = rt.alloc();
    for (words, len, want) in LENGTHS.as_slice() {
        let row = (*words, "zeros", 0, 0, *want);
        check_run(&rt, alloc, &row, vec![in alloc; 0u8; *len]?)?;
    }
    Ok(())
}
