ghost use Rattle.std.specs.Prelude.{◌≡◌, ◌++◌, Some, length, drop, IfOk};
ghost use Rattle.std.specs.List.{flat_map};
ghost use Rattle.outside.specs.Sink.{Takes, HasCause};

use crate::{
    FileShelf, MemShelf, MemSink, Open, OutSink, Shelf, ShelfError, Sink, SinkFailed, SureShelf,
    WorkingDirectory,
};
use std::alloc::Global;
use std::io::{Error, ErrorKind, Read, Write};
use std::process::Abort;
use std::test::Fail;
use std::{fs, io};

/// The files `a`, which is empty, and `b`.
fn two_files(alloc: Global) -> Result<(Vec<String>, Vec<Vec<u8>>), Fail>
    ensures { IfOk result (λ files. length files.0.items ≡ length files.1.items) }
{
    let mut names = Vec::new(alloc);
    names.push(String::from_str(alloc, "a")?)?;
    names.push(String::from_str(alloc, "b")?)?;
    let mut contents = Vec::new(alloc);
    contents.push(Vec::new(alloc))?;
    contents.push(b"four".to_vec(alloc)?)?;
    Ok((names, contents))
}

/// Fails the test where what is asked doesn't hold.
fn check(rt: &impl Abort, holds: bool, shows: &str) {
    assert!(rt; holds, "{shows}");
}

/// Fetches through the trait, as callers do, and tells whether the answer is the one that is wanted.
fn answers<S: Shelf>(
    shelf: &mut S,
    alloc: Global,
    name: &str,
    limit: u32,
    wanted: Result<&[u8], ShelfError>,
) -> bool {
    match (shelf.fetch(alloc, name, limit), wanted) {
        (Ok(file), Ok(bytes)) => file.as_slice() == bytes,
        (Err(error), Err(other)) => error == other,
        _ => false,
    }
}

#[rattlefmt::skip]
static FETCHES: [(&str, &str, u32, Result<&[u8], ShelfError>, u64, &str); 7] = [
    // shows                     name limit answer                       faults culprit
    ("at the limit",             "b", 4,    Ok(b"four"),                 0,     ""),
    ("a call that is listed",    "b", 4,    Err(ShelfError::Failed),     1,     "b"),
    ("the call after it",        "b", 4,    Ok(b"four"),                 1,     "b"),
    ("above the limit",          "b", 3,    Err(ShelfError::TooLong),    1,     "b"),
    ("empty, within no bytes",   "a", 0,    Ok(b""),                     1,     "b"),
    ("a name that isn't held",   "c", 4,    Err(ShelfError::Failed),     2,     "c"),
    ("listed and above",         "b", 3,    Err(ShelfError::Failed),     3,     "b"),
];

#[test]
fn mem_shelf(rt: HostRuntime) -> Result<(), Fail> {
    let alloc = rt.alloc();
    let (names, contents) = two_files(alloc)?;
    let failing = [2, 7].to_vec(alloc)?;
    let mut shelf = MemShelf::new(alloc, names, contents, failing);
    check(
        &rt,
        (shelf.calls(), shelf.faults(), shelf.culprit()) == (0, 0, ""),
        "at first",
    );
    for (shows, name, limit, answer, faults, culprit) in FETCHES.as_slice() {
        check(
            &rt,
            answers(&mut shelf, alloc, name, *limit, *answer),
            shows,
        );
        check(
            &rt,
            (shelf.faults(), shelf.culprit()) == (*faults, *culprit),
            shows,
        );
    }
    check(&rt, shelf.calls() == 7, "calls");
    Ok(())
}

#[rattlefmt::skip]
static SURE_FETCHES: [(&str, &str, u32, Result<&[u8], ShelfError>); 3] = [
    // shows            name limit answer
    ("at the limit",    "b", 4,    Ok(b"four")),
    ("above the limit", "b", 3,    Err(ShelfError::TooLong)),
    ("a missing name",  "c", 0,    Ok(b"")),
];

#[test]
fn sure_shelf(rt: HostRuntime) -> Result<(), Fail> {
    let alloc = rt.alloc();
    let (names, contents) = two_files(alloc)?;
    let mut shelf = SureShelf::new(alloc, names, contents);
    for (shows, name, limit, answer) in SURE_FETCHES.as_slice() {
        check(
            &rt,
            answers(&mut shelf, alloc, name, *limit, *answer),
            shows,
        );
    }
    Ok(())
}

#[rattlefmt::skip]
static PUTS: [(&str, &[u8], Result<(), SinkFailed>, &[u8], u64); 8] = [
    // shows                        bytes     answer           taken     faults
    ("some of the room",            b"abc",   Ok(()),          b"abc",   0),
    ("a call that is listed",       b"d",     Err(SinkFailed), b"abc",   1),
    ("listed, but of no bytes",     b"",      Ok(()),          b"abc",   1),
    ("more than is left",           b"def",   Err(SinkFailed), b"abc",   2),
    ("less than was refused",       b"d",     Ok(()),          b"abcd",  2),
    ("all that is left",            b"e",     Ok(()),          b"abcde", 2),
    ("no bytes where none is left", b"",      Ok(()),          b"abcde", 2),
    ("one byte where none is left", b"f",     Err(SinkFailed), b"abcde", 3),
];

#[test]
fn mem_sink(rt: HostRuntime) -> Result<(), Fail> {
    let alloc = rt.alloc();
    let mut sink = MemSink::new(alloc, 5, [2, 3].to_vec(alloc)?)?;
    for (shows, bytes, answer, taken, faults) in PUTS.as_slice() {
        check(&rt, put(&mut sink, bytes) == *answer, shows);
        check(
            &rt,
            sink.taken() == *taken && sink.faults() == *faults,
            shows,
        );
    }
    check(&rt, sink.calls() == 8, "calls");
    Ok(())
}

/// Puts through the trait, as callers do.
fn put<K: Sink>(sink: &mut K, bytes: &[u8]) -> Result<(), SinkFailed> {
    sink.put(bytes)
}

/// A file that is read one byte at a time, and of which only this many reads succeed.
#[derive(Drop)]
struct Drip {
    bytes: Vec<u8>,
    at: usize,
    reads: usize,
}

impl Read for Drip {
    ghost remaining = { λ d. Some (drop d.at d.bytes.items) };

    fn read(&mut self, buf: &mut [u8]) -> io::Result<usize> {
        if self.reads == 0 {
            return Err(Error::from(ErrorKind::Other));
        }
        self.reads -= 1;
        if buf.is_empty() || self.at >= self.bytes.len() {
            return Ok(0);
        }
        buf[0] = self.bytes[self.at];
        self.at += 1;
        Ok(1)
    }
}

/// A folder in which each name but the empty one is a file of these bytes.
#[derive(Drop)]
struct Folder {
    alloc: Global,
    bytes: Vec<u8>,
    reads: usize,
}

impl Open for Folder {
    type File = Drip;

    ghost files = { λ f. Some (λ _. Some f.bytes.items) };

    fn open(&self, name: &str) -> io::Result<Drip> {
        if name.is_empty() {
            return Err(Error::from(ErrorKind::NotFound));
        }
        Ok(Drip {
            bytes: self.bytes.to_vec(self.alloc)?,
            at: 0,
            reads: self.reads,
        })
    }
}

#[rattlefmt::skip]
static DRIPS: [(&str, &[u8], usize, &str, u32, Result<&[u8], ShelfError>); 8] = [
    // shows                            content  reads name limit answer
    ("the last read finds the end",     b"four", 5,    "b", 4,    Ok(b"four")),
    ("that read fails",                 b"four", 4,    "b", 4,    Err(ShelfError::Failed)),
    ("the first read fails",            b"four", 0,    "b", 4,    Err(ShelfError::Failed)),
    ("one byte above the limit",        b"four", 4,    "b", 3,    Err(ShelfError::TooLong)),
    ("nothing is read after that byte", b"four", 1,    "b", 0,    Err(ShelfError::TooLong)),
    ("nor of a longer file",            b"longer", 3,  "b", 2,    Err(ShelfError::TooLong)),
    ("empty, within no bytes",          b"",     1,    "b", 0,    Ok(b"")),
    ("a file that can't be opened",     b"four", 5,    "",  4,    Err(ShelfError::Failed)),
];

#[test]
fn files_that_drip(rt: HostRuntime) -> Result<(), Fail> {
    let alloc = rt.alloc();
    for (shows, bytes, reads, name, limit, answer) in DRIPS.as_slice() {
        let bytes = bytes.to_vec(alloc)?;
        let reads = *reads;
        let folder = Folder {
            alloc,
            bytes,
            reads,
        };
        let mut shelf = FileShelf::new(alloc, folder);
        check(
            &rt,
            answers(&mut shelf, alloc, name, *limit, *answer),
            shows,
        );
        let failed = matches!(answer, Err(ShelfError::Failed));
        let blame = if failed { (1, *name) } else { (0, "") };
        check(&rt, (shelf.faults(), shelf.culprit()) == blame, shows);
    }
    Ok(())
}

#[rattlefmt::skip]
static FILES: [(&str, &str, u32, Result<&[u8], ShelfError>, u64, &str); 5] = [
    // shows                            name                limit answer                    faults culprit
    ("a file",                          "outside-one.txt",  4,    Ok(b"real"),              0,     ""),
    ("another",                         "outside-two.txt",  4,    Ok(b"two"),               0,     ""),
    ("above the limit",                 "outside-one.txt",  3,    Err(ShelfError::TooLong), 0,     ""),
    ("a missing file",                  "no-such-file.txt", 4,    Err(ShelfError::Failed),  1,     "no-such-file.txt"),
    ("a directory opens, but no read",  ".",                4,    Err(ShelfError::Failed),  2,     "."),
];

#[test]
fn real_files(rt: HostRuntime) -> Result<(), Fail> {
    let alloc = rt.alloc();
    fs::write(&rt, "outside-one.txt", "real")?;
    fs::write(&rt, "outside-two.txt", "two")?;
    let mut shelf = FileShelf::new(alloc, WorkingDirectory::new(&rt));
    for (shows, name, limit, answer, faults, culprit) in FILES.as_slice() {
        check(
            &rt,
            answers(&mut shelf, alloc, name, *limit, *answer),
            shows,
        );
        check(
            &rt,
            (shelf.faults(), shelf.culprit()) == (*faults, *culprit),
            shows,
        );
    }
    fs::remove_file(&rt, "outside-one.txt")?;
    fs::remove_file(&rt, "outside-two.txt")?;
    Ok(())
}

/// A writer that takes one byte at a time, and this many in all. Then it fails, or takes nothing.
#[derive(Drop)]
struct Trickle {
    taken: Vec<u8>,
    room: usize,
    fails: bool,
}

impl Write for Trickle {
    ghost contents = { λ t. Some t.taken.items };

    fn write(&mut self, buf: &[u8]) -> io::Result<usize> {
        match buf {
            [first, ..] if self.taken.len() < self.room => {
                self.taken.push(*first)?;
                Ok(1)
            }
            _ if self.fails => Err(Error::from(ErrorKind::Other)),
            _ => Ok(0),
        }
    }

    fn flush(&mut self) -> io::Result<()> {
        Ok(())
    }
}

#[rattlefmt::skip]
static TRICKLES: [(&str, &[u8], Result<(), SinkFailed>, &[u8], u64); 4] = [
    // shows                    bytes   answer           taken     faults
    ("a byte at a time",        b"abc", Ok(()),          b"abc",   0),
    ("the last isn't taken",     b"def", Err(SinkFailed), b"abcde", 1),
    ("no bytes",                b"",    Ok(()),          b"abcde", 1),
    ("nothing more",            b"g",   Err(SinkFailed), b"abcde", 2),
];

#[test]
fn a_writer_that_trickles(rt: HostRuntime) -> Result<(), Fail> {
    for fails in [false, true] {
        trickles_alike(&rt, rt.alloc(), fails, true);
        trickles_alike(&rt, rt.alloc(), fails, false);
    }
    Ok(())
}

/// The same is written whether or not the sink tells of it.
fn trickles_alike(rt: &impl Abort, alloc: Global, fails: bool, tells: bool) {
    let writer = Trickle {
        taken: Vec::new(alloc),
        room: 5,
        fails,
    };
    let mut sink = if tells {
        OutSink::telling(writer)
    } else {
        OutSink::new(writer)
    };
    for (shows, bytes, answer, taken, faults) in TRICKLES.as_slice() {
        check(rt, put(&mut sink, bytes) == *answer, shows);
        let written = sink.writer().taken.as_slice();
        check(rt, written == *taken && sink.faults() == *faults, shows);
    }
}

#[test]
fn standard_output(rt: HostRuntime) {
    let mut sink = OutSink::new(io::writer(&rt));
    let answer = put(&mut sink, b"put to standard output\n");
    check(&rt, answer == Ok(()) && sink.faults() == 0, "a line");
}

#[test]
fn error_texts(rt: HostRuntime) -> Result<(), Fail> {
    let alloc = rt.alloc();
    let texts = format!(in alloc;
        "{}, {}, {}, {}",
        ShelfError::TooLong,
        ShelfError::Failed,
        ShelfError::OutOfMemory,
        SinkFailed
    )?;
    check(
        &rt,
        texts.as_str() == "file too long, file not read, out of memory, text not taken",
        "the texts",
    );
    Ok(())
}

/// Three texts, one after the other: how a caller's promise on a whole text follows from the puts of its parts.
#[tactic(auto, using(crate::proofs::Puts::in_parts))]
fn put_three<K: Sink>(
    sink: &mut K,
    first: &[u8],
    second: &[u8],
    third: &[u8],
) -> Result<(), SinkFailed>
    ensures taken { Takes (K.taken sink.old) (K.taken sink.new) (first.now ++ (second.now ++ third.now)) result }
    ensures cause { HasCause (K.faults sink.old) (K.faults sink.new) result }
{
    sink.put(first)?;
    sink.put(second)?;
    sink.put(third)
}

/// The same for a loop over the parts.
fn put_all<K: Sink>(sink: &mut K, texts: &[Vec<u8>]) -> Result<(), SinkFailed>
    ensures taken { Takes (K.taken sink.old) (K.taken sink.new) (flat_map (λ text. text.items) texts.now) result }
    ensures cause { HasCause (K.faults sink.old) (K.faults sink.new) result }
{
    for text in texts {
        sink.put(text)?;
    }
    Ok(())
}

#[rattlefmt::skip]
static PARTS: [(&str, u32, Result<(), SinkFailed>, &[u8]); 4] = [
    // shows                 failing call  answer           taken
    ("no call fails",        9,            Ok(()),          b"abbccc"),
    ("the third part fails", 3,            Err(SinkFailed), b"abb"),
    ("the second",           2,            Err(SinkFailed), b"a"),
    ("the first",            1,            Err(SinkFailed), b""),
];

#[test]
fn texts_in_parts(rt: HostRuntime) -> Result<(), Fail> {
    let alloc = rt.alloc();
    let mut texts = Vec::new(alloc);
    texts.push(b"a".to_vec(alloc)?)?;
    texts.push(b"bb".to_vec(alloc)?)?;
    texts.push(b"ccc".to_vec(alloc)?)?;
    for (shows, failing, answer, taken) in PARTS.as_slice() {
        let mut sink = MemSink::new(alloc, 6, [*failing].to_vec(alloc)?)?;
        let one = put_three(&mut sink, b"a", b"bb", b"ccc");
        check(&rt, one == *answer && sink.taken() == *taken, shows);
        let mut sink = MemSink::new(alloc, 6, [*failing].to_vec(alloc)?)?;
        let all = put_all(&mut sink, &texts);
        check(&rt, all == *answer && sink.taken() == *taken, shows);
    }
    Ok(())
}
