ghost use Rattle.std.specs.Prelude.{◌≡◌, Option, List, ℕ, [], IsOk, IsSome, true, false};
ghost use Rattle.outside.specs.OutSink.{WritesWhole, told_bytes};
ghost use Rattle.outside.specs.Sink.{HasCause, Takes};

use crate::{Sink, SinkFailed};
use std::io::Write;
use std::marker::Model;

/// A sink over a writer, as standard output. A write that fails or takes nothing is a fault.
#[derive(Drop)]
pub struct OutSink<W: Write> {
    writer: W,
    /// Whether the sink tells what its writer holds. Only contracts look at it.
    tells: bool,
    faults: u64,
}

impl<W: Write> Model for OutSink<W> {
    ghost use Rattle.std.specs.Prelude.{IsTrue, IsSome};
    ghost use Rattle.outside.specs.OutSink.{OutSinkData};

    ghost Value = { OutSinkData W };

    ghost view = { λ s. record { writer = s.writer; tells = s.tells; faults = s.faults } };

    ghost invariant = { λ s. IsTrue s.tells → IsSome (W.contents s.writer) };
}

impl<W: Write> OutSink<W> {
    /// A sink that tells nothing of what it has taken.
    pub fn new(writer: W) -> Self
        ensures { result ≡ record { writer = writer; tells = false; faults = 0 } }
    {
        OutSink {
            writer,
            tells: false,
            faults: 0,
        }
    }

    /// A sink that tells what its writer holds, over a writer whose bytes are known.
    pub fn telling(writer: W) -> Self
        requires { IsSome (W.contents writer) }
        ensures { result ≡ record { writer = writer; tells = true; faults = 0 } }
    {
        OutSink {
            writer,
            tells: true,
            faults: 0,
        }
    }

    /// How often a put has failed.
    pub fn faults(&self) -> u64
        ensures { result ≡ self.now.faults }
    {
        self.faults
    }

    /// The writer, with what was put.
    pub fn writer(&self) -> &W
        ensures { result.now ≡ self.now.writer }
    {
        &self.writer
    }
}

impl<W: Write> Sink for OutSink<W> {
    ghost taken = { λ s. told_bytes s.tells (W.contents s.writer) };

    ghost faults = { λ s. s.faults };

    #[tactic(auto, using(crate::proofs::WriterLemmas::told_grows, crate::proofs::WriterLemmas::told_grows_part))]
    fn put(&mut self, bytes: &[u8]) -> Result<(), SinkFailed>
        // Of the writer, whether or not the sink tells of it.
        ensures writes { WritesWhole (W.contents self.old.writer) (W.contents self.new.writer) bytes.now result }
        ensures taken { Takes (told_bytes self.old.tells (W.contents self.old.writer))
            (told_bytes self.new.tells (W.contents self.new.writer)) bytes.now result }
        ensures cause { HasCause self.old.faults self.new.faults result }
        ensures empty { bytes.now ≡ [] → IsOk result }
    {
        match write_whole(&mut self.writer, bytes) {
            Ok(()) => Ok(()),
            Err(SinkFailed) => {
                self.faults = self.faults.saturating_add(1);
                Err(SinkFailed)
            }
        }
    }
}

/// Writes all of `bytes`, each write at least one of them. It fails where a write fails or takes nothing.
#[tactic(auto, using(crate::proofs::WriterLemmas::written_on))]
fn write_whole<W: Write>(writer: &mut W, bytes: &[u8]) -> Result<(), SinkFailed>
    ensures bytes { WritesWhole (W.contents writer.old) (W.contents writer.new) bytes.now result }
    ensures empty { bytes.now ≡ [] → IsOk result }
{
    let mut rest = bytes;
    while !rest.is_empty() {
        match writer.write(rest) {
            Ok(0) | Err(_) => return Err(SinkFailed),
            Ok(count) => rest = &rest[count..],
        }
    }
    Ok(())
}
