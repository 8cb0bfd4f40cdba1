ghost use Rattle.std.specs.Prelude.{◌≡◌, ◌≤◌, ◌+◌, ◌++◌, Option, List, ℕ, [], Some, IfOk, length, is_err, vec_capacity};
ghost use Rattle.outside.specs.MemSink.{will_fail, after_put};

use crate::faults::is_listed;
use crate::{Sink, SinkFailed};
use std::alloc::{AllocError, Global};
use std::marker::Model;

/// A sink in memory with a fixed room, some of whose puts fail. A put takes no memory.
///
/// A put of at least one byte fails where its call is listed as a failing one, and where it has more bytes than are
/// left of the room. It then takes nothing. Calls are counted from 1, those of no bytes included.
#[derive(Drop)]
pub struct MemSink {
    taken: Vec<u8>,
    room: u32,
    failing: Vec<u32>,
    calls: u64,
    faults: u64,
}

impl Model for MemSink {
    ghost use Rattle.std.specs.Prelude.{◌≤◌, length, vec_capacity};
    ghost use Rattle.outside.specs.MemSink.{MemSinkData};

    ghost Value = { MemSinkData };

    ghost view = { λ s. record {
      taken = s.taken.items;
      room = s.room;
      failing = s.failing.items;
      calls = s.calls;
      faults = s.faults;
    } };

    ghost invariant = { λ s. (length s.taken.items ≤ s.room) × (s.room ≤ vec_capacity s.taken) };
}

impl MemSink {
    /// An empty sink with room for this many bytes, whose calls of the numbers in `failing` are to fail.
    pub fn new(alloc: Global, room: u32, failing: Vec<u32>) -> Result<MemSink, AllocError>
        ensures { IfOk result (λ sink. sink ≡ record {
          taken = [];
          room = room;
          failing = failing.items;
          calls = 0;
          faults = 0;
        }) }
    {
        Ok(MemSink {
            taken: Vec::with_capacity(alloc, room as usize)?,
            room,
            failing,
            calls: 0,
            faults: 0,
        })
    }

    /// All bytes that the sink has taken.
    pub fn taken(&self) -> &[u8]
        ensures { result.now ≡ self.now.taken }
    {
        &self.taken
    }

    /// How often a put was called. It stands still at 2^64 - 1.
    pub fn calls(&self) -> u64
        ensures { result ≡ self.now.calls }
    {
        self.calls
    }

    /// How often a put has failed.
    pub fn faults(&self) -> u64
        ensures { result ≡ self.now.faults }
    {
        self.faults
    }
}

impl Sink for MemSink {
    ghost taken = { λ s. Some s.taken };

    ghost faults = { λ s. s.faults };

    fn put(&mut self, bytes: &[u8]) -> Result<(), SinkFailed>
        // All that the call does.
        ensures answer { is_err result ≡ will_fail self.old bytes.now }
        ensures after { self.new ≡ after_put self.old bytes.now result }
    {
        self.calls = self.calls.saturating_add(1);
        if bytes.is_empty() {
            return Ok(());
        }
        let left = self.room as usize - self.taken.len();
        if is_listed(&self.failing, self.calls) || left < bytes.len() {
            self.faults = self.faults.saturating_add(1);
            return Err(SinkFailed);
        }
        append(&mut self.taken, bytes);
        Ok(())
    }
}

/// Puts the bytes after the others, in memory that is there already.
fn append(taken: &mut Vec<u8>, bytes: &[u8])
    requires { length taken.old.items + length bytes.now ≤ vec_capacity taken.old }
    ensures items { taken.new.items ≡ taken.old.items ++ bytes.now }
    ensures capacity { vec_capacity taken.new ≡ vec_capacity taken.old }
{
    for &byte in bytes {
        taken.push_reserved(byte);
    }
}
