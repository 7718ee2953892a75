// A sink in memory whose listed calls fail.
ghost use Rattle.std.specs.Prelude.{◌≡◌, ◌+◌, ◌-◌, ◌≤◌, [], length, min, Some, IfOk, IsErr, IsTrue, ◌↔◌};
ghost use Rattle.tmm_io.specs.Causes.{HasCause, raised};
ghost use Rattle.tmm_io.specs.Ends.{WritesAll};
ghost use Rattle.tmm_io.specs.Kept.{stated_for, kept_of, is_failing, after_write};

use crate::{Failed, Sink};
use std::alloc::Global;
use std::marker::Model;
use tmm_model::NoMemory;

/// Keeps bytes in a room that is taken when it is made, so that no write takes memory.
///
/// A listed call fails, and keeps the least of its stated number of bytes, the piece's length and
/// the room left; calls count from 1, and the first pair with a call's number counts. A call that
/// isn't listed fails, and keeps nothing, exactly where its piece is longer than the room left.
/// Every other call keeps its whole piece.
#[derive(Drop)]
pub struct MemSink {
    bytes: Vec<u8>,
    room: usize,
    calls: u64,
    fails: Vec<(u64, usize)>,
    faults: u64,
}

impl Model for MemSink {
    ghost use Rattle.std.specs.Prelude.{◌+◌, ◌≤◌, vec_len, vec_capacity};
    ghost use Rattle.tmm_io.specs.Kept.{Kept};

    ghost Value = { Kept };

    ghost view = { λ s. record {
      bytes = s.bytes.items;
      room = s.room;
      calls = s.calls;
      fails = s.fails.items;
      faults = s.faults;
    } };

    ghost invariant = { λ s. vec_len s.bytes + s.room ≤ vec_capacity s.bytes };
}

impl MemSink {
    /// An empty sink with a room of so many bytes. `fails` has the calls that fail, each with the
    /// number of bytes that it keeps.
    pub fn make(alloc: Global, room: usize, fails: &[(u64, usize)]) -> Result<MemSink, NoMemory>
        ensures { IfOk result (λ s. s ≡ record { bytes = []; room = room; calls = 0; fails = fails.now; faults = 0 }) }
    {
        Ok(MemSink {
            bytes: Vec::with_capacity(alloc, room)?,
            room,
            calls: 0,
            fails: Vec::from_slice(alloc, fails)?,
            faults: 0,
        })
    }

    /// The bytes that it keeps.
    pub fn bytes(&self) -> &[u8]
        ensures { result.now ≡ self.now.bytes }
    {
        self.bytes.as_slice()
    }
}

// How many bytes are stated for a call.
fn stated(fails: &[(u64, usize)], call: u64) -> Option<usize>
    ensures { result ≡ stated_for call fails.now }
{
    for (listed, kept) in fails {
        if *listed == call {
            return Some(*kept);
        }
    }
    None
}

// How many bytes of a piece a call keeps, and whether it fails.
fn share(stated: Option<usize>, len: usize, room: usize) -> (usize, bool)
    ensures kept { result.0 ≡ kept_of stated len room }
    ensures failing { result.1 ≡ is_failing stated len room }
    ensures within { result.0 ≤ min len room }
{
    match stated {
        Some(stated) => (stated.min(len).min(room), true),
        None if len <= room => (len, false),
        None => (0, true),
    }
}

impl Sink for MemSink {
    ghost written = { λ s. Some s.bytes };

    ghost faults = { λ s. s.faults };

    fn write_all(&mut self, bytes: &[u8]) -> Result<(), Failed>
        ensures bytes { WritesAll (Some self.old.bytes) (Some self.new.bytes) result bytes.now }
        ensures cause { HasCause self.old.faults self.new.faults result }
        ensures failing { IsErr result ↔ IsTrue (is_failing (stated_for (raised self.old.calls) self.old.fails) (length bytes.now) self.old.room) }
        ensures after { self.new ≡ after_write self.old bytes.now }
    {
        self.calls = self.calls.saturating_add(1);
        let stated = stated(&self.fails, self.calls);
        let (kept, failing) = share(stated, bytes.len(), self.room);
        // the room was taken in `make`, so this takes no memory
        let _ = self.bytes.extend_from_slice(&bytes[..kept]);
        self.room -= kept;
        if failing {
            self.faults = self.faults.saturating_add(1);
            return Err(Failed);
        }
        Ok(())
    }
}
