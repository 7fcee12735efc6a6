ghost use Rattle.std.specs.Prelude.{◌≡◌, ◌+◌, ◌<◌, ◌≤◌, ◌↔◌, ◌⊎◌, min, length, take, ◌++◌, [], ◌∷◌, Contains, Some, IfOk, IfErr, OnOk, OnErr, IsErr, IsTrue, vec_len, vec_capacity};
ghost use Rattle.io_edge.specs.Faults.{failed_calls, one_more};
ghost use Rattle.io_edge.specs.Streams.{Rose, Appends};

use crate::faults::fails_next;
use crate::streams::{Failed, Sink};
use geo_rect::{List, NoMemory};
use std::alloc::Global;

/// A sink in memory, which takes at most `most` bytes a call. A call fails where its number, from 1,
/// stands in `fails`. Any other call fails where the bytes that it would take pass the room. A call
/// that fails takes no byte. No write takes memory.
#[derive(Drop)]
pub struct MemSink {
    pub held: Vec<u8>,
    /// How many bytes it may hold.
    pub room: usize,
    pub most: usize,
    pub fails: List<u64>,
    /// How many calls there were. It stops at the last value of its type, and no later call fails by `fails`.
    pub calls: u64,
    /// How many calls failed for want of room. It stops at the last value of its type.
    pub full: u64,
    pub ghost takes_some: { 1 ≤ most },
    pub ghost in_room: { vec_len held ≤ room },
    pub ghost has_room: { room ≤ vec_capacity held },
    pub ghost not_full: { vec_len held + most ≤ room → full ≡ 0 },
}

impl MemSink {
    /// A sink that holds nothing, with room for this many bytes.
    pub fn new(alloc: Global, room: usize, most: usize, fails: &[u64]) -> Result<MemSink, NoMemory>
        requires { 1 ≤ most }
        ensures held { IfOk result (λ s. s.held.items ≡ []) }
        ensures room { IfOk result (λ s. s.room ≡ room) }
        ensures most { IfOk result (λ s. s.most ≡ most) }
        ensures fails { IfOk result (λ s. s.fails ≡ fails.now) }
        ensures calls { IfOk result (λ s. s.calls ≡ 0) }
        ensures full { IfOk result (λ s. s.full ≡ 0) }
    {
        Ok(MemSink {
            held: Vec::with_capacity(alloc, room)?,
            room,
            most,
            fails: List::from_slice(alloc, fails)?,
            calls: 0,
            full: 0,
        })
    }
}

impl Sink for MemSink {
    ghost written = { λ s. Some s.held.items };

    ghost faults = { λ s. failed_calls s.fails s.calls + s.full };

    ghost setup = { λ s. s.room ∷ s.most ∷ s.fails };

    fn write(&mut self, piece: &[u8]) -> Result<usize, Failed>
        // It fails by its number, or where the bytes that it would take pass the room.
        ensures fails { IsErr result ↔ (Contains self.old.fails (self.old.calls + 1)
            ⊎ (self.old.room < vec_len self.old.held + min self.old.most (length piece.now))) }
        ensures full { OnErr result (¬ Contains self.old.fails (self.old.calls + 1)
            → self.new.full ≡ one_more self.old.full) }
        ensures full_by_number { Contains self.old.fails (self.old.calls + 1)
            → self.new.full ≡ self.old.full }
        ensures full_ok { OnOk result (self.new.full ≡ self.old.full) }
        ensures calls { self.new.calls ≡ one_more self.old.calls }

        ensures takes { IfOk result (λ n. n ≡ min self.old.most (length piece.now)) }
        ensures held { IfOk result (λ n. self.new.held.items ≡ self.old.held.items ++ take n piece.now) }
        ensures stays { OnErr result (self.new.held.items ≡ self.old.held.items) }
        ensures room_kept { self.new.room ≡ self.old.room }
        ensures most_kept { self.new.most ≡ self.old.most }
        ensures fails_kept { self.new.fails ≡ self.old.fails }

        // The count of faults is the number of failed calls by number, and that of calls without room.
        ensures fault { OnErr result (Rose (failed_calls self.old.fails self.old.calls + self.old.full)
            (failed_calls self.new.fails self.new.calls + self.new.full)) }
        ensures never_falls { failed_calls self.old.fails self.old.calls + self.old.full
            ≤ failed_calls self.new.fails self.new.calls + self.new.full }
    {
        let failing = fails_next(self.fails.as_slice(), self.calls);
        self.calls = self.calls.saturating_add(1);
        if failing {
            return Err(Failed);
        }
        let count = self.most.min(piece.len());
        if count > self.room - self.held.len() {
            self.full = self.full.saturating_add(1);
            return Err(Failed);
        }
        self.held.extend_from_slice(&piece[..count]).unwrap();
        Ok(count)
    }
}
