ghost use Rattle.std.specs.Prelude.{◌≡◌, ◌+◌, ◌-◌, ◌<◌, ◌≤◌, ◌↔◌, min, length, take, drop, ◌∷◌, Contains, Some, IfOk, IfErr, OnErr, IsErr, IsTrue};
ghost use Rattle.io_edge.specs.Faults.{failed_calls, one_more};
ghost use Rattle.io_edge.specs.Streams.{Rose, Takes, IsToldAs};

use crate::faults::fails_next;
use crate::streams::{Failed, Source};
use geo_rect::{List, NoMemory};
use std::alloc::Global;

/// A source in memory, which gives at most `most` bytes a call. A call fails where its number, from
/// 1, stands in `fails`, and gives no byte then.
#[derive(Drop)]
pub struct MemSource {
    pub bytes: List<u8>,
    /// How many of the bytes were given.
    pub place: usize,
    pub most: usize,
    pub fails: List<u64>,
    /// How many calls there were. It stops at the last value of its type, and no later call fails.
    pub calls: u64,
    pub ghost gives_some: { 1 ≤ most },
    pub ghost in_bytes: { place ≤ length bytes },
}

impl MemSource {
    ghost use Rattle.std.specs.Prelude.{◌≡◌, ◌≤◌, IfOk};

    /// A source of these bytes.
    pub fn new(
        alloc: Global,
        bytes: &[u8],
        most: usize,
        fails: &[u64],
    ) -> Result<MemSource, NoMemory>
        requires { 1 ≤ most }
        ensures bytes { IfOk result (λ s. s.bytes ≡ bytes.now) }
        ensures place { IfOk result (λ s. s.place ≡ 0) }
        ensures most { IfOk result (λ s. s.most ≡ most) }
        ensures fails { IfOk result (λ s. s.fails ≡ fails.now) }
        ensures calls { IfOk result (λ s. s.calls ≡ 0) }
    {
        Ok(MemSource {
            bytes: List::from_slice(alloc, bytes)?,
            place: 0,
            most,
            fails: List::from_slice(alloc, fails)?,
            calls: 0,
        })
    }
}

impl Source for MemSource {
    ghost left = { λ s. Some (drop s.place s.bytes) };

    ghost faults = { λ s. failed_calls s.fails s.calls };

    ghost turns = { λ s. s.calls };

    ghost setup = { λ s. s.most ∷ s.fails };

    fn read(&mut self, buf: &mut [u8]) -> Result<usize, Failed>
        ensures fails { IsErr result ↔ Contains self.old.fails (self.old.calls + 1) }
        ensures calls { self.new.calls ≡ one_more self.old.calls }
        ensures gives { IfOk result (λ n. n
            ≡ min (min self.old.most (length buf.new)) (length self.old.bytes - self.old.place)) }
        ensures moved { IfOk result (λ n. Takes (Some (drop self.old.place self.old.bytes))
            (Some (drop self.new.place self.new.bytes)) (take n buf.new)) }
        ensures place { IfOk result (λ n. self.new.place ≡ self.old.place + n) }
        ensures stays { OnErr result (self.new.place ≡ self.old.place) }
        ensures bytes_kept { self.new.bytes ≡ self.old.bytes }
        ensures most_kept { self.new.most ≡ self.old.most }
        ensures fails_kept { self.new.fails ≡ self.old.fails }

        // The count of faults is the number of failed calls.
        ensures fault { OnErr result (failed_calls self.old.fails self.old.calls
            < failed_calls self.new.fails self.new.calls) }
        ensures never_falls { failed_calls self.old.fails self.old.calls
            ≤ failed_calls self.new.fails self.new.calls }
    {
        let failing = fails_next(self.fails.as_slice(), self.calls);
        self.calls = self.calls.saturating_add(1);
        if failing {
            return Err(Failed);
        }
        let count = self.most.min(buf.len()).min(self.bytes.len() - self.place);
        let end = self.place + count;
        buf[..count].copy_from_slice(&self.bytes.as_slice()[self.place..end]);
        self.place = end;
        Ok(count)
    }
}
