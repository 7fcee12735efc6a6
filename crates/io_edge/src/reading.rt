ghost use Rattle.std.specs.Prelude.{◌≡◌, ℕ, ◌+◌, ◌-◌, ◌*◌, ◌^◌, ◌<◌, ◌≤◌, [], ◌++◌, length, take, IfOk, OnOk, OnErr, IsErrOf, IsTrue, false};
ghost use Rattle.io_edge.specs.Streams.{Rose, Takes, TakesCount, TakesAtMost, IsToldAs, GoesOn};

use crate::streams::{Failed, Source};
use geo_rect::{List, NoMemory};
use std::alloc::Global;

/// Why `read_all` gave no list.
#[derive(Clone, Copy, Debug, PartialEq, Eq)]
pub enum ReadEnd {
    /// The source gave more bytes than the limit.
    TooLong,
    /// A read failed.
    ReadFault,
    /// There was no memory for the bytes. Those that were read are lost.
    NoMemory,
}

impl From<Failed> for ReadEnd {
    ghost use Rattle.std.specs.Prelude.{◌≡◌};
    ghost use Rattle.io_edge.specs.declared.reading.ReadEnd.TheVariants.{ReadFault};

    ghost from_gives = { λ _ e. e ≡ ReadFault };

    fn from(_failed: Failed) -> ReadEnd {
        ReadEnd::ReadFault
    }
}

impl From<NoMemory> for ReadEnd {
    ghost use Rattle.std.specs.Prelude.{◌≡◌};
    ghost use Rattle.io_edge.specs.declared.reading.ReadEnd.TheVariants.{NoMemory};

    ghost from_gives = { λ _ e. e ≡ NoMemory };

    fn from(_error: NoMemory) -> ReadEnd {
        ReadEnd::NoMemory
    }
}

/// How many bytes one read asks for at most.
const PIECE: usize = 16384;

/// One turn: reads a piece, adds it to what was taken, and says whether this was the end. It asks
/// for at most one byte more than the limit leaves room for, and adds no piece that passes the limit.
fn read_piece<S: Source>(src: &mut S, taken: &mut List<u8>, limit: usize) -> Result<bool, ReadEnd>
    requires small { limit ≤ 2 ^ 28 }
    requires within { length taken.old ≤ limit }

    // What was taken from some state on was what is in the list, and it is so after the turn.
    ensures ok { OnOk result (GoesOn (S.left src.old) taken.old (λ begun.
        Takes begun (S.left src.new) taken.new)) }
    ensures within { OnOk result (length taken.new ≤ limit) }
    ensures grows { IfOk result (λ ended. ended ≡ false → length taken.old < length taken.new) }
    ensures end { IfOk result (λ ended. IsTrue ended → IsToldAs (S.left src.new) []) }
    ensures too_long { IsErrOf result ReadEnd.TooLong
        → GoesOn (S.left src.old) taken.old (λ begun. TakesCount begun (S.left src.new) (limit + 1)) }
    ensures fault { IsErrOf result ReadEnd.ReadFault → Rose (S.faults src.old) (S.faults src.new) }
    ensures fault_within { IsErrOf result ReadEnd.ReadFault
        → GoesOn (S.left src.old) taken.old (λ begun. TakesAtMost begun (S.left src.new) limit) }
    ensures no_memory { IsErrOf result ReadEnd.NoMemory
        → GoesOn (S.left src.old) taken.old (λ begun. TakesAtMost begun (S.left src.new) limit) }
    ensures never_falls { S.faults src.old ≤ S.faults src.new }
    ensures turns { S.turns src.new ≤ S.turns src.old + 1 }
    ensures setup { S.setup src.new ≡ S.setup src.old }
{
    let mut buf = [0; PIECE];
    let most = buf.len().min(limit + 1 - taken.len());
    let count = src.read(&mut buf[..most])?;
    if count > limit - taken.len() {
        return Err(ReadEnd::TooLong);
    }
    taken.extend_from_slice(&buf[..count])?;
    Ok(count == 0)
}

/// All bytes that the source has left, if they are at most `limit`, in pieces of some KiB.
pub fn read_all<S: Source>(alloc: Global, src: &mut S, limit: usize) -> Result<List<u8>, ReadEnd>
    requires { limit ≤ 2 ^ 28 }

    // The list is all that was left, and nothing is left.
    ensures ok { IfOk result (λ list. Takes (S.left src.old) (S.left src.new) list) }
    ensures all { IfOk result (λ list. IsToldAs (S.left src.old) list) }
    ensures end { OnOk result (IsToldAs (S.left src.new) []) }
    ensures within { IfOk result (λ list. length list ≤ limit) }

    // Too long is what gave one byte more than the limit, and nothing else gave so many.
    ensures too_long { IsErrOf result ReadEnd.TooLong
        → TakesCount (S.left src.old) (S.left src.new) (limit + 1) }
    ensures fault { IsErrOf result ReadEnd.ReadFault → Rose (S.faults src.old) (S.faults src.new) }
    ensures fault_within { IsErrOf result ReadEnd.ReadFault
        → TakesAtMost (S.left src.old) (S.left src.new) limit }
    ensures no_memory { IsErrOf result ReadEnd.NoMemory
        → TakesAtMost (S.left src.old) (S.left src.new) limit }

    ensures never_falls { S.faults src.old ≤ S.faults src.new }
    ensures turns { S.turns src.new ≤ S.turns src.old + limit + 2 }
    ensures setup { S.setup src.new ≡ S.setup src.old }
{
    let mut taken = List::new(alloc);
    loop {
        if read_piece(src, &mut taken, limit)? {
            return Ok(taken);
        }
    }
}
