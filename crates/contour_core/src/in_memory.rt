ghost use Rattle.std.specs.Prelude.{◌≡◌, ◌+◌, ◌≤◌, ◌⊎◌, [], map, string_bytes, Some, drop, length};
ghost use Rattle.contour_core.specs.Causes.{MustAccept, MustRefuse};
ghost use Rattle.contour_core.specs.Requests.{IsRequestThat};

use crate::calls::contour;
use crate::endings::Status;
use io_edge::{MemSink, MemSource, Sink};
use std::alloc::Global;

/// The program over streams in memory with no failing call, and with room for what it writes and
/// one piece more. Their counts of faults stay, so an accepted input is answered, and another one
/// refused, unless there is no memory.
pub fn contour_in_memory<E: Sink>(
    alloc: Global,
    words: &[String],
    source: &mut MemSource,
    out: &mut MemSink,
    err: &mut E,
) -> Status
    requires sound_source { source.old.fails ≡ [] }
    requires sound_sink { out.old.fails ≡ [] }
    ensures refuses { IsRequestThat (map string_bytes words.now) (MustRefuse (Some (drop source.old.place source.old.bytes)))
        → (result ≡ Status.BadInput) ⊎ (result ≡ Status.NoMemory) }
    ensures complete { IsRequestThat (map string_bytes words.now) (MustAccept (Some (drop source.old.place source.old.bytes)))
        → length out.new.held.items + out.new.most ≤ out.new.room
        → (result ≡ Status.Done) ⊎ ((result ≡ Status.Wrong) ⊎ (result ≡ Status.NoMemory)) }
{
    contour(alloc, words, source, out, err)
}
