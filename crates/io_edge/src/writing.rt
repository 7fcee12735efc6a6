ghost use Rattle.std.specs.Prelude.{◌≡◌, ◌≤◌, OnOk, OnErr};
ghost use Rattle.io_edge.specs.Streams.{Rose, Appends, AppendsPart};

use crate::streams::{Failed, Sink};

/// A write failed before the sink had taken all.
#[derive(Clone, Copy, Debug, PartialEq, Eq)]
pub struct WriteFault;

impl From<Failed> for WriteFault {
    fn from(_failed: Failed) -> WriteFault {
        WriteFault
    }
}

/// Writes all of `bytes`, in as many pieces as the sink wants. It takes no memory.
///
/// After `WriteFault` the sink has taken a first part of them.
pub fn write_all<K: Sink>(snk: &mut K, bytes: &[u8]) -> Result<(), WriteFault>
    ensures all { OnOk result (Appends (K.written snk.old) (K.written snk.new) bytes.now) }
    ensures fault { OnErr result (Rose (K.faults snk.old) (K.faults snk.new)) }
    ensures part { OnErr result (AppendsPart (K.written snk.old) (K.written snk.new) bytes.now) }
    ensures never_falls { K.faults snk.old ≤ K.faults snk.new }
    ensures setup { K.setup snk.new ≡ K.setup snk.old }
{
    let mut done = 0;
    while done < bytes.len() {
        done += snk.write(&bytes[done..])?;
    }
    Ok(())
}
