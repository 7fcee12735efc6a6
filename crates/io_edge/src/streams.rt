ghost use Rattle.std.specs.Prelude.{◌≡◌, ℕ, ◌+◌, ◌<◌, ◌≤◌, List, [], length, take, Option, IfOk, OnErr};
ghost use Rattle.io_edge.specs.Streams.{Rose, Takes, Appends, IsToldAs};

/// A read or a write that failed.
#[derive(Clone, Copy, Debug, PartialEq, Eq)]
pub struct Failed;

/// Where bytes come from.
pub trait Source {
    // The bytes that are left, where the source tells them.
    ghost left: { Self → Option (List ℕ) };

    // A count of faults, which never falls.
    ghost faults: { Self → ℕ };

    // At most how many calls there were, where they are counted.
    ghost turns: { Self → ℕ };

    // What no call changes.
    ghost setup: { Self → List ℕ };

    /// Gives some of the bytes that are left, at the front of `buf`, and says how many. None into a
    /// buffer that has room: that is the end.
    fn read(&mut self, buf: &mut [u8]) -> Result<usize, Failed>
        ensures count { IfOk result (λ n. n ≤ length buf.new) }
        ensures moved { IfOk result (λ n. Takes (left self.old) (left self.new) (take n buf.new)) }
        ensures end { IfOk result (λ n. n ≡ 0 → 0 < length buf.new → IsToldAs (left self.new) []) }

        // It fails only with a fault, and gives no byte then.
        ensures fault { OnErr result (Rose (faults self.old) (faults self.new)) }
        ensures kept { OnErr result (left self.new ≡ left self.old) }

        ensures never_falls { faults self.old ≤ faults self.new }
        ensures turns { turns self.new ≤ turns self.old + 1 }
        ensures setup { setup self.new ≡ setup self.old };
}

/// Where bytes go.
pub trait Sink {
    // The bytes that it holds, where it tells them.
    ghost written: { Self → Option (List ℕ) };

    // A count of faults, which never falls.
    ghost faults: { Self → ℕ };

    // What no call changes.
    ghost setup: { Self → List ℕ };

    /// Takes some bytes from the front of `piece`, and says how many: at least one, if there is one.
    fn write(&mut self, piece: &[u8]) -> Result<usize, Failed>
        ensures count { IfOk result (λ n. n ≤ length piece.now) }
        ensures moved { IfOk result (λ n. Appends (written self.old) (written self.new) (take n piece.now)) }
        ensures some { IfOk result (λ n. 0 < length piece.now → 0 < n) }

        // It fails only with a fault, and takes no byte then.
        ensures fault { OnErr result (Rose (faults self.old) (faults self.new)) }
        ensures kept { OnErr result (written self.new ≡ written self.old) }

        ensures never_falls { faults self.old ≤ faults self.new }
        ensures setup { setup self.new ≡ setup self.old };
}
