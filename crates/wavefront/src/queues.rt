//! Fronts that wait, that of the least key first.

ghost use Rattle.std.specs.Prelude.{◌≡◌, ◌+◌, ◌^◌, ◌<◌, ◌↔◌, [], ◌∷◌, ◌++◌, length, IsTrue, IfSome, IfNone, OnOk, OnErr};
ghost use Rattle.wavefront.specs.Waiting.{IsPopped};

use geo_rect::NoMemory;
use route_law::Entry;
use std::alloc::Global;
use std::collections::BTreeMap;
use std::marker::Model;

/// Fronts that wait, each under a key, in micrometres of wire. Contracts see the list of the pairs in
/// the order of their pushes, and how many pushes were made.
///
/// The map keeps them by key and by the number of the push, so what is next is always its first entry.
#[derive(Drop)]
pub struct Queue {
    waiting: BTreeMap<(u128, u128), Entry>,
    pushes: u128,
}

impl Model for Queue {
    ghost use Rattle.wavefront.specs.Waiting.{Waiting};
    ghost use Rattle.wavefront.specs.PushOrder.{pairs_of, AreNumberedBelow};

    ghost Value = { Waiting };

    ghost view = { λ q. record { pairs = pairs_of q.waiting.entries; pushes = q.pushes } };

    ghost invariant = { λ q. AreNumberedBelow q.pushes q.waiting.entries };
}

impl Queue {
    /// The queue in which nothing waits, and before any push. It takes no memory.
    pub fn new(alloc: Global) -> Queue
        ensures { result ≡ record { pairs = []; pushes = 0 } }
    {
        Queue {
            waiting: BTreeMap::new(alloc),
            pushes: 0,
        }
    }

    /// Adds the front under the key. It requires fewer than 2^127 pushes before. After `NoMemory` the
    /// queue is as before.
    pub fn push(&mut self, key: u128, e: Entry) -> Result<(), NoMemory>
        requires { self.old.pushes < 2 ^ 127 }
        ensures pairs { OnOk result (self.new.pairs ≡ self.old.pairs ++ record { key = key; entry = e } ∷ []) }
        ensures pushes { OnOk result (self.new.pushes ≡ self.old.pushes + 1) }
        ensures err { OnErr result (self.new ≡ self.old) }
    {
        self.waiting.insert((key, self.pushes), e)?;
        self.pushes += 1;
        Ok(())
    }

    /// Takes out the front of the least key, the first pushed among equal keys; `None` where nothing
    /// waits.
    pub fn pop(&mut self) -> Option<(u128, Entry)>
        ensures some { IfSome result (λ p. IsPopped self.old.pairs (record { key = p.0; entry = p.1 }) self.new.pairs) }
        ensures none { IfNone result (self.old.pairs ≡ []) }
        ensures empty { IfNone result (self.new.pairs ≡ []) }
        ensures pushes { self.new.pushes ≡ self.old.pushes }
    {
        let ((key, _), entry) = self.waiting.pop_first()?;
        Some((key, entry))
    }

    /// How many fronts wait.
    pub fn len(&self) -> usize
        ensures { result ≡ length self.now.pairs }
    {
        self.waiting.len()
    }

    /// Whether nothing waits.
    pub fn is_empty(&self) -> bool
        ensures { IsTrue result ↔ (self.now.pairs ≡ []) }
    {
        self.waiting.is_empty()
    }
}
