//! Who is told when a storage ends.
ghost use Rattle.std.specs.Prelude.{◌≡◌, ℕ, ◌+◌, ◌<◌, ◌^◌, List, Option, IfSome};
ghost use Rattle.storage.specs.Ends.{Ends};

use crate::stored::{Ended, Stored};

/// Told when the last hold on its storage is given back or dropped.
pub trait Release: Drop {
    /// How often it was told.
    ghost runs: { Self → ℕ };

    /// The bytes that it was told latest, where it shows them.
    ghost last: { Self → Option (List ℕ) };

    /// The storage has ended with these bytes. What is ensured holds below 2^63 runs; beyond, the count may stand
    /// still.
    fn released(&mut self, bytes: Vec<u8>)
        ensures runs { runs self.old < 2 ^ 63 → runs self.new ≡ runs self.old + 1 }
        ensures last { IfSome (last self.new) (λ xs. xs ≡ bytes.items) };
}

/// Who may own a storage: everything that is `Release`. It has no meanings of its own, so that holds are bounded by
/// it, also of boxed owners.
pub trait Told: Drop {
    /// Ends a storage by its way of release, as a hold that is given back does.
    fn end(stored: Stored<Self>) -> Ended<Self>;
}

impl<O: Release> Told for O {
    ghost use Rattle.storage.specs.Stored.{way_of};

    fn end(stored: Stored<O>) -> Ended<O>
        ensures { Ends O.runs O.last (way_of stored.way) stored.block result }
    {
        stored.end()
    }
}

/// An owner of any kind.
pub type Owner = Box<dyn Release + Send + Sync>;

impl Release for Owner {
    ghost runs = { λ b. (Release-box b).runs b.value };

    ghost last = { λ b. (Release-box b).last b.value };

    fn released(&mut self, bytes: Vec<u8>) {
        (**self).released(bytes);
    }
}

/// Stands where no owner is told. Nobody can make one, so no storage has one.
#[derive(Drop)]
pub struct NoOwner {
    runs: u64,
}

impl Release for NoOwner {
    ghost use Rattle.std.specs.Prelude.{None};

    ghost runs = { λ n. n.runs };

    ghost last = { λ _. None };

    fn released(&mut self, bytes: Vec<u8>) {
        drop(bytes);
        self.runs = self.runs.saturating_add(1);
    }
}
