//! How many threads serve.
ghost use Rattle.std.specs.Prelude.{◌≡◌, ◌-◌, min, max};

use std::thread::{Threads, available_parallelism};

/// How many threads a crew keeps for so many items on so many processors. O(1).
///
/// One processor is the caller's, and an item needs no more than one thread. Two items have two threads on any machine,
/// since one may wait for what the other does.
pub fn threads_for(items: usize, processors: usize) -> usize
    ensures { result ≡ min items (max 2 (processors - 1)) }
{
    items.min(processors.saturating_sub(1).max(2))
}

/// The processors on which this program may run, or one where the system doesn't say.
pub(crate) fn processors<R: Threads>(rt: &R) -> usize {
    match available_parallelism(rt) {
        Ok(count) => count.get(),
        Err(_) => 1,
    }
}
