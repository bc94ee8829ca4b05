//! Batches that are given back.
ghost use Rattle.std.specs.Prelude.{◌≡◌, ◌+◌, ◌≤◌, [], length};
ghost use Rattle.std.specs.VecDeque.{deque_capacity};
ghost use Rattle.observer.specs.Returning.{GivesAllBack};

use frame_batch::Batch;
use std::collections::VecDeque;
use storage::Returns;

/// Gives back the chains of some batches, in order. O(nodes), and no memory.
pub(crate) fn give_all_back(batches: &mut VecDeque<Batch>, returns: &mut VecDeque<Returns>)
    requires none { returns.old.items ≡ [] }
    requires room { length batches.old.items ≤ deque_capacity returns.old }
    ensures given { GivesAllBack batches.old.items returns.new.items }
    ensures none { batches.new.items ≡ [] }
    ensures batches { deque_capacity batches.new ≡ deque_capacity batches.old }
    ensures returns { deque_capacity returns.new ≡ deque_capacity returns.old }
{
    'batches: while let Some(batch) = batches.pop_front() {
        returns.push_back_reserved(batch.into_chain().give_back());
    }
}
