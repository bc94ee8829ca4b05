//! The room behind a queue's data.
ghost use Rattle.std.specs.Prelude.{◌≡◌, ◌+◌, ◌≤◌, ◌<◌, ◌^◌, IfSome, length, take};
ghost use Rattle.buffer_model.specs.Segment.{bytes_of, appended};
ghost use Rattle.buffer_model.specs.Stake.{KeepsTotals};
ghost use Rattle.iobuf_chain.specs.Accounts.{held_by};
ghost use Rattle.iobuf_chain.specs.Tails.{last_of, turned_last};
ghost use Rattle.iobuf_queue.specs.Queued.{queue_of, room_of};

use crate::queue::QueueOf;
use iobuf_chain::ChainOf;
use iobuf_node::{IoBufOf, Wrapped};
use storage::Told;

impl<W: Wrapped, O: Told> QueueOf<W, O> {
    ghost use Rattle.std.specs.Borrow.{sem};
    ghost use Rattle.iobuf_queue.specs.QueueLends.{lends_offer};

    /// The bytes of tailroom that the last call of `preallocate` offered, for writing, and none after
    /// another call. They are no data until `postallocate` takes them in. O(1), and no memory.
    /// `IOBufQueue::writableTail`.
    pub fn tail_mut(&mut self) -> &mut [u8]
        ensures* lends { sem 𝓛 (lends_offer W.row O.row W.Wrapped self.entry result) }
        ensures value { IfSome (last_of self.old.nodes) (λ s. result.now ≡ take self.old.lent s.after) }
        ensures size { length result.now ≡ self.old.lent }
    {
        let n = self.lent;
        if n == 0 {
            return &mut self.none;
        }
        let _some = self.chain.elements();
        self.chain.tail_mut(n)
    }

    /// The first `n` bytes that `tail_mut` offers become data. Nothing is offered then. O(1), and no memory.
    /// `IOBufQueue::postallocate`.
    pub fn postallocate(&mut self, n: usize)
        requires offered { n ≤ self.old.lent }
        requires sum { length (bytes_of self.old.nodes) + n < 2 ^ 64 }
        ensures nodes { self.new ≡ queue_of (turned_last (appended n) self.old.nodes) }
        ensures totals { KeepsTotals (held_by self.old.nodes) (held_by self.new.nodes) }
    {
        self.lent = 0;
        if self.empty {
            return;
        }
        let _some = self.chain.elements();
        take_in(&mut self.chain, n);
    }
}

// The next n bytes behind the last node's data become data.
fn take_in<W: Wrapped, O: Told>(chain: &mut ChainOf<W, O>, n: usize)
    requires room { n ≤ length (room_of (last_of chain.old)) }
    requires sum { length (bytes_of chain.old) + n < 2 ^ 64 }
    ensures nodes { chain.new ≡ turned_last (appended n) chain.old }
    ensures totals { KeepsTotals (held_by chain.old) (held_by chain.new) }
{
    let last = chain.elements() - 1;
    let mut node = chain.swap_node(last, IoBufOf::empty());
    node.append(n);
    let _ = chain.swap_node(last, node);
}
