//! Queues, and their nodes as a chain.
ghost use Rattle.std.specs.Prelude.{◌≡◌, ◌↔◌, List, [], IsNone, IfSome, MatchOption, length};
ghost use Rattle.buffer_model.specs.Segment.{bytes_of};
ghost use Rattle.buffer_model.specs.Stake.{KeepsTotals};
ghost use Rattle.iobuf_chain.specs.Accounts.{held_by};
ghost use Rattle.iobuf_queue.specs.Queued.{queue_of};

use iobuf_chain::ChainOf;
use iobuf_node::{IoBufOf, Wrapped};
use std::alloc::Global;
use std::marker::Model;
use std::mem;
use storage::{NoOwner, Told};

/// A list of nodes that may be empty, as Folly's `IOBufQueue` is. Contracts see the list, and how many bytes of the
/// last node's tailroom are offered for writing: by `preallocate`, until the next call that may change the queue.
#[derive(Drop)]
pub struct QueueOf<W: Wrapped, O: Told> {
    // A node that doesn't count, where the queue is empty.
    pub(crate) chain: ChainOf<W, O>,
    pub(crate) empty: bool,
    pub(crate) lent: usize,
    // Always empty: what is lent where nothing is offered.
    pub(crate) none: Vec<u8>,
    pub(crate) alloc: Global,
}

impl<W: Wrapped, O: Told> Model for QueueOf<W, O> {
    ghost use Rattle.std.specs.Prelude.{◌≡◌, []};
    ghost use Rattle.iobuf_queue.specs.Queued.{Queued, shown, IsBlank, IsOffered};

    ghost Value = { Queued O };

    ghost view = { λ q. shown q.empty q.chain q.lent };

    ghost invariant = { λ q. IsBlank q.empty q.chain q.lent × IsOffered q.chain q.lent × (q.none.items ≡ []) };
}

/// A queue whose nodes may wrap a borrowed slice.
pub type Queue<'a, O = NoOwner> = QueueOf<&'a [u8], O>;

impl<W: Wrapped, O: Told> QueueOf<W, O> {
    /// A queue without a node. O(1), and no memory.
    pub fn new(alloc: Global) -> QueueOf<W, O>
        ensures { result ≡ queue_of [] }
    {
        QueueOf {
            chain: ChainOf::of(alloc, IoBufOf::empty()),
            empty: true,
            lent: 0,
            none: Vec::new(alloc),
            alloc,
        }
    }

    /// The number of bytes of data. O(1). `IOBufQueue::chainLength`.
    pub fn chain_length(&self) -> usize
        ensures { result ≡ length (bytes_of self.now.nodes) }
    {
        if self.empty {
            return 0;
        }
        self.chain.length()
    }

    /// The nodes, as a chain: `None` exactly where there is none. O(1), and no memory. `IOBufQueue::front`.
    pub fn front(&self) -> Option<&ChainOf<W, O>>
        ensures none { IsNone result ↔ (self.now.nodes ≡ []) }
        ensures some { IfSome result (λ c. c.now ≡ self.now.nodes) }
    {
        if self.empty {
            return None;
        }
        let _some = self.chain.elements();
        Some(&self.chain)
    }

    /// All nodes leave, as a chain: `None` exactly where there is none. O(1), and no memory. `IOBufQueue::move`.
    pub fn move_all(&mut self) -> Option<ChainOf<W, O>>
        ensures nodes { MatchOption result (self.old.nodes ≡ []) (λ c. c ≡ self.old.nodes) }
        ensures none { self.old.nodes ≡ [] → IsNone result }
        ensures emptied { self.new ≡ queue_of [] }
        ensures totals { IfSome result (λ c. KeepsTotals (held_by self.old.nodes) (held_by c)) }
    {
        if self.empty {
            return None;
        }
        let _some = self.chain.elements();
        let none = ChainOf::of(self.alloc, IoBufOf::empty());
        self.lent = 0;
        self.empty = true;
        Some(mem::replace(&mut self.chain, none))
    }
}
