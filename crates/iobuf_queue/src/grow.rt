//! Nodes and room that a queue gains.
ghost use Rattle.std.specs.Prelude.{◌≡◌, ◌≤◌, ◌+◌, ◌^◌, ◌↔◌, [], ◌∷◌, ◌++◌, length, min, max};
ghost use Rattle.std.specs.Prelude.{Ok, IsTrue, IfOk, OnErr, MatchResult};
ghost use Rattle.buffer_model.specs.Segment.{bytes_of};
ghost use Rattle.buffer_model.specs.Share.{IsWhole};
ghost use Rattle.buffer_model.specs.Stake.{held, KeepsTotals, KeepsTotalsBeside};
ghost use Rattle.buffer_model.specs.Minted.{AddsAtMost};
ghost use Rattle.iobuf_chain.specs.Accounts.{held_by, handed_back};
ghost use Rattle.iobuf_chain.specs.Tails.{last_of, turned_last};
ghost use Rattle.iobuf_queue.specs.Queued.{queue_of, room_of};
ghost use Rattle.iobuf_queue.specs.Parts.{claims, AddsRoom, HasTail, OffersTail};

use crate::queue::QueueOf;
use iobuf_chain::ChainOf;
use iobuf_node::{IoBufOf, Wrapped};
use share_count::Mint;
use std::alloc::{AllocError, Global};
use storage::Told;

impl<W: Wrapped, O: Told> QueueOf<W, O> {
    /// The nodes of a chain come last, as they are, with no byte copied: `IOBufQueue::append` without `pack`. O(nodes
    /// of the chain), amortised, and O(1) where the queue has no node. At want of memory the chain is handed back, and
    /// the queue keeps its nodes.
    pub fn append_chain(&mut self, chain: ChainOf<W, O>) -> Result<(), ChainOf<W, O>>
        requires { length (bytes_of self.old.nodes) + length (bytes_of chain) ≤ 2 ^ 62 }
        ensures joined { MatchResult result (λ _. self.new ≡ queue_of (self.old.nodes ++ chain)) (λ c. (c ≡ chain)
            × (self.new ≡ queue_of self.old.nodes)) }
        ensures totals { KeepsTotals (held_by (self.old.nodes ++ chain))
            (held_by (self.new.nodes ++ handed_back result)) }
    {
        self.lent = 0;
        if self.empty {
            self.empty = false;
            self.chain = chain;
            return Ok(());
        }
        self.chain.append_chain(chain)
    }

    /// Makes room for writing behind the data, and answers how many bytes of it `tail_mut` offers then: at most `most`,
    /// and at least `least`. Where the last node is whole and has so much room, it is that room, and the node is
    /// claimed by one look; else a node of `least` or `size` bytes, whichever is more, comes last. O(1), and at most
    /// one node's allocations. At want of memory the nodes stay. `IOBufQueue::preallocate`.
    pub fn preallocate(
        &mut self,
        alloc: Global,
        least: usize,
        size: usize,
        most: usize,
        mint: &mut Mint,
    ) -> Result<usize, AllocError>
        requires some { 1 ≤ least }
        requires most { least ≤ most }
        requires sum { length (bytes_of self.old.nodes) ≤ 2 ^ 62 }
        ensures there { HasTail least self.old.nodes → OffersTail most self.old self.new × (result ≡ Ok self.new.lent)
            × (mint.new ≡ mint.old) }
        ensures added { (HasTail least self.old.nodes → ⊥) → IfOk result (λ n. (n ≡ min (max least size) most)
            × (self.new.lent ≡ n) × AddsRoom (max least size) mint.old mint.new self.old.nodes self.new.nodes) }
        ensures offers { IfOk result (λ n. (self.new.lent ≡ n) × (n ≤ most)) }
        ensures refused { OnErr result (self.new ≡ queue_of self.old.nodes) }
        ensures mint { AddsAtMost 1 mint.old mint.new }
        ensures totals { KeepsTotalsBeside mint.old mint.new (held_by self.old.nodes) (held_by self.new.nodes) }
    {
        if self.has_tail(least) {
            let room = claim_last(&mut self.chain);
            let lent = room.min(most);
            self.lent = lent;
            return Ok(lent);
        }
        self.add_room(alloc, least.max(size), most, mint)
    }

    // A node without data and with so much room comes last, of which at most so many bytes are offered.
    fn add_room(
        &mut self,
        alloc: Global,
        size: usize,
        most: usize,
        mint: &mut Mint,
    ) -> Result<usize, AllocError>
        requires sum { length (bytes_of self.old.nodes) ≤ 2 ^ 62 }
        ensures added { IfOk result (λ n. (n ≡ min size most) × (self.new.lent ≡ n)
            × AddsRoom size mint.old mint.new self.old.nodes self.new.nodes) }
        ensures refused { OnErr result (self.new ≡ queue_of self.old.nodes) }
        ensures mint { AddsAtMost 1 mint.old mint.new }
        ensures totals { KeepsTotalsBeside mint.old mint.new (held_by self.old.nodes) (held_by self.new.nodes) }
    {
        self.lent = 0;
        let node = IoBufOf::create(alloc, size, mint)?;
        match self.append_chain(ChainOf::of(alloc, node)) {
            Ok(()) => (),
            Err(_) => return Err(AllocError),
        }
        let lent = size.min(most);
        self.lent = lent;
        Ok(lent)
    }

    // Whether the last node is whole and has so much room behind its data.
    pub(crate) fn has_tail(&self, n: usize) -> bool
        ensures { IsTrue result ↔ HasTail n self.now.nodes }
    {
        if self.empty {
            return false;
        }
        let last = self.chain.node(self.chain.elements() - 1);
        if last.whole() {
            return n <= last.tailroom();
        }
        false
    }
}

// Claims the last node's storage for writing, and answers how much room there is behind its data.
pub(crate) fn claim_last<W: Wrapped, O: Told>(chain: &mut ChainOf<W, O>) -> usize
    requires { HasTail 0 chain.old }
    ensures room { result ≡ length (room_of (last_of chain.old)) }
    ensures nodes { chain.new ≡ turned_last claims chain.old }
    ensures totals { KeepsTotals (held_by chain.old) (held_by chain.new) }
{
    let _sum = chain.length();
    let last = chain.elements() - 1;
    let mut node = chain.swap_node(last, IoBufOf::empty());
    let room = node.tailroom();
    claim(&mut node);
    let _ = chain.swap_node(last, node);
    room
}

// Claims a whole node's storage for writing.
fn claim<W: Wrapped, O: Told>(node: &mut IoBufOf<W, O>)
    requires { IsWhole node.old.share }
    ensures node { node.new ≡ claims node.old }
    ensures totals { KeepsTotals (held node.old.share ∷ []) (held node.new.share ∷ []) }
{
    match node.mine() {
        Ok(_mine) => (),
        Err(_) => unreachable!(),
    }
}
