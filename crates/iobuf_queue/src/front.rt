//! The first bytes of a queue leave.
ghost use Rattle.std.specs.Prelude.{◌≡◌, ◌+◌, ◌-◌, ◌≤◌, ◌<◌, List, [], ◌++◌, Ok, IfOk, OnErr, length, take, drop, min};
ghost use Rattle.std.specs.List.{AllZip};
ghost use Rattle.buffer_model.specs.Segment.{bytes_of};
ghost use Rattle.buffer_model.specs.Minted.{AddsAtMost};
ghost use Rattle.buffer_model.specs.Stake.{KeepsTotalsBeside};
ghost use Rattle.iobuf_chain.specs.Accounts.{held_by, answered};
ghost use Rattle.iobuf_chain.specs.Cuts.{IsShortBeyond};
ghost use Rattle.iobuf_chain.specs.Shares.{Regains, IsEmptyChain};
ghost use Rattle.iobuf_queue.specs.Queued.{queue_of};
ghost use Rattle.chain_unshare.specs.Splits.{SplitsAt};

use crate::queue::QueueOf;
use iobuf_chain::{ChainOf, CutFault};
use iobuf_node::{IoBufOf, Wrapped};
use share_count::Mint;
use std::alloc::{AllocError, Global};
use std::mem;
use storage::Release;

impl<W: Wrapped, O: Release> QueueOf<W, O> {
    /// The first `n` bytes leave, as a chain, and the rest stays, as by `chain_unshare::split`; where all bytes leave,
    /// all nodes do, and the queue has none. Of a queue without a node no bytes are one node without data and room.
    /// `Short` exactly where there are fewer bytes, and then nothing changes. `IOBufQueue::split`.
    pub fn split(
        &mut self,
        alloc: Global,
        n: usize,
        mint: &mut Mint,
    ) -> Result<ChainOf<W, O>, CutFault>
        ensures short { IsShortBeyond n (length (bytes_of self.old.nodes)) result }
        ensures all { 0 < length self.old.nodes → n ≡ length (bytes_of self.old.nodes)
            → (result ≡ Ok self.old.nodes) × (self.new ≡ queue_of []) × (mint.new ≡ mint.old) }
        ensures empty { self.old.nodes ≡ [] → IfOk result (IsEmptyChain mint.old mint.new) × (self.new ≡ queue_of []) }
        ensures splits { n < length (bytes_of self.old.nodes)
            → IfOk result (λ front. SplitsAt n mint.old mint.new self.old.nodes front self.new.nodes) }
        ensures bytes { IfOk result (λ front. (bytes_of front ≡ take n (bytes_of self.old.nodes))
            × (bytes_of self.new.nodes ≡ drop n (bytes_of self.old.nodes))) }
        ensures refused { OnErr result (AllZip Regains self.old.nodes self.new.nodes) }
        ensures unchanged { length (bytes_of self.old.nodes) < n
            → (self.new ≡ queue_of self.old.nodes) × (mint.new ≡ mint.old) }
        ensures offer { self.new.lent ≡ 0 }
        ensures mint { AddsAtMost 1 mint.old mint.new }
        ensures totals { KeepsTotalsBeside mint.old mint.new (held_by self.old.nodes)
            (held_by (self.new.nodes ++ answered result)) }
    {
        self.lent = 0;
        let had = self.chain_length();
        if had < n {
            return Err(CutFault::Short { asked: n, had });
        }
        if self.empty {
            let node = IoBufOf::create(alloc, 0, mint)?;
            return Ok(ChainOf::of(alloc, node));
        }
        if had == n {
            let none = ChainOf::of(alloc, IoBufOf::empty());
            self.empty = true;
            return Ok(mem::replace(&mut self.chain, none));
        }
        chain_unshare::split(&mut self.chain, alloc, n, mint)
    }

    /// The first `n` bytes leave, or all where there are fewer: `split` of the lesser of both, which is never `Short`.
    /// `IOBufQueue::splitAtMost`.
    pub fn split_at_most(
        &mut self,
        alloc: Global,
        n: usize,
        mint: &mut Mint,
    ) -> Result<ChainOf<W, O>, AllocError>
        ensures all { 0 < length self.old.nodes → length (bytes_of self.old.nodes) ≤ n
            → (result ≡ Ok self.old.nodes) × (self.new ≡ queue_of []) × (mint.new ≡ mint.old) }
        ensures empty { self.old.nodes ≡ [] → IfOk result (IsEmptyChain mint.old mint.new) × (self.new ≡ queue_of []) }
        ensures splits { n < length (bytes_of self.old.nodes)
            → IfOk result (λ front. SplitsAt n mint.old mint.new self.old.nodes front self.new.nodes) }
        ensures refused { OnErr result (AllZip Regains self.old.nodes self.new.nodes) }
        ensures offer { self.new.lent ≡ 0 }
        ensures mint { AddsAtMost 1 mint.old mint.new }
        ensures totals { KeepsTotalsBeside mint.old mint.new (held_by self.old.nodes)
            (held_by (self.new.nodes ++ answered result)) }
    {
        let most = n.min(self.chain_length());
        match self.split(alloc, most, mint) {
            Ok(front) => Ok(front),
            Err(_) => Err(AllocError),
        }
    }
}
