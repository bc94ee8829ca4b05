//! Batches are published.
ghost use Rattle.std.specs.Prelude.{◌≡◌, ℕ, ◌+◌, ◌*◌, ◌≤◌, ◌<◌, ◌^◌, ◌++◌, length, take, IfOk, IfErr, IfSome, OnErr, None};
ghost use Rattle.std.specs.List.{AllZip};
ghost use Rattle.buffer_model.specs.Minted.{AddsAtMost};
ghost use Rattle.buffer_model.specs.Stake.{KeepsTotalsBeside};
ghost use Rattle.iobuf_chain.specs.Accounts.{held_by};
ghost use Rattle.iobuf_chain.specs.Copies.{CopiesNoData, WithData};
ghost use Rattle.iobuf_chain.specs.Lists.{Each};
ghost use Rattle.iobuf_chain.specs.Many.{Lasts};
ghost use Rattle.broadcast_hub.specs.Hubs.{Hubbed, live_in};
ghost use Rattle.broadcast_hub.specs.Publishing.{answered, nodes_sent, IsRefused, IsRest, KnowsAsBefore, LooksAt, Publishes, ReturnsCome, SomeIsFull};

use crate::answers::{PubFault, Published};
use crate::hub::Hub;
use crate::members::count_live;
use crate::sending::{least_room, look_where_short, send_each, share_out};
use frame_batch::Batch;
use share_count::Mint;
use std::alloc::Global;
use std::sync::Wait;

impl Hub {
    /// Publishes as many first frames of a batch as each live subscription has room for: as one batch, to each. A queue
    /// that isn't known to have room for all of them is looked at first. The others are handed back.
    ///
    /// One share of the chain is made for each live subscription; where all frames go, the last gets the batch itself.
    /// They copy no data where each node with data has a weight over the number of the live ones. Where nobody is live,
    /// and where the batch has no frame, the batch is given back at once. O(kept + live nodes), whatever the number of
    /// frames, and no memory but what nodes behind the first want.
    ///
    /// `Blocked` comes exactly where the first frame has no room, and `NoMemory` for want of memory alone; either way
    /// nothing was sent.
    pub fn publish<R: Wait>(
        &mut self,
        rt: &R,
        alloc: Global,
        mint: &mut Mint,
        batch: Batch,
    ) -> Result<Published, PubFault>
        requires open { self.old.closed ≡ None }
        requires few { self.old.published + length batch.frames < 2 ^ 64 }
        ensures published { IfOk result (λ p. Publishes (take p.count batch.frames) self.old self.new) }
        ensures some { IfOk result (λ p. 0 < length batch.frames → 0 < p.count) }
        ensures rest { IfOk result (λ p. IsRest p.count batch p.rest) }
        ensures most { IfOk result (λ p. p.count < length batch.frames → SomeIsFull self.new.kept) }
        ensures returns { IfOk result (λ p. ReturnsCome self.old.kept batch p.returns) }
        ensures refused { IfErr result (λ f. LooksAt self.old self.new × IsRefused batch self.new.kept f) }
        ensures totals { KeepsTotalsBeside mint.old mint.new (held_by batch.chain)
            (held_by (nodes_sent self.old.kept self.new.kept) ++ answered result) }
        ensures copies { WithData (Lasts (live_in self.old.kept)) batch.chain
            → CopiesNoData batch.chain (nodes_sent self.old.kept self.new.kept) }
        ensures left { (k : ℕ) → live_in self.old.kept + k ≤ 1024
            → WithData (Lasts (live_in self.old.kept + k)) batch.chain
            → IfOk result (λ p. IfSome p.rest (λ rest. WithData (Lasts k) rest.chain)) }
        ensures mint { AddsAtMost (live_in self.old.kept * length batch.chain) mint.old mint.new }
        ensures numbers { Each (Lasts (live_in self.old.kept)) batch.chain → mint.new ≡ mint.old }
    {
        look_where_short(rt, &mut self.subs, batch.len());
        self.publish_known(rt, alloc, mint, batch)
    }

    /// The same by what is known alone: no queue is looked at. For a publisher that let each feed meet its tap before.
    pub fn publish_known<R: Wait>(
        &mut self,
        rt: &R,
        alloc: Global,
        mint: &mut Mint,
        batch: Batch,
    ) -> Result<Published, PubFault>
        requires open { self.old.closed ≡ None }
        requires few { self.old.published + length batch.frames < 2 ^ 64 }
        ensures published { IfOk result (λ p. Publishes (take p.count batch.frames) self.old self.new) }
        ensures known { AllZip KnowsAsBefore self.old.kept self.new.kept }
        ensures some { IfOk result (λ p. 0 < length batch.frames → 0 < p.count) }
        ensures rest { IfOk result (λ p. IsRest p.count batch p.rest) }
        ensures most { IfOk result (λ p. p.count < length batch.frames → SomeIsFull self.new.kept) }
        ensures returns { IfOk result (λ p. ReturnsCome self.old.kept batch p.returns) }
        ensures refused { IfErr result (λ f. (self.new ≡ self.old) × IsRefused batch self.old.kept f) }
        ensures totals { KeepsTotalsBeside mint.old mint.new (held_by batch.chain)
            (held_by (nodes_sent self.old.kept self.new.kept) ++ answered result) }
        ensures copies { WithData (Lasts (live_in self.old.kept)) batch.chain
            → CopiesNoData batch.chain (nodes_sent self.old.kept self.new.kept) }
        ensures left { (k : ℕ) → live_in self.old.kept + k ≤ 1024
            → WithData (Lasts (live_in self.old.kept + k)) batch.chain
            → IfOk result (λ p. IfSome p.rest (λ rest. WithData (Lasts k) rest.chain)) }
        ensures mint { AddsAtMost (live_in self.old.kept * length batch.chain) mint.old mint.new }
        ensures numbers { Each (Lasts (live_in self.old.kept)) batch.chain → mint.new ≡ mint.old }
    {
        let most = batch.len();
        let live = count_live(&self.subs);
        if live == 0 || most == 0 {
            self.published += most as u64;
            return Ok(Published {
                count: most,
                rest: None,
                returns: Some(batch.into_chain().give_back()),
            });
        }
        let (count, id) = least_room(&self.subs, most);
        if count == 0 {
            return Err(PubFault::Blocked(id, batch));
        }
        let rest = match share_out(&mut self.batches, alloc, mint, batch, live, count) {
            Ok(rest) => rest,
            Err(batch) => return Err(PubFault::NoMemory(batch)),
        };
        send_each(rt, &mut self.subs, &mut self.batches);
        self.published += count as u64;
        Ok(Published {
            count,
            rest,
            returns: None,
        })
    }
}
