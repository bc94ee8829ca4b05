//! Batches on their way to the subscriptions.
ghost use Rattle.std.specs.Prelude.{◌≡◌, ℕ, ◌+◌, ◌-◌, ◌*◌, ◌≤◌, ◌<◌, List, [], ◌∷◌, ◌++◌, true, length, take, map, slice_index_or, IfOk, IfErr, OnOk, OnErr, IsTrue, Option, vec_len, vec_capacity};
ghost use Rattle.std.specs.List.{AllZip};
ghost use Rattle.buffer_model.specs.Minted.{AddsAtMost};
ghost use Rattle.buffer_model.specs.Segment.{bytes_of};
ghost use Rattle.iobuf_chain.specs.Copies.{WithData};
ghost use Rattle.iobuf_chain.specs.Lists.{Each};
ghost use Rattle.iobuf_chain.specs.Many.{Lasts, RejoinsAll, SharesMany, SharesUpTo};
ghost use Rattle.iobuf_chain.specs.Shares.{AreReturnable, Regains};
ghost use Rattle.frame_batch.specs.Batches.{Batched, room_of};
ghost use Rattle.broadcast_hub.specs.Hubs.{Kept, is_live, live_in};
ghost use Rattle.broadcast_hub.specs.Publishing.{HasRoomIfLive, Looks};
ghost use Rattle.broadcast_hub.specs.Sending.{IsLeastOf, IsNextSent, SendsEach, SharesOut};

use crate::subscription::Subscription;
use frame_batch::Batch;
use share_count::Mint;
use std::alloc::{AllocError, Global};
use std::sync::Wait;

// Looks at the queue of each live subscription that isn't known to have room for so many frames.
pub(crate) fn look_where_short<R: Wait>(rt: &R, subs: &mut [Subscription], frames: usize)
    ensures looks { AllZip Looks subs.old subs.new }
    ensures none { frames ≡ 0 → subs.new ≡ subs.old }
{
    'subs: for i in 0..subs.len() {
        subs[i].look(rt, frames);
    }
}

// For how many frames, `most` at most, each live subscription surely has room; and the id of the first that has room
// for no more, where they are fewer.
pub(crate) fn least_room(subs: &[Subscription], most: usize) -> (usize, u64)
    ensures { IsLeastOf most result.0 result.1 subs.now (length subs.now) }
{
    let mut least = most;
    let mut id = 0;
    'subs: for i in 0..subs.len() {
        let sub = &subs[i];
        if sub.is_live() && sub.known_room() < least {
            least = sub.known_room();
            id = sub.id();
        }
    }
    (least, id)
}

// Makes `live` batches of the first `count` frames of a batch, and hands the others back. Where all frames go, the last
// of them is the batch itself. At want of memory the shares that were made are given back, and the batch comes back.
pub(crate) fn share_out(
    batches: &mut Vec<Batch>,
    alloc: Global,
    mint: &mut Mint,
    batch: Batch,
    live: usize,
    count: usize,
) -> Result<Option<Batch>, Batch>
    requires none { batches.old.items ≡ [] }
    requires room { (1 ≤ live) × (live ≤ vec_capacity batches.old) }
    requires count { count ≤ length batch.frames }
    ensures shares { IfOk result (λ rest. SharesOut live count mint.old mint.new batch rest batches.new.items) }
    ensures none { OnErr result (batches.new.items ≡ []) }
    ensures refused { IfErr result (λ b. (b.frames ≡ batch.frames) × AllZip Regains batch.chain b.chain) }
    ensures capacity { vec_capacity batches.new ≡ vec_capacity batches.old }
    ensures mint { AddsAtMost (live * length batch.chain) mint.old mint.new }
    ensures numbers { live ≤ 1024 → Each (Lasts live) batch.chain → mint.new ≡ mint.old }
{
    let mut batch = batch;
    let whole = count == batch.len();
    let shares = if whole { live - 1 } else { live };
    if share_up_to(batches, alloc, mint, &mut batch, shares, count).is_err() {
        rejoin_all(batches, &mut batch);
        return Err(batch);
    }
    if whole {
        batches.push_reserved(batch);
        return Ok(None);
    }
    batch.drop_first(count);
    Ok(Some(batch))
}

// Shares of the first frames of a batch in turn, up to n or to the first that is refused.
fn share_up_to(
    batches: &mut Vec<Batch>,
    alloc: Global,
    mint: &mut Mint,
    batch: &mut Batch,
    n: usize,
    count: usize,
) -> Result<(), AllocError>
    requires none { batches.old.items ≡ [] }
    requires room { n ≤ vec_capacity batches.old }
    requires count { count ≤ length batch.old.frames }
    ensures shares { OnOk result (SharesMany mint.old mint.new batch.old.chain
        (map (λ b. b.chain) batches.new.items) batch.new.chain) }
    ensures refused { OnErr result (SharesUpTo mint.old batch.old.chain
        (map (λ b. b.chain) batches.new.items) batch.new.chain) }
    ensures count { OnOk result (vec_len batches.new ≡ n) }
    ensures frames { Each (λ b. b.frames ≡ take count batch.old.frames) batches.new.items }
    ensures same { batch.new.frames ≡ batch.old.frames }
    ensures capacity { vec_capacity batches.new ≡ vec_capacity batches.old }
    ensures mint { AddsAtMost (n * length batch.old.chain) mint.old mint.new }
    ensures numbers { (k : ℕ) → n ≤ k → k ≤ 1024 → Each (Lasts k) batch.old.chain → mint.new ≡ mint.old }
{
    'shares: while batches.len() < n {
        let mut share = match batch.share(alloc, mint) {
            Ok(share) => share,
            Err(e) => return Err(e),
        };
        share.keep_first(count);
        batches.push_reserved(share);
    }
    Ok(())
}

// Gives shares back to the batch that they were made of.
fn rejoin_all(batches: &mut Vec<Batch>, batch: &mut Batch)
    requires { Each (AreReturnable batch.old.chain) (map (λ b. b.chain) batches.old.items) }
    ensures none { batches.new.items ≡ [] }
    ensures frames { batch.new.frames ≡ batch.old.frames }
    ensures rejoins { RejoinsAll batch.old.chain (map (λ b. b.chain) batches.old.items) batch.new.chain }
    ensures capacity { vec_capacity batches.new ≡ vec_capacity batches.old }
{
    'shares: while let Some(share) = batches.pop() {
        batch.rejoin(share);
    }
}

// Sends the last of the batches to a subscription, if that is live.
fn send_next<R: Wait>(rt: &R, sub: &mut Subscription, batches: &mut Vec<Batch>)
    requires some { is_live sub.old.standing ≡ true → 0 < vec_len batches.old }
    requires room { Each (λ b. HasRoomIfLive (room_of b) sub.old) batches.old.items }
    ensures sent { IsNextSent batches.old.items batches.new.items sub.old sub.new }
    ensures capacity { vec_capacity batches.new ≡ vec_capacity batches.old }
{
    if !sub.is_live() {
        return;
    }
    if let Some(batch) = batches.pop() {
        sub.send(rt, batch);
    }
}

// Sends each of the batches to a live subscription, in order; there are as many as are live.
pub(crate) fn send_each<R: Wait>(rt: &R, subs: &mut [Subscription], batches: &mut Vec<Batch>)
    requires count { live_in subs.old ≡ vec_len batches.old }
    requires room { (n : ℕ) × Each (λ b. room_of b ≡ n) batches.old.items × Each (HasRoomIfLive n) subs.old }
    ensures sent { SendsEach batches.old.items subs.old subs.new }
    ensures none { batches.new.items ≡ [] }
    ensures capacity { vec_capacity batches.new ≡ vec_capacity batches.old }
{
    let mut left = subs.len();
    'subs: while left > 0 {
        left -= 1;
        send_next(rt, &mut subs[left], batches);
    }
}
