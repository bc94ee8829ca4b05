//! How nodes are made.
ghost use Rattle.std.specs.Prelude.{◌≡◌, ◌+◌, ◌≤◌, ◌<◌, ◌^◌, List, [], ◌∷◌, ◌++◌, IfOk, IfErr, OnErr, MatchResult, length, replicate};
ghost use Rattle.raw_block.specs.Spans.{with_span};
ghost use Rattle.buffer_model.specs.Share.{own, user, lent, tagged, IsAlone};
ghost use Rattle.buffer_model.specs.Segment.{between_rooms, whole_window, cut};
ghost use Rattle.buffer_model.specs.Stake.{held, KeepsTotalsBeside};
ghost use Rattle.buffer_model.specs.Minted.{Adds, IsNew};
ghost use Rattle.storage.specs.Held.{with_bytes};
ghost use Rattle.storage.specs.Made.{Makes};

use crate::mine::Mine;
use crate::node::IoBufOf;
use crate::wrapped::Wrapped;
use relay_ports::Lent;
use share_count::Mint;
use std::alloc::{AllocError, Global};
use storage::{Managed, Told};

impl<W: Wrapped, O: Told> IoBufOf<W, O> {
    /// A node without data on a new storage of `cap` zero bytes. Four allocations: the block, and three for its count.
    pub fn create(alloc: Global, cap: usize, mint: &mut Mint) -> Result<IoBufOf<W, O>, AllocError>
        ensures node { IfOk result (λ n. n ≡ between_rooms 0 cap [] n.share) }
        ensures storage { IfOk result (λ n. IsNew mint.old mint.new own n.share) }
        ensures mint { MatchResult result (λ _. Adds 1 mint.old mint.new) (λ _. mint.new ≡ mint.old) }
        ensures totals { IfOk result (λ n. KeepsTotalsBeside mint.old mint.new [] (held n.share ∷ [])) }
    {
        match Managed::own(alloc, cap, mint) {
            Ok(hold) => Ok(on(hold, 0, 0)),
            Err(e) => Err(e),
        }
    }

    /// A node on a copy of these bytes, with zero bytes in both rooms. One copy. Four allocations: the block, and
    /// three for its count.
    pub fn copy(
        alloc: Global,
        bytes: &[u8],
        head: usize,
        tail: usize,
        mint: &mut Mint,
    ) -> Result<IoBufOf<W, O>, AllocError>
        requires { head + length bytes.now + tail < 2 ^ 64 }
        ensures node { IfOk result (λ n. n ≡ between_rooms head tail bytes.now n.share) }
        ensures storage { IfOk result (λ n. IsNew mint.old mint.new own n.share) }
        ensures mint { MatchResult result (λ _. Adds 1 mint.old mint.new) (λ _. mint.new ≡ mint.old) }
        ensures totals { IfOk result (λ n. KeepsTotalsBeside mint.old mint.new [] (held n.share ∷ [])) }
    {
        match roomed(alloc, bytes, head, tail, mint) {
            Ok(hold) => Ok(on(hold, head, bytes.len())),
            Err(e) => Err(e),
        }
    }

    /// A node on these bytes, where they are, all of them data. The owner is told them when their storage ends. No
    /// copy, three allocations for the count. At want of memory both are handed back.
    pub fn take_ownership(
        alloc: Global,
        bytes: Vec<u8>,
        owner: O,
        mint: &mut Mint,
    ) -> Result<IoBufOf<W, O>, (Vec<u8>, O)>
        ensures node { IfOk result (λ n. n ≡ whole_window bytes.items n.share) }
        ensures storage { IfOk result (λ n. IsNew mint.old mint.new (user owner) n.share) }
        ensures mint { MatchResult result (λ _. Adds 1 mint.old mint.new) (λ _. mint.new ≡ mint.old) }
        ensures refused { IfErr result (λ back. back ≡ (bytes, owner)) }
        ensures totals { IfOk result (λ n. KeepsTotalsBeside mint.old mint.new [] (held n.share ∷ [])) }
    {
        let len = bytes.len();
        match Managed::user(alloc, bytes, owner, mint) {
            Ok(hold) => Ok(on(hold, 0, len)),
            Err(back) => Err(back),
        }
    }

    /// A node on these bytes, where they are, all of them data. Their storage answers the tag when it ends. No copy,
    /// three allocations for the count. At want of memory the bytes are handed back.
    pub fn take_tagged(
        alloc: Global,
        bytes: Vec<u8>,
        tag: u32,
        mint: &mut Mint,
    ) -> Result<IoBufOf<W, O>, Vec<u8>>
        ensures node { IfOk result (λ n. n ≡ whole_window bytes.items n.share) }
        ensures storage { IfOk result (λ n. IsNew mint.old mint.new (tagged tag) n.share) }
        ensures mint { MatchResult result (λ _. Adds 1 mint.old mint.new) (λ _. mint.new ≡ mint.old) }
        ensures refused { IfErr result (λ b. b ≡ bytes) }
        ensures totals { IfOk result (λ n. KeepsTotalsBeside mint.old mint.new [] (held n.share ∷ [])) }
    {
        let len = bytes.len();
        match Managed::tagged(alloc, bytes, tag, mint) {
            Ok(hold) => Ok(on(hold, 0, len)),
            Err(bytes) => Err(bytes),
        }
    }

    /// A node on a lent block, where it is: its first `used` bytes are data. No copy, three allocations for the
    /// count. At want of memory the block is handed back.
    pub fn from_lent(
        alloc: Global,
        block: Lent,
        used: usize,
        mint: &mut Mint,
    ) -> Result<IoBufOf<W, O>, Lent>
        requires { used ≤ length block.bytes.items }
        ensures node { IfOk result (λ n. n ≡ cut block.bytes.items 0 used n.share) }
        ensures storage { IfOk result (λ n. IsNew mint.old mint.new (lent block.number) n.share) }
        ensures mint { MatchResult result (λ _. Adds 1 mint.old mint.new) (λ _. mint.new ≡ mint.old) }
        ensures refused { IfErr result (λ b. b ≡ block) }
        ensures totals { IfOk result (λ n. KeepsTotalsBeside mint.old mint.new [] (held n.share ∷ [])) }
    {
        match Managed::lent(alloc, block, mint) {
            Ok(hold) => Ok(on(hold, 0, used)),
            Err(block) => Err(block),
        }
    }
}

// A node on a managed hold.
#[inline(always)]
pub(crate) fn on<W: Wrapped, O: Told>(hold: Managed<O>, start: usize, len: usize) -> IoBufOf<W, O>
    ensures { result ≡ cut hold.bytes start len hold.share }
{
    IoBufOf {
        wrapped: None,
        window: Mine { hold, start, len },
    }
}

// A new storage with a copy of these bytes between two rooms of zero bytes.
pub(crate) fn roomed<O: Told>(
    alloc: Global,
    bytes: &[u8],
    head: usize,
    tail: usize,
    mint: &mut Mint,
) -> Result<Managed<O>, AllocError>
    requires { head + length bytes.now + tail < 2 ^ 64 }
    ensures hold { IfOk result (Makes mint.old mint.new own (replicate head 0 ++ (bytes.now ++ replicate tail 0))) }
    ensures refused { OnErr result (mint.new ≡ mint.old) }
{
    let end = head + bytes.len();
    match Managed::own(alloc, end + tail, mint) {
        Ok(hold) => Ok(filled(hold, head, end, bytes)),
        Err(e) => Err(e),
    }
}

// The hold with these bytes written from `head` up to `end`.
fn filled<O: Told>(mut hold: Managed<O>, head: usize, end: usize, bytes: &[u8]) -> Managed<O>
    requires alone { IsAlone hold.share }
    requires size { end ≡ head + length bytes.now }
    requires room { end ≤ length hold.bytes }
    ensures { result ≡ with_bytes hold (with_span hold.bytes head bytes.now) }
{
    hold.span_mut(head, end).copy_from_slice(bytes);
    hold
}
