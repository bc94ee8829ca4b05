//! Ranges of bytes that are shared.
ghost use Rattle.std.specs.Prelude.{◌≡◌, ◌+◌, ◌-◌, ◌≤◌, ◌<◌, List, [], ◌∷◌, ◌++◌, ◌⊎◌, IfErr, IfOk, OnErr, OnOk, length, take, drop};
ghost use Rattle.std.specs.List.{AllZip};
ghost use Rattle.std.specs.VecDeque.{deque_capacity};
ghost use Rattle.buffer_model.specs.Minted.{AddsAtMost};
ghost use Rattle.buffer_model.specs.Segment.{Segment, bytes_of};
ghost use Rattle.buffer_model.specs.Stake.{KeepsTotalsBeside};
ghost use Rattle.iobuf_chain.specs.Accounts.{held_by, answered};
ghost use Rattle.iobuf_chain.specs.Copies.{CopiesNoData, IsShareable, WithData};
ghost use Rattle.iobuf_chain.specs.Cuts.{IsShortRange};
ghost use Rattle.iobuf_chain.specs.Shares.{IsEmptyChain, IsReturnableAt, IsSharedSo, Regains, RegainsAll, RejoinsNext, SharesAt, SharesRange};

use crate::chain::ChainOf;
use crate::fault::CutFault;
use crate::nodes::Nodes;
use crate::share::{rejoin_node, share_node};
use iobuf_node::{IoBufOf, Wrapped};
use share_count::Mint;
use std::alloc::{AllocError, Global};
use std::collections::VecDeque;
use storage::{Back, Release};

impl<W: Wrapped, O: Release> ChainOf<W, O> {
    /// A second chain on `n` bytes from place `at`: of each node that has some of them a clone with a window on
    /// those, in order. No bytes are one node without data or room, on a new storage. A wrapped node and one of a
    /// weight over 1 share their bytes with their clones; a node of the weight 1 is copied. `Short` where `at` is
    /// over the length, with both, and then where `n` is over what is left behind it, with both; nothing then
    /// changes. At want of memory the shares that were made are given back and absorbed. O(nodes up to the last
    /// byte).
    pub fn share_range(
        &mut self,
        alloc: Global,
        at: usize,
        n: usize,
        mint: &mut Mint,
    ) -> Result<ChainOf<W, O>, CutFault>
        ensures short { IsShortRange at n (length (bytes_of self.old)) result }
        ensures unchanged { IfErr result (λ e. (e ≡ CutFault.NoMemory)
            ⊎ ((self.new ≡ self.old) × (mint.new ≡ mint.old))) }
        ensures shares { 0 < n → IfOk result (λ c. SharesRange at n mint.old mint.new self.old self.new c) }
        ensures empty { n ≡ 0 → IfOk result (λ c. IsEmptyChain mint.old mint.new c × (self.new ≡ self.old)) }
        ensures bytes { IfOk result (λ c. bytes_of c ≡ take n (drop at (bytes_of self.old))) }
        ensures refused { OnErr result (AllZip Regains self.old self.new) }
        ensures mint { AddsAtMost (length self.old) mint.old mint.new }
        ensures totals { KeepsTotalsBeside mint.old mint.new (held_by self.old)
            (held_by (self.new ++ answered result)) }
        ensures copies { WithData IsShareable self.old → IfOk result (λ c. CopiesNoData self.old c) }
    {
        let _some = self.elements();
        let had = self.length();
        if at > had {
            return Err(CutFault::Short { asked: at, had });
        }
        let left = had - at;
        if n > left {
            return Err(CutFault::Short {
                asked: n,
                had: left,
            });
        }
        if n == 0 {
            return match empty(alloc, mint) {
                Ok(chain) => Ok(chain),
                Err(_) => Err(CutFault::NoMemory),
            };
        }
        match self.share_some(alloc, at, n, mint) {
            Ok(chain) => Ok(chain),
            Err(_) => Err(CutFault::NoMemory),
        }
    }

    // The same where there are so many bytes, and one at least.
    fn share_some(
        &mut self,
        alloc: Global,
        at: usize,
        n: usize,
        mint: &mut Mint,
    ) -> Result<ChainOf<W, O>, AllocError>
        requires some { 0 < n }
        requires there { at + n ≤ length (bytes_of self.old) }
        ensures shares { IfOk result (λ c. SharesRange at n mint.old mint.new self.old self.new c) }
        ensures refused { OnErr result (AllZip Regains self.old self.new) }
        ensures mint { AddsAtMost (length self.old) mint.old mint.new }
    {
        match share_bytes(&mut self.nodes, at, n, alloc, mint) {
            Ok((nodes, room)) => Ok(ChainOf {
                nodes,
                room,
                sum: n,
            }),
            Err(e) => Err(e),
        }
    }
}

// A chain of one node without data and room.
fn empty<W: Wrapped, O: Release>(
    alloc: Global,
    mint: &mut Mint,
) -> Result<ChainOf<W, O>, AllocError>
    ensures chain { IfOk result (λ c. IsEmptyChain mint.old mint.new c) }
    ensures refused { OnErr result (mint.new ≡ mint.old) }
{
    match IoBufOf::create(alloc, 0, mint) {
        Ok(node) => Ok(ChainOf::of(alloc, node)),
        Err(e) => Err(e),
    }
}

// Shares of n bytes from place `at`, with room for what all but the first hand back.
fn share_bytes<W: Wrapped, O: Release>(
    nodes: &mut Nodes<IoBufOf<W, O>>,
    at: usize,
    n: usize,
    alloc: Global,
    mint: &mut Mint,
) -> Result<(Nodes<IoBufOf<W, O>>, VecDeque<Back<O>>), AllocError>
    requires some { 0 < n }
    requires there { at + n ≤ length (bytes_of nodes.old) }
    ensures shares { IfOk result (λ made. SharesRange at n mint.old mint.new nodes.old nodes.new made.0) }
    ensures room { IfOk result (λ made. (made.1.items ≡ []) × (length made.0 ≤ deque_capacity made.1 + 1)) }
    ensures refused { OnErr result (AllZip Regains nodes.old nodes.new) }
    ensures mint { AddsAtMost (length nodes.old) mint.old mint.new }
{
    let mut shares = VecDeque::new(alloc);
    let room = match share_with_room(nodes, &mut shares, at, n, alloc, mint) {
        Ok(room) => room,
        Err(e) => {
            rejoin_parts(nodes, &mut shares, at, n);
            return Err(e);
        }
    };
    let Some(first) = shares.pop_front() else {
        unreachable!()
    };
    Ok((Nodes::from_parts(first, shares), room))
}

// The shares, and room for what they hand back. At want of memory the shares so far stand.
fn share_with_room<W: Wrapped, O: Release>(
    nodes: &mut Nodes<IoBufOf<W, O>>,
    shares: &mut VecDeque<IoBufOf<W, O>>,
    at: usize,
    n: usize,
    alloc: Global,
    mint: &mut Mint,
) -> Result<VecDeque<Back<O>>, AllocError>
    requires there { at + n ≤ length (bytes_of nodes.old) }
    requires none { shares.old.items ≡ [] }
    ensures shares { OnOk result (SharesRange at n mint.old mint.new nodes.old nodes.new shares.new.items) }
    ensures room { IfOk result (λ room. (room.items ≡ []) × (length shares.new.items ≤ deque_capacity room + 1)) }
    ensures refused { OnErr result (IsSharedSo at n nodes.old nodes.new shares.new.items) }
    ensures mint { AddsAtMost (length nodes.old) mint.old mint.new }
{
    match share_parts(nodes, shares, at, n, alloc, mint) {
        Ok(()) => VecDeque::with_capacity(alloc, shares.len().saturating_sub(1)),
        Err(e) => Err(e),
    }
}

// Shares the nodes in turn, up to the last byte, or to the first that is refused.
fn share_parts<W: Wrapped, O: Release>(
    nodes: &mut Nodes<IoBufOf<W, O>>,
    shares: &mut VecDeque<IoBufOf<W, O>>,
    at: usize,
    n: usize,
    alloc: Global,
    mint: &mut Mint,
) -> Result<(), AllocError>
    requires there { at + n ≤ length (bytes_of nodes.old) }
    requires none { shares.old.items ≡ [] }
    ensures shares { OnOk result (SharesRange at n mint.old mint.new nodes.old nodes.new shares.new.items) }
    ensures refused { OnErr result (IsSharedSo at n nodes.old nodes.new shares.new.items) }
    ensures mint { AddsAtMost (length nodes.old) mint.old mint.new }
{
    let count = nodes.len();
    let mut before = at;
    let mut left = n;
    let mut i = 0;
    'nodes: while left > 0 {
        prove!(i < count);
        let len = nodes.get(i).length();
        match share_part(nodes, i, shares, before, left, alloc, mint) {
            Ok(()) => (),
            Err(e) => return Err(e),
        }
        let passed = before.min(len);
        left -= left.min(len - passed);
        before -= passed;
        i += 1;
    }
    Ok(())
}

// Shares of node i what it has of some bytes.
fn share_part<W: Wrapped, O: Release>(
    nodes: &mut Nodes<IoBufOf<W, O>>,
    i: usize,
    shares: &mut VecDeque<IoBufOf<W, O>>,
    at: usize,
    n: usize,
    alloc: Global,
    mint: &mut Mint,
) -> Result<(), AllocError>
    requires there { i < length nodes.old }
    requires some { 0 < n }
    ensures shares { OnOk result (SharesAt i at n mint.old mint.new nodes.old nodes.new shares.old.items
        shares.new.items) }
    ensures refused { OnErr result ((nodes.new ≡ nodes.old) × (mint.new ≡ mint.old)) }
    ensures refused_shares { OnErr result (shares.new.items ≡ shares.old.items) }
{
    let len = nodes.get(i).length();
    if at >= len {
        return Ok(());
    }
    if shares.reserve(1).is_err() {
        return Err(AllocError);
    }
    let mut share = match share_node(nodes, i, alloc, mint) {
        Ok(share) => share,
        Err(e) => return Err(e),
    };
    share.trim_start(at);
    share.trim_end((len - at).saturating_sub(n));
    shares.push_back_reserved(share);
    Ok(())
}

// Gives shares of n bytes from place `at` back, each to its node.
fn rejoin_parts<W: Wrapped, O: Release>(
    nodes: &mut Nodes<IoBufOf<W, O>>,
    shares: &mut VecDeque<IoBufOf<W, O>>,
    at: usize,
    n: usize,
)
    requires { (before : List (Segment O)) × IsSharedSo at n before nodes.old shares.old.items }
    ensures { RegainsAll at n nodes.old shares.old.items nodes.new }
{
    let mut before = at;
    let mut left = n;
    'nodes: for i in 0..nodes.len() {
        let len = nodes.get(i).length();
        rejoin_part(nodes, i, shares, before, left);
        let passed = before.min(len);
        left -= left.min(len - passed);
        before -= passed;
    }
}

// Gives the next share back to node i, where that has some of the bytes.
fn rejoin_part<W: Wrapped, O: Release>(
    nodes: &mut Nodes<IoBufOf<W, O>>,
    i: usize,
    shares: &mut VecDeque<IoBufOf<W, O>>,
    at: usize,
    n: usize,
)
    requires there { i < length nodes.old }
    requires returnable { IsReturnableAt i at n nodes.old shares.old.items }
    ensures { RejoinsNext i at n nodes.old shares.old.items nodes.new shares.new.items }
{
    let len = nodes.get(i).length();
    if n == 0 {
        return;
    }
    if at >= len {
        return;
    }
    let Some(share) = shares.pop_front() else {
        return;
    };
    rejoin_node(nodes, i, share);
}
