//! Chains that are shared.
ghost use Rattle.std.specs.Prelude.{◌≡◌, ℕ, ◌+◌, ◌≤◌, ◌<◌, List, [], ◌++◌, IfOk, IfSome, OnErr, OnOk, length, slice_get};
ghost use Rattle.std.specs.List.{AllZip};
ghost use Rattle.std.specs.VecDeque.{deque_capacity};
ghost use Rattle.buffer_model.specs.Segment.{Segment, bytes_of};
ghost use Rattle.buffer_model.specs.Minted.{AddsAtMost};
ghost use Rattle.buffer_model.specs.Stake.{KeepsTotalsBeside};
ghost use Rattle.iobuf_chain.specs.Accounts.{held_by, answered};
ghost use Rattle.iobuf_chain.specs.Copies.{CopiesNoData, HasWeight, IsShareable, WithData};
ghost use Rattle.iobuf_chain.specs.Lists.{Each};
ghost use Rattle.iobuf_chain.specs.Many.{Lasts};
ghost use Rattle.iobuf_chain.specs.Shares.{AreReturnable, ClonesAt, ClonesEach, ClonesFirst, IsReturnable, Regains, RejoinsAt, RejoinsEach};

use crate::chain::ChainOf;
use crate::nodes::Nodes;
use crate::settle::rejoin;
use iobuf_node::{IoBufOf, Wrapped};
use share_count::Mint;
use std::alloc::{AllocError, Global};
use std::collections::VecDeque;
use storage::Release;

impl<W: Wrapped, O: Release> ChainOf<W, O> {
    /// A second chain with a clone of each node, in order. A wrapped node and one of a weight over 1 share their
    /// bytes with their clones; a node of the weight 1 is copied. A chain of one node takes no memory but for that
    /// clone. At want of memory the shares that were made are given back and absorbed. O(nodes). A node that can be
    /// shared `k + 2` times without a copy, for `k` up to 1,024, can be shared `k + 1` times afterwards (`left`).
    pub fn share_all(&mut self, alloc: Global, mint: &mut Mint) -> Result<ChainOf<W, O>, AllocError>
        ensures shares { IfOk result (λ c. ClonesEach mint.old mint.new self.old self.new c) }
        ensures bytes { IfOk result (λ c. bytes_of c ≡ bytes_of self.old) }
        ensures kept { bytes_of self.new ≡ bytes_of self.old }
        ensures left { (k : ℕ) → k ≤ 1024 → WithData (HasWeight (k + 2)) self.old
            → OnOk result (WithData (HasWeight (k + 1)) self.new) }
        ensures refused { OnErr result (AllZip Regains self.old self.new) }
        ensures mint { AddsAtMost (length self.old) mint.old mint.new }
        ensures numbers { Each (Lasts 1) self.old → mint.new ≡ mint.old }
        ensures totals { KeepsTotalsBeside mint.old mint.new (held_by self.old)
            (held_by (self.new ++ answered result)) }
        ensures copies { WithData IsShareable self.old → IfOk result (CopiesNoData self.old) }
    {
        let sum = self.sum;
        let others = self.nodes.len() - 1;
        let Ok(room) = VecDeque::with_capacity(alloc, others) else {
            return Err(AllocError);
        };
        let nodes = match share_nodes(&mut self.nodes, alloc, mint) {
            Ok(nodes) => nodes,
            Err(e) => return Err(e),
        };
        Ok(ChainOf { nodes, room, sum })
    }
}

// A clone of each node. Of one node it takes no memory but for that clone.
fn share_nodes<W: Wrapped, O: Release>(
    nodes: &mut Nodes<IoBufOf<W, O>>,
    alloc: Global,
    mint: &mut Mint,
) -> Result<Nodes<IoBufOf<W, O>>, AllocError>
    ensures shares { IfOk result (λ c. ClonesEach mint.old mint.new nodes.old nodes.new c) }
    ensures refused { OnErr result (AllZip Regains nodes.old nodes.new) }
    ensures mint { AddsAtMost (length nodes.old) mint.old mint.new }
    ensures numbers { Each (Lasts 1) nodes.old → mint.new ≡ mint.old }
{
    let count = nodes.len();
    if count == 1 {
        return match share_node(nodes, 0, alloc, mint) {
            Ok(clone) => Ok(Nodes::of(alloc, clone)),
            Err(e) => Err(e),
        };
    }
    let Ok(mut clones) = VecDeque::with_capacity(alloc, count) else {
        return Err(AllocError);
    };
    match share_each(nodes, &mut clones, alloc, mint) {
        Ok(()) => (),
        Err(e) => {
            rejoin_each(nodes, &mut clones);
            return Err(e);
        }
    }
    let Some(first) = clones.pop_front() else {
        unreachable!()
    };
    Ok(Nodes::from_parts(first, clones))
}

// A clone of node i.
pub(crate) fn share_node<W: Wrapped, O: Release>(
    nodes: &mut Nodes<IoBufOf<W, O>>,
    i: usize,
    alloc: Global,
    mint: &mut Mint,
) -> Result<IoBufOf<W, O>, AllocError>
    requires { i < length nodes.old }
    ensures shares { IfOk result (λ c. ClonesAt i mint.old mint.new nodes.old nodes.new c) }
    ensures refused { OnErr result ((nodes.new ≡ nodes.old) × (mint.new ≡ mint.old)) }
{
    if i == 0 {
        return nodes.clone_first(alloc, mint);
    }
    let mut node = nodes.swap(i, IoBufOf::empty());
    let clone = node.clone_one(alloc, mint);
    let _ = nodes.swap(i, node);
    match clone {
        Ok(clone) => Ok(clone),
        Err(e) => Err(e),
    }
}

// Clones of all nodes, in order, up to the first that is refused.
fn share_each<W: Wrapped, O: Release>(
    nodes: &mut Nodes<IoBufOf<W, O>>,
    clones: &mut VecDeque<IoBufOf<W, O>>,
    alloc: Global,
    mint: &mut Mint,
) -> Result<(), AllocError>
    requires none { clones.old.items ≡ [] }
    requires room { length nodes.old ≤ deque_capacity clones.old }
    ensures shares { OnOk result (ClonesEach mint.old mint.new nodes.old nodes.new clones.new.items) }
    ensures refused { OnErr result (ClonesFirst mint.old mint.new nodes.old nodes.new clones.new.items) }
{
    'nodes: for i in 0..nodes.len() {
        match share_node(nodes, i, alloc, mint) {
            Ok(clone) => clones.push_back_reserved(clone),
            Err(e) => return Err(e),
        }
    }
    Ok(())
}

// Gives clones back, each to its node.
fn rejoin_each<W: Wrapped, O: Release>(
    nodes: &mut Nodes<IoBufOf<W, O>>,
    clones: &mut VecDeque<IoBufOf<W, O>>,
)
    requires { AreReturnable nodes.old clones.old.items }
    ensures { RejoinsEach nodes.old clones.old.items nodes.new }
{
    'clones: for i in 0..clones.len() {
        let Some(share) = clones.pop_front() else {
            unreachable!()
        };
        rejoin_node(nodes, i, share);
    }
}

// Gives a clone back to node i.
pub(crate) fn rejoin_node<W: Wrapped, O: Release>(
    nodes: &mut Nodes<IoBufOf<W, O>>,
    i: usize,
    share: IoBufOf<W, O>,
)
    requires there { i < length nodes.old }
    requires returnable { IfSome (slice_get nodes.old i) (λ n. IsReturnable n.share share.share) }
    ensures { RejoinsAt i nodes.old share.share nodes.new }
{
    let mut node = nodes.swap(i, IoBufOf::empty());
    rejoin(&mut node, share);
    let _ = nodes.swap(i, node);
}
