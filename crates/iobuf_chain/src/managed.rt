//! Chains that borrow nothing.
ghost use Rattle.std.specs.Prelude.{◌≡◌, ◌+◌, ◌<◌, ◌≤◌, List, [], ◌∷◌, ◌++◌, None, ◌⊎◌, IfErr, IfOk, OnErr, length};
ghost use Rattle.buffer_model.specs.Share.{IsManaged};
ghost use Rattle.buffer_model.specs.Segment.{bytes_of};
ghost use Rattle.buffer_model.specs.Stake.{KeepsTotalsBeside};
ghost use Rattle.buffer_model.specs.Minted.{AddsAtMost};
ghost use Rattle.iobuf_chain.specs.Accounts.{held_by};
ghost use Rattle.iobuf_chain.specs.Lists.{Each};
ghost use Rattle.iobuf_chain.specs.Managed.{either_way, ManagesEach, Copies, CopiesEach, PicksEach};

use crate::chain::{Chain, ChainOf};
use crate::nodes::Nodes;
use iobuf_node::{IoBuf, IoBufOf, Wrapped};
use share_count::Mint;
use std::alloc::{AllocError, Global};
use std::collections::VecDeque;
use storage::Told;

impl<W: Wrapped, O: Told> ChainOf<W, O> {
    /// A chain that borrows nothing: each wrapped node's whole block is copied to a new storage, rooms too; the
    /// others stay as they are. A chain of one node takes no memory but for that copy. At want of memory the chain is
    /// handed back as it was, though the mint may have gone on. O(nodes), and a copy of the wrapped blocks.
    pub fn into_managed(
        self,
        alloc: Global,
        mint: &mut Mint,
    ) -> Result<Chain<'static, O>, ChainOf<W, O>>
        ensures nodes { IfOk result (λ c. ManagesEach mint.old mint.new self c) }
        ensures managed { IfOk result (λ c. Each (λ s. IsManaged s.share) c) }
        ensures bytes { IfOk result (λ c. bytes_of c ≡ bytes_of self) }
        ensures refused { IfErr result (λ c. c ≡ self) }
        ensures mint { AddsAtMost (length self) mint.old mint.new }
        ensures totals { KeepsTotalsBeside mint.old mint.new (held_by self) (held_by (either_way result)) }
    {
        let ChainOf { nodes, room, sum } = self;
        match manage_nodes(nodes, alloc, mint) {
            Ok(nodes) => Ok(ChainOf { nodes, room, sum }),
            Err(nodes) => Err(ChainOf { nodes, room, sum }),
        }
    }
}

// All nodes managed. First all copies are made, so that a refusal leaves the nodes as they are.
fn manage_nodes<W: Wrapped, O: Told>(
    nodes: Nodes<IoBufOf<W, O>>,
    alloc: Global,
    mint: &mut Mint,
) -> Result<Nodes<IoBuf<'static, O>>, Nodes<IoBufOf<W, O>>>
    ensures nodes { IfOk result (λ c. ManagesEach mint.old mint.new nodes c) }
    ensures refused { IfErr result (λ c. c ≡ nodes) }
    ensures mint { AddsAtMost (length nodes) mint.old mint.new }
{
    let (first, rest) = nodes.into_parts();
    let Ok(copy) = copy_of(&first, alloc, mint) else {
        return Err(Nodes::from_parts(first, rest));
    };
    let Ok(copies) = copies_of(&rest, alloc, mint) else {
        return Err(Nodes::from_parts(first, rest));
    };
    let first = pick(first, copy, alloc, mint);
    let rest = pick_each(rest, copies, alloc, mint);
    Ok(Nodes::from_parts(first, rest))
}

// A copy of a wrapped node. For a managed one an empty node stands.
fn copy_of<W: Wrapped, O: Told>(
    node: &IoBufOf<W, O>,
    alloc: Global,
    mint: &mut Mint,
) -> Result<IoBuf<'static, O>, AllocError>
    ensures copy { IfOk result (λ c. Copies mint.old mint.new node.now c) }
    ensures refused { OnErr result (mint.new ≡ mint.old) }
{
    if node.number().is_some() {
        return Ok(IoBufOf::empty());
    }
    match node.duplicate(alloc, mint) {
        Ok(copy) => Ok(copy),
        Err(e) => Err(e),
    }
}

// The same for each node, in order.
fn copies_of<W: Wrapped, O: Told>(
    nodes: &VecDeque<IoBufOf<W, O>>,
    alloc: Global,
    mint: &mut Mint,
) -> Result<VecDeque<IoBuf<'static, O>>, AllocError>
    ensures copies { IfOk result (λ cs. CopiesEach mint.old mint.new nodes.now.items cs.items) }
    ensures mint { AddsAtMost (length nodes.now.items) mint.old mint.new }
{
    let Ok(mut copies) = VecDeque::with_capacity(alloc, nodes.len()) else {
        return Err(AllocError);
    };
    'nodes: for i in 0..nodes.len() {
        match copy_of(&nodes[i], alloc, mint) {
            Ok(copy) => copies.push_back_reserved(copy),
            Err(e) => return Err(e),
        }
    }
    Ok(copies)
}

// The node itself where it is managed, else its copy.
fn pick<W: Wrapped, O: Told>(
    node: IoBufOf<W, O>,
    copy: IoBuf<'static, O>,
    alloc: Global,
    mint: &mut Mint,
) -> IoBuf<'static, O>
    ensures stays { IsManaged node.share → result ≡ node }
    ensures copy { node.share.number ≡ None → result ≡ copy.entry }
    ensures mint { mint.new ≡ mint.old }
{
    if node.number().is_none() {
        return copy;
    }
    let Ok(node) = node.into_managed(alloc, mint) else {
        unreachable!()
    };
    node
}

// The same for each node, in order, in the list of the copies.
fn pick_each<W: Wrapped, O: Told>(
    nodes: VecDeque<IoBufOf<W, O>>,
    copies: VecDeque<IoBuf<'static, O>>,
    alloc: Global,
    mint: &mut Mint,
) -> VecDeque<IoBuf<'static, O>>
    requires { length nodes.items ≡ length copies.items }
    ensures picks { PicksEach nodes.items copies.entry.items result.items }
    ensures mint { mint.new ≡ mint.old }
{
    let mut nodes = nodes;
    let mut picked = copies;
    'nodes: while let Some(node) = nodes.pop_front() {
        let Some(copy) = picked.pop_front() else {
            unreachable!()
        };
        picked.push_back_reserved(pick(node, copy, alloc, mint));
    }
    picked
}
