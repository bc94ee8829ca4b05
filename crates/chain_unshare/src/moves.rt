//! Chains that leave the storages that others may hold.
ghost use Rattle.std.specs.Prelude.{◌≡◌, ◌≤◌, List, [], ◌++◌, Ok, IfOk, OnErr, OnOk, length, map};
ghost use Rattle.std.specs.VecDeque.{deque_capacity};
ghost use Rattle.buffer_model.specs.Share.{IsWhole};
ghost use Rattle.buffer_model.specs.Segment.{Segment, bytes_of};
ghost use Rattle.buffer_model.specs.Minted.{AddsAtMost};
ghost use Rattle.buffer_model.specs.Stake.{KeepsTotals, KeepsTotalsBeside};
ghost use Rattle.storage.specs.Back.{stakes_in};
ghost use Rattle.iobuf_chain.specs.Accounts.{held_by};
ghost use Rattle.iobuf_chain.specs.Lists.{Each};
ghost use Rattle.chain_unshare.specs.Backs.{HandBack, returned};
ghost use Rattle.chain_unshare.specs.Unshares.{shared_in, replaced, CopiesEach, UnsharesEach};

use iobuf_chain::ChainOf;
use iobuf_node::{IoBufOf, Wrapped};
use share_count::Mint;
use std::alloc::{AllocError, Global};
use std::collections::VecDeque;
use storage::{Back, Release, Returns};

/// Each node that isn't whole moves to a copy of its whole block on a new storage, rooms too, and gives its old
/// storage back; the others stay as they are. Takes no look at a count. The answer has what the nodes that moved
/// handed back, in order. All copies are made before the first node moves, so at want of memory the chain stays as it
/// is. O(nodes), with one copy of each block that moves; no memory where all nodes are whole.
pub fn unshare<W: Wrapped, O: Release>(
    c: &mut ChainOf<W, O>,
    alloc: Global,
    mint: &mut Mint,
) -> Result<Returns<O>, AllocError>
    ensures nodes { OnOk result (UnsharesEach mint.old mint.new c.old c.new) }
    ensures backs { IfOk result (HandBack O.runs O.last (shared_in c.old)) }
    ensures whole { Each (λ s. IsWhole s.share) c.old → result ≡ Ok [] }
    ensures refused { OnErr result (c.new ≡ c.old) }
    ensures bytes { bytes_of c.new ≡ bytes_of c.old }
    ensures mint { AddsAtMost (length (shared_in c.old)) mint.old mint.new }
    ensures totals { KeepsTotalsBeside mint.old mint.new (held_by c.old) (held_by c.new ++ returned result) }
{
    let count = shared_count(c);
    if count == 0 {
        return Ok(Returns::new(alloc));
    }
    let mut backs = VecDeque::with_capacity(alloc, count)?;
    let mut copies = copy_shared(c, alloc, count, mint)?;
    move_in(c, &mut copies, &mut backs);
    Ok(Returns::from_backs(backs))
}

// How many nodes aren't whole.
fn shared_count<W: Wrapped, O: Release>(c: &ChainOf<W, O>) -> usize
    ensures { result ≡ length (shared_in c.now) }
{
    let mut count = 0;
    'nodes: for i in 0..c.elements() {
        if !c.node(i).whole() {
            count += 1;
        }
    }
    count
}

// Copies of the nodes that aren't whole, in order.
fn copy_shared<W: Wrapped, O: Release>(
    c: &ChainOf<W, O>,
    alloc: Global,
    count: usize,
    mint: &mut Mint,
) -> Result<VecDeque<IoBufOf<W, O>>, AllocError>
    requires { count ≡ length (shared_in c.now) }
    ensures copies { IfOk result (λ d. CopiesEach mint.old mint.new (shared_in c.now) d.items) }
    ensures mint { AddsAtMost (length (shared_in c.now)) mint.old mint.new }
{
    let mut copies = VecDeque::with_capacity(alloc, count)?;
    'nodes: for i in 0..c.elements() {
        let node = c.node(i);
        if !node.whole() {
            copies.push_back_reserved(node.duplicate(alloc, mint)?);
        }
    }
    Ok(copies)
}

// The copies take the places of the nodes that aren't whole, and those are given back, in order.
fn move_in<W: Wrapped, O: Release>(
    c: &mut ChainOf<W, O>,
    copies: &mut VecDeque<IoBufOf<W, O>>,
    backs: &mut VecDeque<Back<O>>,
)
    requires none { backs.old.items ≡ [] }
    requires room { length copies.old.items ≤ deque_capacity backs.old }
    requires windows { map (λ s. s.window) copies.old.items ≡ map (λ s. s.window) (shared_in c.old) }
    ensures nodes { c.new ≡ replaced copies.old.items c.old }
    ensures backs { HandBack O.runs O.last (shared_in c.old) backs.new.items }
    ensures totals { KeepsTotals (held_by (shared_in c.old)) (stakes_in backs.new.items) }
{
    'nodes: for i in 0..c.elements() {
        let _had = c.length();
        if !c.node(i).whole() {
            let Some(copy) = copies.pop_front() else {
                unreachable!()
            };
            backs.push_back_reserved(c.swap_node(i, copy).give_back());
        }
    }
}
