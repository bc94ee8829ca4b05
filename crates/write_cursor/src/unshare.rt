//! Nodes that leave the storages that others may hold, before bytes are written into them.
ghost use Rattle.std.specs.Prelude.{◌≡◌, ◌+◌, ◌-◌, ◌≤◌, ◌<◌, ◌^◌, ◌⊎◌, List, [], ◌∷◌, ◌++◌, Ok, true, false, IfOk, OnOk, OnErr, length, map};
ghost use Rattle.std.specs.VecDeque.{deque_capacity};
ghost use Rattle.buffer_model.specs.Share.{IsWhole};
ghost use Rattle.buffer_model.specs.Segment.{Segment, bytes_of, overwritten};
ghost use Rattle.buffer_model.specs.Minted.{AddsAtMost};
ghost use Rattle.buffer_model.specs.Stake.{KeepsTotals, KeepsTotalsBeside};
ghost use Rattle.storage.specs.Back.{stakes_in};
ghost use Rattle.iobuf_chain.specs.Accounts.{held_by};
ghost use Rattle.chain_unshare.specs.Backs.{HandBack, returned};
ghost use Rattle.chain_unshare.specs.Unshares.{CopiesEach};
ghost use Rattle.write_cursor.specs.Leaving.{leaves, leaving, moved_out};
ghost use Rattle.write_cursor.specs.Unshared.{WritesAlone, UnsharesOver};
ghost use Rattle.write_cursor.specs.Copied.{CopiesIf};

use crate::write::write_over;
use iobuf_chain::ChainOf;
use iobuf_node::{IoBufOf, Wrapped};
use share_count::Mint;
use std::alloc::{AllocError, Global};
use std::collections::VecDeque;
use storage::{Back, Release, Returns, Told};

/// Writes bytes over those from `place` on, across nodes, where others may hold the chain's storages: each node that
/// has one of the bytes and isn't whole moves to a copy of its whole block first, rooms too, and gives its old storage
/// back. So no clone sees what is written. The answer has what the nodes that moved handed back, in order. All copies
/// are made before the first node moves, so at want of memory the chain stays as it is; where every such node is whole
/// no memory is taken. O(nodes), one copy of the bytes, and one of each block that moves.
pub fn write_alone<W: Wrapped, O: Release>(
    c: &mut ChainOf<W, O>,
    alloc: Global,
    place: usize,
    bytes: &[u8],
    mint: &mut Mint,
) -> Result<Returns<O>, AllocError>
    requires { place + length bytes.now ≤ length (bytes_of c.old) }
    ensures writes { OnOk result (WritesAlone place bytes.now mint.old mint.new c.old c.new) }
    ensures backs { IfOk result (HandBack O.runs O.last (leaving place (length bytes.now) c.old)) }
    ensures refused { OnErr result (c.new ≡ c.old) }
    ensures bytes { OnOk result (bytes_of c.new ≡ overwritten (bytes_of c.old) place bytes.now) }
    ensures mint { AddsAtMost (length (leaving place (length bytes.now) c.old)) mint.old mint.new }
    ensures totals { KeepsTotalsBeside mint.old mint.new (held_by c.old) (held_by c.new ++ returned result) }
{
    let mut copies = copy_leaving(c, alloc, place, bytes.len(), mint)?;
    let mut backs = VecDeque::with_capacity(alloc, copies.len())?;
    move_out(c, &mut copies, &mut backs, place, bytes.len());
    write_over(c, place, bytes);
    Ok(Returns::from_backs(backs))
}

// Whether a node leaves its storage before n bytes from a place on are written.
fn leaves<W: Wrapped, O: Told>(node: &IoBufOf<W, O>, at: usize, n: usize) -> bool
    ensures { result ≡ leaves at n node.now }
{
    if node.length() <= at {
        return false;
    }
    if n == 0 {
        return false;
    }
    !node.whole()
}

// Copies of the nodes that leave their storages before n bytes from a place on are written, in order.
fn copy_leaving<W: Wrapped, O: Told>(
    c: &ChainOf<W, O>,
    alloc: Global,
    place: usize,
    n: usize,
    mint: &mut Mint,
) -> Result<VecDeque<IoBufOf<W, O>>, AllocError>
    ensures copies { IfOk result (λ d. CopiesEach mint.old mint.new (leaving place n c.now) d.items) }
    ensures mint { AddsAtMost (length (leaving place n c.now)) mint.old mint.new }
{
    let mut copies = VecDeque::new(alloc);
    let mut at = place;
    let mut left = n;
    'nodes: for i in 0..c.elements() {
        let node = c.node(i);
        let len = node.length();
        copy_node(&mut copies, node, alloc, (at, left), mint)?;
        left = left.saturating_sub(len.saturating_sub(at));
        at = at.saturating_sub(len);
    }
    Ok(copies)
}

// A copy of a node that leaves its storage before `span.1` bytes from place `span.0` on are written comes last.
fn copy_node<W: Wrapped, O: Told>(
    copies: &mut VecDeque<IoBufOf<W, O>>,
    node: &IoBufOf<W, O>,
    alloc: Global,
    span: (usize, usize),
    mint: &mut Mint,
) -> Result<(), AllocError>
    ensures copied { OnOk result (CopiesIf span.0 span.1 mint.old mint.new node.now copies.old.items
        copies.new.items) }
    ensures refused { OnErr result ((leaves span.0 span.1 node.now ≡ true) × AddsAtMost 1 mint.old mint.new) }
{
    if !leaves(node, span.0, span.1) {
        return Ok(());
    }
    let copy = node.duplicate(alloc, mint)?;
    match copies.push_back(copy) {
        Ok(()) => Ok(()),
        Err(_) => Err(AllocError),
    }
}

// The copies take the places of the nodes that leave, and those are given back, in order.
fn move_out<W: Wrapped, O: Release>(
    c: &mut ChainOf<W, O>,
    copies: &mut VecDeque<IoBufOf<W, O>>,
    backs: &mut VecDeque<Back<O>>,
    place: usize,
    n: usize,
)
    requires none { backs.old.items ≡ [] }
    requires room { length copies.old.items ≤ deque_capacity backs.old }
    requires windows { map (λ s. s.window) copies.old.items ≡ map (λ s. s.window) (leaving place n c.old) }
    ensures nodes { c.new ≡ moved_out copies.old.items place n c.old }
    ensures backs { HandBack O.runs O.last (leaving place n c.old) backs.new.items }
    ensures totals { KeepsTotals (held_by (leaving place n c.old)) (stakes_in backs.new.items) }
{
    let mut at = place;
    let mut left = n;
    'nodes: for i in 0..c.elements() {
        let _had = c.length();
        let node = c.node(i);
        let len = node.length();
        let goes = leaves(node, at, left);
        if goes {
            let Some(copy) = copies.pop_front() else {
                unreachable!()
            };
            backs.push_back_reserved(c.swap_node(i, copy).give_back());
        }
        left = left.saturating_sub(len.saturating_sub(at));
        at = at.saturating_sub(len);
    }
}
