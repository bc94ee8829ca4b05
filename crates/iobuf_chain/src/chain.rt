//! Chains, their sizes and their nodes.
ghost use Rattle.std.specs.Prelude.{◌≡◌, ◌+◌, ◌-◌, ◌≤◌, ◌<◌, ◌^◌, ◌↔◌, List, [], ◌∷◌, ◌++◌, Some, Ok, IsOk, length, slice_get, slice_set};
ghost use Rattle.buffer_model.specs.Segment.{Segment, bytes_of};
ghost use Rattle.buffer_model.specs.Stake.{KeepsTotals};
ghost use Rattle.iobuf_chain.specs.Accounts.{held_by};
ghost use Rattle.iobuf_chain.specs.Lists.{rotated};

use crate::nodes::Nodes;
use iobuf_node::{IoBufOf, Wrapped};
use std::alloc::Global;
use std::collections::VecDeque;
use std::marker::Model;
use storage::{Back, NoOwner, Told};

/// One or more nodes. Contracts see the list of their windows. The first node lies in the chain itself, so a chain of
/// one node owns no memory beside its storage; and the room for what its other nodes hand back is taken as they join.
/// `W` are the bytes that its nodes may wrap: a borrowed slice, in `Chain`.
#[derive(Drop)]
pub struct ChainOf<W: Wrapped, O: Told> {
    pub(crate) nodes: Nodes<IoBufOf<W, O>>,
    // Empty, with room for what all nodes but the first hand back.
    pub(crate) room: VecDeque<Back<O>>,
    pub(crate) sum: usize,
}

impl<W: Wrapped, O: Told> Model for ChainOf<W, O> {
    ghost use Rattle.std.specs.Prelude.{◌≡◌, ◌≤◌, ◌<◌, ◌+◌, List, [], length};
    ghost use Rattle.std.specs.VecDeque.{deque_capacity};
    ghost use Rattle.buffer_model.specs.Segment.{Segment, bytes_of};

    ghost Value = { List (Segment O) };

    ghost view = { λ c. c.nodes };

    ghost invariant = { λ c. (0 < length c.nodes) × (c.sum ≡ length (bytes_of c.nodes)) × (c.room.items ≡ [])
        × (length c.nodes ≤ deque_capacity c.room + 1) };
}

/// A chain whose nodes may wrap a borrowed slice.
pub type Chain<'a, O = NoOwner> = ChainOf<&'a [u8], O>;

/// A chain that borrows nothing.
pub type Frame = Chain<'static>;

impl<W: Wrapped, O: Told> ChainOf<W, O> {
    /// A chain of one node. O(1), and no memory.
    #[inline(always)]
    pub fn of(alloc: Global, node: IoBufOf<W, O>) -> ChainOf<W, O>
        ensures { result ≡ node ∷ [] }
    {
        let sum = node.length();
        ChainOf {
            nodes: Nodes::of(alloc, node),
            room: VecDeque::new(alloc),
            sum,
        }
    }

    /// The number of nodes, at least one. O(1).
    #[inline(always)]
    pub fn elements(&self) -> usize
        ensures count { result ≡ length self.now }
        ensures some { 0 < result }
    {
        self.nodes.len()
    }

    /// The number of bytes of data. O(1).
    #[inline(always)]
    pub fn length(&self) -> usize
        ensures { result ≡ length (bytes_of self.now) }
    {
        self.sum
    }

    /// Node `i`. O(1).
    #[inline(always)]
    pub fn node(&self, i: usize) -> &IoBufOf<W, O>
        requires { i < length self.now }
        ensures { slice_get self.now i ≡ Some result.now }
    {
        self.nodes.get(i)
    }

    /// Puts a node in the place of node `i`, which is handed back. O(1), and no memory. To change a node, swap an
    /// empty wrapped one in, change the one that is handed back, and swap it back.
    pub fn swap_node(&mut self, i: usize, node: IoBufOf<W, O>) -> IoBufOf<W, O>
        requires there { i < length self.old }
        requires sum { length (bytes_of (slice_set self.old i node)) < 2 ^ 64 }
        ensures new { self.new ≡ slice_set self.old i node }
        ensures old { slice_get self.old i ≡ Some result }
        ensures totals { KeepsTotals (held_by (self.old ++ node ∷ [])) (held_by (self.new ++ result ∷ [])) }
    {
        let more = node.length();
        let old = self.nodes.swap(i, node);
        self.sum = self.sum - old.length() + more;
        old
    }

    /// Node `i` becomes the first, and those that stood before it the last. O(i), and no memory.
    pub fn rotate(&mut self, i: usize)
        requires { i < length self.old }
        ensures nodes { self.new ≡ rotated i self.old }
        ensures totals { KeepsTotals (held_by self.old) (held_by self.new) }
    {
        self.nodes.rotate(i);
    }
}

impl<W: Wrapped, O: Told> ChainOf<W, O> {
    /// Drops the chain, as going out of scope does: each node gives its storage back, and the receipts are lost.
    /// Faster for a chain of one node, since it is taken apart where it lies.
    #[inline(always)]
    pub fn discard(self) {
        let ChainOf { nodes, room, .. } = self;
        let (first, rest) = nodes.into_parts();
        drop(first);
        if rest.capacity() > 0 || room.capacity() > 0 {
            discard_rest(rest, room);
        }
    }
}

// Drops the other nodes, and the room for what they hand back.
#[inline(never)]
fn discard_rest<W: Wrapped, O: Told>(rest: VecDeque<IoBufOf<W, O>>, room: VecDeque<Back<O>>) {
    drop(rest);
    drop(room);
}
