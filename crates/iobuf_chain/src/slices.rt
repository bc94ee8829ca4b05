//! The bytes of a chain, read where they lie.
ghost use Rattle.std.specs.Prelude.{◌≡◌, ◌<◌, ◌↔◌, [], IfOk, IsTrue};
ghost use Rattle.buffer_model.specs.Segment.{bytes_of};
ghost use Rattle.iobuf_chain.specs.Windows.{windows_of};

use crate::chain::ChainOf;
use crate::nodes::Nodes;
use iobuf_node::{IoBufOf, Wrapped};
use std::alloc::{AllocError, Global};
use std::fmt;
use std::marker::Model;
use storage::Told;

/// The data of a chain's nodes where they lie, in order: a slice for each node, and an empty one for a node without
/// data. Contracts see the list of those that are left.
#[derive(Drop)]
pub struct Slices<'c, W: Wrapped, O: Told> {
    nodes: &'c Nodes<IoBufOf<W, O>>,
    next: usize,
}

impl<'c, W: Wrapped, O: Told> Model for Slices<'c, W, O> {
    ghost use Rattle.std.specs.Prelude.{ℕ, ◌≤◌, List, drop, length};
    ghost use Rattle.iobuf_chain.specs.Windows.{windows_of};

    ghost Value = { List (List ℕ) };

    ghost view = { λ s. windows_of (drop s.next s.nodes.now) };

    ghost invariant = { λ s. s.next ≤ length s.nodes.now };
}

impl<'c, W: Wrapped, O: Told> Iterator for Slices<'c, W, O> {
    ghost use Rattle.std.specs.Iterator.{item_count, YieldsFirstRef};

    type Item = &'c [u8];

    ghost next_gives = { YieldsFirstRef (λ s. s) };

    ghost remaining = { item_count (λ s. s) };

    #[inline(always)]
    fn next(&mut self) -> Option<&'c [u8]> {
        let nodes = self.nodes;
        let i = self.next;
        if i == nodes.len() {
            return None;
        }
        self.next = i + 1;
        Some(nodes.get(i).bytes())
    }
}

impl<W: Wrapped, O: Told> ChainOf<W, O> {
    /// The data of each node in turn, where it lies: `for slice in chain.slices()`. No copy, and no memory.
    #[inline(always)]
    pub fn slices(&self) -> Slices<'_, W, O>
        ensures { result ≡ windows_of self.now }
    {
        Slices {
            nodes: &self.nodes,
            next: 0,
        }
    }

    /// Whether there is no byte of data. O(1).
    pub fn is_empty(&self) -> bool
        ensures { IsTrue result ↔ (bytes_of self.now ≡ []) }
    {
        self.length() == 0
    }

    /// A copy of the data in one piece. One allocation, and none where there is no data.
    pub fn to_vec(&self, alloc: Global) -> Result<Vec<u8>, AllocError>
        ensures { IfOk result (λ bytes. bytes.items ≡ bytes_of self.now) }
    {
        let mut bytes = Vec::with_capacity(alloc, self.length())?;
        'nodes: for i in 0..self.elements() {
            bytes.extend_from_slice(self.node(i).bytes())?;
        }
        Ok(bytes)
    }

    /// Whether the data are just these bytes, however they lie in nodes. O(bytes), and no memory.
    pub fn equals(&self, bytes: &[u8]) -> bool
        ensures { IsTrue result ↔ (bytes_of self.now ≡ bytes.now) }
    {
        let mut left = bytes;
        'nodes: for i in 0..self.elements() {
            match left.strip_prefix(self.node(i).bytes()) {
                Some(rest) => left = rest,
                None => return false,
            }
        }
        left.is_empty()
    }
}

/// The number of nodes and of bytes, and the bytes as text, with escapes for those that aren't printable ASCII.
impl<W: Wrapped, O: Told> fmt::Debug for ChainOf<W, O> {
    fn fmt<F: fmt::Write>(&self, f: &mut fmt::Formatter<F>) -> fmt::Result {
        write!(
            f,
            "Chain {{ elements: {}, length: {}, bytes: \"",
            self.elements(),
            self.length()
        )?;
        for slice in self.slices() {
            write!(f, "{}", slice.escape_ascii())?;
        }
        write!(f, "\" }}")
    }
}
