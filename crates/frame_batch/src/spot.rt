//! Where a reader stands in a chain.
ghost use Rattle.std.specs.Prelude.{◌≡◌, ◌+◌, ◌≤◌, ◌<◌, length, take};
ghost use Rattle.buffer_model.specs.Segment.{bytes_of};
ghost use Rattle.frame_batch.specs.Spots.{IsAt};

use iobuf_chain::Frame;

/// A node of a chain: its bytes, its index, and the place of its first byte.
#[derive(Clone, Copy)]
pub(crate) struct Spot<'a> {
    pub(crate) bytes: &'a [u8],
    pub(crate) index: usize,
    pub(crate) first: usize,
}

// The first node.
pub(crate) fn front(chain: &Frame) -> Spot<'_>
    ensures at { IsAt chain.now result }
    ensures first { result.first ≡ 0 }
{
    let _some = chain.elements();
    Spot {
        bytes: chain.node(0).bytes(),
        index: 0,
        first: 0,
    }
}

// The node that has the byte at a place, looked for from a node on. O(1) where that node has it, and else O(nodes
// between), or where the place lies before it O(nodes from the first on).
#[inline(always)]
pub(crate) fn find<'a>(chain: &'a Frame, from: Spot<'a>, place: usize) -> Spot<'a>
    requires at { IsAt chain.now from }
    requires there { place < length (bytes_of chain.now) }
    ensures at { IsAt chain.now result }
    ensures before { result.first ≤ place }
    ensures has { place < result.first + length result.bytes.now }
{
    if place < from.first {
        return find_behind(chain, front(chain), place);
    }
    if place - from.first < from.bytes.len() {
        return from;
    }
    find_behind(chain, from, place)
}

// The same from a node that begins at the place or before it.
fn find_behind<'a>(chain: &'a Frame, from: Spot<'a>, place: usize) -> Spot<'a>
    requires at { IsAt chain.now from }
    requires before { from.first ≤ place }
    requires there { place < length (bytes_of chain.now) }
    ensures at { IsAt chain.now result }
    ensures before { result.first ≤ place }
    ensures has { place < result.first + length result.bytes.now }
{
    let mut spot = from;
    'nodes: while place - spot.first >= spot.bytes.len() {
        spot = behind(chain, spot);
    }
    spot
}

// The next node.
fn behind<'a>(chain: &'a Frame, spot: Spot<'a>) -> Spot<'a>
    requires at { IsAt chain.now spot }
    requires more { spot.first + length spot.bytes.now < length (bytes_of chain.now) }
    ensures at { IsAt chain.now result }
    ensures index { result.index ≡ spot.entry.index + 1 }
    ensures first { result.first ≡ spot.entry.first + length spot.entry.bytes.now }
{
    let _all = (chain.elements(), chain.length());
    let index = spot.index + 1;
    Spot {
        bytes: chain.node(index).bytes(),
        index,
        first: spot.first + spot.bytes.len(),
    }
}
