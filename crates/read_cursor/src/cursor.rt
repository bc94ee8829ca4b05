//! A place in a chain, and the calls that move it.
ghost use Rattle.std.specs.Prelude.{◌≡◌, ◌+◌, ◌-◌, ◌≤◌, ◌<◌, ◌++◌, List, IfSome, OnOk, OnErr, length, take, drop, min, slice_get};
ghost use Rattle.buffer_model.specs.Segment.{bytes_of};
ghost use Rattle.read_cursor.specs.Reading.{Reading, rest_of, moved, moved_back, place_in};
ghost use Rattle.read_cursor.specs.Shorts.{IsShort};

use iobuf_chain::ChainOf;
use iobuf_node::Wrapped;
use std::marker::Model;
use storage::Told;
use thiserror::Error;

/// More bytes were asked for than there are. The place stays.
#[derive(Clone, Copy, Debug, PartialEq, Eq, Drop, Error)]
#[error("{asked} bytes are asked for, and there are {had}")]
pub struct Short {
    /// How many were asked for.
    pub asked: usize,
    /// How many there are.
    pub had: usize,
}

/// A place in the bytes of a chain that is borrowed for reading, as Folly's `io::Cursor` is and as `bytes::Buf` gives
/// it. It knows the node in which it stands, so a call costs as many steps as it reads bytes and passes nodes.
#[derive(Drop)]
pub struct Cursor<'c, W: Wrapped, O: Told> {
    chain: &'c ChainOf<W, O>,
    place: usize,
    // The place lies so many bytes behind the first byte of this node, perhaps past the node's end.
    node: usize,
    at: usize,
}

impl<'c, W: Wrapped, O: Told> Model for Cursor<'c, W, O> {
    ghost use Rattle.std.specs.Prelude.{◌≡◌, ◌+◌, ◌≤◌, length};
    ghost use Rattle.buffer_model.specs.Segment.{bytes_of};
    ghost use Rattle.read_cursor.specs.Reading.{Reading, place_in};

    ghost Value = { Reading };

    ghost view = { λ c. record { bytes = bytes_of c.chain.now; place = c.place } };

    ghost invariant = { λ c. (c.place ≤ length (bytes_of c.chain.now))
        × (c.place ≡ place_in c.chain.now c.node c.at) };
}

impl<'c, W: Wrapped, O: Told> Cursor<'c, W, O> {
    /// At the first byte. O(1), and no memory.
    pub fn new(chain: &'c ChainOf<W, O>) -> Cursor<'c, W, O>
        ensures { result ≡ record { bytes = bytes_of chain.now; place = 0 } }
    {
        Cursor {
            chain,
            place: 0,
            node: 0,
            at: 0,
        }
    }

    /// How many bytes lie before it. O(1). Folly's `getCurrentPosition`.
    pub fn place(&self) -> usize
        ensures { result ≡ self.now.place }
    {
        self.place
    }

    /// How many bytes are left. O(1). `Buf::remaining`, Folly's `totalLength`.
    pub fn left(&self) -> usize
        ensures { result ≡ length (rest_of self.now) }
    {
        self.chain.length() - self.place
    }

    /// Passes `n` bytes. `Short` exactly where fewer are left. O(1); the next read passes the nodes. `Buf::advance`,
    /// Folly's `skip`.
    pub fn skip(&mut self, n: usize) -> Result<(), Short>
        ensures short { IsShort n (length (rest_of self.old)) result }
        ensures place { OnOk result (self.new ≡ moved n self.old) }
        ensures refused { OnErr result (self.new ≡ self.old) }
    {
        let had = self.left();
        if had < n {
            return Err(Short { asked: n, had });
        }
        self.advance(n);
        Ok(())
    }

    /// Passes `n` bytes, or all that are left where these are fewer, and answers how many. O(1). Folly's
    /// `skipAtMost`.
    pub fn skip_at_most(&mut self, n: usize) -> usize
        ensures count { result ≡ min n (length (rest_of self.old)) }
        ensures place { self.new ≡ moved result self.old }
    {
        let passed = n.min(self.left());
        self.advance(passed);
        passed
    }

    /// Goes `n` bytes back. `Short` exactly where fewer were passed, and they are what it had. The next read finds
    /// its node from the first one on. Folly's `retreat`.
    pub fn retreat(&mut self, n: usize) -> Result<(), Short>
        ensures short { IsShort n self.old.place result }
        ensures place { OnOk result (self.new ≡ moved_back n self.old) }
        ensures refused { OnErr result (self.new ≡ self.old) }
    {
        if self.place < n {
            return Err(Short {
                asked: n,
                had: self.place,
            });
        }
        self.place -= n;
        if self.at < n {
            self.node = 0;
            self.at = self.place;
        } else {
            self.at -= n;
        }
        Ok(())
    }

    // Another cursor at the same place.
    pub(crate) fn here(&self) -> Cursor<'c, W, O>
        ensures { result ≡ self.now }
    {
        Cursor {
            chain: self.chain,
            place: self.place,
            node: self.node,
            at: self.at,
        }
    }

    // Passes n bytes that are left.
    pub(crate) fn advance(&mut self, n: usize)
        requires { n ≤ length (rest_of self.old) }
        ensures { self.new ≡ moved n self.old }
    {
        let _all = self.chain.length();
        self.place += n;
        self.at += n;
    }

    // The next bytes, at least one: those that the node has which has the next.
    pub(crate) fn ahead(&mut self) -> &'c [u8]
        requires { 0 < length (rest_of self.old) }
        ensures some { 0 < length result.now }
        ensures within { length result.now ≤ length (rest_of self.old) }
        ensures bytes { result.now ≡ take (length result.now) (rest_of self.old) }
        ensures place { self.new ≡ self.old }
    {
        let (node, at) = settled(self.chain, self.node, self.at);
        self.node = node;
        self.at = at;
        &self.chain.node(node).bytes()[at..]
    }
}

// Where the next byte lies: in a node that has it.
fn settled<W: Wrapped, O: Told>(chain: &ChainOf<W, O>, node: usize, at: usize) -> (usize, usize)
    requires { place_in chain.now node at < length (bytes_of chain.now) }
    ensures same { place_in chain.now result.0 result.1 ≡ place_in chain.now node at }
    ensures there { result.0 < length chain.now }
    ensures has { IfSome (slice_get chain.now result.0) (λ s. result.1 < length s.window) }
{
    let count = chain.elements();
    let mut i = node;
    let mut k = at;
    'nodes: loop {
        prove!(i < count);
        let len = chain.node(i).length();
        if k < len {
            return (i, k);
        }
        k -= len;
        i += 1;
    }
}
