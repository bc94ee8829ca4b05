//! A frame, read in place.
ghost use Rattle.std.specs.Prelude.{◌≡◌, ◌+◌, ◌≤◌, ◌<◌, length, MatchOption};
ghost use Rattle.std.specs.List.{concat};
ghost use Rattle.buffer_model.specs.Segment.{bytes_of};
ghost use Rattle.frame_batch.specs.Parts.{parts_in};
ghost use Rattle.frame_batch.specs.Spots.{IsAt};

use crate::spot::{Spot, find};
use iobuf_chain::Frame;
use std::marker::Model;

/// The bytes of a frame where they lie: its parts in order, each a slice of one node. Contracts see the list of those
/// that are left. A part has a byte at least: a frame without bytes has no part, and one within a node has one part.
#[derive(Drop)]
pub struct Parts<'a> {
    chain: &'a Frame,
    // The node from which on the next part is looked for.
    spot: Spot<'a>,
    // What is left: so many bytes from a place on.
    place: usize,
    size: usize,
}

impl<'a> Model for Parts<'a> {
    ghost use Rattle.std.specs.Prelude.{ℕ, ◌+◌, ◌≤◌, List, length};
    ghost use Rattle.buffer_model.specs.Segment.{bytes_of};
    ghost use Rattle.frame_batch.specs.Parts.{parts_in};
    ghost use Rattle.frame_batch.specs.Spots.{IsAt};

    ghost Value = { List (List ℕ) };

    ghost view = { λ p. parts_in p.place p.size p.chain.now };

    ghost invariant = { λ p. IsAt p.chain.now p.spot × (p.place + p.size ≤ length (bytes_of p.chain.now)) };
}

impl<'a> Parts<'a> {
    #[inline(always)]
    pub(crate) fn new(chain: &'a Frame, spot: Spot<'a>, place: usize, size: usize) -> Parts<'a>
        requires at { IsAt chain.now spot }
        requires there { place + size ≤ length (bytes_of chain.now) }
        ensures parts { result ≡ parts_in place size chain.now }
    {
        Parts {
            chain,
            spot,
            place,
            size,
        }
    }

    /// How many bytes are left. O(1).
    pub fn length(&self) -> usize
        ensures { result ≡ length (concat self.now) }
    {
        self.size
    }

    /// All that is left as one slice: at first the whole frame, where it lies within one node or has no bytes. `None`
    /// exactly where two parts or more are left. O(1), but O(nodes without data) where some stand before the next part.
    #[inline(always)]
    pub fn in_one(&self) -> Option<&'a [u8]>
        ensures { MatchOption result (1 < length self.now) (λ bytes. (bytes.now ≡ concat self.now)
            × (length self.now ≤ 1)) }
    {
        if self.size == 0 {
            return Some(&[]);
        }
        let spot = find(self.chain, self.spot, self.place);
        let start = self.place - spot.first;
        if self.size > spot.bytes.len() - start {
            return None;
        }
        Some(&spot.bytes[start..start + self.size])
    }
}

impl<'a> Iterator for Parts<'a> {
    ghost use Rattle.std.specs.Iterator.{item_count, YieldsFirstRef};

    type Item = &'a [u8];

    ghost next_gives = { YieldsFirstRef (λ s. s) };

    ghost remaining = { item_count (λ s. s) };

    #[inline(always)]
    fn next(&mut self) -> Option<&'a [u8]> {
        if self.size == 0 {
            return None;
        }
        let spot = find(self.chain, self.spot, self.place);
        let start = self.place - spot.first;
        let n = self.size.min(spot.bytes.len() - start);
        let _all = self.chain.length();
        self.spot = spot;
        self.place += n;
        self.size -= n;
        Some(&spot.bytes[start..start + n])
    }
}
