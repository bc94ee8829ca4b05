//! A cursor over a chain whose storages others may hold.
ghost use Rattle.std.specs.Prelude.{◌≡◌, ◌+◌, ◌-◌, ◌≤◌, ◌<◌, ◌^◌, List, ◌++◌, Ok, true, false, IfOk, OnOk, OnErr, length};
ghost use Rattle.buffer_model.specs.Segment.{Segment, bytes_of};
ghost use Rattle.buffer_model.specs.Minted.{AddsAtMost};
ghost use Rattle.buffer_model.specs.Stake.{KeepsTotalsBeside};
ghost use Rattle.iobuf_chain.specs.Accounts.{held_by};
ghost use Rattle.iobuf_chain.specs.Cuts.{IsShortBeyond};
ghost use Rattle.chain_unshare.specs.Backs.{HandBack, returned};
ghost use Rattle.frame_head.specs.Framed.{field_bytes};
ghost use Rattle.write_cursor.specs.Leaving.{leaving};
ghost use Rattle.write_cursor.specs.Numbers.{IsSize};
ghost use Rattle.read_cursor.specs.Shorts.{IsShort};
ghost use Rattle.write_cursor.specs.Unshared.{WritesAlone};

use crate::numbers::Number;
use crate::unshare::write_alone;
use iobuf_chain::{ChainOf, CutFault};
use iobuf_node::Wrapped;
use read_cursor::Short;
use share_count::Mint;
use std::alloc::Global;
use storage::{Release, Returns, Told};

/// A place in a chain, to write over its bytes: each node that gets one and isn't whole moves to a copy of its block
/// first. Folly's `RWUnshareCursor`.
#[derive(Drop)]
pub struct UnshareCursor<'c, W: Wrapped, O: Told> {
    /// The chain.
    pub chain: &'c mut ChainOf<W, O>,
    /// How many bytes lie before the next.
    pub place: usize,
}

impl<'c, W: Wrapped, O: Release> UnshareCursor<'c, W, O> {
    /// At the first byte of a chain. O(1), and no memory.
    pub fn new(chain: &'c mut ChainOf<W, O>) -> UnshareCursor<'c, W, O>
        ensures same { result.chain.ghost_name ≡ chain.entry.ghost_name }
        ensures chain { result.chain.now ≡ chain.old }
        ensures place { result.place ≡ 0 }
    {
        UnshareCursor { chain, place: 0 }
    }

    /// How many bytes are left. O(1), and no memory.
    pub fn left(&self) -> usize
        ensures left { result ≡ length (bytes_of self.now.chain.now) - self.now.place }
        ensures fits { length (bytes_of self.now.chain.now) < 2 ^ 64 }
    {
        self.chain.length().saturating_sub(self.place)
    }

    /// Passes `n` bytes. `Short` exactly where fewer are left. O(1), and no memory.
    pub fn skip(&mut self, n: usize) -> Result<(), Short>
        ensures same { self.new.chain.ghost_name ≡ self.old.chain.ghost_name }
        ensures short { IsShort n (length (bytes_of self.old.chain.now) - self.old.place) result }
        ensures chain { self.new.chain.now ≡ self.old.chain.now }
        ensures place { OnOk result (self.new.place ≡ self.old.place + n) }
        ensures refused { OnErr result (self.new.place ≡ self.old.place) }
    {
        let had = self.left();
        if had < n {
            return Err(Short { asked: n, had });
        }
        self.place += n;
        Ok(())
    }

    /// Writes bytes over the next, across nodes, and passes them, as `write_alone`. `Short` exactly where fewer are
    /// left. A refused call changes nothing. Folly's `RWUnshareCursor::push`.
    pub fn push(
        &mut self,
        alloc: Global,
        bytes: &[u8],
        mint: &mut Mint,
    ) -> Result<Returns<O>, CutFault>
        requires { self.old.place ≤ length (bytes_of self.old.chain.now) }
        ensures same { self.new.chain.ghost_name ≡ self.old.chain.ghost_name }
        ensures short { IsShortBeyond (length bytes.now) (length (bytes_of self.old.chain.now) - self.old.place)
            result }
        ensures writes { OnOk result (WritesAlone self.old.place bytes.now mint.old mint.new self.old.chain.now
            self.new.chain.now) }
        ensures backs { IfOk result (HandBack O.runs O.last
            (leaving self.old.place (length bytes.now) self.old.chain.now)) }
        ensures place { OnOk result (self.new.place ≡ self.old.place + length bytes.now) }
        ensures refused { OnErr result ((self.new.chain.now ≡ self.old.chain.now)
            × (self.new.place ≡ self.old.place)) }
        ensures left { length (bytes_of self.new.chain.now) ≡ length (bytes_of self.old.chain.now) }
        ensures mint { AddsAtMost (length (leaving self.old.place (length bytes.now) self.old.chain.now))
            mint.old mint.new }
        ensures totals { KeepsTotalsBeside mint.old mint.new (held_by self.old.chain.now)
            (held_by self.new.chain.now ++ returned result) }
    {
        let had = self.left();
        let asked = bytes.len();
        if had < asked {
            return Err(CutFault::Short { asked, had });
        }
        match write_alone(self.chain, alloc, self.place, bytes, mint) {
            Ok(backs) => {
                self.place += asked;
                Ok(backs)
            }
            Err(_) => Err(CutFault::NoMemory),
        }
    }

    /// Writes the `size` bytes of a number over the next, the one that weighs most first, and passes them. As `push`.
    /// Folly's `RWUnshareCursor::writeBE`.
    pub fn write_be(
        &mut self,
        alloc: Global,
        value: u128,
        size: u8,
        mint: &mut Mint,
    ) -> Result<Returns<O>, CutFault>
        requires size { IsSize size }
        requires fits { value < 256 ^ size }
        requires within { self.old.place ≤ length (bytes_of self.old.chain.now) }
        ensures same { self.new.chain.ghost_name ≡ self.old.chain.ghost_name }
        ensures short { IsShortBeyond size (length (bytes_of self.old.chain.now) - self.old.place) result }
        ensures writes { OnOk result (WritesAlone self.old.place (field_bytes size false value) mint.old mint.new
            self.old.chain.now self.new.chain.now) }
        ensures backs { IfOk result (HandBack O.runs O.last (leaving self.old.place size self.old.chain.now)) }
        ensures place { OnOk result (self.new.place ≡ self.old.place + size) }
        ensures refused { OnErr result ((self.new.chain.now ≡ self.old.chain.now)
            × (self.new.place ≡ self.old.place)) }
        ensures left { length (bytes_of self.new.chain.now) ≡ length (bytes_of self.old.chain.now) }
        ensures mint { AddsAtMost (length (leaving self.old.place size self.old.chain.now)) mint.old mint.new }
        ensures totals { KeepsTotalsBeside mint.old mint.new (held_by self.old.chain.now)
            (held_by self.new.chain.now ++ returned result) }
    {
        let number = Number::high_first(value, size);
        self.push(alloc, number.as_bytes(), mint)
    }

    /// The same, with the byte that weighs least first. Folly's `RWUnshareCursor::writeLE`.
    pub fn write_le(
        &mut self,
        alloc: Global,
        value: u128,
        size: u8,
        mint: &mut Mint,
    ) -> Result<Returns<O>, CutFault>
        requires size { IsSize size }
        requires fits { value < 256 ^ size }
        requires within { self.old.place ≤ length (bytes_of self.old.chain.now) }
        ensures same { self.new.chain.ghost_name ≡ self.old.chain.ghost_name }
        ensures short { IsShortBeyond size (length (bytes_of self.old.chain.now) - self.old.place) result }
        ensures writes { OnOk result (WritesAlone self.old.place (field_bytes size true value) mint.old mint.new
            self.old.chain.now self.new.chain.now) }
        ensures backs { IfOk result (HandBack O.runs O.last (leaving self.old.place size self.old.chain.now)) }
        ensures place { OnOk result (self.new.place ≡ self.old.place + size) }
        ensures refused { OnErr result ((self.new.chain.now ≡ self.old.chain.now)
            × (self.new.place ≡ self.old.place)) }
        ensures left { length (bytes_of self.new.chain.now) ≡ length (bytes_of self.old.chain.now) }
        ensures mint { AddsAtMost (length (leaving self.old.place size self.old.chain.now)) mint.old mint.new }
        ensures totals { KeepsTotalsBeside mint.old mint.new (held_by self.old.chain.now)
            (held_by self.new.chain.now ++ returned result) }
    {
        let number = Number::low_first(value, size);
        self.push(alloc, number.as_bytes(), mint)
    }
}
