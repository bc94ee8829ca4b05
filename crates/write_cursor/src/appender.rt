//! An appender: bytes, numbers and chains come last.
ghost use Rattle.std.specs.Prelude.{◌≡◌, ◌+◌, ◌≤◌, ◌<◌, ◌^◌, List, ◌++◌, true, false, OnOk, OnErr, MatchResult, length};
ghost use Rattle.buffer_model.specs.Segment.{Segment, bytes_of};
ghost use Rattle.buffer_model.specs.Minted.{NumbersOn};
ghost use Rattle.buffer_model.specs.Stake.{KeepsTotals, KeepsTotalsBeside};
ghost use Rattle.iobuf_chain.specs.Accounts.{held_by, handed_back};
ghost use Rattle.frame_head.specs.Framed.{field_bytes};
ghost use Rattle.write_cursor.specs.Appended.{Ensures, Pushes, PutsBehind};
ghost use Rattle.write_cursor.specs.Numbers.{IsSize};

use crate::append::{ensure_room, push_bytes, put_bytes};
use crate::numbers::Number;
use iobuf_chain::ChainOf;
use iobuf_node::Wrapped;
use share_count::Mint;
use std::alloc::{AllocError, Global};
use storage::Told;

/// Appends to a chain: into the room behind its last node's data, where that node is whole, and then into new nodes.
/// Folly's `Appender`; a `BufMut` that grows.
#[derive(Drop)]
pub struct Appender<'c, W: Wrapped, O: Told> {
    /// The chain.
    pub chain: &'c mut ChainOf<W, O>,
    /// How many bytes a new node has.
    pub grow: usize,
}

impl<'c, W: Wrapped, O: Told> Appender<'c, W, O> {
    /// One whose new nodes have `grow` bytes. O(1), and no memory.
    pub fn new(chain: &'c mut ChainOf<W, O>, grow: usize) -> Appender<'c, W, O>
        requires { 1 ≤ grow }
        ensures same { result.chain.ghost_name ≡ chain.entry.ghost_name }
        ensures chain { result.chain.now ≡ chain.old }
        ensures grow { result.grow ≡ grow }
    {
        Appender { chain, grow }
    }

    /// The bytes come last, as by `push_bytes`. Folly's `Appender::push`.
    pub fn push(&mut self, alloc: Global, bytes: &[u8], mint: &mut Mint) -> Result<(), AllocError>
        requires grow { 1 ≤ self.old.grow }
        requires sum { length (bytes_of self.old.chain.now) + length bytes.now ≤ 2 ^ 62 }
        ensures same { self.new.chain.ghost_name ≡ self.old.chain.ghost_name }
        ensures grow { self.new.grow ≡ self.old.grow }
        ensures pushed { OnOk result (Pushes self.old.grow mint.old mint.new bytes.now self.old.chain.now
            self.new.chain.now) }
        ensures refused { OnErr result (self.new.chain.now ≡ self.old.chain.now) }
        ensures mint { NumbersOn mint.old mint.new }
        ensures totals { KeepsTotalsBeside mint.old mint.new (held_by self.old.chain.now)
            (held_by self.new.chain.now) }
    {
        push_bytes(self.chain, alloc, bytes, self.grow, mint)
    }

    /// Makes sure of room for `n` bytes in one node, as by `ensure_room`. Folly's `Appender::ensure`.
    pub fn ensure(&mut self, alloc: Global, n: usize, mint: &mut Mint) -> Result<(), AllocError>
        requires { length (bytes_of self.old.chain.now) ≤ 2 ^ 62 }
        ensures same { self.new.chain.ghost_name ≡ self.old.chain.ghost_name }
        ensures grow { self.new.grow ≡ self.old.grow }
        ensures ensured { OnOk result (Ensures n self.old.grow mint.old mint.new self.old.chain.now
            self.new.chain.now) }
        ensures refused { OnErr result (self.new.chain.now ≡ self.old.chain.now) }
        ensures mint { NumbersOn mint.old mint.new }
        ensures totals { KeepsTotalsBeside mint.old mint.new (held_by self.old.chain.now)
            (held_by self.new.chain.now) }
    {
        ensure_room(self.chain, alloc, n, self.grow, mint)
    }

    /// The `size` bytes of a number come last, in one node, the one that weighs most first, as by `put_bytes`. Folly's
    /// `Appender::writeBE`; `BufMut::put_u32` is `write_be(value, 4)`.
    pub fn write_be(
        &mut self,
        alloc: Global,
        value: u128,
        size: u8,
        mint: &mut Mint,
    ) -> Result<(), AllocError>
        requires size { IsSize size }
        requires fits { value < 256 ^ size }
        requires sum { length (bytes_of self.old.chain.now) + size ≤ 2 ^ 62 }
        ensures same { self.new.chain.ghost_name ≡ self.old.chain.ghost_name }
        ensures grow { self.new.grow ≡ self.old.grow }
        ensures put { OnOk result (PutsBehind self.old.grow mint.old mint.new (field_bytes size false value)
            self.old.chain.now self.new.chain.now) }
        ensures refused { OnErr result (self.new.chain.now ≡ self.old.chain.now) }
        ensures mint { NumbersOn mint.old mint.new }
        ensures totals { KeepsTotalsBeside mint.old mint.new (held_by self.old.chain.now)
            (held_by self.new.chain.now) }
    {
        let number = Number::high_first(value, size);
        put_bytes(self.chain, alloc, number.as_bytes(), self.grow, mint)
    }

    /// The same, with the byte that weighs least first. Folly's `Appender::writeLE`; `BufMut::put_u32_le` is
    /// `write_le(value, 4)`.
    pub fn write_le(
        &mut self,
        alloc: Global,
        value: u128,
        size: u8,
        mint: &mut Mint,
    ) -> Result<(), AllocError>
        requires size { IsSize size }
        requires fits { value < 256 ^ size }
        requires sum { length (bytes_of self.old.chain.now) + size ≤ 2 ^ 62 }
        ensures same { self.new.chain.ghost_name ≡ self.old.chain.ghost_name }
        ensures grow { self.new.grow ≡ self.old.grow }
        ensures put { OnOk result (PutsBehind self.old.grow mint.old mint.new (field_bytes size true value)
            self.old.chain.now self.new.chain.now) }
        ensures refused { OnErr result (self.new.chain.now ≡ self.old.chain.now) }
        ensures mint { NumbersOn mint.old mint.new }
        ensures totals { KeepsTotalsBeside mint.old mint.new (held_by self.old.chain.now)
            (held_by self.new.chain.now) }
    {
        let number = Number::low_first(value, size);
        put_bytes(self.chain, alloc, number.as_bytes(), self.grow, mint)
    }

    /// The nodes of another chain come last, with no byte copied. At want of memory it is handed back. Folly's
    /// `Appender::insert`.
    pub fn insert(&mut self, other: ChainOf<W, O>) -> Result<(), ChainOf<W, O>>
        requires { length (bytes_of self.old.chain.now) + length (bytes_of other) ≤ 2 ^ 62 }
        ensures same { self.new.chain.ghost_name ≡ self.old.chain.ghost_name }
        ensures grow { self.new.grow ≡ self.old.grow }
        ensures joined { MatchResult result (λ _. self.new.chain.now ≡ self.old.chain.now ++ other) (λ c. (c ≡ other)
            × (self.new.chain.now ≡ self.old.chain.now)) }
        ensures totals { KeepsTotals (held_by (self.old.chain.now ++ other))
            (held_by (self.new.chain.now ++ handed_back result)) }
    {
        self.chain.append_chain(other)
    }
}
