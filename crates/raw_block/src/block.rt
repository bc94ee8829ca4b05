//! Blocks of bytes.
ghost use Rattle.std.specs.Prelude.{◌≡◌, ◌+◌, ◌≤◌, List, IfOk, length, replicate, slice_range};
ghost use Rattle.std.specs.List.{copy_within};
ghost use Rattle.std.specs.Borrow.{sem};

use std::alloc::{AllocError, Global};
use std::fmt;
use std::marker::Model;

/// Some bytes, whose number is fixed: nothing that a block lends can change it. Contracts see their list.
#[derive(Drop)]
pub struct Block {
    bytes: Vec<u8>,
}

impl Model for Block {
    ghost use Rattle.std.specs.Prelude.{ℕ, List};

    ghost Value = { List ℕ };

    ghost view = { λ b. b.bytes.items };
}

impl Block {
    ghost use Rattle.raw_block.specs.BlockLends.{lends_all, lends_span};

    /// `cap` zero bytes. One allocation, O(cap).
    pub fn new(alloc: Global, cap: usize) -> Result<Block, AllocError>
        ensures { IfOk result (λ b. b ≡ replicate cap 0) }
    {
        let bytes = vec![in alloc; 0; cap]?;
        Ok(Block { bytes })
    }

    /// These bytes, where they are. O(1), and no memory.
    pub fn from_vec(bytes: Vec<u8>) -> Block
        ensures { result ≡ bytes.items }
    {
        Block { bytes }
    }

    /// The bytes, where they are. O(1), and no memory.
    pub fn into_vec(self) -> Vec<u8>
        ensures { result.items ≡ self }
    {
        self.bytes
    }

    /// How many bytes there are.
    pub fn cap(&self) -> usize
        ensures { result ≡ length self.now }
    {
        self.bytes.len()
    }

    /// The bytes.
    pub fn bytes(&self) -> &[u8]
        ensures { result.now ≡ self.now }
    {
        &self.bytes
    }

    /// The bytes, for writing.
    pub fn bytes_mut(&mut self) -> &mut [u8]
        ensures* lends { sem 𝓛 (lends_all self.entry result) }
        ensures value { result.now ≡ self.old }
    {
        self.bytes.as_mut_slice()
    }

    /// The bytes from `start` up to `end`, for writing.
    pub fn span_mut(&mut self, start: usize, end: usize) -> &mut [u8]
        requires order { start ≤ end }
        requires within { end ≤ length self.old }
        ensures* lends { sem 𝓛 (lends_span self.entry start result) }
        ensures value { result.now ≡ slice_range self.old start end }
    {
        self.bytes.slice_mut(start..end)
    }

    /// Copies `n` bytes from `from` on to `to` on. The two may overlap. O(n), and no memory.
    pub fn copy_within(&mut self, from: usize, to: usize, n: usize)
        requires source { from + n ≤ length self.old }
        requires target { to + n ≤ length self.old }
        ensures { self.new ≡ copy_within self.old from (from + n) to }
    {
        self.bytes.as_mut_slice().copy_within(from..from + n, to);
    }
}

impl fmt::Debug for Block {
    fn fmt<W: fmt::Write>(&self, f: &mut fmt::Formatter<W>) -> fmt::Result {
        write!(f, "Block {{ cap: {} }}", self.bytes.len())
    }
}
