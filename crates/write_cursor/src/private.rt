//! A cursor over a chain of which every node is whole.
ghost use Rattle.std.specs.Prelude.{◌≡◌, ◌+◌, ◌-◌, ◌≤◌, ◌<◌, ◌^◌, List, Ok, true, false, OnOk, OnErr, length, take, min};
ghost use Rattle.buffer_model.specs.Share.{IsWhole};
ghost use Rattle.buffer_model.specs.Segment.{Segment, bytes_of};
ghost use Rattle.iobuf_chain.specs.Lists.{Each};
ghost use Rattle.write_cursor.specs.Written.{written};
ghost use Rattle.read_cursor.specs.Shorts.{IsShort};
ghost use Rattle.write_cursor.specs.Numbers.{IsSize};
ghost use Rattle.frame_head.specs.Framed.{field_bytes};
ghost use Rattle.buffer_model.specs.Stake.{KeepsTotals};
ghost use Rattle.iobuf_chain.specs.Accounts.{held_by};

use crate::numbers::Number;
use crate::write::write_over;
use iobuf_chain::ChainOf;
use iobuf_node::Wrapped;
use read_cursor::Short;
use storage::Told;

/// A place in a chain of which every node is whole, to write over its bytes where they are. Folly's
/// `RWPrivateCursor`. Its calls take no memory.
#[derive(Drop)]
pub struct PrivateCursor<'c, W: Wrapped, O: Told> {
    /// The chain.
    pub chain: &'c mut ChainOf<W, O>,
    /// How many bytes lie before the next.
    pub place: usize,
}

impl<'c, W: Wrapped, O: Told> PrivateCursor<'c, W, O> {
    /// At the first byte of a chain. O(1).
    pub fn new(chain: &'c mut ChainOf<W, O>) -> PrivateCursor<'c, W, O>
        requires { Each (λ s. IsWhole s.share) chain.old }
        ensures same { result.chain.ghost_name ≡ chain.entry.ghost_name }
        ensures chain { result.chain.now ≡ chain.old }
        ensures place { result.place ≡ 0 }
    {
        PrivateCursor { chain, place: 0 }
    }

    /// How many bytes are left. O(1).
    pub fn left(&self) -> usize
        ensures left { result ≡ length (bytes_of self.now.chain.now) - self.now.place }
        ensures fits { length (bytes_of self.now.chain.now) < 2 ^ 64 }
    {
        self.chain.length().saturating_sub(self.place)
    }

    /// Passes `n` bytes. `Short` exactly where fewer are left. O(1).
    pub fn skip(&mut self, n: usize) -> Result<(), Short>
        ensures same { self.new.chain.ghost_name ≡ self.old.chain.ghost_name }
        ensures short { IsShort n (length (bytes_of self.old.chain.now) - self.old.place) result }
        ensures chain { self.new.chain.now ≡ self.old.chain.now }
        ensures place { OnOk result (self.new.place ≡ self.old.place + n) }
        ensures refused { OnErr result (self.new.place ≡ self.old.place) }
    {
        let had = self.left();
        if had < n {
            return Err(Short { asked: n, had });
        }
        self.place += n;
        Ok(())
    }

    /// Writes bytes over the next, across nodes, and passes them. `Short` exactly where fewer are left. O(nodes up to
    /// the last byte), and one copy. Folly's `RWPrivateCursor::push`.
    pub fn push(&mut self, bytes: &[u8]) -> Result<(), Short>
        requires whole { Each (λ s. IsWhole s.share) self.old.chain.now }
        requires within { self.old.place ≤ length (bytes_of self.old.chain.now) }
        ensures same { self.new.chain.ghost_name ≡ self.old.chain.ghost_name }
        ensures short { IsShort (length bytes.now) (length (bytes_of self.old.chain.now) - self.old.place) result }
        ensures chain { OnOk result (self.new.chain.now ≡ written self.old.place bytes.now self.old.chain.now) }
        ensures place { OnOk result (self.new.place ≡ self.old.place + length bytes.now) }
        ensures refused { OnErr result ((self.new.chain.now ≡ self.old.chain.now)
            × (self.new.place ≡ self.old.place)) }
        ensures whole { Each (λ s. IsWhole s.share) self.new.chain.now }
        ensures left { length (bytes_of self.new.chain.now) ≡ length (bytes_of self.old.chain.now) }
        ensures totals { KeepsTotals (held_by self.old.chain.now) (held_by self.new.chain.now) }
    {
        let had = self.left();
        let asked = bytes.len();
        if had < asked {
            return Err(Short { asked, had });
        }
        write_over(self.chain, self.place, bytes);
        self.place += asked;
        Ok(())
    }

    /// Writes as many of the bytes over the next as there is place for, passes them, and answers how many. As `push`.
    pub fn push_at_most(&mut self, bytes: &[u8]) -> usize
        requires whole { Each (λ s. IsWhole s.share) self.old.chain.now }
        requires within { self.old.place ≤ length (bytes_of self.old.chain.now) }
        ensures same { self.new.chain.ghost_name ≡ self.old.chain.ghost_name }
        ensures count { result ≡ min (length bytes.now) (length (bytes_of self.old.chain.now) - self.old.place) }
        ensures chain { self.new.chain.now ≡ written self.old.place (take result bytes.now) self.old.chain.now }
        ensures place { self.new.place ≡ self.old.place + result }
        ensures whole { Each (λ s. IsWhole s.share) self.new.chain.now }
        ensures left { length (bytes_of self.new.chain.now) ≡ length (bytes_of self.old.chain.now) }
        ensures totals { KeepsTotals (held_by self.old.chain.now) (held_by self.new.chain.now) }
    {
        let had = self.left();
        let n = bytes.len().min(had);
        write_over(self.chain, self.place, &bytes[..n]);
        self.place += n;
        n
    }

    /// Writes the `size` bytes of a number over the next, the one that weighs most first, and passes them. As `push`.
    /// Folly's `RWPrivateCursor::writeBE`; `BufMut::put_u32` is `write_be(value, 4)`.
    pub fn write_be(&mut self, value: u128, size: u8) -> Result<(), Short>
        requires size { IsSize size }
        requires fits { value < 256 ^ size }
        requires whole { Each (λ s. IsWhole s.share) self.old.chain.now }
        requires within { self.old.place ≤ length (bytes_of self.old.chain.now) }
        ensures same { self.new.chain.ghost_name ≡ self.old.chain.ghost_name }
        ensures short { IsShort size (length (bytes_of self.old.chain.now) - self.old.place) result }
        ensures chain { OnOk result (self.new.chain.now
            ≡ written self.old.place (field_bytes size false value) self.old.chain.now) }
        ensures place { OnOk result (self.new.place ≡ self.old.place + size) }
        ensures refused { OnErr result ((self.new.chain.now ≡ self.old.chain.now)
            × (self.new.place ≡ self.old.place)) }
        ensures whole { Each (λ s. IsWhole s.share) self.new.chain.now }
        ensures left { length (bytes_of self.new.chain.now) ≡ length (bytes_of self.old.chain.now) }
        ensures totals { KeepsTotals (held_by self.old.chain.now) (held_by self.new.chain.now) }
    {
        let number = Number::high_first(value, size);
        self.push(number.as_bytes())
    }

    /// The same, with the byte that weighs least first. Folly's `RWPrivateCursor::writeLE`; `BufMut::put_u32_le` is
    /// `write_le(value, 4)`.
    pub fn write_le(&mut self, value: u128, size: u8) -> Result<(), Short>
        requires size { IsSize size }
        requires fits { value < 256 ^ size }
        requires whole { Each (λ s. IsWhole s.share) self.old.chain.now }
        requires within { self.old.place ≤ length (bytes_of self.old.chain.now) }
        ensures same { self.new.chain.ghost_name ≡ self.old.chain.ghost_name }
        ensures short { IsShort size (length (bytes_of self.old.chain.now) - self.old.place) result }
        ensures chain { OnOk result (self.new.chain.now
            ≡ written self.old.place (field_bytes size true value) self.old.chain.now) }
        ensures place { OnOk result (self.new.place ≡ self.old.place + size) }
        ensures refused { OnErr result ((self.new.chain.now ≡ self.old.chain.now)
            × (self.new.place ≡ self.old.place)) }
        ensures whole { Each (λ s. IsWhole s.share) self.new.chain.now }
        ensures left { length (bytes_of self.new.chain.now) ≡ length (bytes_of self.old.chain.now) }
        ensures totals { KeepsTotals (held_by self.old.chain.now) (held_by self.new.chain.now) }
    {
        let number = Number::low_first(value, size);
        self.push(number.as_bytes())
    }
}
