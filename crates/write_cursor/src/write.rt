//! Bytes that are written over a chain's.
ghost use Rattle.std.specs.Prelude.{◌≡◌, ◌+◌, ◌-◌, ◌≤◌, ◌<◌, ◌^◌, List, [], ◌∷◌, IfSome, length, take, drop, slice_get, slice_set};
ghost use Rattle.buffer_model.specs.Share.{IsWhole};
ghost use Rattle.buffer_model.specs.Segment.{Segment, bytes_of, overwritten};
ghost use Rattle.buffer_model.specs.Stake.{KeepsTotals};
ghost use Rattle.iobuf_chain.specs.Accounts.{held_by};
ghost use Rattle.iobuf_chain.specs.Lists.{TurnsAt};
ghost use Rattle.write_cursor.specs.Written.{written, written_in, MayWrite};

use iobuf_chain::ChainOf;
use iobuf_node::laws::writes_window;
use iobuf_node::{IoBufOf, Wrapped};
use storage::Told;

/// Writes bytes over those from `place` on, across nodes. Each node that has one of them is whole, so no clone sees
/// them. O(nodes up to the last byte), one copy of the bytes, and no memory. As `RWPrivateCursor::push` of Folly, or
/// `BufMut::put_slice` over bytes that are there.
pub fn write_over<W: Wrapped, O: Told>(c: &mut ChainOf<W, O>, place: usize, bytes: &[u8])
    requires whole { MayWrite place (length bytes.now) c.old }
    requires room { place + length bytes.now ≤ length (bytes_of c.old) }
    ensures nodes { c.new ≡ written place bytes.now c.old }
    ensures bytes { bytes_of c.new ≡ overwritten (bytes_of c.old) place bytes.now }
    ensures totals { KeepsTotals (held_by c.old) (held_by c.new) }
{
    let mut at = place;
    let mut rest = bytes;
    'nodes: for i in 0..c.elements() {
        if rest.is_empty() {
            return;
        }
        let len = c.node(i).length();
        let n = len.saturating_sub(at).min(rest.len());
        write_node(c, i, at, &rest[..n]);
        rest = &rest[n..];
        at = at.saturating_sub(len);
    }
}

// Writes bytes over those of node i from a place on, where there are some.
fn write_node<W: Wrapped, O: Told>(c: &mut ChainOf<W, O>, i: usize, at: usize, bytes: &[u8])
    requires there { i < length c.old }
    requires whole { 0 < length bytes.now → IfSome (slice_get c.old i) (λ s. IsWhole s.share) }
    requires room { 0 < length bytes.now → IfSome (slice_get c.old i) (λ s. at + length bytes.now ≤ length s.window) }
    ensures { TurnsAt (written_in at bytes.now) i c.old c.new }
{
    let _had = c.length();
    let _len = c.node(i).length();
    if bytes.is_empty() {
        return;
    }
    let mut node = c.swap_node(i, IoBufOf::empty());
    write_data(&mut node, at, bytes);
    let _ = c.swap_node(i, node);
}

// Writes bytes over a node's from a place on.
fn write_data<W: Wrapped, O: Told>(node: &mut IoBufOf<W, O>, at: usize, bytes: &[u8])
    requires some { 0 < length bytes.now }
    requires whole { IsWhole node.old.share }
    requires room { at + length bytes.now ≤ length node.old.window }
    ensures { node.new ≡ written_in at bytes.now node.old }
{
    // For the proof alone: where as many bytes are written, the rooms stay.
    writes_window::<O>();
    match node.mine() {
        Ok(mine) => overwrite(mine.bytes_mut(), at, bytes),
        Err(_) => unreachable!(),
    }
}

// Writes bytes over others.
fn overwrite(block: &mut [u8], at: usize, bytes: &[u8])
    requires { at + length bytes.now ≤ length block.old }
    ensures { block.new ≡ overwritten block.old at bytes.now }
{
    block[at..at + bytes.len()].copy_from_slice(bytes);
}
