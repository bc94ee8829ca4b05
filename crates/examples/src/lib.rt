//! A first use of the library: the units of a stream that comes in pieces.
#![tactic(auto)]

ghost use Rattle.std.specs.Prelude.{◌≡◌, ℕ, ◌+◌, ◌<◌, ◌^◌, List, [], ◌++◌, flat_map, length, IfOk, IsErrOf, IsTrue, OnOk};
ghost use Rattle.buffer_model.specs.Segment.{bytes_of};
ghost use Rattle.frame_head.specs.Units.{ended};
ghost use Rattle.frame_rule.specs.Decoding.{TakesIn};
ghost use Rattle.frame_rule.specs.Units.{units_of};

use frame_rule::{Decoder, FeedFault, FrameUnit, Haul};
use iobuf_chain::{Chain, Frame};
use iobuf_node::IoBuf;
use share_count::Mint;
use std::alloc::Global;

mod log;

pub use log::{LogError, count_first_words};

#[cfg(test)]
mod tests;

/// Cuts a stream that comes in pieces into frames, by a decoder that was fed nothing, and answers its units.
pub fn decode<D: Decoder>(
    alloc: Global,
    mut decoder: D,
    pieces: &[&[u8]],
) -> Result<Vec<FrameUnit>, FeedFault>
    requires fresh { D.stands decoder [] }
    requires room { length (flat_map (λ p. p.now) pieces.now) < 2 ^ 62 }
    // However the stream is cut, its units are those of the grammar.
    ensures units { IfOk result (λ found. units_of found.items
        ≡ ended (D.state decoder).codec (flat_map (λ p. p.now) pieces.now)) }
    // Memory alone is ever wanting.
    ensures alive { IsErrOf result FeedFault.Dead → ⊥ }
{
    let mut haul = Haul::new(alloc);
    let mut mint = Mint::new();
    'pieces: for bytes in pieces {
        feed_copy(alloc, &mut decoder, bytes, &mut haul, &mut mint)?;
    }
    decoder.end(&mut haul)?;
    Ok(haul.units)
}

// Feeds a copy of some bytes, as a chain of one node.
fn feed_copy<D: Decoder>(
    alloc: Global,
    decoder: &mut D,
    bytes: &[u8],
    haul: &mut Haul,
    mint: &mut Mint,
) -> Result<(), FeedFault>
    requires room { (D.state decoder.old).fed + length bytes.now < 2 ^ 62 }
    ensures units { OnOk result (TakesIn (D.stands decoder.old) (D.stands decoder.new) (D.state decoder.old).codec
        bytes.now haul.old.units.items haul.new.units.items) }
    ensures codec { OnOk result ((D.state decoder.new).codec ≡ (D.state decoder.old).codec) }
    ensures dead { IsErrOf result FeedFault.Dead → IsTrue (D.state decoder.old).dead }
{
    let piece = copy_of(alloc, bytes, mint)?;
    decoder.feed(alloc, piece, haul, mint)
}

fn copy_of(alloc: Global, bytes: &[u8], mint: &mut Mint) -> Result<Frame, FeedFault>
    ensures bytes { IfOk result (λ c. bytes_of c ≡ bytes.now) }
    ensures refused { IsErrOf result FeedFault.Dead → ⊥ }
{
    match IoBuf::copy(alloc, bytes, 0, 0, mint) {
        Ok(node) => Ok(Chain::of(alloc, node)),
        Err(_) => Err(FeedFault::NoMemory),
    }
}
