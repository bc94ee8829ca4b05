ghost use Rattle.std.specs.Prelude.{◌≡◌, ◌↔◌, ℕ, ◌+◌, ◌<◌, ◌^◌, List, [], ◌++◌, true, flat_map, length, IsErrOf, IsTrue, OnOk};
ghost use Rattle.buffer_model.specs.Segment.{bytes_of};
ghost use Rattle.frame_head.specs.Units.{units, ended};
ghost use Rattle.buffer_model.specs.Stake.{KeepsTotalsBeside};
ghost use Rattle.iobuf_chain.specs.Accounts.{held_by};
ghost use Rattle.iobuf_chain.specs.Copies.{HasData, IsHeavy, WithData};
ghost use Rattle.iobuf_chain.specs.Lists.{Each};
ghost use Rattle.buffer_model.specs.Minted.{NumbersOn};
ghost use Rattle.frame_rule.specs.Hauls.{AddsTight, Begins, ReturnsFirst, SharesData, hauled};
ghost use Rattle.frame_rule.specs.Decoding.{IsLost};
ghost use Rattle.frame_rule.specs.Units.{Grew, GrewPartly};

use crate::decoder::{Decoder, FeedFault};
use crate::haul::Haul;
use iobuf_chain::Frame;
use share_count::Mint;
use std::alloc::Global;
use std::collections::VecDeque;

/// Feeds pieces of a stream in order, and ends it. However the stream is cut, exactly its units are added to the haul.
///
/// Linear in the bytes and nodes. After `NoMemory` the first of the units were added, and the pieces behind the one
/// that was refused are dropped. `Dead` comes exactly where the decoder was dead before: then it is as it was, and what
/// the first piece hands back is added to the haul where there is room. No byte is copied where all nodes with data are
/// heavy.
pub fn feed_all<D: Decoder>(
    alloc: Global,
    decoder: &mut D,
    mut pieces: VecDeque<Frame>,
    haul: &mut Haul,
    mint: &mut Mint,
) -> Result<(), FeedFault>
    requires room { (D.state decoder.old).fed + length (flat_map (λ p. bytes_of p) pieces.items) < 2 ^ 62 }
    ensures dead { IsErrOf result FeedFault.Dead ↔ IsTrue (D.state decoder.old).dead }
    ensures state { OnOk result (D.state decoder.new ≡ record (D.state decoder.old) {
      fed = (D.state decoder.old).fed + length (flat_map (λ p. bytes_of p) pieces.entry.items);
      kept = [];
      dead = true;
    }) }
    ensures units { OnOk result ((h : List ℕ) → D.stands decoder.old h → Grew (units (D.state decoder.old).codec h)
        (ended (D.state decoder.old).codec (h ++ flat_map (λ p. bytes_of p) pieces.entry.items))
        haul.old.units.items haul.new.units.items) }
    ensures part { IsErrOf result FeedFault.NoMemory → (h : List ℕ) → D.stands decoder.old h
        → GrewPartly (units (D.state decoder.old).codec h)
        (ended (D.state decoder.old).codec (h ++ flat_map (λ p. bytes_of p) pieces.entry.items))
        haul.old.units.items haul.new.units.items }
    ensures still { IsErrOf result FeedFault.Dead → D.state decoder.new ≡ D.state decoder.old }
    ensures returned { IsErrOf result FeedFault.Dead → ReturnsFirst pieces.entry.items haul.old haul.new }
    ensures lost { IsErrOf result FeedFault.NoMemory → IsLost (D.state decoder.old) (D.state decoder.new) }
    ensures back { Begins haul.old.back.items haul.new.back.items }
    ensures copies { WithData IsHeavy ((D.state decoder.old).kept ++ flat_map (λ p. p) pieces.entry.items)
        → OnOk result (SharesData ((D.state decoder.old).kept ++ flat_map (λ p. p) pieces.entry.items) []
        haul.old.units.items haul.new.units.items) }
    ensures tight { Each HasData ((D.state decoder.old).kept ++ flat_map (λ p. p) pieces.entry.items)
        → OnOk result (AddsTight haul.old.units.items haul.new.units.items) }
    ensures totals { OnOk result (KeepsTotalsBeside mint.old mint.new
        (held_by ((D.state decoder.old).kept ++ flat_map (λ p. p) pieces.entry.items) ++ hauled haul.old)
        (hauled haul.new)) }
    ensures mint { NumbersOn mint.old mint.new }
{
    'pieces: while let Some(piece) = pieces.pop_front() {
        decoder.feed(alloc, piece, haul, mint)?;
    }
    decoder.end(haul)
}
