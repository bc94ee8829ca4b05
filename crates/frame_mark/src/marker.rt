//! Decoders that mark.
ghost use Rattle.std.specs.Prelude.{◌≡◌, ◌↔◌, ℕ, ◌+◌, ◌<◌, ◌≤◌, ◌^◌, List, [], ◌++◌, true, false, None, length, IfOk, IsErrOf, IsNone, IsTrue, OnErr, OnOk};
ghost use Rattle.std.specs.Option.{IfSome};
ghost use Rattle.storage.specs.Back.{stakes_in};
ghost use Rattle.buffer_model.specs.Segment.{bytes_of};
ghost use Rattle.buffer_model.specs.Stake.{KeepsTotals, KeepsTotalsBeside};
ghost use Rattle.buffer_model.specs.Minted.{NumbersOn};
ghost use Rattle.iobuf_chain.specs.Accounts.{held_by};
ghost use Rattle.iobuf_chain.specs.Copies.{HasData, IsHeavy, WithData};
ghost use Rattle.iobuf_chain.specs.Lists.{Each};
ghost use Rattle.frame_head.specs.Codecs.{fault_of, most_kept};
ghost use Rattle.frame_rule.specs.Decoding.{Ended, Fed, fresh};
ghost use Rattle.frame_rule.specs.Framing.{StandsFor, decoding_of};
ghost use Rattle.frame_rule.specs.Hauls.{AreReturns, Begins, HasBytesIfAny, all_kept, nodes_if, stakes_back};
ghost use Rattle.frame_mark.specs.Pieces.{HasFrames, MarksEnd, MarksPiece, ReturnsPiece, SharesData, StaysTight, StopsAt};
ghost use Rattle.frame_mark.specs.Pieces.{answered_by, ended_of, taken_of};

use crate::mark::Finds;
use crate::marking::Marking;
use crate::pieces::Marked;
use frame_batch::Batch;
use frame_rule::{Codec, FeedFault, Scanner};
use iobuf_chain::Frame;
use share_count::Mint;
use std::alloc::Global;
use std::marker::Model;
use storage::Returns;

/// Cuts a stream that comes in pieces into frames, as `Framer` does, and hands them out in batches. It keeps the nodes
/// of the open unit, where a frame can come of it. Contracts see what it keeps, how far the stream was scanned, and
/// whether it is dead.
#[derive(Drop)]
pub struct Marker<S: Scanner> {
    marking: Marking<S>,
    kept: Option<Frame>,
    // A piece of which nothing was taken, since memory was refused.
    refused: Option<Frame>,
    dead: bool,
}

impl<S: Scanner> Model for Marker<S> {
    ghost use Rattle.std.specs.Prelude.{◌≡◌, false, None};
    ghost use Rattle.storage.specs.declared.release.NoOwner.{NoOwner};
    ghost use Rattle.frame_rule.specs.Framing.{FitsBehind, Framing};
    ghost use Rattle.frame_rule.specs.Hauls.{HasBytesIfAny, all_kept, nodes_if};
    ghost use Rattle.frame_mark.specs.Marking.{StandsOn, holding_of};

    ghost Value = { Framing S NoOwner };

    ghost view = { λ d. holding_of S.codec_of S.saw d.marking (all_kept d.kept d.refused) d.dead };

    ghost invariant = { λ d. (d.dead ≡ false → (d.refused ≡ None)
        × StandsOn S.codec_of S.saw d.marking (nodes_if d.kept) × HasBytesIfAny (nodes_if d.kept))
        × FitsBehind (nodes_if d.kept) d.refused };
}

impl<S: Scanner> Marker<S> {
    /// A decoder that was fed nothing. It takes no memory.
    pub fn new(codec: Codec) -> Marker<S>
        requires checked { fault_of codec ≡ None }
        requires kind { S.takes codec }
        ensures codec { decoding_of S.codec_of result ≡ fresh codec }
        ensures stands { StandsFor S.codec_of S.saw result [] }
    {
        Marker {
            marking: Marking {
                scanner: S::new(codec),
                fed: 0,
                unread: 0,
                lost: false,
                skip: 0,
            },
            kept: None,
            refused: None,
            dead: false,
        }
    }

    /// Marks the units that a piece makes whole, `most` at most, and answers their frames as one batch. Where it stops
    /// at `most`, it hands back the part of the piece that it didn't look at, which is the next piece: the decoder then
    /// stands for the bytes in front of it. Blocks whose bytes are in no batch are handed back.
    ///
    /// Linear in the bytes and nodes that it takes. The chain is cut once, at the end of the last unit; a frame takes
    /// 16 bytes of the batch's list, which is one allocation, and a mark of `finds`, which takes room for `most` marks
    /// (32 bytes each). `NoMemory` comes where memory was refused: the decoder is dead from then on, marked nothing, and
    /// keeps the piece. `Dead` comes exactly where it was dead before: what the piece hands back is then added where
    /// there is room, and dropped otherwise.
    pub fn mark(
        &mut self,
        alloc: Global,
        piece: Frame,
        most: usize,
        finds: &mut Finds,
        mint: &mut Mint,
    ) -> Result<Marked, FeedFault>
        requires room { self.old.fed + length (bytes_of piece) < 2 ^ 62 }
        requires some { 0 < most }
        ensures state { Fed (taken_of piece.entry result) (decoding_of S.codec_of self.old)
            (decoding_of S.codec_of self.new) result }
        ensures units { IfOk result (λ m. MarksPiece (StandsFor S.codec_of S.saw self.old)
            (StandsFor S.codec_of S.saw self.new) (S.codec_of self.old.scanner) piece.entry m finds.new.marks.items) }
        ensures some { IfOk result (λ m. HasFrames m.batch) }
        ensures stops { IfOk result (λ m. StopsAt most m.rest finds.new.marks.items) }
        ensures most { length finds.new.marks.items ≤ most }
        ensures none { OnErr result (finds.new.marks.items ≡ []) }
        ensures dead { IsErrOf result FeedFault.Dead ↔ IsTrue self.old.dead }
        ensures returned { IsErrOf result FeedFault.Dead → ReturnsPiece piece.entry finds.old finds.new }
        ensures back { Begins finds.old.back.items finds.new.back.items }
        ensures used { OnOk result (HasBytesIfAny self.new.kept) }
        ensures bounded { OnOk result (length (bytes_of self.new.kept) ≤ most_kept (S.codec_of self.new.scanner)) }
        ensures totals { self.old.dead ≡ false → KeepsTotalsBeside mint.old mint.new
            (held_by (self.old.kept ++ piece.entry) ++ stakes_back finds.old.back.items)
            (held_by (self.new.kept ++ answered_by result) ++ stakes_back finds.new.back.items) }
        ensures copies { WithData IsHeavy (self.old.kept ++ piece.entry)
            → IfOk result (λ m. SharesData (self.old.kept ++ piece.entry) self.new.kept m) }
        ensures tight { Each HasData (self.old.kept ++ piece.entry)
            → IfOk result (λ m. StaysTight self.new.kept m) }
        ensures mint { NumbersOn mint.old mint.new }
    {
        finds.marks.clear();
        if self.dead {
            let _ = finds.back.push(piece.give_back());
            return Err(FeedFault::Dead);
        }
        self.dead = true;
        match self
            .marking
            .mark_piece(alloc, &mut self.kept, piece, most, finds, mint)
        {
            Ok(marked) => {
                self.dead = false;
                Ok(marked)
            }
            Err(refused) => {
                finds.marks.clear();
                self.refused = refused;
                Err(FeedFault::NoMemory)
            }
        }
    }

    /// Ends the stream, and marks the unit that its end adds, if it adds one: a frame is a batch of one. The decoder is
    /// dead from then on, and keeps nothing, but after `NoMemory` what it kept before. O(1) but for the nodes that are
    /// given back.
    pub fn end(&mut self, finds: &mut Finds) -> Result<Option<Batch>, FeedFault>
        ensures state { Ended (decoding_of S.codec_of self.old) (decoding_of S.codec_of self.new) result }
        ensures units { IfOk result (λ batch. MarksEnd (StandsFor S.codec_of S.saw self.old)
            (S.codec_of self.old.scanner) batch finds.new.marks.items) }
        ensures some { IfOk result HasFrames }
        ensures none { OnErr result ((finds.new.marks.items ≡ []) × (finds.new.back.items ≡ finds.old.back.items)) }
        ensures dead { IsErrOf result FeedFault.Dead ↔ IsTrue self.old.dead }
        ensures back { Begins finds.old.back.items finds.new.back.items }
        ensures totals { self.old.dead ≡ false → KeepsTotals
            (held_by self.old.kept ++ stakes_back finds.old.back.items)
            (held_by (self.new.kept ++ ended_of result) ++ stakes_back finds.new.back.items) }
    {
        finds.marks.clear();
        if self.dead {
            return Err(FeedFault::Dead);
        }
        self.dead = true;
        let Ok(batch) = self.marking.mark_end(&mut self.kept, finds) else {
            return Err(FeedFault::NoMemory);
        };
        Ok(batch)
    }

    /// Gives back what the decoder keeps, which is dead from then on. `None` exactly where it keeps nothing. No memory.
    pub fn give_back(&mut self) -> Option<Returns>
        ensures state { decoding_of S.codec_of self.new
            ≡ record (decoding_of S.codec_of self.old) { kept = []; dead = true } }
        ensures none { IsNone result ↔ (self.old.kept ≡ []) }
        ensures backs { IfSome result (λ backs. AreReturns self.old.kept backs) }
        ensures totals { IfSome result (λ backs. KeepsTotals (held_by self.old.kept) (stakes_in backs)) }
    {
        self.dead = true;
        give_all_back(self.kept.take(), self.refused.take())
    }

    /// How many bytes of the stream it took: the offset of the next one. O(1), and no memory.
    pub fn fed(&self) -> u64
        ensures { result ≡ self.now.fed }
    {
        self.marking.fed
    }

    /// How many bytes the chains have that the decoder keeps. O(1), and no memory.
    pub fn held(&self) -> u64
        ensures { result ≡ length (bytes_of self.now.kept) }
    {
        length_if(&self.kept) + length_if(&self.refused)
    }
}

// How many bytes a chain has that may be there.
fn length_if(chain: &Option<Frame>) -> u64
    ensures { result ≡ length (bytes_of (nodes_if chain.now)) }
{
    match chain {
        Some(chain) => chain.length() as u64,
        None => 0,
    }
}

// Gives back the nodes that are kept, and behind them those of a piece that was refused.
fn give_all_back(kept: Option<Frame>, refused: Option<Frame>) -> Option<Returns>
    ensures none { IsNone result ↔ (all_kept kept.entry refused.entry ≡ []) }
    ensures backs { IfSome result (λ backs. AreReturns (all_kept kept.entry refused.entry) backs) }
    ensures totals { IfSome result
        (λ backs. KeepsTotals (held_by (all_kept kept.entry refused.entry)) (stakes_in backs)) }
{
    match (kept, refused) {
        (None, None) => None,
        (Some(chain), None) => Some(chain.give_back()),
        (None, Some(piece)) => Some(piece.give_back()),
        (Some(chain), Some(piece)) => Some(chain.give_back_with(piece)),
    }
}
