//! Decoders: one engine, in which a scanner finds the ends of units.
ghost use Rattle.std.specs.Prelude.{◌≡◌, ◌↔◌, ◌+◌, ◌-◌, ◌<◌, [], true, false, None, IsNone, length, take};
ghost use Rattle.std.specs.Option.{IfSome};
ghost use Rattle.storage.specs.Back.{stakes_in};
ghost use Rattle.buffer_model.specs.Segment.{bytes_of};
ghost use Rattle.buffer_model.specs.Stake.{KeepsTotals};
ghost use Rattle.iobuf_chain.specs.Accounts.{held_by};
ghost use Rattle.frame_head.specs.Codecs.{fault_of};
ghost use Rattle.frame_rule.specs.Decoding.{fresh};
ghost use Rattle.frame_rule.specs.Framing.{StandsFor, decoding_of};
ghost use Rattle.frame_rule.specs.Hauls.{AreReturns, all_kept, nodes_if};

use crate::decoder::{Decoder, FeedFault};
use crate::haul::Haul;
use crate::progress::Progress;
use crate::scanner::Scanner;
use frame_head::Codec;
use iobuf_chain::Frame;
use share_count::Mint;
use std::alloc::Global;
use std::marker::Model;
use storage::Returns;

/// Cuts a stream into frames where a scanner finds the ends of its units. It keeps the nodes of the open unit, where a
/// frame can come of it. Contracts see what it keeps, how far the stream was scanned, and whether it is dead.
#[derive(Drop)]
pub struct Framer<S: Scanner> {
    progress: Progress<S>,
    kept: Option<Frame>,
    // A piece of which nothing was taken, since memory was refused to join it to what is kept.
    refused: Option<Frame>,
    dead: bool,
}

impl<S: Scanner> Model for Framer<S> {
    ghost use Rattle.std.specs.Prelude.{◌≡◌, false, None};
    ghost use Rattle.storage.specs.declared.release.NoOwner.{NoOwner};
    ghost use Rattle.frame_rule.specs.Framing.{FitsBehind, Framing, Stands, framing_of};
    ghost use Rattle.frame_rule.specs.Hauls.{HasBytesIfAny, all_kept, nodes_if};

    ghost Value = { Framing S NoOwner };

    ghost view = { λ d. framing_of S.codec_of S.saw d.progress (all_kept d.kept d.refused) d.dead };

    ghost invariant = { λ d. (d.dead ≡ false → (d.refused ≡ None)
        × Stands S.codec_of S.saw d.progress (nodes_if d.kept) × HasBytesIfAny (nodes_if d.kept))
        × FitsBehind (nodes_if d.kept) d.refused };
}

impl<S: Scanner> Framer<S> {
    /// A decoder that was fed nothing. It takes no memory.
    pub fn new(codec: Codec) -> Framer<S>
        requires checked { fault_of codec ≡ None }
        requires kind { S.takes codec }
        ensures codec { decoding_of S.codec_of result ≡ fresh codec }
        ensures stands { StandsFor S.codec_of S.saw result [] }
    {
        Framer {
            progress: Progress {
                scanner: S::new(codec),
                fed: 0,
                unread: 0,
                lost: false,
                skip: 0,
            },
            kept: None,
            refused: None,
            dead: false,
        }
    }
}

impl<S: Scanner> Decoder for Framer<S> {
    ghost use Rattle.frame_rule.specs.Framing.{StandsFor, decoding_of, keeps_rest};

    ghost state = { λ d. decoding_of S.codec_of d };

    ghost stands = { λ d h. StandsFor S.codec_of S.saw d h };

    fn feed(
        &mut self,
        alloc: Global,
        piece: Frame,
        haul: &mut Haul,
        mint: &mut Mint,
    ) -> Result<(), FeedFault> {
        if self.dead {
            let _ = haul.back.push(piece.give_back());
            return Err(FeedFault::Dead);
        }
        self.dead = true;
        match self
            .progress
            .take_in(alloc, &mut self.kept, piece, haul, mint)
        {
            Ok(()) => {
                self.dead = false;
                Ok(())
            }
            Err(refused) => {
                self.refused = refused;
                Err(FeedFault::NoMemory)
            }
        }
    }

    fn end(&mut self, haul: &mut Haul) -> Result<(), FeedFault> {
        if self.dead {
            return Err(FeedFault::Dead);
        }
        self.dead = true;
        match self.progress.finish(&mut self.kept, haul) {
            Ok(()) => Ok(()),
            Err(_) => Err(FeedFault::NoMemory),
        }
    }

    fn give_back(&mut self) -> Option<Returns> {
        self.dead = true;
        give_all_back(self.kept.take(), self.refused.take())
    }

    fn held(&self) -> u64 {
        length_if(&self.kept) + length_if(&self.refused)
    }

    ghost counted = { λ d h st. (st.fed, st.alive, S.checked d.scanner _ st.seen) };

    ghost keeps = { λ d h st. keeps_rest S.codec_of S.saw d h st };
}

// How many bytes a chain has that may be there.
fn length_if(chain: &Option<Frame>) -> u64
    ensures { result ≡ length (bytes_of (nodes_if chain.now)) }
{
    match chain {
        Some(chain) => chain.length() as u64,
        None => 0,
    }
}

// Gives back the nodes that are kept, and behind them those of a piece that was refused.
fn give_all_back(kept: Option<Frame>, refused: Option<Frame>) -> Option<Returns>
    ensures none { IsNone result ↔ (all_kept kept.entry refused.entry ≡ []) }
    ensures backs { IfSome result (λ backs. AreReturns (all_kept kept.entry refused.entry) backs) }
    ensures totals { IfSome result
        (λ backs. KeepsTotals (held_by (all_kept kept.entry refused.entry)) (stakes_in backs)) }
{
    match (kept, refused) {
        (None, None) => None,
        (Some(chain), None) => Some(chain.give_back()),
        (None, Some(piece)) => Some(piece.give_back()),
        (Some(chain), Some(piece)) => Some(chain.give_back_with(piece)),
    }
}
