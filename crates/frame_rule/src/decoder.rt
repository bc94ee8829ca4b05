ghost use Rattle.std.specs.Prelude.{◌≡◌, ◌↔◌, ◌⊎◌, ℕ, ◌+◌, ◌<◌, ◌≤◌, ◌^◌, true, false, List, [], ◌++◌, None, length, IsTrue, IsNone, IsErrOf, OnOk};
ghost use Rattle.storage.specs.Back.{stakes_in};
ghost use Rattle.std.specs.Option.{IfSome};
ghost use Rattle.buffer_model.specs.Segment.{bytes_of};
ghost use Rattle.buffer_model.specs.Stake.{KeepsTotals, KeepsTotalsBeside};
ghost use Rattle.iobuf_chain.specs.Accounts.{held_by};
ghost use Rattle.iobuf_chain.specs.Copies.{HasData, IsHeavy, WithData};
ghost use Rattle.iobuf_chain.specs.Lists.{Each};
ghost use Rattle.frame_head.specs.Codecs.{fault_of, most_kept};
ghost use Rattle.frame_head.specs.Units.{rest};
ghost use Rattle.buffer_model.specs.Minted.{NumbersOn};
ghost use Rattle.frame_rule.specs.Hauls.{AddsTight, AreReturns, Begins, HasBytesIfAny, ReturnsPiece, SameHaul};
ghost use Rattle.frame_rule.specs.Hauls.{SharesData, hauled};
ghost use Rattle.frame_rule.specs.Scanning.{IsHopeless};
ghost use Rattle.frame_rule.specs.Decoding.{Decoding, Ended, Fed, TakesEnd, TakesIn, TakesPartly};

use crate::haul::Haul;
use iobuf_chain::Frame;
use share_count::Mint;
use std::alloc::Global;
use storage::Returns;
use thiserror::Error;

/// Why nothing more is decoded.
#[derive(Clone, Copy, Debug, PartialEq, Eq, Error)]
pub enum FeedFault {
    /// Memory was refused. The decoder is dead from then on.
    #[error("no memory")]
    NoMemory,
    /// An earlier call answered `NoMemory`, or the stream was ended, or what was kept was given back.
    #[error("the decoder is dead")]
    Dead,
}

/// Cuts a stream that comes in pieces into frames. No byte of a piece is copied where its node has enough weight to be
/// shared: a frame is made of the nodes of the pieces that it lies in.
pub trait Decoder: Drop {
    ghost state: { Self → Decoding };

    /// It was fed exactly these bytes.
    ghost stands: { Self → List ℕ → Type 0 };

    /// Takes the next piece of the stream, and adds the units that it makes whole to the haul. Nodes whose bytes are
    /// used up are given back, into the haul too.
    ///
    /// Linear in the bytes and the nodes of the piece. After `NoMemory` the first of the new units were added, and
    /// the decoder is dead and keeps what is left of the piece. `Dead` comes exactly where the decoder was dead
    /// before; what the piece hands back is then added to the haul where there is room, and dropped otherwise.
    fn feed(
        &mut self,
        alloc: Global,
        piece: Frame,
        haul: &mut Haul,
        mint: &mut Mint,
    ) -> Result<(), FeedFault>
        requires room { (state self.old).fed + length (bytes_of piece) < 2 ^ 62 }
        ensures state { Fed (length (bytes_of piece.entry)) (state self.old) (state self.new) result }
        ensures units { OnOk result (TakesIn (stands self.old) (stands self.new) (state self.old).codec
            (bytes_of piece.entry) haul.old.units.items haul.new.units.items) }
        ensures part { IsErrOf result FeedFault.NoMemory → TakesPartly (stands self.old) (state self.old).codec
            (bytes_of piece.entry) haul.old.units.items haul.new.units.items }
        ensures dead { IsErrOf result FeedFault.Dead ↔ IsTrue (state self.old).dead }
        ensures returned { IsErrOf result FeedFault.Dead → ReturnsPiece piece.entry haul.old haul.new }
        ensures back { Begins haul.old.back.items haul.new.back.items }
        ensures used { OnOk result (HasBytesIfAny (state self.new).kept) }
        ensures bounded { OnOk result (length (bytes_of (state self.new).kept) ≤ most_kept (state self.new).codec) }
        ensures totals { (state self.old).dead ≡ false → KeepsTotalsBeside mint.old mint.new
            (held_by ((state self.old).kept ++ piece.entry) ++ hauled haul.old)
            (held_by (state self.new).kept ++ hauled haul.new) }
        ensures copies { WithData IsHeavy ((state self.old).kept ++ piece.entry) → OnOk result (SharesData
            ((state self.old).kept ++ piece.entry) (state self.new).kept haul.old.units.items haul.new.units.items) }
        ensures tight { Each HasData ((state self.old).kept ++ piece.entry) → OnOk result
            (Each HasData (state self.new).kept × AddsTight haul.old.units.items haul.new.units.items) }
        ensures empty { bytes_of piece.entry ≡ [] → OnOk result ((state self.new).kept ≡ (state self.old).kept) }
        ensures mint { NumbersOn mint.old mint.new };

    /// Ends the stream, and adds what its end adds to the haul. The decoder is dead from then on, and keeps nothing,
    /// but after `NoMemory` what it kept before. O(1) but for the nodes that are given back.
    fn end(&mut self, haul: &mut Haul) -> Result<(), FeedFault>
        ensures state { Ended (state self.old) (state self.new) result }
        ensures units { OnOk result (TakesEnd (stands self.old) (state self.old).codec
            haul.old.units.items haul.new.units.items) }
        ensures part { IsErrOf result FeedFault.NoMemory → SameHaul haul.old haul.new }
        ensures dead { IsErrOf result FeedFault.Dead ↔ IsTrue (state self.old).dead }
        ensures returned { IsErrOf result FeedFault.Dead → SameHaul haul.old haul.new }
        ensures back { Begins haul.old.back.items haul.new.back.items }
        ensures totals { (state self.old).dead ≡ false → KeepsTotals
            (held_by (state self.old).kept ++ hauled haul.old) (held_by (state self.new).kept ++ hauled haul.new) }
        ensures copies { WithData IsHeavy (state self.old).kept → OnOk result (SharesData
            (state self.old).kept (state self.new).kept haul.old.units.items haul.new.units.items) }
        ensures tight { Each HasData (state self.old).kept → OnOk result
            (AddsTight haul.old.units.items haul.new.units.items) };

    /// Gives back what the decoder keeps, which is dead from then on. `None` exactly where it keeps nothing. No memory.
    fn give_back(&mut self) -> Option<Returns>
        ensures state { state self.new ≡ record (state self.old) { kept = []; dead = true } }
        ensures none { IsNone result ↔ ((state self.old).kept ≡ []) }
        ensures backs { IfSome result (λ backs. AreReturns (state self.old).kept backs) }
        ensures totals { IfSome result (λ backs. KeepsTotals (held_by (state self.old).kept) (stakes_in backs)) };

    /// How many bytes the chains have that the decoder keeps. O(1), and no memory.
    fn held(&self) -> u64
        ensures { result ≡ length (bytes_of (state self.now).kept) };

    /// It was fed as many bytes as it stands for, is alive, and its codec is one that `check` passes.
    ghost counted: { (d : Self) (h : List ℕ) → stands d h
        → ((state d).fed ≡ length h) × ((state d).dead ≡ false) × (fault_of (state d).codec ≡ None) };

    /// It keeps the bytes of the open unit, or none where no frame can come of them.
    ghost keeps: { (d : Self) (h : List ℕ) → stands d h
        → (bytes_of (state d).kept ≡ rest (state d).codec h)
        ⊎ ((bytes_of (state d).kept ≡ []) × IsHopeless (state d).codec (rest (state d).codec h)) };
}
