//! A piece that is taken in behind the nodes that are kept, and the end of the stream.
ghost use Rattle.std.specs.Prelude.{◌≡◌, ◌+◌, ◌≤◌, ◌<◌, ◌^◌, [], ◌∷◌, ◌++◌, None, Some, IfErr, IfOk, OnOk, OnErr, length};
ghost use Rattle.buffer_model.specs.Segment.{bytes_of};
ghost use Rattle.buffer_model.specs.Stake.{KeepsTotals, KeepsTotalsBeside};
ghost use Rattle.iobuf_chain.specs.Accounts.{held_by};
ghost use Rattle.iobuf_chain.specs.Copies.{HasData, IsHeavy, WithData};
ghost use Rattle.iobuf_chain.specs.Lists.{Each};
ghost use Rattle.frame_rule.specs.Decoding.{TakesEnd};
ghost use Rattle.frame_rule.specs.Framing.{FitsBehind, Stands, StandsFor, StopsAt, TakesAll, framing};
ghost use Rattle.buffer_model.specs.Minted.{NumbersOn};
ghost use Rattle.frame_rule.specs.Hauls.{AddsTight, Begins, HasBytesIfAny, SameHaul, Settles, SharesData};
ghost use Rattle.frame_rule.specs.Hauls.{all_kept, hauled, nodes_if, refused_in};
ghost use Rattle.frame_rule.specs.Units.{Gives};

use crate::cuts::give_back;
use crate::haul::Haul;
use crate::progress::Progress;
use crate::scanner::Scanner;
use crate::unit::FrameUnit;
use iobuf_chain::Frame;
use share_count::Mint;
use std::alloc::{AllocError, Global};

impl<S: Scanner> Progress<S> {
    /// Takes a piece in behind the nodes that are kept. At want of memory what is left of it is kept; or it is handed
    /// back, where nothing of it was taken since it couldn't be joined to what is kept.
    pub(crate) fn take_in(
        &mut self,
        alloc: Global,
        kept: &mut Option<Frame>,
        piece: Frame,
        haul: &mut Haul,
        mint: &mut Mint,
    ) -> Result<(), Option<Frame>>
        requires stands { Stands S.codec_of S.saw self.old (nodes_if kept.old) }
        requires data { HasBytesIfAny (nodes_if kept.old) }
        requires room { self.old.fed + length (bytes_of piece) < 2 ^ 62 }
        ensures took { OnOk result (TakesAll S.codec_of S.saw self.old self.new (nodes_if kept.old) (nodes_if kept.new)
            (bytes_of piece.entry) haul.old.units.items haul.new.units.items) }
        ensures used { OnOk result (HasBytesIfAny (nodes_if kept.new)) }
        ensures stops { OnErr result (StopsAt S.codec_of S.saw self.old self.new (nodes_if kept.old)
            (bytes_of piece.entry) haul.old.units.items haul.new.units.items) }
        ensures refused { FitsBehind (nodes_if kept.new) (refused_in result) }
        ensures totals { KeepsTotalsBeside mint.old mint.new
            (held_by (nodes_if kept.old ++ piece.entry) ++ hauled haul.old)
            (held_by (all_kept kept.new (refused_in result)) ++ hauled haul.new) }
        ensures mint { NumbersOn mint.old mint.new }
        ensures back { Begins haul.old.back.items haul.new.back.items }
        ensures shares { WithData IsHeavy (nodes_if kept.old ++ piece.entry) → OnOk result
            (SharesData (nodes_if kept.old ++ piece.entry) (nodes_if kept.new)
            haul.old.units.items haul.new.units.items) }
        ensures tight { Each HasData (nodes_if kept.old ++ piece.entry) → OnOk result
            (Each HasData (nodes_if kept.new) × AddsTight haul.old.units.items haul.new.units.items) }
        ensures empty { bytes_of piece.entry ≡ [] → OnOk result (nodes_if kept.new ≡ nodes_if kept.old) }
    {
        if piece.length() == 0 {
            let Err(piece) = give_back(piece, haul) else {
                return Ok(());
            };
            return Err(Some(piece));
        }
        let (mut chain, first) = match take_kept(kept, piece) {
            Ok(joined) => joined,
            Err(piece) => return Err(Some(piece)),
        };
        if self.pass_all(alloc, &mut chain, first, haul, mint).is_err() {
            *kept = Some(chain);
            return Err(None);
        }
        match settle(kept, chain, haul) {
            Ok(()) => Ok(()),
            Err(_) => Err(None),
        }
    }

    /// Ends the stream. At want of memory nothing changes.
    pub(crate) fn finish(
        &mut self,
        kept: &mut Option<Frame>,
        haul: &mut Haul,
    ) -> Result<(), AllocError>
        requires stands { Stands S.codec_of S.saw self.old (nodes_if kept.old) }
        ensures progress { self.new ≡ self.old }
        ensures kept { OnOk result (kept.new ≡ None) }
        ensures ended { OnOk result (TakesEnd (StandsFor S.codec_of S.saw
            (framing S.codec_of S.saw self.old (nodes_if kept.old))) (S.codec_of self.old.scanner)
            haul.old.units.items haul.new.units.items) }
        ensures stays { OnErr result ((kept.new ≡ kept.old) × SameHaul haul.old haul.new) }
        ensures totals { KeepsTotals (held_by (nodes_if kept.old) ++ hauled haul.old)
            (held_by (nodes_if kept.new) ++ hauled haul.new) }
        ensures back { Begins haul.old.back.items haul.new.back.items }
        ensures shares { WithData IsHeavy (nodes_if kept.old) → OnOk result
            (SharesData (nodes_if kept.old) [] haul.old.units.items haul.new.units.items) }
        ensures tight { Each HasData (nodes_if kept.old) → OnOk result
            (AddsTight haul.old.units.items haul.new.units.items) }
    {
        if self.unread == 0 {
            return give_up(kept, haul);
        }
        let at = self.fed - self.unread;
        match self.scanner.last(self.unread as usize) {
            None => give_last(kept, at, haul),
            Some(kind) => {
                haul.units.reserve(1)?;
                give_up(kept, haul)?;
                haul.units.push_reserved(FrameUnit::Fault { at, kind });
                Ok(())
            }
        }
    }
}

// A piece behind the nodes that are kept, which are kept no longer, and how many of them there are. At want of memory
// they are kept, and the piece is handed back.
fn take_kept(kept: &mut Option<Frame>, piece: Frame) -> Result<(Frame, usize), Frame>
    requires sum { length (bytes_of (nodes_if kept.old)) + length (bytes_of piece) ≤ 2 ^ 62 }
    ensures joined { IfOk result (λ r. (r.0 ≡ nodes_if kept.old ++ piece.entry)
        × (r.1 ≡ length (nodes_if kept.old))) }
    ensures taken { OnOk result (kept.new ≡ None) }
    ensures refused { IfErr result (λ p. (p ≡ piece.entry) × (kept.new ≡ kept.old)) }
{
    let Some(mut nodes) = kept.take() else {
        return Ok((piece, 0));
    };
    let first = nodes.elements();
    match nodes.append_chain(piece) {
        Ok(()) => Ok((nodes, first)),
        Err(piece) => {
            *kept = Some(nodes);
            Err(piece)
        }
    }
}

// Keeps the nodes of the open unit, or gives them back where they have no data. At want of memory they are kept.
fn settle(kept: &mut Option<Frame>, chain: Frame, haul: &mut Haul) -> Result<(), AllocError>
    requires { kept.old ≡ None }
    ensures settled { OnOk result (Settles chain.entry (nodes_if kept.new) haul.old haul.new) }
    ensures totals { KeepsTotals (held_by chain.entry ++ hauled haul.old)
        (held_by (nodes_if kept.new) ++ hauled haul.new) }
    ensures back { Begins haul.old.back.items haul.new.back.items }
    ensures refused { OnErr result ((kept.new ≡ Some chain.entry) × SameHaul haul.old haul.new) }
{
    if chain.length() > 0 {
        *kept = Some(chain);
        return Ok(());
    }
    match give_back(chain, haul) {
        Ok(()) => Ok(()),
        Err(chain) => {
            *kept = Some(chain);
            Err(AllocError)
        }
    }
}

// Gives back the nodes that are kept, if there are some. At want of memory they are kept.
fn give_up(kept: &mut Option<Frame>, haul: &mut Haul) -> Result<(), AllocError>
    ensures kept { OnOk result (kept.new ≡ None) }
    ensures back { Begins haul.old.back.items haul.new.back.items }
    ensures totals { KeepsTotals (held_by (nodes_if kept.old) ++ hauled haul.old)
        (held_by (nodes_if kept.new) ++ hauled haul.new) }
    ensures units { haul.new.units ≡ haul.old.units }
    ensures refused { OnErr result ((kept.new ≡ kept.old) × SameHaul haul.old haul.new) }
{
    let Some(chain) = kept.take() else {
        return Ok(());
    };
    match give_back(chain, haul) {
        Ok(()) => Ok(()),
        Err(chain) => {
            *kept = Some(chain);
            Err(AllocError)
        }
    }
}

// The nodes that are kept are the last frame. At want of memory they are kept.
fn give_last(kept: &mut Option<Frame>, at: u64, haul: &mut Haul) -> Result<(), AllocError>
    requires { 0 < length (nodes_if kept.old) }
    ensures kept { OnOk result (kept.new ≡ None) }
    ensures unit { OnOk result (haul.new.units.items
        ≡ haul.old.units.items ++ FrameUnit.Frame at (nodes_if kept.old) ∷ []) }
    ensures totals { KeepsTotals (held_by (nodes_if kept.old) ++ hauled haul.old)
        (held_by (nodes_if kept.new) ++ hauled haul.new) }
    ensures back { haul.new.back ≡ haul.old.back }
    ensures stays { OnErr result ((kept.new ≡ kept.old) × (haul.new.units.items ≡ haul.old.units.items)) }
{
    haul.units.reserve(1)?;
    match kept.take() {
        Some(chain) => haul.units.push_reserved(FrameUnit::Frame { at, chain }),
        None => unreachable!(),
    }
    Ok(())
}
