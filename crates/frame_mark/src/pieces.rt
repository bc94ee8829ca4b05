//! A piece whose units are marked behind the nodes that are kept, and the end of the stream.
ghost use Rattle.std.specs.Prelude.{◌≡◌, ◌⊎◌, ◌+◌, ◌-◌, ◌≤◌, ◌<◌, ◌^◌, IsTrue, [], ◌∷◌, ◌++◌, None, Some, IfErr, IfOk, OnOk, OnErr, drop, length, take};
ghost use Rattle.std.specs.Vec.{vec_capacity};
ghost use Rattle.buffer_model.specs.Segment.{Segment, bytes_of};
ghost use Rattle.storage.specs.declared.release.NoOwner.{NoOwner};
ghost use Rattle.buffer_model.specs.Stake.{KeepsTotals, KeepsTotalsBeside};
ghost use Rattle.buffer_model.specs.Minted.{NumbersOn};
ghost use Rattle.iobuf_chain.specs.Accounts.{held_by};
ghost use Rattle.iobuf_chain.specs.Copies.{HasData, IsHeavy, WithData};
ghost use Rattle.iobuf_chain.specs.Lists.{Each};
ghost use Rattle.frame_batch.specs.Batches.{AreIn, frames_in};
ghost use Rattle.frame_rule.specs.Framing.{FitsBehind, StandsFor};
ghost use Rattle.frame_rule.specs.Hauls.{Begins, CutsShare, HasBytesIfAny, IsTight, all_kept, nodes_if, refused_in, stakes_back};
ghost use Rattle.frame_mark.specs.Marking.{CutsUp, StandsOn, holding, windows_if};
ghost use Rattle.frame_mark.specs.Pieces.{GivesUp, HasFrames, HasWindows, MarksEnd, SharesData, StaysTight, StopsAt, TakesPart};
ghost use Rattle.frame_mark.specs.Pieces.{answered_by, batch_of, chain_if, ended_of, frames_if};

use crate::mark::{Finds, Mark};
use crate::marking::Marking;
use crate::windows::list_of;
use frame_batch::{Batch, WindowList};
use frame_rule::{Scanner, cut_front};
use iobuf_chain::Frame;
use share_count::Mint;
use std::alloc::{AllocError, Global};

/// What a marking call made of a piece.
#[derive(Debug, Drop)]
pub struct Marked {
    /// The frames that the piece made whole, over one chain, if there are any.
    pub batch: Option<Batch>,
    /// The part of the piece that wasn't looked at, if there is one. It is the next piece.
    pub rest: Option<Frame>,
}

impl<S: Scanner> Marking<S> {
    // Marks the units of a piece behind the nodes that are kept, up to `most`. At want of memory all nodes are kept; or
    // the piece is handed back, where nothing of it was taken.
    pub(crate) fn mark_piece(
        &mut self,
        alloc: Global,
        kept: &mut Option<Frame>,
        piece: Frame,
        most: usize,
        finds: &mut Finds,
        mint: &mut Mint,
    ) -> Result<Marked, Option<Frame>>
        requires stands { StandsOn S.codec_of S.saw self.old (nodes_if kept.old) }
        requires data { HasBytesIfAny (nodes_if kept.old) }
        requires none { finds.old.marks.items ≡ [] }
        requires some { 0 < most }
        requires room { self.old.fed + length (bytes_of piece) < 2 ^ 62 }
        ensures took { IfOk result (λ m. TakesPart S.codec_of S.saw self.old self.new (nodes_if kept.old)
            (nodes_if kept.new) piece.entry m finds.new.marks.items) }
        ensures used { OnOk result (HasBytesIfAny (nodes_if kept.new)) }
        ensures some { IfOk result (λ m. HasFrames m.batch) }
        ensures stops { IfOk result (λ m. StopsAt most m.rest finds.new.marks.items) }
        ensures most { OnOk result (length finds.new.marks.items ≤ most) }
        ensures codec { S.codec_of self.new.scanner ≡ S.codec_of self.old.scanner }
        ensures refused { FitsBehind (nodes_if kept.new) (refused_in result) }
        ensures totals { KeepsTotalsBeside mint.old mint.new
            (held_by (nodes_if kept.old ++ piece.entry) ++ stakes_back finds.old.back.items)
            (held_by (all_kept kept.new (refused_in result) ++ answered_by result)
            ++ stakes_back finds.new.back.items) }
        ensures mint { NumbersOn mint.old mint.new }
        ensures back { Begins finds.old.back.items finds.new.back.items }
        ensures shares { WithData IsHeavy (nodes_if kept.old ++ piece.entry) → IfOk result
            (λ m. SharesData (nodes_if kept.old ++ piece.entry) (nodes_if kept.new) m) }
        ensures tight { Each HasData (nodes_if kept.old ++ piece.entry) → IfOk result
            (λ m. StaysTight (nodes_if kept.new) m) }
    {
        let Ok(()) = finds.back.reserve(2) else {
            return Err(Some(piece));
        };
        let Ok(()) = finds.marks.reserve(most) else {
            return Err(Some(piece));
        };
        let size = piece.length();
        if size == 0 {
            give_up(piece, finds);
            return Ok(Marked {
                batch: None,
                rest: None,
            });
        }
        let (mut chain, first) = match take_kept(kept, piece) {
            Ok(joined) => joined,
            Err(piece) => return Err(Some(piece)),
        };
        let (batch, taken) = match self.mark_and_cut(alloc, &mut chain, first, most, finds, mint) {
            Ok(marked) => marked,
            Err(_) => {
                *kept = Some(chain);
                return Err(None);
            }
        };
        if taken < size {
            return Ok(Marked {
                batch,
                rest: Some(chain),
            });
        }
        keep(kept, chain, finds);
        Ok(Marked { batch, rest: None })
    }

    // Marks the units of a chain of which the first nodes are the open unit, and cuts off the part in which they lie.
    // What stays is the open unit, or what wasn't looked at. Answers how many bytes of it were taken, too.
    fn mark_and_cut(
        &mut self,
        alloc: Global,
        chain: &mut Frame,
        first: usize,
        most: usize,
        finds: &mut Finds,
        mint: &mut Mint,
    ) -> Result<(Option<Batch>, usize), AllocError>
        requires there { first ≤ length chain.old }
        requires none { finds.old.marks.items ≡ [] }
        requires some { 0 < most }
        requires room { most ≤ vec_capacity finds.old.marks }
        requires back { length finds.old.back.items < vec_capacity finds.old.back }
        requires size { self.old.fed + length (bytes_of (drop first chain.old)) < 2 ^ 62 }
        requires stands { StandsOn S.codec_of S.saw self.old (take first chain.old) }
        ensures cut { IfOk result (λ r. CutsUp S.codec_of S.saw self.old self.new (take first chain.old)
            (bytes_of (drop first chain.old)) r.1 (bytes_of chain.new) finds.new.marks.items (frames_if r.0)) }
        ensures some { IfOk result (λ r. HasFrames r.0) }
        ensures stops { IfOk result (λ r. r.1 < length (bytes_of (drop first chain.old))
            → length finds.new.marks.items ≡ most) }
        ensures most { OnOk result (length finds.new.marks.items ≤ most) }
        ensures codec { S.codec_of self.new.scanner ≡ S.codec_of self.old.scanner }
        ensures totals { KeepsTotalsBeside mint.old mint.new
            (held_by chain.old ++ stakes_back finds.old.back.items)
            (held_by (chain.new ++ batch_of result) ++ stakes_back finds.new.back.items) }
        ensures mint { NumbersOn mint.old mint.new }
        ensures back { Begins finds.old.back.items finds.new.back.items }
        ensures one { length finds.new.back.items ≤ length finds.old.back.items + 1 }
        ensures capacity { vec_capacity finds.new.back ≡ vec_capacity finds.old.back }
        ensures shares { WithData IsHeavy chain.old
            → IfOk result (λ r. CutsShare chain.old (chain_if r.0) chain.new) }
        ensures tight { IsTight chain.old → IfOk result (λ r. IsTight (chain_if r.0) × IsTight chain.new) }
    {
        let base = self.fed - self.open_size();
        let taken = self.mark_chain(chain, first, &mut finds.marks, most);
        let place = (self.fed - self.open_size() - base) as usize;
        let list = list_of(alloc, base, &finds.marks)?;
        let front = match cut_front(chain, alloc, place, mint) {
            Ok(front) => front,
            Err(e) => return Err(e),
        };
        let batch = batch_or_back(front, list, finds);
        Ok((batch, taken))
    }

    // Marks the unit that the end of the stream makes of what is open. At want of memory nothing changes.
    pub(crate) fn mark_end(
        &mut self,
        kept: &mut Option<Frame>,
        finds: &mut Finds,
    ) -> Result<Option<Batch>, AllocError>
        requires stands { StandsOn S.codec_of S.saw self.old (nodes_if kept.old) }
        requires none { finds.old.marks.items ≡ [] }
        ensures same { self.new ≡ self.old }
        ensures kept { OnOk result (kept.new ≡ None) }
        ensures ended { IfOk result (λ batch. MarksEnd (StandsFor S.codec_of S.saw
            (holding S.codec_of S.saw self.old (nodes_if kept.old))) (S.codec_of self.old.scanner)
            batch finds.new.marks.items) }
        ensures some { IfOk result HasFrames }
        ensures stays { OnErr result ((kept.new ≡ kept.old) × (finds.new.marks.items ≡ [])
            × (finds.new.back.items ≡ finds.old.back.items)) }
        ensures totals { KeepsTotals (held_by (nodes_if kept.old) ++ stakes_back finds.old.back.items)
            (held_by (nodes_if kept.new ++ ended_of result) ++ stakes_back finds.new.back.items) }
        ensures back { Begins finds.old.back.items finds.new.back.items }
    {
        finds.back.reserve(1)?;
        finds.marks.reserve(1)?;
        if self.unread == 0 {
            give_kept(kept, finds);
            return Ok(None);
        }
        let at = self.fed - self.unread;
        match self.scanner.last(self.unread as usize) {
            Some(kind) => {
                give_kept(kept, finds);
                finds.marks.push_reserved(Mark::Fault { at, kind });
                Ok(None)
            }
            None => {
                let to = self.fed;
                finds.marks.push_reserved(Mark::Frame { at, from: at, to });
                Ok(last_frame(kept))
            }
        }
    }
}

// The nodes that are kept are the last frame.
fn last_frame(kept: &mut Option<Frame>) -> Option<Batch>
    requires some { 0 < length (nodes_if kept.old) }
    ensures kept { kept.new ≡ None }
    ensures chain { chain_if result ≡ nodes_if kept.old }
    ensures frames { frames_if result ≡ bytes_of (nodes_if kept.old) ∷ [] }
{
    match kept.take() {
        Some(chain) => Some(Batch::of(chain)),
        None => unreachable!(),
    }
}

// A piece behind the nodes that are kept, which are kept no longer, and how many of them there are. At want of memory
// they are kept, and the piece is handed back.
fn take_kept(kept: &mut Option<Frame>, piece: Frame) -> Result<(Frame, usize), Frame>
    requires sum { length (bytes_of (nodes_if kept.old)) + length (bytes_of piece) ≤ 2 ^ 62 }
    ensures joined { IfOk result (λ r. (r.0 ≡ nodes_if kept.old ++ piece.entry)
        × (r.1 ≡ length (nodes_if kept.old))) }
    ensures taken { OnOk result (kept.new ≡ None) }
    ensures refused { IfErr result (λ p. (p ≡ piece.entry) × (kept.new ≡ kept.old)) }
{
    let Some(mut nodes) = kept.take() else {
        return Ok((piece, 0));
    };
    let first = nodes.elements();
    match nodes.append_chain(piece) {
        Ok(()) => Ok((nodes, first)),
        Err(piece) => {
            *kept = Some(nodes);
            Err(piece)
        }
    }
}

// The batch of the frames in these windows on a chain; or without a list the chain is given back.
fn batch_or_back(front: Frame, list: Option<WindowList>, finds: &mut Finds) -> Option<Batch>
    requires within { AreIn (bytes_of front) (windows_if list) }
    requires some { HasWindows list }
    requires room { length finds.old.back.items < vec_capacity finds.old.back }
    ensures frames { frames_if result ≡ frames_in (bytes_of front.entry) (windows_if list) }
    ensures some { HasFrames result }
    ensures chain { (chain_if result ≡ front.entry) ⊎ (chain_if result ≡ []) }
    ensures marks { finds.new.marks ≡ finds.old.marks }
    ensures totals { KeepsTotals (held_by front.entry ++ stakes_back finds.old.back.items)
        (held_by (chain_if result) ++ stakes_back finds.new.back.items) }
    ensures back { Begins finds.old.back.items finds.new.back.items }
    ensures one { length finds.new.back.items ≤ length finds.old.back.items + 1 }
    ensures capacity { vec_capacity finds.new.back ≡ vec_capacity finds.old.back }
{
    match list {
        Some(list) => Some(Batch::from_parts(front, list)),
        None => {
            give_up(front, finds);
            None
        }
    }
}

// Keeps the nodes of the open unit, or gives them back where they have no data.
fn keep(kept: &mut Option<Frame>, chain: Frame, finds: &mut Finds)
    requires none { kept.old ≡ None }
    requires room { length finds.old.back.items < vec_capacity finds.old.back }
    ensures kept { ((nodes_if kept.new ≡ chain.entry) × (0 < length (bytes_of chain.entry)))
        ⊎ ((nodes_if kept.new ≡ []) × (bytes_of chain.entry ≡ [])) }
    ensures marks { finds.new.marks ≡ finds.old.marks }
    ensures totals { KeepsTotals (held_by chain.entry ++ stakes_back finds.old.back.items)
        (held_by (nodes_if kept.new) ++ stakes_back finds.new.back.items) }
    ensures back { Begins finds.old.back.items finds.new.back.items }
{
    if chain.length() > 0 {
        *kept = Some(chain);
        return;
    }
    give_up(chain, finds);
}

// Gives back the nodes that are kept, if there are some.
fn give_kept(kept: &mut Option<Frame>, finds: &mut Finds)
    requires room { length finds.old.back.items < vec_capacity finds.old.back }
    ensures kept { kept.new ≡ None }
    ensures given { GivesUp (nodes_if kept.old) finds.old finds.new }
{
    if let Some(chain) = kept.take() {
        give_up(chain, finds);
    }
}

// Gives back a chain. One that has no storage hands nothing back.
fn give_up(chain: Frame, finds: &mut Finds)
    requires room { length finds.old.back.items < vec_capacity finds.old.back }
    ensures { GivesUp chain.entry finds.old finds.new }
{
    if is_nothing(&chain) {
        return;
    }
    finds.back.push_reserved(chain.give_back());
}

// Whether a chain is one node without a storage.
fn is_nothing(chain: &Frame) -> bool
    ensures { IsTrue result → (s : Segment NoOwner) × (chain.now ≡ s ∷ []) × (s.share.number ≡ None) }
{
    chain.elements() == 1 && chain.node(0).number().is_none()
}
