//! Stages.
ghost use Rattle.std.specs.Prelude.{◌≡◌, List, length, IfErr, IfOk, IsOk, OnErr, OnOk};
ghost use Rattle.storage.specs.declared.release.NoOwner.{NoOwner};
ghost use Rattle.buffer_model.specs.Segment.{bytes_of};
ghost use Rattle.buffer_model.specs.Minted.{NumbersOn};
ghost use Rattle.pipeline.specs.Plain.{strip, keep, upper, least};
ghost use Rattle.pipeline.specs.Meanings.{IsCut, IsPlain, later, says};
ghost use Rattle.pipeline.specs.Nodes.{Sheds, Works};
ghost use Rattle.pipeline.specs.Stages.{Gives, meaning_of, Reads, ReadsCut, stage_frame};

use crate::cut::narrow;
use crate::handler::{AnyHandler, Handler};
use crate::step::Step;
use crate::upper::raise;
use iobuf_chain::Frame;
use share_count::Mint;
use std::alloc::Global;
use std::collections::VecDeque;
use std::fmt;
use storage::Back;

/// What is done to each frame. Numbers are of bytes.
#[derive(Drop)]
pub enum Stage<H: Drop = AnyHandler> {
    /// So many first bytes are taken away, or all where there are fewer. Nothing is copied.
    Strip(u32),
    /// So many first bytes are kept, or all where there are fewer. Nothing is copied.
    Keep(u32),
    /// Each letter from a to z becomes the capital one, byte by byte. Where others may hold a node's storage, its block
    /// is copied first.
    Upper,
    /// A frame of fewer bytes is skipped.
    Min(u32),
    /// What a handler says.
    Boxed(H),
}

impl<H: Drop> fmt::Debug for Stage<H> {
    fn fmt<W: fmt::Write>(&self, f: &mut fmt::Formatter<W>) -> fmt::Result {
        match self {
            Stage::Strip(n) => write!(f, "Strip({n})"),
            Stage::Keep(n) => write!(f, "Keep({n})"),
            Stage::Upper => write!(f, "Upper"),
            Stage::Min(n) => write!(f, "Min({n})"),
            Stage::Boxed(_) => write!(f, "Boxed"),
        }
    }
}

// One stage reads a frame. What it hands back comes behind what was handed back before.
pub(crate) fn read_stage<H: Handler>(
    stage: &mut Stage<H>,
    alloc: Global,
    frame: Frame,
    backs: &mut VecDeque<Back>,
    mint: &mut Mint,
) -> Result<Step, Frame>
    ensures gives { Gives (says (meaning_of H.machine stage.old) (bytes_of frame.entry)) (bytes_of frame.entry) result }
    ensures later { OnOk result
        (meaning_of H.machine stage.new ≡ later (meaning_of H.machine stage.old) (bytes_of frame.entry)) }
    ensures stays { OnErr result (meaning_of H.machine stage.new ≡ meaning_of H.machine stage.old) }
    ensures memory { IsCut (meaning_of H.machine stage.old) → length frame.entry ≡ 1 → IsOk result }
    ensures mint { NumbersOn mint.old mint.new }
    ensures works { IsPlain (meaning_of H.machine stage.old)
        → Works mint.old mint.new frame.entry (stage_frame result) backs.old.items backs.new.items }
    ensures sheds { IsCut (meaning_of H.machine stage.old) → Sheds frame.entry (stage_frame result) }
{
    match stage {
        Stage::Strip(n) => read_strip(*n, frame, backs),
        Stage::Keep(n) => read_keep(*n, frame, backs),
        Stage::Upper => read_upper(alloc, frame, backs, mint),
        Stage::Min(n) => read_min(*n, frame),
        Stage::Boxed(handler) => handler.read(alloc, frame, mint),
    }
}

// The first n bytes leave.
fn read_strip(n: u32, mut frame: Frame, backs: &mut VecDeque<Back>) -> Result<Step, Frame>
    ensures { ReadsCut (strip n) frame.entry backs.old.items backs.new.items result }
{
    let len = frame.length();
    let at = len.min(n as usize);
    match narrow(&mut frame, at, len - at, backs) {
        Ok(()) => Ok(Step::Pass(frame)),
        Err(_) => Err(frame),
    }
}

// The first n bytes are kept.
fn read_keep(n: u32, mut frame: Frame, backs: &mut VecDeque<Back>) -> Result<Step, Frame>
    ensures { ReadsCut (keep n) frame.entry backs.old.items backs.new.items result }
{
    let len = frame.length();
    match narrow(&mut frame, 0, len.min(n as usize), backs) {
        Ok(()) => Ok(Step::Pass(frame)),
        Err(_) => Err(frame),
    }
}

// A frame of fewer than n bytes is skipped.
fn read_min(n: u32, frame: Frame) -> Result<Step, Frame>
    ensures { (backs : List (Back NoOwner)) → ReadsCut (least n) frame.entry backs backs result }
{
    if frame.length() < n as usize {
        return Ok(Step::Skip(frame));
    }
    Ok(Step::Pass(frame))
}

// Letters become capital ones.
fn read_upper(
    alloc: Global,
    mut frame: Frame,
    backs: &mut VecDeque<Back>,
    mint: &mut Mint,
) -> Result<Step, Frame>
    ensures { Reads upper mint.old mint.new frame.entry backs.old.items backs.new.items result }
{
    match raise(&mut frame, alloc, backs, mint) {
        Ok(()) => Ok(Step::Pass(frame)),
        Err(_) => Err(frame),
    }
}
