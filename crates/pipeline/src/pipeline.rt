//! Lists of stages.
ghost use Rattle.std.specs.Prelude.{◌≡◌, ◌+◌, ◌<◌, ◌++◌, ◌↔◌, length, map, None, IfErr, IfOk, IfSome, IsOk, IsTrue, OnOk};
ghost use Rattle.buffer_model.specs.Segment.{bytes_of};
ghost use Rattle.buffer_model.specs.Minted.{NumbersOn};
ghost use Rattle.buffer_model.specs.Stake.{KeepsTotalsBeside};
ghost use Rattle.iobuf_chain.specs.Accounts.{held_by};
ghost use Rattle.iobuf_chain.specs.Copies.{CopiesNoData};
ghost use Rattle.iobuf_chain.specs.Lists.{Each};
ghost use Rattle.frame_batch.specs.Batches.{AreIn, frames_in};
ghost use Rattle.pipeline.specs.Batches.{answers, handed_in, lettered, MovesBatch, nodes_in};
ghost use Rattle.pipeline.specs.Plain.{raised};
ghost use Rattle.pipeline.specs.Meanings.{answer, IsCut, IsPlain, later_all, RefusesAt};
ghost use Rattle.pipeline.specs.Nodes.{AreWhole, HandsBack, listed, Sheds, stakes_back, Works};
ghost use Rattle.pipeline.specs.Stages.{back_in, frame_in, IsList, meanings, said_of, stage_frame, StepsSo};

use crate::handler::{AnyHandler, Handler};
use crate::stage::{Stage, read_stage};
use crate::step::Step;
use crate::upper::raise;
use crate::windows::{are_plain, place_all, raises};
use frame_batch::{Batch, WindowList};
use iobuf_chain::Frame;
use share_count::Mint;
use std::alloc::Global;
use std::collections::VecDeque;
use std::fmt;
use std::marker::Model;
use storage::{Back, Returns};

/// Stages, one after another. Contracts see the list of them.
#[derive(Drop)]
pub struct Pipeline<H: Drop = AnyHandler> {
    stages: Vec<Stage<H>>,
}

impl<H: Drop> Model for Pipeline<H> {
    ghost use Rattle.std.specs.Prelude.{List};
    ghost use Rattle.pipeline.specs.declared.stage.Stage.{Stage};

    ghost Value = { List (Stage H) };

    ghost view = { λ p. p.stages.items };
}

impl<H: Handler> Pipeline<H> {
    /// A pipeline of these stages. No memory.
    pub fn new(stages: Vec<Stage<H>>) -> Pipeline<H>
        ensures { result ≡ stages.items }
    {
        Pipeline { stages }
    }

    /// Puts a frame through the stages. The first that skips or fails it ends that, and those behind don't see it. The
    /// frame comes back in any case, and with it what was handed back of nodes that left it or moved to copies, first
    /// to last. At want of memory the frame comes back as the stage that was refused found it, but that `Upper` may
    /// have moved some nodes, and the stages before it have seen the frame. O(nodes) for each stage, and for `Upper` a
    /// look at the frame's bytes. Memory is taken by `Upper`, by `Strip` and `Keep` where they take bytes from a frame
    /// of several nodes, and by handlers. Nothing is said of the storages where a handler is among the stages.
    pub fn read(
        &mut self,
        alloc: Global,
        frame: Frame,
        mint: &mut Mint,
    ) -> Result<(Step, Option<Returns>), (Frame, Option<Returns>)>
        ensures step { IfOk result (λ a. said_of a.0 ≡ answer (meanings H.machine self.old) (bytes_of frame.entry)) }
        ensures stages { OnOk result (meanings H.machine self.new
            ≡ later_all (meanings H.machine self.old) (bytes_of frame.entry)) }
        ensures refused { IfErr result (λ a. RefusesAt (meanings H.machine self.old) (meanings H.machine self.new)
            (bytes_of frame.entry) (bytes_of a.0)) }
        ensures memory { Each IsCut (meanings H.machine self.old) → length frame.entry ≡ 1 → IsOk result }
        ensures mint { NumbersOn mint.old mint.new }
        ensures totals { Each IsPlain (meanings H.machine self.old) → KeepsTotalsBeside mint.old mint.new
            (held_by frame.entry) (held_by (frame_in result) ++ stakes_back (back_in result)) }
        ensures back { Each IsPlain (meanings H.machine self.old)
            → HandsBack mint.old mint.new frame.entry (frame_in result) (back_in result) }
        ensures whole { Each IsPlain (meanings H.machine self.old) → AreWhole frame.entry
            → length frame.entry ≡ length (frame_in result) + length (listed (back_in result)) }
        ensures some { IfSome (back_in result) (λ backs. 0 < length backs) }
        ensures nodes { Each IsCut (meanings H.machine self.old) → Sheds frame.entry (frame_in result) }
        ensures copies { Each IsCut (meanings H.machine self.old) → CopiesNoData frame.entry (frame_in result) }
    {
        let mut backs = VecDeque::new(alloc);
        match read_all(&mut self.stages, alloc, frame, &mut backs, mint) {
            Ok(step) => Ok((step, returned(backs))),
            Err(frame) => Err((frame, returned(backs))),
        }
    }

    /// Whether no stage is a handler, so that batches may go through. O(stages).
    pub fn is_plain(&self) -> bool
        ensures { IsTrue result ↔ Each IsPlain (meanings H.machine self.now) }
    {
        are_plain(&self.stages)
    }

    /// Puts the frames of a batch through the stages, which are no handlers. Those that are skipped leave the batch,
    /// and no other does. `Strip`, `Keep` and `Min` change windows alone. With an `Upper` among the stages each node of the
    /// chain whose storage others may hold moves to a copy of its block first, and what it hands back comes beside the
    /// batch; then all letters of the chain become capital ones, those that lie in no frame too. It takes memory for
    /// the new list of windows, two allocations, and for `Upper`. At want of memory the batch comes back with its
    /// frames as they were, and of its chain some nodes may have moved. O(frames * stages), and with `Upper` O(bytes of
    /// the chain).
    pub fn read_batch(
        &self,
        alloc: Global,
        batch: Batch,
        mint: &mut Mint,
    ) -> Result<(Batch, Option<Returns>), (Batch, Option<Returns>)>
        requires { Each IsPlain (meanings H.machine self.now) }
        ensures frames { IfOk result (λ a. a.0.frames ≡ answers (meanings H.machine self.now) batch.frames) }
        ensures bytes { IfOk result (λ a. bytes_of a.0.chain
            ≡ lettered (meanings H.machine self.now) (bytes_of batch.chain)) }
        ensures same { IfErr result (λ a. a.0.frames ≡ batch.frames) }
        ensures kept { IfErr result (λ a. bytes_of a.0.chain ≡ bytes_of batch.chain) }
        ensures nodes { Each IsCut (meanings H.machine self.now) → nodes_in result ≡ batch.chain }
        ensures none { Each IsCut (meanings H.machine self.now) → handed_in result ≡ None }
        ensures mint { NumbersOn mint.old mint.new }
        ensures totals { KeepsTotalsBeside mint.old mint.new
            (held_by batch.chain) (held_by (nodes_in result) ++ stakes_back (handed_in result)) }
        ensures back { HandsBack mint.old mint.new batch.chain (nodes_in result) (handed_in result) }
        ensures whole { AreWhole batch.chain
            → length batch.chain ≡ length (nodes_in result) + length (listed (handed_in result)) }
        ensures some { IfSome (handed_in result) (λ backs. 0 < length backs) }
        ensures copies { Each IsCut (meanings H.machine self.now) → CopiesNoData batch.chain (nodes_in result) }
    {
        let windows = match place_all(&self.stages, &batch, alloc) {
            Ok(windows) => windows,
            Err(_) => return Err((batch, None)),
        };
        let (chain, old) = batch.into_parts();
        if !raises(&self.stages) {
            return Ok((Batch::from_parts(chain, windows), None));
        }
        raise_batch(alloc, chain, old, windows, mint)
    }
}

// What was handed back, where anything was.
fn returned(backs: VecDeque<Back>) -> Option<Returns>
    ensures { IsList backs.items result }
{
    if backs.is_empty() {
        return None;
    }
    Some(Returns::from_backs(backs))
}

// The same with what is handed back behind what was handed back before.
fn read_all<H: Handler>(
    stages: &mut [Stage<H>],
    alloc: Global,
    frame: Frame,
    backs: &mut VecDeque<Back>,
    mint: &mut Mint,
) -> Result<Step, Frame>
    ensures steps { StepsSo (meanings H.machine stages.old) (meanings H.machine stages.new)
        (bytes_of frame.entry) result }
    ensures memory { Each IsCut (meanings H.machine stages.old) → length frame.entry ≡ 1 → IsOk result }
    ensures mint { NumbersOn mint.old mint.new }
    ensures works { Each IsPlain (meanings H.machine stages.old)
        → Works mint.old mint.new frame.entry (stage_frame result) backs.old.items backs.new.items }
    ensures sheds { Each IsCut (meanings H.machine stages.old) → Sheds frame.entry (stage_frame result) }
{
    let mut frame = frame;
    'stages: for i in 0..stages.len() {
        let _some = frame.elements();
        match read_stage(&mut stages[i], alloc, frame, backs, mint) {
            Ok(Step::Pass(next)) => frame = next,
            Ok(Step::Skip(skipped)) => return Ok(Step::Skip(skipped)),
            Ok(Step::Fail(number, failed)) => return Ok(Step::Fail(number, failed)),
            Err(refused) => return Err(refused),
        }
    }
    Ok(Step::Pass(frame))
}

// The letters of a batch's chain become capital ones, and the new windows take the place of the old.
fn raise_batch(
    alloc: Global,
    chain: Frame,
    old: WindowList,
    new: WindowList,
    mint: &mut Mint,
) -> Result<(Batch, Option<Returns>), (Batch, Option<Returns>)>
    requires old { AreIn (bytes_of chain) old }
    requires new { AreIn (bytes_of chain) new }
    ensures frames { IfOk result (λ a. a.0.frames ≡ frames_in (map raised (bytes_of chain.entry)) new) }
    ensures bytes { IfOk result (λ a. bytes_of a.0.chain ≡ map raised (bytes_of chain.entry)) }
    ensures same { IfErr result (λ a. a.0.frames ≡ frames_in (bytes_of chain.entry) old) }
    ensures kept { IfErr result (λ a. bytes_of a.0.chain ≡ bytes_of chain.entry) }
    ensures back { MovesBatch mint.old mint.new chain.entry (nodes_in result) (handed_in result) }
{
    let mut chain = chain;
    let mut backs = VecDeque::new(alloc);
    match raise(&mut chain, alloc, &mut backs, mint) {
        Ok(()) => Ok((Batch::from_parts(chain, new), returned(backs))),
        Err(_) => Err((Batch::from_parts(chain, old), returned(backs))),
    }
}

impl<H: Drop> fmt::Debug for Pipeline<H> {
    fn fmt<W: fmt::Write>(&self, f: &mut fmt::Formatter<W>) -> fmt::Result {
        write!(f, "Pipeline {{ stages: {} }}", self.stages.len())
    }
}
