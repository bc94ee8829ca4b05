//! What stages without a handler leave of windows.
ghost use Rattle.std.specs.Prelude.{◌≡◌, ◌+◌, ◌≤◌, ◌<◌, ◌^◌, ◌++◌, ◌↔◌, IfOk, IfSome, IsTrue, OnOk};
ghost use Rattle.buffer_model.specs.Segment.{bytes_of};
ghost use Rattle.frame_batch.specs.Batches.{AreIn, frames_in, window_in};
ghost use Rattle.iobuf_chain.specs.Lists.{Each};
ghost use Rattle.pipeline.specs.Batches.{answers, has_upper, is_upper, lettered, placed, placed_by};
ghost use Rattle.pipeline.specs.Meanings.{IsPlain};
ghost use Rattle.pipeline.specs.Stages.{meaning_of, meanings};

use crate::handler::Handler;
use crate::stage::Stage;
use frame_batch::{Batch, Window, WindowList};
use std::alloc::{AllocError, Global};

// Whether one of the stages is `Upper`. O(stages).
pub(crate) fn raises<H: Handler>(stages: &[Stage<H>]) -> bool
    ensures { result ≡ has_upper (meanings H.machine stages.now) }
{
    'stages: for i in 0..stages.len() {
        if is_upper(&stages[i]) {
            return true;
        }
    }
    false
}

// Whether a stage is.
fn is_upper<H: Handler>(stage: &Stage<H>) -> bool
    ensures { result ≡ is_upper (meaning_of H.machine stage.now) }
{
    matches!(stage, Stage::Upper)
}

// Whether no stage is a handler. O(stages).
pub(crate) fn are_plain<H: Handler>(stages: &[Stage<H>]) -> bool
    ensures { IsTrue result ↔ Each IsPlain (meanings H.machine stages.now) }
{
    'stages: for i in 0..stages.len() {
        if !is_plain(&stages[i]) {
            return false;
        }
    }
    true
}

// Whether a stage is none.
fn is_plain<H: Handler>(stage: &Stage<H>) -> bool
    ensures { IsTrue result ↔ IsPlain (meaning_of H.machine stage.now) }
{
    !matches!(stage, Stage::Boxed(_))
}

// The windows that stages leave of a batch's frames, in order. Two allocations. O(frames * stages).
pub(crate) fn place_all<H: Handler>(
    stages: &[Stage<H>],
    batch: &Batch,
    alloc: Global,
) -> Result<WindowList, AllocError>
    requires { Each IsPlain (meanings H.machine stages.now) }
    ensures within { IfOk result (λ ws. AreIn (bytes_of batch.now.chain) ws) }
    ensures frames { let ms = meanings H.machine stages.now in
        IfOk result (λ ws. frames_in (lettered ms (bytes_of batch.now.chain)) ws ≡ answers ms batch.now.frames) }
{
    let _all = batch.chain().length();
    let mut windows = Vec::new(alloc);
    windows.reserve(batch.len())?;
    'frames: for i in 0..batch.len() {
        place_next(stages, batch.window(i), &mut windows)?;
    }
    WindowList::new(alloc, windows)
}

// Puts what is left of a window behind others.
fn place_next<H: Handler>(
    stages: &[Stage<H>],
    window: Window,
    windows: &mut Vec<Window>,
) -> Result<(), AllocError>
    requires { window.place + window.size < 2 ^ 64 }
    ensures { OnOk result (windows.new.items
        ≡ windows.old.items ++ window_in (placed (meanings H.machine stages.now) window)) }
{
    match place(stages, window) {
        Some(window) => windows.push(window)?,
        None => (),
    }
    Ok(())
}

// What stages leave of a window, one after another.
fn place<H: Handler>(stages: &[Stage<H>], window: Window) -> Option<Window>
    requires { window.place + window.size < 2 ^ 64 }
    ensures { result ≡ placed (meanings H.machine stages.now) window }
{
    let mut window = window;
    'stages: for i in 0..stages.len() {
        window = place_by(&stages[i], window)?;
    }
    Some(window)
}

// What one stage leaves of a window.
fn place_by<H: Handler>(stage: &Stage<H>, window: Window) -> Option<Window>
    requires { window.place + window.size < 2 ^ 64 }
    ensures is { result ≡ placed_by (meaning_of H.machine stage.now) window }
    ensures within { IfSome result (λ w. w.place + w.size ≤ window.place + window.size) }
{
    match stage {
        Stage::Strip(n) => {
            let n = u64::from(*n).min(window.size);
            Some(Window {
                place: window.place + n,
                size: window.size - n,
            })
        }
        Stage::Keep(n) => Some(Window {
            place: window.place,
            size: u64::from(*n).min(window.size),
        }),
        Stage::Min(n) => {
            if window.size < u64::from(*n) {
                return None;
            }
            Some(window)
        }
        Stage::Upper => Some(window),
        Stage::Boxed(_) => Some(window),
    }
}
