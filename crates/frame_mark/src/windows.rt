//! The windows of marked frames.
ghost use Rattle.std.specs.Prelude.{◌≡◌, IfOk};
ghost use Rattle.frame_mark.specs.Pieces.{HasWindows};
ghost use Rattle.frame_mark.specs.Marking.{window_of, windows_if, windows_of};

use crate::mark::Mark;
use frame_batch::{Window, WindowList};
use std::alloc::{AllocError, Global};

// The windows of the frames among some marks, on bytes of which the first has the offset `base`. Nothing, and no memory
// but for a count, where there is no frame.
pub(crate) fn list_of(
    alloc: Global,
    base: u64,
    marks: &[Mark],
) -> Result<Option<WindowList>, AllocError>
    ensures windows { IfOk result (λ list. windows_if list ≡ windows_of base marks.now) }
    ensures some { IfOk result HasWindows }
{
    let frames = windows(alloc, base, marks)?;
    if frames.is_empty() {
        return Ok(None);
    }
    match WindowList::new(alloc, frames) {
        Ok(list) => Ok(Some(list)),
        Err(e) => Err(e),
    }
}

fn windows(alloc: Global, base: u64, marks: &[Mark]) -> Result<Vec<Window>, AllocError>
    ensures { IfOk result (λ ws. ws.items ≡ windows_of base marks.now) }
{
    let mut windows = Vec::new(alloc);
    windows.reserve(frames(marks))?;
    let mut i = 0;
    'marks: while i < marks.len() {
        if let Some(window) = window(base, marks[i]) {
            windows.push(window)?;
        }
        i += 1;
    }
    Ok(windows)
}

// How many of the marks are frames.
fn frames(marks: &[Mark]) -> usize {
    marks
        .iter()
        .filter(|m| matches!(m, Mark::Frame { .. }))
        .count()
}

// Where a frame lies.
fn window(base: u64, mark: Mark) -> Option<Window>
    ensures { result ≡ window_of base mark }
{
    match mark {
        Mark::Frame { from, to, .. } => Some(Window {
            place: from.saturating_sub(base),
            size: to.saturating_sub(from),
        }),
        Mark::Fault { .. } => None,
    }
}
