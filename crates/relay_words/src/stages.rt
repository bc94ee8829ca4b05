//! Words for stages.
ghost use Rattle.std.specs.Prelude.{◌≡◌, IfOk};
ghost use Rattle.relay_words.specs.Stages.{stage_bytes, stage_of, stages_of};

use crate::numbers::number_in;
use crate::parts::{cut, part_value};
use crate::word_list::WordList;
use std::alloc::{AllocError, Global};

/// What a stage does to each frame. Sizes are in bytes, at most 16,777,216.
#[derive(Clone, Copy, Debug, PartialEq, Eq)]
pub enum StageWord {
    /// Takes so many first bytes away, or all where there are fewer.
    Strip(u32),
    /// Keeps so many first bytes.
    Keep(u32),
    /// Turns `a` to `z` into `A` to `Z`.
    Upper,
    /// Skips frames of fewer bytes.
    Min(u32),
}

const MOST_STAGES: usize = 16;

/// Stages in order, at most 16.
pub type StageWords = WordList<StageWord>;

/// One to 16 stages, joined by `+`.
pub(crate) fn read_stages(alloc: Global, w: &[u8]) -> Result<Option<StageWords>, AllocError>
    ensures { IfOk result (λ s. s ≡ stages_of w.now) }
{
    let parts = cut(alloc, w, b'+')?;
    if parts.len() > MOST_STAGES {
        return Ok(None);
    }
    let mut list = Vec::with_capacity(alloc, parts.len())?;
    for part in &parts {
        let Some(stage) = stage_of(part.bytes()) else {
            return Ok(None);
        };
        list.push(stage)?;
    }
    Ok(Some(WordList::of(list)))
}

fn stage_of(w: &[u8]) -> Option<StageWord>
    ensures { result ≡ stage_of w.now }
{
    if w == b"upper".as_slice() {
        return Some(StageWord::Upper);
    }
    if let Some(n) = stage_bytes(w, b"strip=") {
        return Some(StageWord::Strip(n));
    }
    if let Some(n) = stage_bytes(w, b"keep=") {
        return Some(StageWord::Keep(n));
    }
    let n = stage_bytes(w, b"min=")?;
    Some(StageWord::Min(n))
}

fn stage_bytes(w: &[u8], key: &[u8]) -> Option<u32>
    ensures { result ≡ stage_bytes key.now w.now }
{
    let n = number_in(part_value(w, key)?, 0, 16_777_216)?;
    Some(n as u32)
}
