//! A log is read, whatever it comes from.

use frame_head::LineEnd;
use frame_reader::{Codec, CodecFault, FrameError, FrameReader, FrameUnit};
use std::alloc::{AllocError, Global};
use std::collections::BTreeMap;
use std::io::Read;
use thiserror::Error;

/// Why a log couldn't be counted.
#[derive(Clone, Copy, Debug, PartialEq, Eq, Error)]
pub enum LogError {
    #[error("{0}")]
    Codec(#[from] CodecFault),
    #[error("{0}")]
    Frames(#[from] FrameError),
    #[error("no memory")]
    NoMemory(#[from] AllocError),
}

/// How often each first word comes in the lines of a log.
pub fn count_first_words<R: Read + Drop>(
    alloc: Global,
    log: R,
) -> Result<BTreeMap<Vec<u8>, u64>, LogError> {
    let lines = Codec::Line {
        ending: LineEnd::Any,
        strip: true,
        max: 65536,
    };
    let mut frames = FrameReader::new(alloc, log, lines)?;
    let mut counts = BTreeMap::new(alloc);
    'units: while let Some(unit) = frames.next()? {
        if let FrameUnit::Frame { chain, .. } = unit {
            count(&mut counts, first_word(chain.to_vec(alloc)?))?;
        }
    }
    Ok(counts)
}

// What stands before the first space.
fn first_word(mut line: Vec<u8>) -> Vec<u8> {
    let end = line.iter().position(|b| *b == b' ');
    if let Some(end) = end {
        line.truncate(end);
    }
    line
}

fn count(counts: &mut BTreeMap<Vec<u8>, u64>, word: Vec<u8>) -> Result<(), AllocError> {
    let Ok(entry) = counts.entry(word) else {
        return Err(AllocError);
    };
    let n = entry.or_insert(0);
    *n = n.saturating_add(1);
    Ok(())
}
