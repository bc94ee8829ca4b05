//! Blocks that are spent and filled again.
ghost use Rattle.std.specs.Prelude.{◌<◌, ◌≤◌, length, IfOk};

use frame_rule::Haul;
use iobuf_node::IoBuf;
use std::alloc::{AllocError, Global};
use std::mem;
use storage::{Back, Returns};

// How many bytes a block has at least, and at most.
const LEAST: usize = 256;

const MOST: usize = 65536;

// How many the first one has.
const FIRST: usize = 8192;

/// The blocks of a reader. Each block that was fed is shared here until the second block behind it is read: then the
/// frames in it are mostly gone, and a block that nobody else holds is filled again.
///
/// Blocks are as large as reads are: the next one is twice as large where a read filled one, and half as large where a
/// read left three quarters of it.
#[derive(Drop)]
pub(crate) struct Blocks {
    spare: Option<Vec<u8>>,
    last: Option<IoBuf<'static>>,
    before: Option<IoBuf<'static>>,
    size: usize,
}

impl Blocks {
    pub(crate) fn new() -> Blocks {
        Blocks {
            spare: None,
            last: None,
            before: None,
            size: FIRST,
        }
    }

    /// A block of the size that is due: one that is spent, or else a new one.
    pub(crate) fn take(&mut self, alloc: Global) -> Result<Vec<u8>, AllocError>
        ensures some { IfOk result (λ block. 0 < length block.items) }
        ensures most { IfOk result (λ block. length block.items ≤ 65536) }
    {
        if let Some(share) = self.before.take() {
            self.keep(share.give_back());
        }
        let size = self.size.max(LEAST).min(MOST);
        match self.spare.take() {
            Some(block) if block.len() == size => Ok(block),
            _ => vec![in alloc; 0u8; size],
        }
    }

    /// Of a block of this size a read filled so much.
    pub(crate) fn filled(&mut self, count: usize, size: usize) {
        if count == size {
            self.size = size.min(MOST / 2) * 2;
        } else if count < size / 4 {
            self.size = size / 2;
        }
    }

    /// Keeps a share of the block that is fed now.
    pub(crate) fn hold(&mut self, share: Option<IoBuf<'static>>) {
        let last = mem::replace(&mut self.last, share);
        if let Some(old) = mem::replace(&mut self.before, last) {
            self.keep(old.give_back());
        }
    }

    /// Keeps the blocks among what was handed back.
    pub(crate) fn settle(&mut self, back: &mut Vec<Returns>) {
        'returns: while let Some(returns) = back.pop() {
            self.keep_all(returns);
        }
    }

    fn keep_all(&mut self, mut returns: Returns) {
        'backs: while let Some(back) = returns.pop() {
            self.keep(back);
        }
    }

    fn keep(&mut self, back: Back) {
        if let Back::Lent(block, _) = back {
            self.spare = Some(block.bytes);
        }
    }
}
