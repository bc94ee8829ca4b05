ghost use Rattle.std.specs.Prelude.{◌≡◌, ◌≤◌, vec_len, replicate, IfOk};

use std::alloc::{AllocError, Global};

/// Blocks that came back, which are zeroed and lent again: `SpareBlocks::MOST` of them at most.
#[derive(Drop)]
pub struct SpareBlocks {
    blocks: Vec<Vec<u8>>,
}

impl SpareBlocks {
    const MOST: usize = 4;

    /// No block came back yet. It takes no memory.
    pub fn new(alloc: Global) -> SpareBlocks {
        SpareBlocks {
            blocks: Vec::new(alloc),
        }
    }

    /// A block of `size` zero bytes: the one that came back last where that is long enough, which takes no memory,
    /// else a new one. One that is too short is let go.
    pub fn zeros(&mut self, size: usize) -> Result<Vec<u8>, AllocError>
        ensures { IfOk result (λ b. b.items ≡ replicate size 0) }
    {
        if let Some(block) = self.blocks.pop() {
            if block.len() >= size {
                return Ok(zeroed(block, size));
            }
        }
        let alloc = *self.blocks.allocator();
        self.blocks.reserve(SpareBlocks::MOST)?;
        vec![in alloc; 0u8; size]
    }

    /// Keeps a block that came back, or lets it go where enough are kept. It takes no memory.
    pub fn keep(&mut self, block: Vec<u8>) {
        if self.blocks.len() < self.blocks.capacity().min(SpareBlocks::MOST) {
            self.blocks.push_reserved(block);
        }
    }
}

// The first bytes of a block, which are zero now.
fn zeroed(mut block: Vec<u8>, size: usize) -> Vec<u8>
    requires { size ≤ vec_len block }
    ensures { result.items ≡ replicate size 0 }
{
    block.truncate(size);
    block.fill(0);
    block
}
