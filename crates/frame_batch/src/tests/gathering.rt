//! A caller's two loops over a batch, by the contracts of `Frames` and `Parts` alone.
ghost use Rattle.std.specs.Prelude.{◌≡◌, ◌++◌, OnOk};
ghost use Rattle.std.specs.List.{concat};

use super::batch_of;
use crate::{Batch, Parts};
use share_count::Mint;
use std::alloc::AllocError;

// All bytes of all frames, behind one another.
fn gather(batch: &Batch, into: &mut Vec<u8>) -> Result<(), AllocError>
    ensures { OnOk result (into.new.items ≡ into.old.items ++ concat batch.now.frames) }
{
    'frames: for frame in batch.frames() {
        gather_parts(frame, into)?;
    }
    Ok(())
}

fn gather_parts(parts: Parts<'_>, into: &mut Vec<u8>) -> Result<(), AllocError>
    ensures { OnOk result (into.new.items ≡ into.old.items ++ concat parts.entry) }
{
    'parts: for part in parts {
        into.extend_from_slice(part)?;
    }
    Ok(())
}

#[test]
fn frames_are_gathered(rt: HostRuntime) {
    let windows = [(0, 3), (2, 2), (4, 0), (0, 1)];
    let batch = batch_of(&rt, rt.alloc(), "ab|&cd", &windows, &mut Mint::new());
    let mut text = Vec::new(rt.alloc());
    gather(&batch, &mut text).expect(&rt, "memory for a text");
    assert!(rt; text.as_slice() == b"abccda".as_slice());
}
