mod crossing;
mod owners;
mod sharing;
mod windows;

use crate::IoBuf;
use std::mem::size_of;
use std::process::Abort;
use std::test::Fail;
use storage::{Back, Owner, Told};

// The rooms and the data of a node.
fn shows(node: &IoBuf<'_>, head: usize, data: &[u8], tail: usize) -> bool {
    node.headroom() == head && node.bytes() == data && node.tailroom() == tail
}

// What came back, in a word.
fn word<O: Told>(back: Option<Back<O>>) -> &'static str {
    match back {
        Some(Back::Kept(_)) => "kept",
        Some(Back::Done(_)) => "done",
        Some(Back::Ran(..)) => "ran",
        Some(Back::Lent(..)) => "lent",
        Some(Back::Tag(7, _)) => "tag 7",
        Some(Back::Tag(..)) => "another tag",
        Some(Back::Nothing) => "nothing",
        None => "none",
    }
}

// Writes `z` over the data of a node that is alone.
fn fill(rt: &impl Abort, node: &mut IoBuf<'_>) {
    let mine = node.mine().expect(rt, "a node that is alone");
    mine.bytes_mut().fill(b'z');
}

// A node is moved for each frame.
#[test]
fn stays_small(rt: HostRuntime) -> Result<(), Fail> {
    assert!(rt; size_of::<IoBuf<'static>>() <= 104);
    assert!(rt; size_of::<IoBuf<'static, Owner>>() == size_of::<IoBuf<'static>>());
    Ok(())
}
