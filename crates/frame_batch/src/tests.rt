//! Batches beside lists of texts.
mod cuts;
mod gathering;
mod reading;
mod shares;

use crate::{Batch, Parts, Window};
use iobuf_chain::{Chain, Frame};
use iobuf_node::IoBuf;
use share_count::Mint;
use std::alloc::Global;
use std::process::Abort;

// A node as a text tells it: `ab` of copied bytes between rooms, `&ab` of wrapped bytes.
fn node(rt: &impl Abort, alloc: Global, text: &'static str, mint: &mut Mint) -> Frame {
    let node = match text.strip_prefix('&') {
        Some(data) => IoBuf::wrap(data.as_bytes()),
        None => {
            assert!(rt; text.len() <= 100);
            IoBuf::copy(alloc, text.as_bytes(), 1, 2, mint).expect(rt, "memory for a node")
        }
    };
    Chain::of(alloc, node)
}

// A chain of nodes with a bar between them, as `ab||&c`.
fn chain_of(rt: &impl Abort, alloc: Global, text: &'static str, mint: &mut Mint) -> Frame {
    let mut nodes = text.split('|');
    let first = nodes.next().expect(rt, "a node");
    let mut chain = node(rt, alloc, first, mint);
    for next in nodes {
        let next = node(rt, alloc, next, mint);
        assert!(rt; chain.length() <= 1000 && next.length() <= 1000);
        chain.append_chain(next).expect(rt, "memory for a list");
    }
    chain
}

// Windows of these places and sizes.
fn windows_of(rt: &impl Abort, alloc: Global, windows: &[(u64, u64)]) -> Vec<Window> {
    let mut list = Vec::new(alloc);
    for (place, size) in windows {
        let window = Window {
            place: *place,
            size: *size,
        };
        list.push(window).expect(rt, "memory for a window");
    }
    list
}

// The frames of these places and sizes on the bytes of a chain.
fn batch_of(
    rt: &impl Abort,
    alloc: Global,
    nodes: &'static str,
    windows: &[(u64, u64)],
    mint: &mut Mint,
) -> Batch {
    let chain = chain_of(rt, alloc, nodes, mint);
    let list = windows_of(rt, alloc, windows);
    assert!(rt; Window::are_in(&list, chain.length()));
    Batch::new(alloc, chain, list).expect(rt, "memory for a list")
}

// The parts of a frame, with a bar between them.
fn text_of(rt: &impl Abort, alloc: Global, parts: Parts<'_>) -> Vec<u8> {
    let mut text = Vec::new(alloc);
    for part in parts {
        if !text.is_empty() {
            text.push(b'|').expect(rt, "memory for a text");
        }
        text.extend_from_slice(part).expect(rt, "memory for a text");
    }
    text
}

// Whether a frame is of these parts, with a bar between them: read part by part, and in one where there is no bar.
fn is_frame(rt: &impl Abort, alloc: Global, frame: Parts<'_>, text: &str) -> bool {
    let bars = text.split('|').count() - 1;
    let in_one = match frame.in_one() {
        Some(bytes) => bytes == text.as_bytes(),
        None => bars > 0,
    };
    in_one
        && bars <= text.len()
        && frame.length() == text.len() - bars
        && text_of(rt, alloc, frame).as_slice() == text.as_bytes()
}

// Whether the frames of a batch are these.
fn reads(rt: &impl Abort, alloc: Global, batch: &Batch, frames: &[&str]) -> bool {
    let mut count = 0usize;
    for frame in batch.frames() {
        if count >= frames.len() || !is_frame(rt, alloc, frame, frames[count]) {
            return false;
        }
        count += 1;
    }
    count == frames.len() && batch.len() == count && batch.is_empty() == frames.is_empty()
}
