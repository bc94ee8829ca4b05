mod batches;
mod handlers;
mod rows;

use crate::{Pipeline, Stage, Step};
use iobuf_chain::{Chain, Frame};
use iobuf_node::IoBuf;
use share_count::Mint;
use std::alloc::Global;
use std::process::Abort;
use storage::Returns;

// A stage of a row.
#[derive(Clone, Copy)]
enum Kind {
    S(u32),
    K(u32),
    U,
    M(u32),
}

fn pipeline_of(rt: &impl Abort, alloc: Global, kinds: &[Kind]) -> Pipeline {
    let mut stages: Vec<Stage> = Vec::new(alloc);
    for kind in kinds {
        let stage = match *kind {
            Kind::S(n) => Stage::Strip(n),
            Kind::K(n) => Stage::Keep(n),
            Kind::U => Stage::Upper,
            Kind::M(n) => Stage::Min(n),
        };
        stages.push(stage).expect(rt, "memory for a stage");
    }
    Pipeline::new(stages)
}

// A frame of a node for each part between bars, each on a storage of its own, as `ab||c`.
fn frame_of(rt: &impl Abort, alloc: Global, text: &'static str, mint: &mut Mint) -> Frame {
    let mut parts = text.split('|');
    let first = parts.next().expect(rt, "a node");
    let mut frame = node_of(rt, alloc, first, mint);
    for part in parts {
        let node = node_of(rt, alloc, part, mint);
        assert!(rt; frame.length() <= 1000 && node.length() <= 1000);
        frame.append_chain(node).expect(rt, "memory for a list");
    }
    frame
}

// A frame of one node.
fn node_of(rt: &impl Abort, alloc: Global, text: &'static str, mint: &mut Mint) -> Frame {
    assert!(rt; text.len() <= 1000);
    let node = IoBuf::copy(alloc, text.as_bytes(), 0, 0, mint).expect(rt, "memory for a node");
    Chain::of(alloc, node)
}

// Whether a frame has these nodes.
fn shows(frame: &Frame, text: &'static str) -> bool {
    let mut i = 0;
    for part in text.split('|') {
        if i >= frame.elements() || frame.node(i).bytes() != part.as_bytes() {
            return false;
        }
        i += 1;
    }
    i == frame.elements()
}

// What became of a frame, in a word, and whether it has these nodes.
fn told(step: &Step, text: &'static str) -> (&'static str, bool) {
    match step {
        Step::Pass(frame) => ("pass", shows(frame, text)),
        Step::Skip(frame) => ("skip", shows(frame, text)),
        Step::Fail(5, frame) => ("fail 5", shows(frame, text)),
        Step::Fail(_, frame) => ("fail", shows(frame, text)),
    }
}

// How much came back. A list without anything counts as 100.
fn came_back(back: Option<Returns>) -> usize {
    match back {
        None => 0,
        Some(backs) if backs.is_empty() => 100,
        Some(backs) => backs.len(),
    }
}
