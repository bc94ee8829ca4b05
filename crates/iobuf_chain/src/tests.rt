mod drops;
mod ends;
mod example;
mod fronts;
mod lends;
mod many;
mod moves;
mod ranges;
mod receipts;
mod slices;

ghost use Rattle.buffer_model.specs.Share.{IsAlone};

use crate::Chain;
use iobuf_node::IoBuf;
use share_count::Mint;
use std::alloc::Global;
use std::process::Abort;
use storage::Back;

// A node of copied bytes, between rooms of so many bytes.
fn copied(
    rt: &impl Abort,
    alloc: Global,
    bytes: &[u8],
    rooms: (usize, usize),
    mint: &mut Mint,
) -> IoBuf<'static>
    ensures { IsAlone result.share }
{
    let (head, tail) = rooms;
    assert!(rt; bytes.len() <= 100 && head <= 100 && tail <= 100);
    IoBuf::copy(alloc, bytes, head, tail, mint).expect(rt, "memory for a node")
}

// A node as a text tells it: `ab` of copied bytes without rooms, `+ab` between rooms of 1 and 2 bytes, `&ab` of wrapped
// bytes.
fn node(rt: &impl Abort, alloc: Global, text: &'static str, mint: &mut Mint) -> IoBuf<'static> {
    if let Some(data) = text.strip_prefix('&') {
        return IoBuf::wrap(data.as_bytes());
    }
    match text.strip_prefix('+') {
        Some(data) => copied(rt, alloc, data.as_bytes(), (1, 2), mint),
        None => copied(rt, alloc, text.as_bytes(), (0, 0), mint),
    }
}

// A chain of one node.
fn one(rt: &impl Abort, alloc: Global, text: &'static str, mint: &mut Mint) -> Chain<'static> {
    let node = node(rt, alloc, text, mint);
    Chain::of(alloc, node)
}

// The second behind the first.
fn join<'a>(rt: &impl Abort, first: &mut Chain<'a>, second: Chain<'a>) {
    assert!(rt; first.length() <= 1000 && second.length() <= 1000);
    first.append_chain(second).expect(rt, "memory for a list");
}

// A chain of nodes with a bar between them, as `ab|+c|&d`.
fn chain_of(rt: &impl Abort, alloc: Global, text: &'static str, mint: &mut Mint) -> Chain<'static> {
    let mut nodes = text.split('|');
    let first = nodes.next().expect(rt, "a node");
    let mut chain = one(rt, alloc, first, mint);
    for next in nodes {
        let next = one(rt, alloc, next, mint);
        join(rt, &mut chain, next);
    }
    chain
}

// Whether the nodes of a chain have these data, with a bar between them, and its length is their sum.
fn shows(chain: &Chain<'_>, text: &str) -> bool {
    let mut i = 0usize;
    let mut left = chain.length();
    for data in text.split('|') {
        if i >= chain.elements() || chain.node(i).bytes() != data.as_bytes() || data.len() > left {
            return false;
        }
        left -= data.len();
        i += 1;
    }
    i == chain.elements() && left == 0
}

// Whether the nodes of a chain stand on storages of these numbers, wrapped ones on none.
fn numbered(chain: &Chain<'_>, numbers: &[Option<u64>]) -> bool {
    if chain.elements() != numbers.len() {
        return false;
    }
    for (i, number) in numbers.iter().enumerate() {
        if i >= chain.elements() || chain.node(i).number() != *number {
            return false;
        }
    }
    true
}

// What came back, in a word.
fn word(back: Option<Back>) -> &'static str {
    match back {
        Some(Back::Done(_)) => "done",
        Some(Back::Kept(_)) => "kept",
        Some(Back::Nothing) => "nothing",
        Some(_) => "something else",
        None => "no more",
    }
}
