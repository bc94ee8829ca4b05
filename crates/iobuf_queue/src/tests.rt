//! Queues that are filled, written and taken apart.
use crate::Queue;
use iobuf_chain::{Chain, CutFault};
use iobuf_node::IoBuf;
use share_count::Mint;
use std::alloc::Global;
use std::process::Abort;

// Adds a node of wrapped bytes.
fn add<'a>(rt: &impl Abort, queue: &mut Queue<'a>, alloc: Global, text: &'a str) {
    assert!(rt; queue.chain_length() <= 1000 && text.len() <= 1000);
    let node = Chain::of(alloc, IoBuf::wrap(text.as_bytes()));
    queue.append_chain(node).expect(rt, "memory for a list");
}

// A queue of the nodes `ab` and `cd`.
fn two(rt: &impl Abort, alloc: Global) -> Queue<'static> {
    let mut queue: Queue<'static> = Queue::new(alloc);
    add(rt, &mut queue, alloc, "ab");
    add(rt, &mut queue, alloc, "cd");
    queue
}

// Whether a queue has so many nodes, and these data.
fn shows(queue: &Queue<'_>, nodes: usize, text: &str) -> bool {
    let size = queue.chain_length() == text.len();
    match queue.front() {
        Some(chain) => size && chain.elements() == nodes && chain.equals(text.as_bytes()),
        None => size && nodes == 0,
    }
}

// The bytes asked for, those that leave, and the nodes and bytes that stay, of `ab|cd`.
const CUTS: &[(usize, &str, usize, &str)] = &[
    (0, "", 2, "abcd"),
    (1, "a", 2, "bcd"),
    (2, "ab", 1, "cd"),
    (3, "abc", 1, "d"),
    (4, "abcd", 0, ""),
    (9, "abcd", 0, ""),
];

#[test]
fn at_most_the_first_bytes_leave(rt: HostRuntime) {
    let mut mint = Mint::new();
    for &(n, front, nodes, rest) in CUTS {
        let mut queue = two(&rt, rt.alloc());
        let cut = queue
            .split_at_most(rt.alloc(), n, &mut mint)
            .expect(&rt, "memory for a cut");
        assert!(rt; cut.equals(front.as_bytes()) && shows(&queue, nodes, rest));
    }
}

#[test]
fn more_than_there_is_is_short(rt: HostRuntime) {
    let mut queue = two(&rt, rt.alloc());
    let short = queue.split(rt.alloc(), 5, &mut Mint::new());
    assert!(rt;
        matches!(short, Err(CutFault::Short { asked: 5, had: 4 })) && shows(&queue, 2, "abcd")
    );
}

// Writes behind a queue's data, into room of at most 4 bytes.
fn write(rt: &impl Abort, queue: &mut Queue<'static>, alloc: Global, text: &str, mint: &mut Mint) {
    assert!(rt; queue.chain_length() <= 1000);
    let room = queue
        .preallocate(alloc, 1, 8, 4, mint)
        .expect(rt, "memory for a node");
    assert!(rt; text.len() <= room && queue.chain_length() <= 1000);
    queue.tail_mut()[..text.len()].copy_from_slice(text.as_bytes());
    assert!(rt; queue.chain_length() <= 1000);
    queue.postallocate(text.len());
}

#[test]
fn room_is_written_and_taken_in(rt: HostRuntime) {
    let mut mint = Mint::new();
    let mut queue = Queue::new(rt.alloc());
    write(&rt, &mut queue, rt.alloc(), "ab", &mut mint);
    assert!(rt; shows(&queue, 1, "ab") && queue.tail_mut().is_empty());
    write(&rt, &mut queue, rt.alloc(), "cde", &mut mint);
    assert!(rt; shows(&queue, 1, "abcde"));
    let all = queue.move_all();
    assert!(rt; all.is_some() && shows(&queue, 0, ""));
}
