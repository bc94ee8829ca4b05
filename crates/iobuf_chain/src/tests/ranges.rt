//! Chains that are shared, whole and in ranges.
use super::{chain_of, numbered, shows, word};
use crate::{Chain, CutFault};
use share_count::Mint;
use std::alloc::Global;
use std::process::Abort;
use storage::{Back, Returns};

// Whether a range is shared as these nodes, while the chain stays.
fn shares(
    rt: &impl Abort,
    alloc: Global,
    nodes: &'static str,
    all: &str,
    at: usize,
    n: usize,
    part: &str,
) -> bool {
    let mut mint = Mint::new();
    let mut chain = chain_of(rt, alloc, nodes, &mut mint);
    let share = chain
        .share_range(alloc, at, n, &mut mint)
        .expect(rt, "a share");
    shows(&share, part) && shows(&chain, all)
}

#[test]
fn ranges_are_shared(rt: HostRuntime) {
    let (one, more, all) = ("+abc", "+|ab|&xyz||+c", "|ab|xyz||c");
    // The chain and its data, where the range begins, how many bytes it has, and the nodes of the share.
    let rows = [
        (one, "abc", 0, 3, "abc"),
        (one, "abc", 1, 1, "b"),
        (one, "abc", 3, 0, ""),
        (more, all, 0, 6, "ab|xyz|c"),
        (more, all, 1, 3, "b|xy"),
        (more, all, 2, 3, "xyz"),
        (more, all, 4, 2, "z|c"),
        (more, all, 5, 1, "c"),
        (more, all, 0, 0, ""),
    ];
    for (nodes, data, at, n, part) in rows {
        assert!(rt;
            shares(&rt, rt.alloc(), nodes, data, at, n, part),
            "{n} from {at}"
        );
    }
}

// Why a range of a chain of three bytes is refused, where it is.
fn refused(rt: &impl Abort, alloc: Global, at: usize, n: usize) -> Option<CutFault> {
    let mut mint = Mint::new();
    let mut chain = chain_of(rt, alloc, "ab|&c", &mut mint);
    chain.share_range(alloc, at, n, &mut mint).err()
}

#[test]
fn ranges_past_the_end_are_short(rt: HostRuntime) {
    // Where the range begins, how many bytes it has, how many were asked for, and how many there were.
    let rows = [
        (4, 0, 4, 3),
        (4, 9, 4, 3),
        (1, 3, 3, 2),
        (3, 1, 1, 0),
        (0, usize::MAX, usize::MAX, 3),
    ];
    for (at, n, asked, had) in rows {
        let fault = refused(&rt, rt.alloc(), at, n);
        assert!(rt;
            fault == Some(CutFault::Short { asked, had }),
            "{n} from {at}"
        );
    }
    assert!(rt; refused(&rt, rt.alloc(), 3, 0).is_none());
}

// Whether a chain is of one node without room.
fn is_bare(chain: &Chain<'_>) -> bool {
    chain.elements() == 1 && chain.node(0).capacity() == 0
}

// What comes back first, in a word.
fn first_word(mut backs: Returns) -> &'static str {
    word(backs.pop())
}

#[test]
fn shares_stand_on_their_storages(rt: HostRuntime) {
    let alloc = rt.alloc();
    let mut mint = Mint::new();
    let mut chain = chain_of(&rt, alloc, "+ab||&xy|c", &mut mint);
    let part = chain
        .share_range(alloc, 1, 4, &mut mint)
        .expect(&rt, "a share");
    assert!(rt; shows(&part, "b|xy|c") && numbered(&part, &[Some(0), None, Some(2)]));
    let second = chain.share_all(alloc, &mut mint).expect(&rt, "a share");
    assert!(rt; shows(&second, "ab||xy|c") && shows(&chain, "ab||xy|c"));
    let numbers = [Some(0), Some(1), None, Some(2)];
    assert!(rt; numbered(&second, &numbers) && numbered(&chain, &numbers));
    let empty = chain
        .share_range(alloc, 5, 0, &mut mint)
        .expect(&rt, "a share");
    assert!(rt; numbered(&empty, &[Some(3)]) && is_bare(&empty));
    assert!(rt; first_word(empty.give_back()) == "done");
}

// The weight of the first node.
fn weight(chain: &Chain<'_>) -> u64 {
    let _nodes = chain.elements();
    chain.node(0).weight()
}

// The weight that the first receipt tells, where others keep the storage.
fn kept_weight(mut backs: Returns) -> Option<u64> {
    match backs.pop() {
        Some(Back::Kept(receipt)) => Some(receipt.weight()),
        _ => None,
    }
}

#[test]
fn shares_have_a_part_of_the_weight(rt: HostRuntime) {
    let mut mint = Mint::new();
    let mut chain = chain_of(&rt, rt.alloc(), "z", &mut mint);
    let clone = chain
        .share_all(rt.alloc(), &mut mint)
        .expect(&rt, "a share");
    assert!(rt; shows(&chain, "z") && clone.elements() == 1);
    assert_eq!(rt; weight(&chain), (1 << 62) - (1 << 40));
    assert_eq!(rt; weight(&clone), 1 << 40);
    assert!(rt; kept_weight(clone.give_back()) == Some(1 << 40));
    assert!(rt; first_word(chain.give_back()) == "done");
}
