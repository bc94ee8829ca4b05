//! Chains that lose bytes at an end, and that are given back.
use super::{chain_of, join, one, shows, word};
use share_count::Mint;
use std::alloc::Global;
use std::process::Abort;
use storage::Returns;

// Whether these nodes stay where so many bytes leave at the start, and then so many at the end.
fn trims(
    rt: &impl Abort,
    alloc: Global,
    nodes: &'static str,
    start: usize,
    end: usize,
    left: &str,
) -> bool {
    let mut chain = chain_of(rt, alloc, nodes, &mut Mint::new());
    assert!(rt; start <= chain.length());
    chain.trim_start(start);
    assert!(rt; end <= chain.length());
    chain.trim_end(end);
    shows(&chain, left)
}

#[test]
fn chains_are_trimmed(rt: HostRuntime) {
    // The chain, how many bytes leave at the start and at the end, and what is left.
    let rows = [
        ("+abc", 0, 0, "abc"),
        ("+abc", 1, 2, ""),
        ("abc|&|+defg", 4, 1, "||ef"),
        ("abc|&de|+f", 3, 2, "|d|"),
        ("|&ab|+", 1, 1, "||"),
    ];
    for (nodes, start, end, left) in rows {
        assert!(rt;
            trims(&rt, rt.alloc(), nodes, start, end, left),
            "at {nodes}"
        );
    }
}

// Whether these come back, in this order, and no more.
fn came_back(mut backs: Returns, words: &[&str]) -> bool {
    let count = backs.len();
    for expected in words {
        if word(backs.pop()) != *expected {
            return false;
        }
    }
    count == words.len() && backs.pop().is_none()
}

#[test]
fn chains_are_given_back(rt: HostRuntime) {
    let mut mint = Mint::new();
    let mut chain = chain_of(&rt, rt.alloc(), "|+ab", &mut mint);
    assert!(rt; !chain.is_shared());
    let third = one(&rt, rt.alloc(), "&xy", &mut mint);
    join(&rt, &mut chain, third);
    assert!(rt; chain.is_shared());
    assert!(rt; came_back(chain.give_back(), &["done", "done", "nothing"]));
}

#[test]
fn two_chains_are_given_back(rt: HostRuntime) {
    let mut mint = Mint::new();
    let first = chain_of(&rt, rt.alloc(), "a|&b", &mut mint);
    let second = chain_of(&rt, rt.alloc(), "&c|d|e", &mut mint);
    let backs = first.give_back_with(second);
    assert!(rt; came_back(backs, &["done", "nothing", "nothing", "done", "done"]));
}
