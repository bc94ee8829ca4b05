//! Nodes that join, leave and turn, beside lists of bytes that do.
ghost use Rattle.std.specs.Prelude.{◌<◌, ◌+◌, ◌^◌, length};
ghost use Rattle.buffer_model.specs.Segment.{bytes_of};

use super::{chain_of, join, node, shows};
use crate::Chain;
use iobuf_node::IoBuf;
use share_count::Mint;
use std::alloc::Global;
use std::process::Abort;

// Others behind node i.
fn inserts(
    rt: &impl Abort,
    alloc: Global,
    nodes: &'static str,
    i: usize,
    others: &'static str,
    all: &str,
) -> bool {
    let mut mint = Mint::new();
    let mut chain = chain_of(rt, alloc, nodes, &mut mint);
    let second = chain_of(rt, alloc, others, &mut mint);
    assert!(rt; i < chain.elements() && chain.length() <= 1000 && second.length() <= 1000);
    chain
        .insert_after(i, second)
        .expect(rt, "memory for a list");
    shows(&chain, all)
}

#[test]
fn nodes_join_behind_a_node(rt: HostRuntime) {
    // The chain, the node behind which the others come, the others, and all.
    let rows = [
        ("+a", 0, "b", "a|b"),
        ("a|+", 0, "&xy|", "a|xy||"),
        ("+|&b|c", 1, "+de", "|b|de|c"),
        ("+a|+b|+c", 2, "&", "a|b|c|"),
    ];
    for (nodes, i, others, all) in rows {
        assert!(rt;
            inserts(&rt, rt.alloc(), nodes, i, others, all),
            "at {nodes}"
        );
    }
}

// Nodes i up to j away from the others, and back behind the last.
fn leaves(
    rt: &impl Abort,
    alloc: Global,
    nodes: &'static str,
    i: usize,
    j: usize,
    left: &str,
    part: &str,
) -> bool {
    let mut chain = chain_of(rt, alloc, nodes, &mut Mint::new());
    let count = chain.elements();
    assert!(rt; i < j && j <= count && j - i < count);
    let away = chain.separate(i, j).expect(rt, "memory for a list");
    let right = shows(&chain, left) && shows(&away, part) && chain.elements() < count;
    join(rt, &mut chain, away);
    right && chain.elements() == count
}

#[test]
fn nodes_leave(rt: HostRuntime) {
    // The chain, the nodes that leave, what is left, and those.
    let rows = [
        ("+a|b", 0, 1, "b", "a"),
        ("+a|b", 1, 2, "a", "b"),
        ("|&xy|+c|", 0, 3, "", "|xy|c"),
        ("|&xy|+c|d", 1, 3, "|d", "xy|c"),
        ("+a|+b|+c", 1, 3, "a", "b|c"),
    ];
    for (nodes, i, j, left, part) in rows {
        assert!(rt;
            leaves(&rt, rt.alloc(), nodes, i, j, left, part),
            "at {nodes}"
        );
    }
}

// Node i first.
fn turns(rt: &impl Abort, alloc: Global, nodes: &'static str, i: usize, turned: &str) -> bool {
    let mut chain = chain_of(rt, alloc, nodes, &mut Mint::new());
    assert!(rt; i < chain.elements());
    chain.rotate(i);
    shows(&chain, turned)
}

#[test]
fn chains_turn(rt: HostRuntime) {
    // The chain, the node that comes first, and the chain then.
    let rows = [
        ("+a", 0, "a"),
        ("+a|&|c", 0, "a||c"),
        ("+a|&|c", 1, "|c|a"),
        ("+a|&|c", 2, "c|a|"),
    ];
    for (nodes, i, turned) in rows {
        assert!(rt; turns(&rt, rt.alloc(), nodes, i, turned), "at {nodes}");
    }
}

// Node i away, by itself.
fn unlinks(
    rt: &impl Abort,
    alloc: Global,
    nodes: &'static str,
    i: usize,
    left: &str,
    one: &str,
) -> bool {
    let mut chain = chain_of(rt, alloc, nodes, &mut Mint::new());
    assert!(rt; i < chain.elements() && chain.elements() > 1);
    let away = if i == 0 { chain.pop() } else { chain.unlink(i) };
    shows(&chain, left) && shows(&away, one)
}

#[test]
fn single_nodes_leave(rt: HostRuntime) {
    // The chain, the node that leaves, what is left, and that node.
    let rows = [
        ("a|+", 0, "", "a"),
        ("a|+", 1, "a", ""),
        ("&ab|+c|d", 0, "c|d", "ab"),
        ("&ab|+c|d", 1, "ab|d", "c"),
    ];
    for (nodes, i, left, one) in rows {
        assert!(rt; unlinks(&rt, rt.alloc(), nodes, i, left, one), "at {nodes}");
    }
}

fn cut<'a>(chain: &mut Chain<'a>, i: usize, last: IoBuf<'a>) -> Result<Chain<'a>, IoBuf<'a>>
    requires there { i < length chain.old }
    requires sum { length (bytes_of chain.old) + length last.window < 2 ^ 64 }
{
    chain.cut_before(i, last)
}

// The nodes before node i away, with `last` behind them.
fn cuts(
    rt: &impl Abort,
    alloc: Global,
    nodes: &'static str,
    i: usize,
    last: &'static str,
    left: &str,
    front: &str,
) -> bool {
    let mut mint = Mint::new();
    let mut chain = chain_of(rt, alloc, nodes, &mut mint);
    let last = node(rt, alloc, last, &mut mint);
    assert!(rt; i < chain.elements() && chain.length() <= 1000 && last.length() <= 1000);
    let away = cut(&mut chain, i, last).expect(rt, "memory for a list");
    shows(&chain, left) && shows(&away, front)
}

#[test]
fn fronts_are_cut_off(rt: HostRuntime) {
    // The chain, the node before which it is cut, the node that comes last in the front, what is left, and the front.
    let rows = [
        ("a|+b", 0, "&x", "a|b", "x"),
        ("a|+b", 1, "&", "b", "a|"),
        ("+|&bc|d", 2, "e", "d", "|bc|e"),
    ];
    for (nodes, i, last, left, front) in rows {
        assert!(rt;
            cuts(&rt, rt.alloc(), nodes, i, last, left, front),
            "at {nodes}"
        );
    }
}

fn swap<'a>(chain: &mut Chain<'a>, i: usize, node: IoBuf<'a>) -> IoBuf<'a>
    requires there { i < length chain.old }
    requires sum { length (bytes_of chain.old) + length node.window < 2 ^ 64 }
{
    let _old = chain.node(i);
    chain.swap_node(i, node)
}

// A node in the place of node i, which comes back.
fn change<'a>(rt: &impl Abort, chain: &mut Chain<'a>, i: usize, node: IoBuf<'a>) -> IoBuf<'a> {
    assert!(rt; i < chain.elements() && chain.length() <= 1000 && node.length() <= 1000);
    swap(chain, i, node)
}

// Node i changed for another, and back.
#[test]
fn nodes_are_swapped(rt: HostRuntime) {
    let mut chain = chain_of(&rt, rt.alloc(), "+ab|c", &mut Mint::new());
    for (i, changed) in [(0, "xyz|c"), (1, "ab|xyz")] {
        let old = change(&rt, &mut chain, i, IoBuf::wrap(b"xyz"));
        assert!(rt; shows(&chain, changed));
        let other = change(&rt, &mut chain, i, old);
        assert!(rt; other.bytes() == b"xyz".as_slice() && shows(&chain, "ab|c"));
    }
}
