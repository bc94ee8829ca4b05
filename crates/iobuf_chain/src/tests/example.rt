//! The whole of it once: a chain that is made, joined, taken apart, shared and managed.
use super::{join, shows};
use crate::{Chain, CutFault};
use iobuf_node::IoBuf;
use share_count::Mint;
use std::alloc::Global;
use std::process::Abort;

// A chain of three nodes.
fn three(rt: &impl Abort, alloc: Global, mint: &mut Mint) -> Chain<'static> {
    let head = IoBuf::copy(alloc, b"head ", 0, 0, mint).expect(rt, "memory for a node");
    let mut chain = Chain::of(alloc, head);
    let body = Chain::of(alloc, IoBuf::wrap(b"body"));
    join(rt, &mut chain, body);
    let end = Chain::of(alloc, IoBuf::wrap(b" end"));
    join(rt, &mut chain, end);
    chain
}

// The last of three nodes moves behind the first.
fn put_last_behind_first(rt: &impl Abort, chain: &mut Chain<'static>) {
    assert!(rt; chain.elements() == 3);
    let last = chain.separate(2, 3).expect(rt, "the last node");
    assert!(rt; chain.elements() == 2 && chain.length() < 100 && last.length() < 100);
    chain.insert_after(0, last).expect(rt, "memory for a list");
}

// The second of three nodes becomes the last.
fn put_second_last(rt: &impl Abort, chain: &mut Chain<'static>) {
    assert!(rt; chain.elements() == 3);
    let second = chain.unlink(1);
    join(rt, chain, second);
}

#[test]
fn a_chain_is_taken_apart(rt: HostRuntime) {
    let mut chain = three(&rt, rt.alloc(), &mut Mint::new());
    assert!(rt; shows(&chain, "head |body| end"));
    put_last_behind_first(&rt, &mut chain);
    assert!(rt; shows(&chain, "head | end|body"));
    put_second_last(&rt, &mut chain);
    assert!(rt; shows(&chain, "head |body| end") && chain.elements() == 3);
    let first = chain.pop();
    assert!(rt; shows(&first, "head ") && shows(&chain, "body| end"));
}

#[test]
fn a_chain_is_shared_and_managed(rt: HostRuntime) {
    let alloc = rt.alloc();
    let mut mint = Mint::new();
    let mut chain = three(&rt, alloc, &mut mint);
    let part = chain
        .share_range(alloc, 3, 5, &mut mint)
        .expect(&rt, "a share");
    assert!(rt; shows(&part, "d |bod"));
    let refused = chain.share_range(alloc, 3, 11, &mut mint).err();
    assert!(rt; refused == Some(CutFault::Short { asked: 11, had: 10 }));
    let second = chain.share_all(alloc, &mut mint).expect(&rt, "a share");
    let managed = second
        .into_managed(alloc, &mut mint)
        .expect(&rt, "managed nodes");
    assert!(rt; shows(&managed, "head |body| end") && shows(&chain, "head |body| end"));
}
