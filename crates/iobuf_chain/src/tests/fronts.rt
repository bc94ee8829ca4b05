//! Chains of which first bytes are shared.
use super::{chain_of, shows};
use crate::Chain;
use share_count::Mint;
use std::alloc::Global;
use std::process::Abort;

// What stays of a chain whose first bytes are shared, and the share, where there is one.
fn shared(
    rt: &impl Abort,
    alloc: Global,
    nodes: &'static str,
    k: usize,
    edges: (usize, usize),
) -> (Chain<'static>, Option<Chain<'static>>) {
    let mut chain = chain_of(rt, alloc, nodes, &mut Mint::new());
    let _nodes = chain.elements();
    let (front, back) = edges;
    assert!(rt; k < chain.node(0).length() && front <= k && back <= k - front);
    let share = chain
        .share_front(alloc, k, edges)
        .expect(rt, "memory for a share");
    (chain, share)
}

// Whether a share has these data, also once the chain that it came from is gone.
fn outlives(chain: Chain<'static>, share: Chain<'static>, data: &str) -> bool {
    let before = shows(&share, data);
    chain.discard();
    let after = shows(&share, data);
    share.discard();
    before && after
}

#[test]
fn first_bytes_are_shared(rt: HostRuntime) {
    // The chain, how many bytes leave it and how many of those at either edge aren't shared, what stays, and the share.
    let rows = [
        ("+abcdef|gh", 5, (1, 2), "f|gh", "bc"),
        ("abc", 0, (0, 0), "abc", ""),
    ];
    for (nodes, k, edges, left, data) in rows {
        let (chain, share) = shared(&rt, rt.alloc(), nodes, k, edges);
        assert!(rt; shows(&chain, left), "at {nodes}");
        let share = share.expect(&rt, "a share");
        assert!(rt; outlives(chain, share, data), "at {nodes}");
    }
}

#[test]
fn first_bytes_of_wrapped_nodes_are_not_shared(rt: HostRuntime) {
    let (chain, share) = shared(&rt, rt.alloc(), "&abc", 2, (0, 0));
    assert!(rt; share.is_none() && shows(&chain, "abc"));
}
