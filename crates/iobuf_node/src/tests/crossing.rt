use crate::IoBuf;
use crate::tests::owners::owned;
use share_count::Mint;
use std::alloc::Global;
use std::process::Abort;
use std::sync::Arc;
use std::sync::atomic::{AtomicU64, Ordering};
use std::thread::map_vec;
use storage::Owner;

// What moves between threads.
fn moves<T: Send>(value: T) -> T {
    value
}

fn nodes(node: IoBuf<'static>) -> IoBuf<'static> {
    moves(node)
}

fn owned_nodes(node: IoBuf<'static, Owner>) -> IoBuf<'static, Owner> {
    moves(node)
}

// How often the byte stands in the data, as a node reads it again and again. At byte 0 the node is dropped at once.
fn reads_or_drops((byte, node): (u8, IoBuf<'static, Owner>)) -> usize {
    if byte == 0 {
        drop(node);
        return 0;
    }
    let mut count = 0usize;
    for _ in 0..100 {
        count = count.wrapping_add(node.bytes().iter().filter(|b| **b == byte).count());
    }
    count
}

// Four clones that look for a byte, and the node itself, which looks for none.
fn jobs(
    rt: &impl Abort,
    alloc: Global,
    byte: u8,
    mut node: IoBuf<'static, Owner>,
    mint: &mut Mint,
) -> Vec<(u8, IoBuf<'static, Owner>), Global> {
    let mut jobs = Vec::new(alloc);
    for _ in 0..4 {
        let clone = node.clone_one(alloc, mint).expect(rt, "a clone");
        jobs.push((byte, clone)).expect(rt, "memory for a list");
    }
    jobs.push((0, owned_nodes(node)))
        .expect(rt, "memory for a list");
    jobs
}

#[test]
fn four_read_while_a_fifth_drops(rt: HostRuntime) {
    let alloc = rt.alloc();
    let mut mint = Mint::new();
    let told = Arc::new(alloc, AtomicU64::new(0)).expect(&rt, "memory for a word");
    let node = owned(&rt, alloc, &[3; 200], &told, &mut mint);
    let jobs = jobs(&rt, alloc, 3, node, &mut mint);
    let found = map_vec(&rt, jobs, &|job| reads_or_drops(job)).expect(&rt, "threads");
    assert!(rt; found.as_slice() == [20_000, 20_000, 20_000, 20_000, 0].as_slice());
    assert!(rt; told.load(Ordering::SeqCst) == (1 << 32) + 200);
}

#[test]
fn nodes_without_owners_move(rt: HostRuntime) {
    let made = IoBuf::create(rt.alloc(), 1, &mut Mint::new()).expect(&rt, "memory for a node");
    assert!(rt; nodes(made).tailroom() == 1);
}
