//! Batches that are cut, and lose frames at an end.
use super::{batch_of, chain_of, reads};
use crate::Batch;
use share_count::Mint;
use std::alloc::Global;
use std::process::Abort;

// Whether a batch of four frames is cut into these.
fn cuts(rt: &impl Abort, alloc: Global, k: usize, front: &[&str], rest: &[&str]) -> bool {
    let mut mint = Mint::new();
    let mut batch = batch_of(
        rt,
        alloc,
        "ab|&cd",
        &[(0, 1), (1, 2), (3, 1), (4, 0)],
        &mut mint,
    );
    assert!(rt; k <= batch.len());
    let first = batch.cut(k, alloc, &mut mint).expect(rt, "a share");
    reads(rt, alloc, &first, front) && reads(rt, alloc, &batch, rest)
}

#[test]
fn batches_are_cut(rt: HostRuntime) {
    let alloc = rt.alloc();
    // Where the batch is cut, the frames that leave, and those that stay.
    assert!(rt; cuts(&rt, alloc, 0, &[], &["a", "b|c", "d", ""]));
    assert!(rt; cuts(&rt, alloc, 1, &["a"], &["b|c", "d", ""]));
    assert!(rt; cuts(&rt, alloc, 3, &["a", "b|c", "d"], &[""]));
    assert!(rt; cuts(&rt, alloc, 4, &["a", "b|c", "d", ""], &[]));
}

#[test]
fn a_part_is_cut_again(rt: HostRuntime) {
    let alloc = rt.alloc();
    let mut mint = Mint::new();
    let mut batch = batch_of(
        &rt,
        alloc,
        "ab|&cd",
        &[(0, 1), (1, 2), (3, 1), (4, 0)],
        &mut mint,
    );
    assert!(rt; batch.len() == 4);
    batch.drop_first(1);
    batch.keep_first(2);
    assert!(rt; reads(&rt, alloc, &batch, &["b|c", "d"]) && batch.len() == 2);
    let first = batch.cut(1, alloc, &mut mint).expect(&rt, "a share");
    assert!(rt; reads(&rt, alloc, &first, &["b|c"]) && reads(&rt, alloc, &batch, &["d"]));
}

#[test]
fn a_batch_of_one_is_cut(rt: HostRuntime) {
    let alloc = rt.alloc();
    let mut mint = Mint::new();
    let mut batch = Batch::of(chain_of(&rt, alloc, "ab|&cd", &mut mint));
    assert!(rt; batch.len() == 1);
    let none = batch.cut(0, alloc, &mut mint).expect(&rt, "a share");
    assert!(rt; reads(&rt, alloc, &none, &[]) && batch.len() == 1);
    let first = batch.cut(1, alloc, &mut mint).expect(&rt, "a share");
    assert!(rt; reads(&rt, alloc, &first, &["ab|cd"]) && reads(&rt, alloc, &batch, &[]));
}
