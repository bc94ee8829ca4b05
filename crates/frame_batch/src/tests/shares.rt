//! Batches that are shared.
use super::{batch_of, reads};
use crate::Batch;
use share_count::Mint;

// The number of the storage of the first node, and its weight.
fn first_storage(batch: &Batch) -> (Option<u64>, u64) {
    let chain = batch.chain();
    let _some = chain.elements();
    let node = chain.node(0);
    (node.number(), node.weight())
}

#[test]
fn shares_stand_on_the_same_storages(rt: HostRuntime) {
    let alloc = rt.alloc();
    let mut mint = Mint::new();
    let mut batch = batch_of(&rt, alloc, "ab|&cd", &[(0, 3), (3, 1)], &mut mint);
    let share = batch.share(alloc, &mut mint).expect(&rt, "a share");
    assert!(rt;
        reads(&rt, alloc, &batch, &["ab|c", "d"]) && reads(&rt, alloc, &share, &["ab|c", "d"])
    );
    assert!(rt; first_storage(&batch) == (Some(0), (1 << 62) - (1 << 40)));
    assert!(rt; first_storage(&share) == (Some(0), 1 << 40));
}

// Whatever may go to another thread.
fn sent<T: Send>(value: T) -> T {
    value
}

#[test]
fn batches_go_to_other_threads(rt: HostRuntime) {
    let batch = batch_of(
        &rt,
        rt.alloc(),
        "ab|&cd",
        &[(0, 3), (3, 1)],
        &mut Mint::new(),
    );
    assert!(rt; reads(&rt, rt.alloc(), &sent(batch), &["ab|c", "d"]));
}
