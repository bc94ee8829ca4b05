//! Frames that are read in place.
use super::{batch_of, chain_of, reads, windows_of};
use crate::{Batch, Window, WindowList};
use share_count::Mint;
use std::alloc::Global;
use std::fmt::Write;
use std::process::Abort;

// Whether the frames of these windows are these.
fn shows(
    rt: &impl Abort,
    alloc: Global,
    nodes: &'static str,
    windows: &[(u64, u64)],
    frames: &[&str],
) -> bool {
    let batch = batch_of(rt, alloc, nodes, windows, &mut Mint::new());
    reads(rt, alloc, &batch, frames)
}

#[test]
fn frames_are_read(rt: HostRuntime) {
    let alloc = rt.alloc();
    // The chain, the windows, and the frames, with a bar where a node ends in one.
    assert!(rt; shows(&rt, alloc, "abc", &[], &[]));
    assert!(rt;
        shows(
            &rt,
            alloc,
            "abc",
            &[(0, 1), (1, 2), (3, 0)],
            &["a", "bc", ""]
        )
    );
    assert!(rt;
        shows(
            &rt,
            alloc,
            "ab|&cd",
            &[(0, 2), (2, 2), (1, 2)],
            &["ab", "cd", "b|c"]
        )
    );
    assert!(rt;
        shows(
            &rt,
            alloc,
            "|ab||&cde|",
            &[(0, 1), (1, 0), (1, 3), (4, 1), (5, 0)],
            &["a", "", "b|cd", "e", ""]
        )
    );
    assert!(rt;
        shows(
            &rt,
            alloc,
            "ab|c|de",
            &[(0, 5), (3, 2), (0, 5), (2, 1)],
            &["ab|c|de", "de", "ab|c|de", "c"]
        )
    );
    assert!(rt; shows(&rt, alloc, "|", &[(0, 0), (0, 0)], &["", ""]));
}

#[test]
fn a_chain_is_a_batch_of_one(rt: HostRuntime) {
    let alloc = rt.alloc();
    let mut mint = Mint::new();
    let batch = Batch::of(chain_of(&rt, alloc, "ab||&c", &mut mint));
    assert!(rt; reads(&rt, alloc, &batch, &["ab|c"]));
    let batch = Batch::from(batch.into_chain());
    assert!(rt; reads(&rt, alloc, &batch, &["ab|c"]) && batch.chain().elements() == 3);
    let empty = Batch::of(chain_of(&rt, alloc, "&", &mut mint));
    assert!(rt; reads(&rt, alloc, &empty, &[""]));
}

// Other windows on the chain of a batch.
fn set(rt: &impl Abort, alloc: Global, batch: &mut Batch, windows: &[(u64, u64)]) {
    let list = windows_of(rt, alloc, windows);
    assert!(rt; Window::are_in(&list, batch.chain().length()));
    batch
        .set_windows(alloc, list)
        .expect(rt, "memory for a list");
}

#[test]
fn windows_change(rt: HostRuntime) {
    let alloc = rt.alloc();
    let mut mint = Mint::new();
    let mut batch = batch_of(&rt, alloc, "ab|&cd", &[(0, 1), (1, 3)], &mut mint);
    let share = batch.share(alloc, &mut mint).expect(&rt, "a share");
    set(&rt, alloc, &mut batch, &[(2, 2), (0, 2), (1, 2)]);
    assert!(rt; reads(&rt, alloc, &batch, &["cd", "ab", "b|c"]));
    assert!(rt; reads(&rt, alloc, &share, &["a", "b|cd"]));
    let mut one = Batch::of(chain_of(&rt, alloc, "abc", &mut mint));
    set(&rt, alloc, &mut one, &[(1, 1)]);
    assert!(rt; reads(&rt, alloc, &one, &["b"]));
    set(&rt, alloc, &mut one, &[]);
    assert!(rt; reads(&rt, alloc, &one, &[]));
}

#[test]
fn a_batch_is_taken_apart(rt: HostRuntime) {
    let alloc = rt.alloc();
    let mut batch = batch_of(
        &rt,
        alloc,
        "ab|&cd",
        &[(0, 1), (1, 3), (4, 0)],
        &mut Mint::new(),
    );
    assert!(rt; batch.len() == 3);
    batch.drop_first(1);
    let (chain, windows) = batch.into_parts();
    assert!(rt; windows.len() == 2 && !windows.is_empty());
    assert!(rt; windows.window(0) == Window { place: 1, size: 3 });
    let same = Batch::from_parts(chain, windows);
    assert!(rt; reads(&rt, alloc, &same, &["b|cd", ""]));
    let chain = same.into_chain();
    let list = windows_of(&rt, alloc, &[(0, 2), (3, 1)]);
    assert!(rt; Window::are_in(&list, chain.length()));
    let list = WindowList::new(alloc, list).expect(&rt, "memory for a list");
    let other = Batch::from_parts(chain, list);
    assert!(rt; reads(&rt, alloc, &other, &["ab", "d"]));
    let chain = other.into_chain();
    assert!(rt; chain.length() == 4);
    let last = Batch::from_parts(chain, WindowList::one(Window { place: 2, size: 2 }));
    assert!(rt; reads(&rt, alloc, &last, &["cd"]));
}

// Whether frame i lies there.
fn lies(batch: &Batch, i: usize, place: u64, size: u64) -> bool {
    i < batch.len() && batch.window(i) == Window { place, size }
}

#[test]
fn windows_are_told(rt: HostRuntime) {
    let alloc = rt.alloc();
    let mut batch = batch_of(
        &rt,
        alloc,
        "ab|&cd",
        &[(0, 1), (1, 3), (4, 0)],
        &mut Mint::new(),
    );
    assert!(rt; lies(&batch, 0, 0, 1) && lies(&batch, 1, 1, 3) && lies(&batch, 2, 4, 0));
    assert!(rt; batch.len() == 3);
    batch.drop_first(1);
    assert!(rt; lies(&batch, 0, 1, 3) && batch.len() == 2);
    let one = Batch::of(batch.into_chain());
    assert!(rt; lies(&one, 0, 0, 4));
}

#[test]
fn a_batch_tells_its_sizes(rt: HostRuntime) {
    let batch = batch_of(
        &rt,
        rt.alloc(),
        "ab|&cd",
        &[(0, 1), (1, 3), (4, 0)],
        &mut Mint::new(),
    );
    let text = format!(in rt.alloc(); "{batch:?}").expect(&rt, "memory for a text");
    assert_eq!(rt; text.as_str(), "Batch { frames: 3, bytes: 4 }");
}
