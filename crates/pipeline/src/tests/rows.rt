use crate::tests::{Kind, came_back, frame_of, pipeline_of, shows, told};
use share_count::Mint;
use std::alloc::Global;
use std::process::Abort;

// Stages, a frame, what becomes of it, its nodes afterwards, and how many were handed back.
type Row = (
    &'static [Kind],
    &'static str,
    &'static str,
    &'static str,
    usize,
);

// Puts a row's frame through its stages.
fn reads(rt: &impl Abort, alloc: Global, row: Row) {
    let (kinds, text, says, left, backs) = row;
    let mut mint = Mint::new();
    let frame = frame_of(rt, alloc, text, &mut mint);
    let mut pipeline = pipeline_of(rt, alloc, kinds);
    let (step, back) = pipeline
        .read(alloc, frame, &mut mint)
        .ok()
        .expect(rt, "memory for the stages");
    assert!(rt; told(&step, left) == (says, true));
    assert!(rt; came_back(back) == backs);
}

#[test]
fn frames_of_one_node(rt: HostRuntime) {
    let alloc = rt.alloc();
    let rows: [Row; 14] = [
        (&[], "ab", "pass", "ab", 0),
        (&[Kind::S(1), Kind::U], "\x01a", "pass", "A", 0),
        (&[Kind::M(2)], "a", "skip", "a", 0),
        (&[Kind::M(2)], "ab", "pass", "ab", 0),
        (&[Kind::M(0)], "", "pass", "", 0),
        (&[Kind::S(0)], "abc", "pass", "abc", 0),
        (&[Kind::S(3)], "abc", "pass", "", 0),
        (&[Kind::S(4)], "abc", "pass", "", 0),
        (&[Kind::K(0)], "abc", "pass", "", 0),
        (&[Kind::K(3)], "abc", "pass", "abc", 0),
        (&[Kind::K(4)], "abc", "pass", "abc", 0),
        (&[Kind::K(2), Kind::S(1)], "abc", "pass", "b", 0),
        (&[Kind::S(2), Kind::M(2), Kind::U], "abc", "skip", "c", 0),
        (&[Kind::U], "`az{[@AZ09", "pass", "`AZ{[@AZ09", 0),
    ];
    for row in rows {
        reads(&rt, alloc, row);
    }
}

#[test]
fn frames_of_more_nodes(rt: HostRuntime) {
    let alloc = rt.alloc();
    let rows: [Row; 14] = [
        (&[Kind::S(0)], "|ab|", "pass", "|ab|", 0),
        (&[Kind::S(1)], "ab|cd", "pass", "b|cd", 0),
        (&[Kind::S(2)], "ab|cd", "pass", "cd", 1),
        (&[Kind::S(3)], "ab|cd", "pass", "d", 1),
        (&[Kind::S(3)], "ab||cd", "pass", "|d", 1),
        (&[Kind::S(4)], "ab|cd", "pass", "", 1),
        (&[Kind::S(9)], "a|b|c", "pass", "", 2),
        (&[Kind::S(9)], "a||c", "pass", "", 2),
        (&[Kind::K(3)], "ab|cd", "pass", "ab|c", 0),
        (&[Kind::K(2)], "ab|cd|", "pass", "ab|", 1),
        (&[Kind::K(0)], "ab|cd", "pass", "", 1),
        (&[Kind::S(2), Kind::K(2)], "ab|cd|ef", "pass", "cd", 2),
        (&[Kind::S(3), Kind::M(2)], "ab|c|d", "skip", "d", 2),
        (&[Kind::U, Kind::S(1)], "a|b", "pass", "B", 1),
    ];
    for row in rows {
        reads(&rt, alloc, row);
    }
}

#[test]
fn letters_do_not_show_elsewhere(rt: HostRuntime) {
    let alloc = rt.alloc();
    let mut mint = Mint::new();
    let mut frame = frame_of(&rt, alloc, "ab||c", &mut mint);
    let other = frame.share_all(alloc, &mut mint).expect(&rt, "a share");
    let mut pipeline = pipeline_of(&rt, alloc, &[Kind::U]);
    let (step, back) = pipeline
        .read(alloc, frame, &mut mint)
        .ok()
        .expect(&rt, "memory for the copies");
    assert!(rt; told(&step, "AB||C") == ("pass", true));
    assert!(rt; came_back(back) == 3);
    assert!(rt; shows(&other, "ab||c"));
}

#[test]
fn a_node_that_is_found_alone_is_not_copied(rt: HostRuntime) {
    let alloc = rt.alloc();
    let mut mint = Mint::new();
    let mut frame = frame_of(&rt, alloc, "ab|c", &mut mint);
    // A share that is gone again: the nodes don't have all weight, and nobody else holds their storages.
    drop(frame.share_all(alloc, &mut mint).expect(&rt, "a share"));
    let mut pipeline = pipeline_of(&rt, alloc, &[Kind::U]);
    let (step, back) = pipeline
        .read(alloc, frame, &mut mint)
        .ok()
        .expect(&rt, "memory for the list");
    assert!(rt; told(&step, "AB|C") == ("pass", true));
    assert!(rt; came_back(back) == 0);
}
