use crate::tests::{Kind, came_back, frame_of, pipeline_of};
use frame_batch::{Batch, Window};
use iobuf_chain::Frame;
use share_count::Mint;
use std::alloc::Global;
use std::process::Abort;

// Stages, the nodes of a chain, the windows on it, the frames afterwards, each with a comma behind it and a bar where a
// node ends in one, and how many nodes were handed back.
type Row = (
    &'static [Kind],
    &'static str,
    &'static [(u64, u64)],
    &'static str,
    usize,
);

fn batch_of(rt: &impl Abort, alloc: Global, chain: Frame, windows: &[(u64, u64)]) -> Batch {
    let mut list = Vec::new(alloc);
    for (place, size) in windows {
        let window = Window {
            place: *place,
            size: *size,
        };
        list.push(window).expect(rt, "memory for a window");
    }
    assert!(rt; Window::are_in(&list, chain.length()));
    Batch::new(alloc, chain, list)
        .ok()
        .expect(rt, "memory for a list")
}

fn text_of(rt: &impl Abort, alloc: Global, batch: &Batch) -> Vec<u8> {
    let mut text = Vec::new(alloc);
    for frame in batch.frames() {
        let mut first = true;
        for part in frame {
            if !first {
                text.push(b'|').expect(rt, "memory for a text");
            }
            first = false;
            text.extend_from_slice(part).expect(rt, "memory for a text");
        }
        text.push(b',').expect(rt, "memory for a text");
    }
    text
}

// Puts a row's batch through its stages.
fn reads(rt: &impl Abort, alloc: Global, row: Row) {
    let (kinds, nodes, windows, left, backs) = row;
    let mut mint = Mint::new();
    let chain = frame_of(rt, alloc, nodes, &mut mint);
    let batch = batch_of(rt, alloc, chain, windows);
    let pipeline = pipeline_of(rt, alloc, kinds);
    assert!(rt; pipeline.is_plain());
    let (batch, back) = pipeline
        .read_batch(alloc, batch, &mut mint)
        .ok()
        .expect(rt, "memory for the stages");
    assert!(rt;
        text_of(rt, alloc, &batch).as_slice() == left.as_bytes(),
        "{left}"
    );
    assert!(rt; came_back(back) == backs, "{left}");
}

#[test]
fn batches(rt: HostRuntime) {
    let alloc = rt.alloc();
    const EACH: &[(u64, u64)] = &[(0, 2), (2, 0), (2, 3), (5, 1)];
    let rows: [Row; 12] = [
        (&[], "ab|cde|f", EACH, "ab,,cde,f,", 0),
        (&[Kind::S(1)], "ab|cde|f", EACH, "b,,de,,", 0),
        (&[Kind::S(3)], "ab|cde|f", EACH, ",,,,", 0),
        (&[Kind::K(0)], "ab|cde|f", EACH, ",,,,", 0),
        (&[Kind::K(2)], "ab|cde|f", EACH, "ab,,cd,f,", 0),
        (&[Kind::M(2)], "ab|cde|f", EACH, "ab,cde,", 0),
        (&[Kind::M(4)], "ab|cde|f", EACH, "", 0),
        (&[Kind::U], "ab|cde|f", EACH, "AB,,CDE,F,", 0),
        (
            &[Kind::K(2), Kind::S(1), Kind::M(1)],
            "ab|cde|f",
            EACH,
            "b,d,",
            0,
        ),
        (
            &[Kind::M(2), Kind::S(2), Kind::U],
            "ab|cde|f",
            EACH,
            ",E,",
            0,
        ),
        (
            &[Kind::U, Kind::U],
            "`a||z{",
            &[(0, 4), (1, 2)],
            "`A|Z{,A|Z,",
            0,
        ),
        (&[Kind::U], "ab", &[], "", 0),
    ];
    for row in rows {
        reads(&rt, alloc, row);
    }
}

#[test]
fn letters_of_a_batch_do_not_show_in_its_shares(rt: HostRuntime) {
    let alloc = rt.alloc();
    let mut mint = Mint::new();
    let chain = frame_of(&rt, alloc, "ab||c", &mut mint);
    let mut batch = batch_of(&rt, alloc, chain, &[(0, 1), (1, 2)]);
    let share = batch.share(alloc, &mut mint).expect(&rt, "a share");
    let pipeline = pipeline_of(&rt, alloc, &[Kind::S(1), Kind::U]);
    assert!(rt; pipeline.is_plain());
    let (batch, back) = pipeline
        .read_batch(alloc, batch, &mut mint)
        .ok()
        .expect(&rt, "memory for the copies");
    assert!(rt; text_of(&rt, alloc, &batch).as_slice() == b",C,".as_slice());
    assert!(rt; came_back(back) == 3);
    assert!(rt; text_of(&rt, alloc, &share).as_slice() == b"a,b|c,".as_slice());
}

#[test]
fn a_frame_is_a_batch_of_one(rt: HostRuntime) {
    let alloc = rt.alloc();
    let mut mint = Mint::new();
    let batch = Batch::of(frame_of(&rt, alloc, "ab|c", &mut mint));
    let pipeline = pipeline_of(&rt, alloc, &[Kind::S(1), Kind::U]);
    assert!(rt; pipeline.is_plain());
    let (batch, _) = pipeline
        .read_batch(alloc, batch, &mut mint)
        .ok()
        .expect(&rt, "memory for the stages");
    assert!(rt; text_of(&rt, alloc, &batch).as_slice() == b"B|C,".as_slice());
}
