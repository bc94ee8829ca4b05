use crate::codecs::lines;
use crate::rig::{Rig, one_node};
use any_scanner::AnyScanner;
use frame_batch::Batch;
use frame_head::{LineEnd, check};
use frame_mark::Marked;
use std::alloc::Global;
use std::process::Abort;
use std::test::Fail;

// The number of the block in which a batch of one node lies.
fn block_of(batch: &Option<Batch>) -> Option<u64> {
    let Some(batch) = batch else {
        return None;
    };
    if batch.chain().elements() != 1 {
        return None;
    }
    batch.chain().node(0).number()
}

// Lines of at most `max` bytes.
fn rig(rt: &impl Abort, alloc: Global, max: u64) -> Result<Rig<AnyScanner>, Fail> {
    let codec = lines(LineEnd::Lf, true, max);
    assert!(rt; check(&codec).is_ok());
    Rig::new(alloc, &codec)
}

// All frames of a block are one batch of one node, on the block's storage; what is open behind them is kept, on the
// same storage, and is the last batch. What a bound leaves is handed back.
#[test]
fn a_block_is_one_batch(rt: HostRuntime) -> Result<(), Fail> {
    let alloc = rt.alloc();
    let mut rig = rig(&rt, alloc, 100)?;
    let piece = one_node(alloc, b"a\nb\nc\nd", &mut rig.mint)?;
    let number = piece.node(0).number();
    let Marked { batch, rest } = rig.marks(alloc, piece, 2, "F 0 61,F 2 62,")?;
    assert_eq!(rt; block_of(&batch), number);
    assert_eq!(rt; (rig.marker.held(), rig.marker.fed()), (0, 4));
    let Some(rest) = rest else {
        return Err(Fail::from("nothing is left"));
    };
    assert_eq!(rt; rest.length(), 3);
    let Marked { batch, rest } = rig.marks(alloc, rest, 2, "F 4 63,")?;
    assert_eq!(rt; block_of(&batch), number);
    assert!(rt; rest.is_none());
    assert_eq!(rt; (rig.marker.held(), rig.finds.back.len()), (1, 0));
    assert_eq!(rt; block_of(&rig.last()), number);
    Ok(())
}

// A block without a frame is handed back at once.
#[test]
fn blocks_without_frames_are_handed_back(rt: HostRuntime) -> Result<(), Fail> {
    let alloc = rt.alloc();
    let mut rig = rig(&rt, alloc, 2)?;
    let rows: [(&[u8], &str, usize); 4] = [
        (b"", "", 1),
        (b"abcdefgh", "", 2),
        (b"ij\n", "X 0 TooLong,", 3),
        (b"k\nlmnopq", "F 11 6b,", 3),
    ];
    for (bytes, want, handed) in rows {
        let piece = one_node(alloc, bytes, &mut rig.mint)?;
        let marked = rig.marks(alloc, piece, 9, want)?;
        assert!(rt; marked.rest.is_none());
        assert_eq!(rt; (rig.finds.back.len(), rig.marker.held()), (handed, 0));
    }
    Ok(())
}

// A dead decoder hands a piece back, and marks nothing.
#[test]
fn the_dead_mark_nothing(rt: HostRuntime) -> Result<(), Fail> {
    let alloc = rt.alloc();
    let mut rig = rig(&rt, alloc, 2)?;
    assert!(rt; rig.marker.give_back().is_none());
    let piece = one_node(alloc, b"x\n", &mut rig.mint)?;
    assert!(rt; rig.mark(alloc, piece, 9)?.is_none());
    assert_eq!(rt; (rig.finds.back.len(), rig.finds.marks.len()), (1, 0));
    assert!(rt; rig.last().is_none());
    Ok(())
}
