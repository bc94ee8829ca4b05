use crate::Block;
use std::test::Fail;

#[test]
fn blocks(rt: HostRuntime) -> Result<(), Fail> {
    let alloc = rt.alloc();
    let mut zeros = Block::new(alloc, 3)?;
    assert!(rt; zeros.cap() == 3 && zeros.bytes() == [0, 0, 0].as_slice());
    zeros.bytes_mut().fill(7);
    assert!(rt; zeros.bytes() == [7, 7, 7].as_slice());
    assert!(rt; Block::new(alloc, 0)?.cap() == 0);

    // From where to where how many bytes of `abcdef` are copied, and the block afterwards.
    let rows: [(usize, usize, usize, &[u8]); 7] = [
        (0, 0, 6, b"abcdef"),
        (0, 1, 5, b"aabcde"),
        (1, 0, 5, b"bcdeff"),
        (0, 4, 2, b"abcdab"),
        (4, 0, 2, b"efcdef"),
        (6, 0, 0, b"abcdef"),
        (2, 3, 2, b"abccdf"),
    ];
    for &(from, to, n, block) in &rows {
        let mut copied = Block::from_vec(Vec::from_slice(alloc, b"abcdef")?);
        assert!(rt; from <= 6 && to <= 6 && n <= 6 - from && n <= 6 - to && copied.cap() == 6);
        copied.copy_within(from, to, n);
        assert!(rt; copied.bytes() == block);
    }

    let mut part = Block::from_vec(Vec::from_slice(alloc, b"abcdef")?);
    assert!(rt; part.cap() == 6);
    part.span_mut(2, 4).fill(b'z');
    assert!(rt; part.into_vec().as_slice() == b"abzzef".as_slice());
    Ok(())
}
