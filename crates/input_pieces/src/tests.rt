use super::*;
use relay_ports::{Failed, Lent, MemSource, Source};
use std::alloc::{AllocError, Global};
use std::process::Abort;
use std::test::Fail;

// A source that counts its calls.
#[derive(Drop)]
struct Counting {
    inner: MemSource,
    calls: u64,
}

impl Source for Counting {
    ghost use Rattle.relay_ports.specs.Memory.{source_state};

    ghost state = { λ s. source_state s.inner };

    fn read(&mut self, into: &mut [u8]) -> Result<usize, Failed> {
        if self.calls < 1000 {
            self.calls += 1;
        }
        self.inner.read(into)
    }
}

// A source of five bytes, of which a call gives at most `most`, and whose call of this number fails.
fn source_of(alloc: Global, most: usize, fails: Option<u64>) -> Result<Counting, AllocError> {
    let mut failing = Vec::new(alloc);
    if let Some(n) = fails {
        failing.push(n)?;
    }
    let inner = MemSource::new(Vec::from_slice(alloc, b"abcde")?, most.max(1), failing);
    Ok(Counting { inner, calls: 0 })
}

// How a reading goes: how many bytes a call gives, which call fails, the block's size, the limit; the pieces, why no
// more is read, and how often the source was called.
#[derive(Clone, Copy)]
struct Try {
    most: usize,
    fails: Option<u64>,
    block: usize,
    limit: u64,
    pieces: &'static [&'static [u8]],
    stop: Stop,
    calls: u64,
}

fn are(rt: &impl Abort, bytes: &[u8], piece: &[u8]) {
    assert_eq!(rt; bytes, piece);
}

fn reads_as(alloc: Global, rt: &impl Abort, t: &Try) -> Result<(), Fail> {
    let mut mint = Mint::new();
    let source = source_of(alloc, t.most, t.fails)?;
    let mut reader = PieceReader::new(source, t.block.max(1).min(9), t.limit.min(9));
    for piece in t.pieces {
        match reader.next(alloc, &mut mint) {
            Ok(node) => {
                are(rt, node.bytes(), piece);
                assert!(rt; node.whole());
            }
            Err(e) => assert_eq!(rt; e, NoPiece::NoMemory),
        }
    }
    assert_eq!(rt; reader.pieces(), t.pieces.len() as u64);
    // Asked again and again, the reader says the same, and doesn't call the source.
    for _ in 0..3u32 {
        match reader.next(alloc, &mut mint) {
            Ok(_) => assert!(rt; false),
            Err(e) => assert_eq!(rt; e, NoPiece::Stopped(t.stop)),
        }
    }
    assert_eq!(rt; reader.into_input().calls, t.calls);
    Ok(())
}

const WHOLE: Try = Try {
    most: 9,
    fails: None,
    block: 2,
    limit: 9,
    pieces: &[b"ab", b"cd", b"e"],
    stop: Stop::End,
    // A call a piece where the source gives what it is asked for, one more for the end, and none behind it.
    calls: 4,
};

#[test]
fn pieces_up_to_the_end(rt: HostRuntime) -> Result<(), Fail> {
    for t in [
        WHOLE,
        Try {
            most: 1,
            calls: 6,
            ..WHOLE
        },
        Try {
            block: 5,
            pieces: &[b"abcde"],
            calls: 2,
            ..WHOLE
        },
        Try {
            block: 9,
            pieces: &[b"abcde"],
            calls: 2,
            ..WHOLE
        },
        Try { limit: 5, ..WHOLE },
    ] {
        reads_as(rt.alloc(), &rt, &t)?;
    }
    Ok(())
}

#[test]
fn pieces_up_to_a_failure_or_the_limit(rt: HostRuntime) -> Result<(), Fail> {
    for t in [
        Try {
            fails: Some(0),
            pieces: &[],
            stop: Stop::Failure,
            calls: 1,
            ..WHOLE
        },
        Try {
            fails: Some(1),
            pieces: &[b"ab"],
            stop: Stop::Failure,
            calls: 2,
            ..WHOLE
        },
        Try {
            fails: Some(1),
            most: 1,
            pieces: &[b"a"],
            stop: Stop::Failure,
            calls: 2,
            ..WHOLE
        },
        Try {
            fails: Some(3),
            stop: Stop::Failure,
            ..WHOLE
        },
        Try {
            limit: 3,
            pieces: &[b"ab", b"c"],
            stop: Stop::Limit,
            calls: 3,
            ..WHOLE
        },
        Try {
            limit: 0,
            pieces: &[],
            stop: Stop::Limit,
            calls: 1,
            ..WHOLE
        },
        Try {
            limit: 4,
            fails: Some(2),
            pieces: &[b"ab", b"cd"],
            stop: Stop::Failure,
            calls: 3,
            ..WHOLE
        },
    ] {
        reads_as(rt.alloc(), &rt, &t)?;
    }
    Ok(())
}

#[test]
fn pieces_in_lent_blocks(rt: HostRuntime) -> Result<(), Fail> {
    let alloc = rt.alloc();
    let mut mint = Mint::new();
    let mut reader = PieceReader::new(source_of(alloc, 9, None)?, 3, 9);
    for piece in [b"abc".as_slice(), b"de", b""] {
        let block = Lent {
            number: 7,
            bytes: vec![in alloc; b'-'; reader.block()]?,
        };
        match reader.next_lent(alloc, block, &mut mint) {
            Ok(node) => {
                assert_eq!(rt; node.bytes(), piece);
                assert_eq!(rt; node.capacity(), 3usize);
            }
            Err((block, why)) => {
                assert_eq!(rt; piece.len(), 0usize);
                assert_eq!(rt; block.bytes.as_slice(), b"---".as_slice());
                assert_eq!(rt; why, NoPiece::Stopped(Stop::End));
            }
        }
    }
    assert_eq!(rt; (reader.read(), reader.pieces()), (5, 2));
    Ok(())
}
