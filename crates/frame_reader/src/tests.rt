use super::*;
use crate::blocks::Blocks;
use frame_head::LineEnd;
use share_count::Mint;
use std::io::{self, ErrorKind, Read};
use std::process::Abort;
use std::test::Fail;

// Gives a text a few bytes a call, and fails behind it where it has a kind for that.
#[derive(Drop)]
struct Slow {
    text: &'static [u8],
    most: usize,
    fails: Option<ErrorKind>,
}

impl Read for Slow {
    fn read(&mut self, buf: &mut [u8]) -> io::Result<usize> {
        let n = self.most.min(self.text.len()).min(buf.len());
        if n == 0 {
            if let Some(kind) = self.fails {
                return Err(io::Error::from(kind));
            }
        }
        let (front, rest) = self.text.split_at(n);
        buf[..n].copy_from_slice(front);
        self.text = rest;
        Ok(n)
    }
}

fn lines() -> Codec {
    Codec::Line {
        ending: LineEnd::Any,
        strip: true,
        max: 3,
    }
}

// A unit as its offset and, of a frame, its length.
fn outline(unit: &FrameUnit) -> (u64, Option<usize>) {
    match unit {
        FrameUnit::Frame { at, chain } => (*at, Some(chain.length())),
        FrameUnit::Fault { at, .. } => (*at, None),
    }
}

#[test]
fn units_then_the_end_or_the_error(rt: HostRuntime) -> Result<(), Fail> {
    for (most, fails) in [(1, None), (9, None), (2, Some(ErrorKind::ConnectionReset))] {
        let input = Slow {
            text: b"abc\r\nabcd\n\nx",
            most,
            fails,
        };
        let Ok(mut frames) = FrameReader::new(rt.alloc(), input, lines()) else {
            assert!(rt; false);
            return Ok(());
        };
        for want in [(0, Some(3)), (5, None), (10, Some(0))] {
            match frames.next() {
                Ok(Some(unit)) => assert_eq!(rt; outline(&unit), want),
                _ => assert!(rt; false),
            }
        }
        if let Some(kind) = fails {
            for _ in 0..2u32 {
                match frames.next() {
                    Err(e) => assert_eq!(rt; e, FrameError::Input(kind)),
                    Ok(_) => assert!(rt; false),
                }
            }
        } else {
            match frames.next() {
                Ok(Some(unit)) => assert_eq!(rt; outline(&unit), (11, Some(1))),
                _ => assert!(rt; false),
            }
            for _ in 0..2u32 {
                assert!(rt; matches!(frames.next(), Ok(None)));
            }
        }
    }
    Ok(())
}

#[test]
fn spent_block_is_filled_again(rt: HostRuntime) -> Result<(), Fail> {
    let alloc = rt.alloc();
    let mut mint = Mint::new();
    let mut blocks = Blocks::new();
    let mut bytes = blocks.take(alloc)?;
    bytes[0] = 7;
    let mut node = reader::node_on(alloc, bytes, 0, &mut mint)?;
    blocks.hold(reader::share_of(&mut node)?);
    drop(node);
    blocks.hold(None);
    assert_eq!(rt; blocks.take(alloc)?[0], 7);
    Ok(())
}

#[test]
fn blocks_are_as_large_as_reads(rt: HostRuntime) -> Result<(), Fail> {
    let alloc = rt.alloc();
    let mut blocks = Blocks::new();
    for (count, size) in [
        (8192, 16384),
        (4096, 16384),
        (4095, 8192),
        (1, 4096),
        (4096, 8192),
    ] {
        let block = blocks.take(alloc)?;
        blocks.filled(count, block.len());
        assert_eq!(rt; blocks.take(alloc)?.len(), size);
    }
    for _ in 0..9u32 {
        let size = blocks.take(alloc)?.len();
        blocks.filled(0, size);
    }
    assert_eq!(rt; blocks.take(alloc)?.len(), 256);
    for _ in 0..9u32 {
        let size = blocks.take(alloc)?.len();
        blocks.filled(size, size);
    }
    assert_eq!(rt; blocks.take(alloc)?.len(), 65536);
    Ok(())
}
