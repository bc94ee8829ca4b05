ghost use Rattle.std.specs.Prelude.{◌≡◌, None};
ghost use Rattle.frame_head.specs.Codecs.{fault_of};

use super::*;
use any_scanner::AnyScanner;
use frame_head::{Codec, LineEnd};
use frame_rule::Framer;
use std::test::Fail;

// Frames with their length in a first byte, which isn't handed on.
fn by_first_byte() -> Codec
    ensures { fault_of result ≡ None }
{
    Codec::Length {
        field: 1,
        offset: 0,
        adjust: 0,
        strip: 1,
        little: false,
        max: 256,
    }
}

fn lines() -> Codec
    ensures { fault_of result ≡ None }
{
    Codec::Line {
        ending: LineEnd::Any,
        strip: true,
        max: 3,
    }
}

// A unit as its offset and, of a frame, its length.
fn outline(unit: &FrameUnit) -> (u64, Option<usize>) {
    match unit {
        FrameUnit::Frame { at, chain } => (*at, Some(chain.length())),
        FrameUnit::Fault { at, .. } => (*at, None),
    }
}

// Whether the units are these.
fn are(found: &[FrameUnit], outlines: &[(u64, Option<usize>)]) -> bool {
    found.len() == outlines.len() && (0..found.len()).all(|i| outline(&found[i]) == outlines[i])
}

#[test]
fn frames_do_not_depend_on_the_cuts(rt: HostRuntime) -> Result<(), Fail> {
    let alloc = rt.alloc();
    let whole: [&[u8]; 1] = [b"\x03abc\x01x\x02y"];
    let cut: [&[u8]; 3] = [b"\x03a", b"bc\x01", b"x\x02y"];
    let outlines = [(0, Some(3)), (4, Some(1)), (6, None)];
    for pieces in [whole.as_slice(), cut.as_slice()] {
        let found = decode(alloc, Framer::<AnyScanner>::new(by_first_byte()), pieces)?;
        assert!(rt; are(&found, &outlines));
    }
    let whole: [&[u8]; 1] = [b"abc\r\nabcd\n\nx"];
    let cut: [&[u8]; 4] = [b"abc\r", b"\nabc", b"d\n", b"\nx"];
    let outlines = [(0, Some(3)), (5, None), (10, Some(0)), (11, Some(1))];
    for pieces in [whole.as_slice(), cut.as_slice()] {
        let found = decode(alloc, Framer::<AnyScanner>::new(lines()), pieces)?;
        assert!(rt; are(&found, &outlines));
    }
    Ok(())
}

#[test]
fn first_words_are_counted(rt: HostRuntime) -> Result<(), Fail> {
    let alloc = rt.alloc();
    let log = b"GET /\nPUT /a b\r\nGET /b\n\nGET".as_slice();
    let counts = count_first_words(alloc, log)?;
    let words: [(&[u8], u64); 3] = [(b"", 1), (b"GET", 3), (b"PUT", 1)];
    assert_eq!(rt; counts.len(), 3);
    assert!(rt;
        counts
            .iter()
            .zip(words)
            .all(|((word, n), want)| (word.as_slice(), *n) == want)
    );
    Ok(())
}
