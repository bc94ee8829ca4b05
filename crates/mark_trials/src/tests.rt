ghost use Rattle.std.specs.Prelude.{◌≡◌, None};
ghost use Rattle.frame_head.specs.Codecs.{fault_of};

use crate::codecs::{BYTE, Field, by_field, delims, lines};
use crate::rig::{Rig, one_node};
use any_scanner::AnyScanner;
use frame_head::{Codec, LineEnd, check};
use std::alloc::Global;
use std::process::Abort;
use std::test::Fail;

// More than any of the streams has.
const WHOLE: usize = 1000;

const PIECES: [usize; 4] = [1, 2, 3, WHOLE];

// How many units a call marks.
const BOUNDS: [usize; 4] = [1, 2, 3, WHOLE];

// A stream has these units whatever the size of its pieces, and however many units a call marks.
fn cuts(
    rt: &impl Abort,
    alloc: Global,
    codec: &Codec,
    input: &[u8],
    want: &str,
) -> Result<(), Fail> {
    assert!(rt; check(codec).is_ok());
    for piece in PIECES {
        for most in BOUNDS {
            let got = marked(alloc, codec, input, piece, most)?;
            assert_eq!(rt;
                got.as_str(),
                want,
                "in pieces of {piece}, {most} at a time"
            );
        }
    }
    Ok(())
}

// The units of a stream that comes in pieces of one size, so many at a time.
fn marked(
    alloc: Global,
    codec: &Codec,
    input: &[u8],
    piece: usize,
    most: usize,
) -> Result<String, Fail>
    requires { fault_of codec.now ≡ None }
{
    let mut rig = Rig::<AnyScanner>::new(alloc, codec)?;
    'pieces: for bytes in input.chunks(piece.max(1)) {
        let piece = one_node(alloc, bytes, &mut rig.mint)?;
        rig.mark_all(alloc, piece, most)?;
    }
    rig.end(alloc)?;
    Ok(rig.text)
}

// The endings, whether they are stripped, the maximum, the stream and its units.
#[test]
fn lines_in_pieces(rt: HostRuntime) -> Result<(), Fail> {
    let (any, crlf, lf) = (LineEnd::Any, LineEnd::Crlf, LineEnd::Lf);
    let rows: [(LineEnd, bool, u64, &[u8], &str); 8] = [
        (any, true, 100, b"a\r\nb\n", "F 0 61,F 3 62,"),
        (any, false, 100, b"a\r\nb\n", "F 0 610d0a,F 3 620a,"),
        (crlf, true, 100, b"a\nb\r\n\r\n", "F 0 610a62,F 5 ,"),
        (lf, true, 100, b"a\r\n\n", "F 0 610d,F 3 ,"),
        (
            lf,
            true,
            2,
            b"abcdefgh\ni\r\njk",
            "X 0 TooLong,F 9 690d,F 12 6a6b,",
        ),
        (
            any,
            false,
            2,
            b"ab\r\n\nab\r\nabc\n\rab",
            "F 0 61620d0a,F 4 0a,F 5 61620d0a,X 9 TooLong,X 13 TooLong,",
        ),
        (any, true, 2, b"\na\r", "F 0 ,F 1 610d,"),
        (any, true, 2, b"", ""),
    ];
    for (ending, strip, max, input, want) in rows {
        cuts(&rt, rt.alloc(), &lines(ending, strip, max), input, want)?;
    }
    Ok(())
}

// The delimiters, whether they are stripped, the maximum, the stream and its units.
#[test]
fn delimiters_in_pieces(rt: HostRuntime) -> Result<(), Fail> {
    let rows: [(&[&[u8]], bool, u64, &[u8], &str); 7] = [
        (
            &[b"\x00", b"\x00\x00"],
            true,
            100,
            b"a\x00\x00b\x00",
            "F 0 61,F 2 ,F 3 62,",
        ),
        (
            &[b"\x00", b"\x00\x00"],
            false,
            100,
            b"a\x00\x00b\x00",
            "F 0 6100,F 2 00,F 3 6200,",
        ),
        (
            &[b"\r\n", b"\n"],
            true,
            100,
            b"a\r\nb\n\r\n",
            "F 0 61,F 3 62,F 5 ,",
        ),
        (
            &[b"\x00\x00"],
            true,
            1,
            b"a\x00a\x00\x00b\x00\x00",
            "X 0 TooLong,F 5 62,",
        ),
        (
            &[b"ababc"],
            true,
            4,
            b"abababcababcabcdabcdeababc",
            "F 0 6162,F 7 ,X 12 TooLong,",
        ),
        (
            &[b"<>", b"<->", b"<-->", b"|"],
            false,
            9,
            b"a<>b<-->|<->c<-",
            "F 0 613c3e,F 3 623c2d2d3e,F 8 7c,F 9 3c2d3e,X 12 Cut,",
        ),
        (
            &[b"x", b"yy", b"zzz"],
            true,
            2,
            b"abxcyyzzzabcdefghijklmnop",
            "F 0 6162,F 3 63,F 6 ,X 9 Cut,",
        ),
    ];
    for (marks, strip, max, input, want) in rows {
        let codec = delims(rt.alloc(), marks, strip, max)?;
        cuts(&rt, rt.alloc(), &codec, input, want)?;
    }
    Ok(())
}

// The field, the stream and its units.
#[test]
fn lengths_in_pieces(rt: HostRuntime) -> Result<(), Fail> {
    let close = Field {
        adjust: -3,
        strip: 0,
        ..BYTE
    };
    let behind = Field {
        size: 2,
        offset: 1,
        adjust: -1,
        strip: 3,
        little: true,
        ..BYTE
    };
    let four = Field {
        size: 4,
        adjust: -4,
        strip: 4,
        ..BYTE
    };
    let eight = Field {
        size: 8,
        strip: 0,
        max: 16,
        ..BYTE
    };
    let rows: [(Field, &[u8], &str); 8] = [
        (BYTE, b"\x03abc\x01x", "F 0 616263,F 4 78,"),
        (
            Field { max: 3, ..BYTE },
            b"\x03abc\x02de\x04fghi\x01",
            "X 0 TooLong,F 4 6465,X 7 TooLong,X 12 Cut,",
        ),
        (close, b"\x01\x01a", "X 0 TooSmall,X 1 TooSmall,X 2 Cut,"),
        (
            Field { strip: 3, ..BYTE },
            b"\x01a\x02bc",
            "X 0 StripOver,F 2 ,",
        ),
        (behind, b"\x09\x03\x00ab\x09\x01\x00", "F 0 6162,F 5 ,"),
        (four, b"\x00\x00\x00\x06ab", "F 0 6162,"),
        (eight, b"\xff\xff\xff\xff\xff\xff\xff\xffab", "X 0 TooLong,"),
        (
            Field { adjust: 2, ..BYTE },
            b"\x01abc\x00de",
            "F 0 616263,F 4 6465,",
        ),
    ];
    for (field, input, want) in rows {
        cuts(&rt, rt.alloc(), &by_field(field), input, want)?;
    }
    Ok(())
}

#[test]
fn sizes_in_pieces(rt: HostRuntime) -> Result<(), Fail> {
    let codec = Codec::Fixed { size: 2 };
    let want = "F 0 6162,F 2 6364,X 4 Cut,";
    cuts(&rt, rt.alloc(), &codec, b"abcde", want)
}
