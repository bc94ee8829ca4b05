use crate::codecs::{BYTE, Field, by_field, delims, lines};
use crate::rig::{cut_in_nodes, cut_in_pieces, decoder};
use any_scanner::AnyScanner;
use frame_delim::DelimScanner;
use frame_head::{Codec, LineEnd, check};
use frame_length::{FixedScanner, LengthScanner};
use frame_line::LineScanner;
use frame_rule::Scanner;
use std::alloc::Global;
use std::process::Abort;
use std::test::Fail;

// More than any of the streams has.
const WHOLE: usize = 1000;

const PIECES: [usize; 4] = [1, 2, 3, WHOLE];

// A stream has these units whatever the size of its pieces, by the scanner of the codec's kind and by that for any.
fn cuts<S: Scanner>(
    rt: &impl Abort,
    alloc: Global,
    codec: &Codec,
    input: &[u8],
    want: &str,
) -> Result<(), Fail>
    requires { S.takes codec.now }
{
    assert!(rt; check(codec).is_ok());
    for piece in PIECES {
        let own = decoder::<S>(alloc, codec)?;
        let got = cut_in_pieces(alloc, own, input, piece)?;
        assert_eq!(rt; got.as_str(), want, "in pieces of {piece}");
        let any = decoder::<AnyScanner>(alloc, codec)?;
        let got = cut_in_pieces(alloc, any, input, piece)?;
        assert_eq!(rt; got.as_str(), want, "by any, in pieces of {piece}");
    }
    Ok(())
}

// A stream of these pieces has these units, by the scanner of the codec's kind and by that for any.
fn cuts_nodes<S: Scanner>(
    rt: &impl Abort,
    alloc: Global,
    codec: &Codec,
    pieces: &[&[&[u8]]],
    want: &str,
) -> Result<(), Fail>
    requires { S.takes codec.now }
{
    assert!(rt; check(codec).is_ok());
    let own = decoder::<S>(alloc, codec)?;
    let got = cut_in_nodes(alloc, own, pieces)?;
    assert_eq!(rt; got.as_str(), want);
    let any = decoder::<AnyScanner>(alloc, codec)?;
    let got = cut_in_nodes(alloc, any, pieces)?;
    assert_eq!(rt; got.as_str(), want, "by any");
    Ok(())
}

// The endings, whether they are stripped, the maximum, the stream and its units.
#[test]
fn lines_in_pieces(rt: HostRuntime) -> Result<(), Fail> {
    let (any, crlf, lf) = (LineEnd::Any, LineEnd::Crlf, LineEnd::Lf);
    let rows: [(LineEnd, bool, u64, &[u8], &str); 8] = [
        (any, true, 100, b"a\r\nb\n", "F 0 61,F 3 62,"),
        (any, false, 100, b"a\r\nb\n", "F 0 610d0a,F 3 620a,"),
        (crlf, true, 100, b"a\nb\r\n\r\n", "F 0 610a62,F 5 ,"),
        (lf, true, 100, b"a\r\n\n", "F 0 610d,F 3 ,"),
        (
            lf,
            true,
            2,
            b"abcdefgh\ni\r\njk",
            "X 0 TooLong,F 9 690d,F 12 6a6b,",
        ),
        (
            any,
            false,
            2,
            b"ab\r\n\nab\r\nabc\n\rab",
            "F 0 61620d0a,F 4 0a,F 5 61620d0a,X 9 TooLong,X 13 TooLong,",
        ),
        (any, true, 2, b"\na\r", "F 0 ,F 1 610d,"),
        (any, true, 2, b"", ""),
    ];
    for (ending, strip, max, input, want) in rows {
        cuts::<LineScanner>(&rt, rt.alloc(), &lines(ending, strip, max), input, want)?;
    }
    Ok(())
}

// The delimiters, whether they are stripped, the maximum, the stream and its units.
#[test]
fn delimiters_in_pieces(rt: HostRuntime) -> Result<(), Fail> {
    let rows: [(&[&[u8]], bool, u64, &[u8], &str); 7] = [
        (
            &[b"\x00", b"\x00\x00"],
            true,
            100,
            b"a\x00\x00b\x00",
            "F 0 61,F 2 ,F 3 62,",
        ),
        (
            &[b"\x00", b"\x00\x00"],
            false,
            100,
            b"a\x00\x00b\x00",
            "F 0 6100,F 2 00,F 3 6200,",
        ),
        (
            &[b"\r\n", b"\n"],
            true,
            100,
            b"a\r\nb\n\r\n",
            "F 0 61,F 3 62,F 5 ,",
        ),
        (
            &[b"\x00\x00"],
            true,
            1,
            b"a\x00a\x00\x00b\x00\x00",
            "X 0 TooLong,F 5 62,",
        ),
        (
            &[b"ababc"],
            true,
            4,
            b"abababcababcabcdabcdeababc",
            "F 0 6162,F 7 ,X 12 TooLong,",
        ),
        (
            &[b"<>", b"<->", b"<-->", b"|"],
            false,
            9,
            b"a<>b<-->|<->c<-",
            "F 0 613c3e,F 3 623c2d2d3e,F 8 7c,F 9 3c2d3e,X 12 Cut,",
        ),
        (
            &[b"x", b"yy", b"zzz"],
            true,
            2,
            b"abxcyyzzzabcdefghijklmnop",
            "F 0 6162,F 3 63,F 6 ,X 9 Cut,",
        ),
    ];
    for (marks, strip, max, input, want) in rows {
        let codec = delims(rt.alloc(), marks, strip, max)?;
        cuts::<DelimScanner>(&rt, rt.alloc(), &codec, input, want)?;
    }
    Ok(())
}

// The field, the stream and its units.
#[test]
fn lengths_in_pieces(rt: HostRuntime) -> Result<(), Fail> {
    let close = Field {
        adjust: -3,
        strip: 0,
        ..BYTE
    };
    let behind = Field {
        size: 2,
        offset: 1,
        adjust: -1,
        strip: 3,
        little: true,
        ..BYTE
    };
    let four = Field {
        size: 4,
        adjust: -4,
        strip: 4,
        ..BYTE
    };
    let eight = Field {
        size: 8,
        strip: 0,
        max: 16,
        ..BYTE
    };
    let rows: [(Field, &[u8], &str); 8] = [
        (BYTE, b"\x03abc\x01x", "F 0 616263,F 4 78,"),
        (
            Field { max: 3, ..BYTE },
            b"\x03abc\x02de\x04fghi\x01",
            "X 0 TooLong,F 4 6465,X 7 TooLong,X 12 Cut,",
        ),
        (close, b"\x01\x01a", "X 0 TooSmall,X 1 TooSmall,X 2 Cut,"),
        (
            Field { strip: 3, ..BYTE },
            b"\x01a\x02bc",
            "X 0 StripOver,F 2 ,",
        ),
        (behind, b"\x09\x03\x00ab\x09\x01\x00", "F 0 6162,F 5 ,"),
        (four, b"\x00\x00\x00\x06ab", "F 0 6162,"),
        (eight, b"\xff\xff\xff\xff\xff\xff\xff\xffab", "X 0 TooLong,"),
        (
            Field { adjust: 2, ..BYTE },
            b"\x01abc\x00de",
            "F 0 616263,F 4 6465,",
        ),
    ];
    for (field, input, want) in rows {
        cuts::<LengthScanner>(&rt, rt.alloc(), &by_field(field), input, want)?;
    }
    Ok(())
}

#[test]
fn sizes_in_pieces(rt: HostRuntime) -> Result<(), Fail> {
    let codec = Codec::Fixed { size: 2 };
    let want = "F 0 6162,F 2 6364,X 4 Cut,";
    cuts::<FixedScanner>(&rt, rt.alloc(), &codec, b"abcde", want)
}

// The pieces, the nodes of each, and the lines in them.
#[test]
fn lines_in_nodes(rt: HostRuntime) -> Result<(), Fail> {
    let rows: [(LineEnd, &[&[&[u8]]], &str); 7] = [
        (
            LineEnd::Any,
            &[&[b"ab\r"], &[b"\ncd"]],
            "F 0 6162,F 4 6364,",
        ),
        (LineEnd::Any, &[&[b"ab\r"], &[b""], &[b"\n"]], "F 0 6162,"),
        (
            LineEnd::Any,
            &[&[b"ab\r", b"", b"\nc"], &[], &[b"\n"]],
            "F 0 6162,F 4 63,",
        ),
        (
            LineEnd::Any,
            &[&[b"", b""], &[b"", b"a", b"", b"\r", b""], &[]],
            "F 0 610d,",
        ),
        (
            LineEnd::Crlf,
            &[&[b"a\r"], &[b"\r"], &[b"\nb"], &[b"\r\n"]],
            "F 0 610d,F 4 62,",
        ),
        (
            LineEnd::Crlf,
            &[&[b"a\r"], &[b"b\n", b"\r", b"\n"]],
            "F 0 610d620a,",
        ),
        (
            LineEnd::Lf,
            &[&[b"a", b"\r"], &[b"", b"\n\n", b""]],
            "F 0 610d,F 3 ,",
        ),
    ];
    for (ending, pieces, want) in rows {
        cuts_nodes::<LineScanner>(&rt, rt.alloc(), &lines(ending, true, 9), pieces, want)?;
    }
    Ok(())
}

// The delimiters, the pieces, the nodes of each, and the frames in them.
#[test]
fn delimiters_in_nodes(rt: HostRuntime) -> Result<(), Fail> {
    let letters: &[&[u8]] = &[b"a", b"aa"];
    let returns: &[&[u8]] = &[b"\r\n", b"\n"];
    let rows: [(&[&[u8]], &[&[&[u8]]], &str); 6] = [
        (
            letters,
            &[&[b"xa"], &[b"ay"], &[b"a"]],
            "F 0 78,F 2 ,F 3 79,",
        ),
        (
            letters,
            &[&[b"x", b"", b"aa"], &[], &[b"y"]],
            "F 0 78,F 2 ,X 3 Cut,",
        ),
        (returns, &[&[b"x\r"], &[b"\ny\n"]], "F 0 78,F 3 79,"),
        (
            returns,
            &[&[b"x", b"\r"], &[b""], &[b"", b"\n"], &[b"\n"]],
            "F 0 78,F 3 ,",
        ),
        (returns, &[&[b"x\r\r"], &[b"\n\r"]], "F 0 780d,X 4 Cut,"),
        (
            &[b"<->"],
            &[&[b"a<"], &[b"-"], &[b"->b<"], &[b"-", b">"]],
            "F 0 613c2d2d3e62,",
        ),
    ];
    for (marks, pieces, want) in rows {
        let codec = delims(rt.alloc(), marks, true, 9)?;
        cuts_nodes::<DelimScanner>(&rt, rt.alloc(), &codec, pieces, want)?;
    }
    Ok(())
}

#[test]
fn lengths_in_nodes(rt: HostRuntime) -> Result<(), Fail> {
    let rows: [(&[&[&[u8]]], &str); 3] = [
        (
            &[&[b"\x03", b"", b"a"], &[], &[b"bc\x00", b"\x01"], &[b"x"]],
            "F 0 616263,F 4 ,F 5 78,",
        ),
        (
            &[&[b"", b""], &[b"\x02ab", b"\x02"], &[b"", b"c"]],
            "F 0 6162,X 3 Cut,",
        ),
        (&[], ""),
    ];
    for (pieces, want) in rows {
        cuts_nodes::<LengthScanner>(&rt, rt.alloc(), &by_field(BYTE), pieces, want)?;
    }
    let codec = Codec::Fixed { size: 3 };
    let pieces: &[&[&[u8]]] = &[&[b"a", b"", b"b"], &[b"cd"], &[], &[b"e", b"fg"]];
    cuts_nodes::<FixedScanner>(
        &rt,
        rt.alloc(),
        &codec,
        pieces,
        "F 0 616263,F 3 646566,X 6 Cut,",
    )
}
