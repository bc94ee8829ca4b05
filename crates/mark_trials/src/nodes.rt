ghost use Rattle.std.specs.Prelude.{◌≡◌, None};
ghost use Rattle.frame_head.specs.Codecs.{fault_of};

use crate::codecs::{BYTE, by_field, delims, lines};
use crate::rig::{Rig, nodes};
use any_scanner::AnyScanner;
use frame_head::{Codec, LineEnd, check};
use std::alloc::Global;
use std::process::Abort;
use std::test::Fail;

// A stream of these pieces has these units, however many units a call marks.
fn cuts_nodes(
    rt: &impl Abort,
    alloc: Global,
    codec: &Codec,
    pieces: &[&[&[u8]]],
    want: &str,
) -> Result<(), Fail> {
    assert!(rt; check(codec).is_ok());
    for most in [1, 2, 3, 1000] {
        let got = marked(alloc, codec, pieces, most)?;
        assert_eq!(rt; got.as_str(), want, "{most} at a time");
    }
    Ok(())
}

// The units of a stream of these pieces, each with a node for each of its texts, so many at a time.
fn marked(alloc: Global, codec: &Codec, pieces: &[&[&[u8]]], most: usize) -> Result<String, Fail>
    requires { fault_of codec.now ≡ None }
{
    let mut rig = Rig::<AnyScanner>::new(alloc, codec)?;
    'pieces: for texts in pieces {
        let piece = nodes(alloc, texts, &mut rig.mint)?;
        rig.mark_all(alloc, piece, most)?;
    }
    rig.end(alloc)?;
    Ok(rig.text)
}

// The pieces, the nodes of each, and the lines in them.
#[test]
fn lines_in_nodes(rt: HostRuntime) -> Result<(), Fail> {
    let rows: [(LineEnd, &[&[&[u8]]], &str); 7] = [
        (
            LineEnd::Any,
            &[&[b"ab\r"], &[b"\ncd"]],
            "F 0 6162,F 4 6364,",
        ),
        (LineEnd::Any, &[&[b"ab\r"], &[b""], &[b"\n"]], "F 0 6162,"),
        (
            LineEnd::Any,
            &[&[b"ab\r", b"", b"\nc"], &[], &[b"\n"]],
            "F 0 6162,F 4 63,",
        ),
        (
            LineEnd::Any,
            &[&[b"", b""], &[b"", b"a", b"", b"\r", b""], &[]],
            "F 0 610d,",
        ),
        (
            LineEnd::Crlf,
            &[&[b"a\r"], &[b"\r"], &[b"\nb"], &[b"\r\n"]],
            "F 0 610d,F 4 62,",
        ),
        (
            LineEnd::Crlf,
            &[&[b"a\r"], &[b"b\n", b"\r", b"\n"]],
            "F 0 610d620a,",
        ),
        (
            LineEnd::Lf,
            &[&[b"a", b"\r"], &[b"", b"\n\n", b""]],
            "F 0 610d,F 3 ,",
        ),
    ];
    for (ending, pieces, want) in rows {
        cuts_nodes(&rt, rt.alloc(), &lines(ending, true, 9), pieces, want)?;
    }
    Ok(())
}

// The delimiters, the pieces, the nodes of each, and the frames in them.
#[test]
fn delimiters_in_nodes(rt: HostRuntime) -> Result<(), Fail> {
    let letters: &[&[u8]] = &[b"a", b"aa"];
    let returns: &[&[u8]] = &[b"\r\n", b"\n"];
    let rows: [(&[&[u8]], &[&[&[u8]]], &str); 6] = [
        (
            letters,
            &[&[b"xa"], &[b"ay"], &[b"a"]],
            "F 0 78,F 2 ,F 3 79,",
        ),
        (
            letters,
            &[&[b"x", b"", b"aa"], &[], &[b"y"]],
            "F 0 78,F 2 ,X 3 Cut,",
        ),
        (returns, &[&[b"x\r"], &[b"\ny\n"]], "F 0 78,F 3 79,"),
        (
            returns,
            &[&[b"x", b"\r"], &[b""], &[b"", b"\n"], &[b"\n"]],
            "F 0 78,F 3 ,",
        ),
        (returns, &[&[b"x\r\r"], &[b"\n\r"]], "F 0 780d,X 4 Cut,"),
        (
            &[b"<->"],
            &[&[b"a<"], &[b"-"], &[b"->b<"], &[b"-", b">"]],
            "F 0 613c2d2d3e62,",
        ),
    ];
    for (marks, pieces, want) in rows {
        let codec = delims(rt.alloc(), marks, true, 9)?;
        cuts_nodes(&rt, rt.alloc(), &codec, pieces, want)?;
    }
    Ok(())
}

#[test]
fn lengths_in_nodes(rt: HostRuntime) -> Result<(), Fail> {
    let rows: [(&[&[&[u8]]], &str); 3] = [
        (
            &[&[b"\x03", b"", b"a"], &[], &[b"bc\x00", b"\x01"], &[b"x"]],
            "F 0 616263,F 4 ,F 5 78,",
        ),
        (
            &[&[b"", b""], &[b"\x02ab", b"\x02"], &[b"", b"c"]],
            "F 0 6162,X 3 Cut,",
        ),
        (&[], ""),
    ];
    for (pieces, want) in rows {
        cuts_nodes(&rt, rt.alloc(), &by_field(BYTE), pieces, want)?;
    }
    let codec = Codec::Fixed { size: 3 };
    let pieces: &[&[&[u8]]] = &[&[b"a", b"", b"b"], &[b"cd"], &[], &[b"e", b"fg"]];
    cuts_nodes(
        &rt,
        rt.alloc(),
        &codec,
        pieces,
        "F 0 616263,F 3 646566,X 6 Cut,",
    )
}
