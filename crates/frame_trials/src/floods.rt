use crate::codecs::{BYTE, Field, by_field, delims, lines};
use crate::rig::{count_in_pieces, decoder, most_held};
use any_scanner::AnyScanner;
use frame_delim::DelimScanner;
use frame_head::{LineEnd, check};
use frame_length::{FixedScanner, LengthScanner};
use frame_line::LineScanner;
use frame_rule::{Codec, Scanner};
use std::alloc::Global;
use std::process::Abort;
use std::test::Fail;

// A megabyte is so many frames of four bytes each.
const FRAMES: usize = 262_144;

// The first bytes, these as many times, and the last bytes.
fn stream(
    alloc: Global,
    first: &[u8],
    times: usize,
    each: &[u8],
    last: &[u8],
) -> Result<Vec<u8>, Fail> {
    let mut all = Vec::from_slice(alloc, first)?;
    for _ in 0..times {
        all.extend_from_slice(each)?;
    }
    all.extend_from_slice(last)?;
    Ok(all)
}

// A megabyte has this last unit, whatever the size of its pieces.
fn counts<S: Scanner>(
    rt: &impl Abort,
    alloc: Global,
    codec: &Codec,
    input: &[u8],
    want: &str,
) -> Result<(), Fail>
    requires { S.takes codec.now }
{
    assert!(rt; check(codec).is_ok());
    for piece in [65_536, 3, 2, 1] {
        let own = decoder::<S>(alloc, codec)?;
        let (count, last) = count_in_pieces(alloc, own, input, piece)?;
        assert_eq!(rt; count, FRAMES, "in pieces of {piece}");
        assert_eq!(rt; last.as_str(), want, "in pieces of {piece}");
    }
    Ok(())
}

#[test]
fn a_megabyte_of_lines(rt: HostRuntime) -> Result<(), Fail> {
    let input = stream(rt.alloc(), b"", FRAMES - 1, b"ab\r\n", b"end\n")?;
    let codec = lines(LineEnd::Any, true, 100);
    counts::<LineScanner>(&rt, rt.alloc(), &codec, &input, "F 1048572 656e64,")
}

#[test]
fn a_megabyte_of_delimited_frames(rt: HostRuntime) -> Result<(), Fail> {
    let input = stream(rt.alloc(), b"", FRAMES - 1, b"ab<>", b"end|")?;
    let codec = delims(rt.alloc(), &[b"<>", b"|"], true, 100)?;
    counts::<DelimScanner>(&rt, rt.alloc(), &codec, &input, "F 1048572 656e64,")
}

#[test]
fn a_megabyte_by_length(rt: HostRuntime) -> Result<(), Fail> {
    let input = stream(rt.alloc(), b"", FRAMES - 1, b"\x03abc", b"\x03end")?;
    counts::<LengthScanner>(
        &rt,
        rt.alloc(),
        &by_field(BYTE),
        &input,
        "F 1048572 656e64,",
    )
}

#[test]
fn a_megabyte_of_equal_frames(rt: HostRuntime) -> Result<(), Fail> {
    let input = stream(rt.alloc(), b"", FRAMES - 1, b"abcd", b"last")?;
    let codec = Codec::Fixed { size: 4 };
    counts::<FixedScanner>(&rt, rt.alloc(), &codec, &input, "F 1048572 6c617374,")
}

#[test]
fn a_megabyte_by_any(rt: HostRuntime) -> Result<(), Fail> {
    let input = stream(rt.alloc(), b"", FRAMES - 1, b"\x03abc", b"\x03end")?;
    counts::<AnyScanner>(
        &rt,
        rt.alloc(),
        &by_field(BYTE),
        &input,
        "F 1048572 656e64,",
    )
}

// Of a stream whose last unit becomes no frame no more than so many bytes are kept behind any piece.
fn keeps<S: Scanner>(
    rt: &impl Abort,
    alloc: Global,
    codec: &Codec,
    input: &[u8],
    most: u64,
    want: &str,
) -> Result<(), Fail>
    requires { S.takes codec.now }
{
    assert!(rt; check(codec).is_ok());
    for piece in [65_536, 999] {
        let own = decoder::<S>(alloc, codec)?;
        let (held, units) = most_held(alloc, own, input, piece)?;
        assert!(rt; held <= most, "{held} bytes are kept of pieces of {piece}");
        assert_eq!(rt; units.as_str(), want, "in pieces of {piece}");
        let any = decoder::<AnyScanner>(alloc, codec)?;
        let (held, units) = most_held(alloc, any, input, piece)?;
        assert!(rt;
            held <= most,
            "by any {held} bytes are kept of pieces of {piece}"
        );
        assert_eq!(rt; units.as_str(), want, "by any, in pieces of {piece}");
    }
    Ok(())
}

#[test]
fn an_endless_line_is_not_kept(rt: HostRuntime) -> Result<(), Fail> {
    let input = stream(rt.alloc(), b"a\n", 1 << 20, b"bcd\r", b"")?;
    let codec = lines(LineEnd::Any, true, 1000);
    keeps::<LineScanner>(&rt, rt.alloc(), &codec, &input, 1002, "F 0 61,X 2 TooLong,")
}

#[test]
fn an_endless_frame_is_not_kept(rt: HostRuntime) -> Result<(), Fail> {
    let input = stream(rt.alloc(), b"a<->", 1 << 20, b"bc<-", b"")?;
    let codec = delims(rt.alloc(), &[b"<->"], true, 1000)?;
    keeps::<DelimScanner>(&rt, rt.alloc(), &codec, &input, 1064, "F 0 61,X 4 Cut,")
}

#[test]
fn a_frame_of_any_length_is_not_kept(rt: HostRuntime) -> Result<(), Fail> {
    let field = Field {
        size: 8,
        strip: 8,
        max: 1000,
        ..BYTE
    };
    let first = b"\x00\x00\x00\x00\x00\x00\x00\x01a\xff\xff\xff\xff\xff\xff\xff\xff";
    let input = stream(rt.alloc(), first, 1 << 20, b"bcde", b"")?;
    keeps::<LengthScanner>(
        &rt,
        rt.alloc(),
        &by_field(field),
        &input,
        1000,
        "F 0 61,X 9 TooLong,",
    )
}
