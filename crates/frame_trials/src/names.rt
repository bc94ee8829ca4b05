use crate::codecs::{BYTE, by_field, delims, lines};
use crate::rig::cut_in_pieces;
use any_scanner::AnyDecoder;
use frame_delim::DelimDecoder;
use frame_head::{Codec, LineEnd, check};
use frame_length::{FixedDecoder, LengthDecoder};
use frame_line::LineDecoder;
use frame_rule::FeedFault;
use std::test::Fail;

#[test]
fn length_decoder(rt: HostRuntime) -> Result<(), Fail> {
    let codec = by_field(BYTE);
    assert!(rt; check(&codec).is_ok());
    let decoder = LengthDecoder::new(codec);
    let got = cut_in_pieces(rt.alloc(), decoder, b"\x03abc\x01x", 4)?;
    assert_eq!(rt; got.as_str(), "F 0 616263,F 4 78,");
    Ok(())
}

#[test]
fn fixed_decoder(rt: HostRuntime) -> Result<(), Fail> {
    let codec = Codec::Fixed { size: 2 };
    assert!(rt; check(&codec).is_ok());
    let decoder = FixedDecoder::new(codec);
    let got = cut_in_pieces(rt.alloc(), decoder, b"abcde", 3)?;
    assert_eq!(rt; got.as_str(), "F 0 6162,F 2 6364,X 4 Cut,");
    Ok(())
}

#[test]
fn line_decoder(rt: HostRuntime) -> Result<(), Fail> {
    let codec = lines(LineEnd::Any, true, 100);
    assert!(rt; check(&codec).is_ok());
    let decoder = LineDecoder::new(codec);
    let got = cut_in_pieces(rt.alloc(), decoder, b"a\r\nb\n", 2)?;
    assert_eq!(rt; got.as_str(), "F 0 61,F 3 62,");
    Ok(())
}

#[test]
fn delim_decoder(rt: HostRuntime) -> Result<(), Fail> {
    let codec = delims(rt.alloc(), &[b"\x00", b"\x00\x00"], true, 100)?;
    assert!(rt; check(&codec).is_ok());
    let decoder = DelimDecoder::new(codec);
    let got = cut_in_pieces(rt.alloc(), decoder, b"a\x00\x00b\x00", 2)?;
    assert_eq!(rt; got.as_str(), "F 0 61,F 2 ,F 3 62,");
    Ok(())
}

#[test]
fn any_decoder(rt: HostRuntime) -> Result<(), Fail> {
    let codec = lines(LineEnd::Crlf, true, 100);
    assert!(rt; check(&codec).is_ok());
    let decoder = AnyDecoder::new(codec);
    let got = cut_in_pieces(rt.alloc(), decoder, b"a\nb\r\n", 4)?;
    assert_eq!(rt; got.as_str(), "F 0 610a62,");
    Ok(())
}

#[test]
fn refusals(rt: HostRuntime) -> Result<(), Fail> {
    let alloc = rt.alloc();
    let refused = format!(in alloc; "{}", FeedFault::NoMemory)?;
    assert_eq!(rt; refused.as_str(), "no memory");
    let dead = format!(in alloc; "{}", FeedFault::Dead)?;
    assert_eq!(rt; dead.as_str(), "the decoder is dead");
    Ok(())
}
