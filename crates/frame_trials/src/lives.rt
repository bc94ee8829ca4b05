ghost use Rattle.std.specs.Prelude.{◌≡◌};

use crate::codecs::{BYTE, Field, by_field, delims, lines};
use crate::rig::{Rig, decoder, one_node, text_of};
use any_scanner::AnyScanner;
use frame_delim::DelimScanner;
use frame_head::{LineEnd, check};
use frame_length::{FixedScanner, LengthScanner};
use frame_line::LineScanner;
use frame_rule::{Codec, Decoder, Framer, Haul, Scanner, feed_all};
use iobuf_chain::Frame;
use share_count::Mint;
use std::alloc::Global;
use std::collections::VecDeque;
use std::process::Abort;
use std::test::Fail;

// A moment of a decoder: what it was fed, whether the stream was ended, how many bytes it holds then, how many nodes it
// gives back, and which units it gave.
type Moment<'a> = (&'a [&'a [u8]], bool, u64, Option<usize>, &'a str);

// These are moments of the decoder of the codec's kind, and of that for any.
fn has_moments<S: Scanner>(
    rt: &impl Abort,
    alloc: Global,
    codec: &Codec,
    moments: &[Moment<'_>],
) -> Result<(), Fail>
    requires { S.takes codec.now }
{
    assert!(rt; check(codec).is_ok());
    for moment in moments {
        let own = decoder::<S>(alloc, codec)?;
        gives_back(rt, alloc, own, *moment)?;
        let any = decoder::<AnyScanner>(alloc, codec)?;
        gives_back(rt, alloc, any, *moment)?;
    }
    Ok(())
}

fn gives_back<D: Decoder>(
    rt: &impl Abort,
    alloc: Global,
    decoder: D,
    moment: Moment<'_>,
) -> Result<(), Fail>
    requires { (D.state decoder).fed ≡ 0 }
{
    let (fed, ended, held, nodes, units) = moment;
    let mut rig = Rig::new(alloc, decoder);
    assert!(rt; rig.feed_each(alloc, fed)?);
    if ended {
        assert!(rt; rig.end()?);
    }
    assert_eq!(rt; rig.decoder.held(), held);
    assert_eq!(rt; text_of(alloc, &rig.haul.units)?.as_str(), units);
    match rig.decoder.give_back() {
        Some(backs) => assert_eq!(rt; Some(backs.len()), nodes),
        None => assert!(rt; nodes.is_none()),
    }
    assert!(rt; rig.decoder.give_back().is_none());
    is_dead(rt, alloc, &mut rig)
}

#[test]
fn what_is_kept_is_given_back(rt: HostRuntime) -> Result<(), Fail> {
    has_moments::<LengthScanner>(
        &rt,
        rt.alloc(),
        &by_field(BYTE),
        &[
            (&[], false, 0, None, ""),
            (&[b""], false, 0, None, ""),
            (&[b"\x03a"], false, 2, Some(1), ""),
            (&[b"\x03a", b"b"], false, 3, Some(2), ""),
            (&[b"\x03a", b"", b""], false, 2, Some(1), ""),
            (&[b"\x03abc"], false, 0, None, "F 0 616263,"),
            (&[b"\x03abc\x02"], false, 1, Some(1), "F 0 616263,"),
            (&[b"\x03a", b"bc\x02d"], false, 2, Some(1), "F 0 616263,"),
            (&[b"\x03a"], true, 0, None, "X 0 Cut,"),
            (&[b"\x03abc"], true, 0, None, "F 0 616263,"),
        ],
    )
}

// The longest frame has three bytes with its field. One that claims ten is refused by its field and passed over.
#[test]
fn bytes_to_skip_are_not_kept(rt: HostRuntime) -> Result<(), Fail> {
    let codec = by_field(Field { max: 3, ..BYTE });
    has_moments::<LengthScanner>(
        &rt,
        rt.alloc(),
        &codec,
        &[
            (&[b"\x09ab"], false, 0, None, "X 0 TooLong,"),
            (&[b"\x09ab", b"cdefgh"], false, 0, None, "X 0 TooLong,"),
            (&[b"\x09ab", b"cdefghi"], false, 0, None, "X 0 TooLong,"),
            (
                &[b"\x09ab", b"cdefghi\x02j"],
                false,
                2,
                Some(1),
                "X 0 TooLong,",
            ),
            (
                &[b"\x09ab", b"cdefghi\x01j"],
                false,
                0,
                None,
                "X 0 TooLong,F 10 6a,",
            ),
            (
                &[b"\x02a", b"b\x09ab"],
                false,
                0,
                None,
                "F 0 6162,X 3 TooLong,",
            ),
            (&[b"\x09ab"], true, 0, None, "X 0 TooLong,"),
            (&[b"\x09ab", b"cdefghi"], true, 0, None, "X 0 TooLong,"),
            (
                &[b"\x09ab", b"cdefghi\x02j"],
                true,
                0,
                None,
                "X 0 TooLong,X 10 Cut,",
            ),
        ],
    )
}

// A little-endian field of two bytes behind a byte, which all count and are stripped: at most eight bytes.
#[test]
fn moments_of_a_wide_field(rt: HostRuntime) -> Result<(), Fail> {
    let codec = by_field(Field {
        size: 2,
        offset: 1,
        strip: 3,
        little: true,
        max: 8,
        ..BYTE
    });
    has_moments::<LengthScanner>(
        &rt,
        rt.alloc(),
        &codec,
        &[
            (&[b"t\x02"], false, 2, Some(1), ""),
            (&[b"t\x02", b"\x00a"], false, 4, Some(2), ""),
            (&[b"t\x02", b"\x00ab"], false, 0, None, "F 0 6162,"),
            (&[b"t\x02", b"\x00abu\x05"], false, 2, Some(1), "F 0 6162,"),
            (&[b"t\x06\x00ab"], false, 0, None, "X 0 TooLong,"),
            (
                &[b"t\x06\x00ab", b"cdefu"],
                false,
                1,
                Some(1),
                "X 0 TooLong,",
            ),
            (&[b"t\x02"], true, 0, None, "X 0 Cut,"),
            (&[b"t\x06\x00ab"], true, 0, None, "X 0 TooLong,"),
        ],
    )
}

#[test]
fn moments_of_equal_frames(rt: HostRuntime) -> Result<(), Fail> {
    has_moments::<FixedScanner>(
        &rt,
        rt.alloc(),
        &Codec::Fixed { size: 3 },
        &[
            (&[b"ab"], false, 2, Some(1), ""),
            (&[b"a", b"b"], false, 2, Some(2), ""),
            (&[b"ab", b"c"], false, 0, None, "F 0 616263,"),
            (&[b"abcd"], false, 1, Some(1), "F 0 616263,"),
            (
                &[b"ab", b"cdefg"],
                false,
                1,
                Some(1),
                "F 0 616263,F 3 646566,",
            ),
            (&[b"abcd"], true, 0, None, "F 0 616263,X 3 Cut,"),
            (&[b"abc"], true, 0, None, "F 0 616263,"),
        ],
    )
}

// A carriage return is kept with the line that it may end; the rest of a stream is measured with it.
#[test]
fn moments_of_lines(rt: HostRuntime) -> Result<(), Fail> {
    has_moments::<LineScanner>(
        &rt,
        rt.alloc(),
        &lines(LineEnd::Any, true, 2),
        &[
            (&[b"ab"], false, 2, Some(1), ""),
            (&[b"ab\r"], false, 3, Some(1), ""),
            (&[b"ab", b"\r"], false, 3, Some(2), ""),
            (&[b"ab\r", b"\n"], false, 0, None, "F 0 6162,"),
            (&[b"ab\r", b"\nc\r"], false, 2, Some(1), "F 0 6162,"),
            (&[b"ab"], true, 0, None, "F 0 6162,"),
            (&[b"a\r"], true, 0, None, "F 0 610d,"),
            (&[b"ab\r"], true, 0, None, "X 0 TooLong,"),
        ],
    )
}

// A line that is too long whatever ends it is not kept, and is refused where its ending or the stream's end comes.
#[test]
fn moments_of_a_hopeless_line(rt: HostRuntime) -> Result<(), Fail> {
    has_moments::<LineScanner>(
        &rt,
        rt.alloc(),
        &lines(LineEnd::Any, true, 1),
        &[
            (&[b"abcd"], false, 0, None, ""),
            (&[b"a"], false, 1, Some(1), ""),
            (&[b"a", b"bcd"], false, 0, None, ""),
            (&[b"abcd", b"e\r"], false, 0, None, ""),
            (&[b"abcd", b"e\r", b"\n"], false, 0, None, "X 0 TooLong,"),
            (&[b"abcd", b"\ne"], false, 1, Some(1), "X 0 TooLong,"),
            (&[b"abcd"], true, 0, None, "X 0 TooLong,"),
            (&[b"abcd", b"\ne"], true, 0, None, "X 0 TooLong,F 5 65,"),
        ],
    )
}

#[test]
fn moments_of_delimited_frames(rt: HostRuntime) -> Result<(), Fail> {
    let codec = delims(rt.alloc(), &[b"<>", b"|"], true, 1)?;
    has_moments::<DelimScanner>(
        &rt,
        rt.alloc(),
        &codec,
        &[
            (&[b"a<"], false, 2, Some(1), ""),
            (&[b"a", b"<"], false, 2, Some(2), ""),
            (&[b"a<", b">"], false, 0, None, "F 0 61,"),
            (&[b"a<", b">b"], false, 1, Some(1), "F 0 61,"),
            (&[b"ab|"], false, 0, None, "X 0 TooLong,"),
            (&[b"a<"], true, 0, None, "X 0 Cut,"),
            (&[b"a|"], true, 0, None, "F 0 61,"),
        ],
    )
}

// A dead decoder holds nothing, and no call adds a unit. What it is fed is handed back.
fn is_dead<D: Decoder>(rt: &impl Abort, alloc: Global, rig: &mut Rig<D>) -> Result<(), Fail>
    requires { (D.state rig.old.decoder).fed ≡ rig.old.fed }
{
    let units = rig.haul.units.len();
    let backs = rig.haul.back.len();
    assert_eq!(rt; rig.decoder.held(), 0u64);
    assert!(rt; !rig.feed_bytes(alloc, b"\x01x")?);
    assert!(rt; !rig.end()?);
    assert_eq!(rt; rig.haul.units.len(), units);
    assert_eq!(rt; rig.haul.back.len(), backs.saturating_add(1));
    Ok(())
}

// A decoder is dead behind the end of the stream, and when what it keeps was given back.
#[test]
fn dead_behind_either_end(rt: HostRuntime) -> Result<(), Fail> {
    for (ended, given) in [(false, false), (true, false), (false, true), (true, true)] {
        let codec = by_field(BYTE);
        assert!(rt; check(&codec).is_ok());
        let mut rig = Rig::new(rt.alloc(), Framer::<LengthScanner>::new(codec));
        assert!(rt; rig.feed_bytes(rt.alloc(), b"\x03ab")?);
        if ended {
            assert!(rt; rig.end()?);
        }
        if given {
            assert_eq!(rt; rig.decoder.give_back().is_some(), !ended);
        }
        if ended || given {
            is_dead(&rt, rt.alloc(), &mut rig)?;
        } else {
            assert!(rt; rig.feed_bytes(rt.alloc(), b"c")?);
            assert_eq!(rt;
                text_of(rt.alloc(), &rig.haul.units)?.as_str(),
                "F 0 616263,"
            );
        }
    }
    Ok(())
}

#[test]
fn all_pieces_are_fed_at_once(rt: HostRuntime) -> Result<(), Fail> {
    let alloc = rt.alloc();
    let codec = by_field(BYTE);
    assert!(rt; check(&codec).is_ok());
    let mut decoder = Framer::<LengthScanner>::new(codec);
    let mut haul = Haul::new(alloc);
    let mut mint = Mint::new();
    let first = one_node(alloc, b"\x02a", &mut mint)?;
    let second = one_node(alloc, b"b\x01c\x05d", &mut mint)?;
    if first.length() > 100 || second.length() > 100 {
        return Err(Fail::from("too long for a trial"));
    }
    let mut pieces: VecDeque<Frame> = VecDeque::with_capacity(alloc, 2)?;
    pieces.push_back_reserved(first);
    pieces.push_back_reserved(second);
    let fed = feed_all(alloc, &mut decoder, pieces, &mut haul, &mut mint);
    assert!(rt; fed.is_ok());
    let text = text_of(alloc, &haul.units)?;
    assert_eq!(rt; text.as_str(), "F 0 6162,F 3 63,X 5 Cut,");
    Ok(())
}
