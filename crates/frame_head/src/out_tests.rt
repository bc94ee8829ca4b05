use crate::{Codec, CodecFault, LineEnd, Mark, Marks, Out, check_out, longest};
use std::alloc::Global;
use std::process::Abort;
use std::test::Fail;

fn mark(alloc: Global, n: usize) -> Result<Mark, Fail> {
    let mut bytes = Vec::new(alloc);
    bytes.resize(n, 7)?;
    Ok(Mark::new(bytes))
}

fn marks(alloc: Global, lengths: &[usize]) -> Result<Marks, Fail> {
    let mut list = Vec::new(alloc);
    for n in lengths {
        list.push(mark(alloc, *n)?)?;
    }
    Ok(Marks::new(list))
}

#[test]
fn checks_of_ways_to_write(rt: HostRuntime) -> Result<(), Fail> {
    for (field, want) in [
        (0, Err(CodecFault::BadField)),
        (1, Ok(())),
        (2, Ok(())),
        (3, Err(CodecFault::BadField)),
        (4, Ok(())),
        (8, Ok(())),
        (9, Err(CodecFault::BadField)),
        (255, Err(CodecFault::BadField)),
    ] {
        let out = Out::Length {
            field,
            little: true,
        };
        assert_eq!(rt; check_out(&out), want, "a field of {field}");
    }
    for (n, want) in [
        (0, Err(CodecFault::ZeroLen)),
        (1, Ok(())),
        (64, Ok(())),
        (65, Err(CodecFault::DelimOver)),
    ] {
        let out = Out::Delim {
            mark: mark(rt.alloc(), n)?,
        };
        assert_eq!(rt; check_out(&out), want, "a delimiter of {n}");
    }
    assert_eq!(rt; check_out(&Out::Line { crlf: true }), Ok(()));
    assert_eq!(rt; check_out(&Out::Raw), Ok(()));
    Ok(())
}

#[test]
fn longest_frames_of_lengths(rt: HostRuntime) {
    // Field, offset, adjustment, strip and maximum, and the longest frame.
    let rows = [
        (1, 0, 0, 0, 1_048_576, 256),
        (1, 0, 0, 1, 1_048_576, 255),
        (1, 0, -3, 0, 1_048_576, 253),
        (1, 0, 0, 300, 1_048_576, 0),
        (1, 3, -300, 0, 1_048_576, 0),
        (1, 3, -259, 0, 1_048_576, 0),
        (1, 3, -258, 0, 1_048_576, 1),
        (2, 0, -65_536, 0, 1_048_576, 1),
        (2, 10, 65_536, 2, 1_048_576, 131_081),
        (4, 0, 0, 4, 16_777_216, 16_777_212),
        (8, 0, 0, 3, 16, 13),
        (8, 0, 65_536, 0, 16_777_216, 16_777_216),
        (8, 0, -1, 17, 16, 0),
    ];
    for (field, offset, adjust, strip, max, want) in rows {
        let codec = Codec::Length {
            field,
            offset,
            adjust,
            strip,
            little: false,
            max,
        };
        assert!(rt; crate::check(&codec).is_ok());
        assert_eq!(rt;
            longest(&codec),
            want,
            "{field} {offset} {adjust} {strip} {max}"
        );
    }
}

#[test]
fn longest_frames_of_others(rt: HostRuntime) -> Result<(), Fail> {
    for (ending, stripped, whole) in [
        (LineEnd::Lf, 9, 10),
        (LineEnd::Any, 9, 11),
        (LineEnd::Crlf, 9, 11),
    ] {
        for (strip, want) in [(true, stripped), (false, whole)] {
            let codec = Codec::Line {
                ending,
                strip,
                max: 9,
            };
            assert!(rt; crate::check(&codec).is_ok());
            assert_eq!(rt; longest(&codec), want);
        }
    }
    for (strip, want) in [(true, 9), (false, 12)] {
        let codec = Codec::Delim {
            list: marks(rt.alloc(), &[1, 3, 2])?,
            strip,
            max: 9,
        };
        assert!(rt; crate::check(&codec).is_ok());
        assert_eq!(rt; longest(&codec), want);
    }
    let codec = Codec::Fixed { size: 5 };
    assert!(rt; crate::check(&codec).is_ok());
    assert_eq!(rt; longest(&codec), 5);
    Ok(())
}

fn try_codec(rt: &impl Abort, alloc: Global, codec: &Codec) -> Result<(), Fail> {
    let copied = codec.copy(alloc)?;
    assert_eq!(rt;
        format!(in alloc; "{copied:?}")?,
        format!(in alloc; "{codec:?}")?
    );
    Ok(())
}

#[test]
fn copies_of_codecs(rt: HostRuntime) -> Result<(), Fail> {
    let alloc = rt.alloc();
    let length = Codec::Length {
        field: 2,
        offset: 1,
        adjust: -4,
        strip: 3,
        little: true,
        max: 77,
    };
    try_codec(&rt, alloc, &length)?;
    let line = Codec::Line {
        ending: LineEnd::Crlf,
        strip: false,
        max: 5,
    };
    try_codec(&rt, alloc, &line)?;
    let delim = Codec::Delim {
        list: marks(alloc, &[1, 2])?,
        strip: false,
        max: 9,
    };
    try_codec(&rt, alloc, &delim)?;
    try_codec(&rt, alloc, &Codec::Fixed { size: 3 })?;
    Ok(())
}

fn try_out(rt: &impl Abort, alloc: Global, out: &Out) -> Result<(), Fail> {
    let copied = out.copy(alloc)?;
    assert_eq!(rt;
        format!(in alloc; "{copied:?}")?,
        format!(in alloc; "{out:?}")?
    );
    Ok(())
}

#[test]
fn copies_of_ways_to_write(rt: HostRuntime) -> Result<(), Fail> {
    let alloc = rt.alloc();
    let length = Out::Length {
        field: 4,
        little: true,
    };
    try_out(&rt, alloc, &length)?;
    try_out(&rt, alloc, &Out::Line { crlf: true })?;
    try_out(
        &rt,
        alloc,
        &Out::Delim {
            mark: mark(alloc, 1)?,
        },
    )?;
    try_out(&rt, alloc, &Out::Raw)?;
    Ok(())
}

#[test]
fn faults_are_named(rt: HostRuntime) -> Result<(), Fail> {
    for (fault, want) in [
        (CodecFault::BadField, "BadField"),
        (CodecFault::ZeroLen, "ZeroLen"),
        (CodecFault::MaxOver, "MaxOver"),
        (CodecFault::OffsetOver, "OffsetOver"),
        (CodecFault::NoDelim, "NoDelim"),
        (CodecFault::DelimOver, "DelimOver"),
    ] {
        assert_eq!(rt; format!(in rt.alloc(); "{fault}")?.as_str(), want);
    }
    Ok(())
}
