use super::*;
use frame_rule::check;
use relay_ports::{Host, MemHost, MemSink, MemSource};
use relay_words::{Order, read_words};
use std::alloc::{AllocError, Global};
use std::process::Abort;
use std::test::Fail;

// What a run is tried on and what it comes to: the codec, the input, how many bytes it gives a call, which of its calls
// and of the report's fail, how many bytes the report takes, the limit, the status and the report.
#[derive(Clone, Copy)]
struct Try<'a> {
    codec: &'a str,
    input: &'a [u8],
    most: usize,
    input_fails: Option<u64>,
    report_fails: Option<u64>,
    room: usize,
    limit: u64,
    status: Status,
    report: &'a [u8],
}

fn numbers(alloc: Global, n: Option<u64>) -> Result<Vec<u64>, AllocError> {
    let mut list = Vec::new(alloc);
    if let Some(n) = n {
        list.push(n)?;
    }
    Ok(list)
}

// The codec that a word means.
fn codec_of(alloc: Global, word: &str) -> Result<Option<Codec>, AllocError> {
    let mut words = words_of(alloc, "frames")?;
    let codec = String::from_str(alloc, word)?;
    if words.push(codec).is_err() {
        return Err(AllocError);
    }
    match read_words(alloc, &words) {
        Ok(Order::Frames { codec, .. }) => Ok(Some(codec)),
        _ => Ok(None),
    }
}

// A host whose input gives these bytes, and whose report takes `room` bytes.
fn host_of(
    alloc: Global,
    input: &[u8],
    most: usize,
    input_fails: Vec<u64>,
    room: usize,
    report_fails: Vec<u64>,
) -> Result<Option<MemHost>, AllocError> {
    let source = MemSource::new(Vec::from_slice(alloc, input)?, most.max(1), input_fails);
    let mut host = MemHost::new(alloc);
    host.add_in("", source)?;
    match MemSink::new(alloc, room, report_fails) {
        Ok(sink) => {
            host.set_report(sink);
            Ok(Some(host))
        }
        Err(_) => Ok(None),
    }
}

// The status of a run of `frames`, where its codec, block and limit are in their range.
fn status_of(
    alloc: Global,
    host: &mut MemHost,
    codec: &str,
    block: usize,
    limit: u64,
) -> Result<Option<Status>, AllocError> {
    if block == 0 || block > 1_048_576 || limit > 1_099_511_627_776 {
        return Ok(None);
    }
    let Some(codec) = codec_of(alloc, codec)? else {
        return Ok(None);
    };
    match check(&codec) {
        Ok(()) => Ok(Some(frames(alloc, host, codec, "", block, limit))),
        Err(_) => Ok(None),
    }
}

const ONE_BYTE: &str = "length,field=1,strip=1";

const TWO_BYTES: &str = "length,field=2,strip=2";

const TWO: &[u8] = b"\x03abc\x01x";

const CUT: &[u8] = b"\x00\x05ab";

const WHOLE: &[u8] = b"F 0 3 616263\nF 4 1 78\nend 6\n";

const LINES: &[u8] = b"a\r\n\nbc";

const LINES_REPORT: &[u8] = b"F 0 1 61\nF 3 0 -\nF 4 2 6263\nend 6\n";

const MARKED: &[u8] = b"a\0\0b\0";

const MARKED_REPORT: &[u8] = b"F 0 1 61\nF 2 0 -\nF 3 1 62\nend 5\n";

const EQUAL_REPORT: &[u8] = b"F 0 2 6162\nF 2 2 6364\nX 4 Cut\nend 5\n";

const PLAIN: Try<'static> = Try {
    codec: ONE_BYTE,
    input: TWO,
    most: 100,
    input_fails: None,
    report_fails: None,
    room: 4096,
    limit: 1000,
    status: Status::Fine,
    report: WHOLE,
};

const OF_LINES: Try<'static> = Try {
    codec: "line",
    input: LINES,
    report: LINES_REPORT,
    ..PLAIN
};

const OF_MARKS: Try<'static> = Try {
    codec: "delim,hex=00|0000",
    input: MARKED,
    report: MARKED_REPORT,
    ..PLAIN
};

const OF_TWO: Try<'static> = Try {
    codec: "fixed,size=2",
    input: b"abcde",
    status: CUT_AT_4,
    report: EQUAL_REPORT,
    ..PLAIN
};

const CUT_FIELD: Status = Status::Stream {
    at: 0,
    kind: FaultKind::Cut,
};

const CUT_AT_4: Status = Status::Stream {
    at: 4,
    kind: FaultKind::Cut,
};

const LONG_LINE: Status = Status::Stream {
    at: 0,
    kind: FaultKind::TooLong,
};

// Whether a run comes to what a row says, whatever the size of its blocks.
fn meets(alloc: Global, rt: &impl Abort, t: &Try) -> Result<(), Fail> {
    for block in [1usize, 4, 65_536] {
        // The numbers of failing reads are those of whole blocks.
        if block == 65_536 || t.input_fails.is_none() {
            let fails = numbers(alloc, t.input_fails)?;
            let report_fails = numbers(alloc, t.report_fails)?;
            let mut host = host_of(alloc, t.input, t.most, fails, t.room, report_fails)?.ok_or(
                "no room",
            )?;
            let status = status_of(alloc, &mut host, t.codec, block, t.limit)?;
            assert_eq!(rt; status, Some(t.status));
            assert_eq!(rt; host.sink().bytes(), t.report);
        }
    }
    Ok(())
}

fn all_meet(alloc: Global, rt: &impl Abort, tries: &[Try<'_>]) -> Result<(), Fail> {
    for t in tries {
        meets(alloc, rt, t)?;
    }
    Ok(())
}

#[test]
fn a_run_says_what_it_read(rt: HostRuntime) -> Result<(), Fail> {
    all_meet(
        rt.alloc(),
        &rt,
        &[
            PLAIN,
            Try {
                input: b"",
                report: b"end 0\n",
                ..PLAIN
            },
            Try {
                codec: TWO_BYTES,
                input: CUT,
                status: CUT_FIELD,
                report: b"X 0 Cut\nend 4\n",
                ..PLAIN
            },
            Try {
                limit: 4,
                status: Status::Limit,
                report: b"F 0 3 616263\nend 4\n",
                ..PLAIN
            },
            Try { limit: 6, ..PLAIN },
            Try { most: 1, ..PLAIN },
        ],
    )
}

#[test]
fn a_run_says_that_its_input_failed(rt: HostRuntime) -> Result<(), Fail> {
    all_meet(
        rt.alloc(),
        &rt,
        &[
            Try {
                input_fails: Some(0),
                status: Status::Source,
                report: b"end 0\n",
                ..PLAIN
            },
            Try {
                most: 2,
                input_fails: Some(2),
                status: Status::Source,
                report: b"F 0 3 616263\nend 4\n",
                ..PLAIN
            },
            Try {
                input_fails: Some(1),
                status: Status::Source,
                report: WHOLE,
                ..PLAIN
            },
        ],
    )
}

#[test]
fn a_run_says_that_its_report_failed(rt: HostRuntime) -> Result<(), Fail> {
    all_meet(
        rt.alloc(),
        &rt,
        &[
            Try {
                report_fails: Some(0),
                status: Status::Report,
                report: b"",
                ..PLAIN
            },
            Try {
                report_fails: Some(1),
                ..PLAIN
            },
            Try {
                room: 5,
                status: Status::Report,
                report: b"F 0 3",
                ..PLAIN
            },
        ],
    )
}

// Where two things end a run otherwise than well, and where a stream is cut off inside a frame.
#[test]
fn a_run_says_the_first_of_two_causes(rt: HostRuntime) -> Result<(), Fail> {
    all_meet(
        rt.alloc(),
        &rt,
        &[
            Try {
                codec: TWO_BYTES,
                input: CUT,
                report_fails: Some(0),
                status: CUT_FIELD,
                report: b"",
                ..PLAIN
            },
            Try {
                input_fails: Some(1),
                report_fails: Some(0),
                status: Status::Source,
                report: b"",
                ..PLAIN
            },
            Try {
                limit: 4,
                report_fails: Some(0),
                status: Status::Limit,
                report: b"",
                ..PLAIN
            },
            Try {
                codec: TWO_BYTES,
                input: CUT,
                most: 2,
                input_fails: Some(1),
                status: Status::Source,
                report: b"end 2\n",
                ..PLAIN
            },
            Try {
                codec: TWO_BYTES,
                input: CUT,
                limit: 3,
                status: Status::Limit,
                report: b"end 3\n",
                ..PLAIN
            },
            Try {
                limit: 6,
                most: 6,
                input_fails: Some(1),
                status: Status::Source,
                ..PLAIN
            },
        ],
    )
}

#[test]
fn a_run_over_lines(rt: HostRuntime) -> Result<(), Fail> {
    all_meet(
        rt.alloc(),
        &rt,
        &[
            OF_LINES,
            Try {
                codec: "line,end=lf,strip=no",
                report: b"F 0 3 610d0a\nF 3 1 0a\nF 4 2 6263\nend 6\n",
                ..OF_LINES
            },
            Try {
                codec: "line,end=crlf",
                report: b"F 0 1 61\nF 3 3 0a6263\nend 6\n",
                ..OF_LINES
            },
            Try {
                codec: "line,max=2",
                input: b"abcd\ne",
                status: LONG_LINE,
                report: b"X 0 TooLong\nF 5 1 65\nend 6\n",
                ..OF_LINES
            },
            Try {
                limit: 5,
                status: Status::Limit,
                report: b"F 0 1 61\nF 3 0 -\nend 5\n",
                ..OF_LINES
            },
            Try {
                most: 2,
                input_fails: Some(1),
                status: Status::Source,
                report: b"end 2\n",
                ..OF_LINES
            },
            Try {
                most: 3,
                input_fails: Some(1),
                status: Status::Source,
                report: b"F 0 1 61\nend 3\n",
                ..OF_LINES
            },
            Try {
                input_fails: Some(1),
                status: Status::Source,
                report: b"F 0 1 61\nF 3 0 -\nend 6\n",
                ..OF_LINES
            },
            Try {
                room: 12,
                status: Status::Report,
                report: b"F 0 1 61\nF 3",
                ..OF_LINES
            },
        ],
    )
}

#[test]
fn a_run_over_delimited_frames(rt: HostRuntime) -> Result<(), Fail> {
    all_meet(
        rt.alloc(),
        &rt,
        &[
            OF_MARKS,
            Try {
                most: 4,
                input_fails: Some(1),
                status: Status::Source,
                report: b"F 0 1 61\nF 2 0 -\nend 4\n",
                ..OF_MARKS
            },
            Try {
                limit: 4,
                status: Status::Limit,
                report: b"F 0 1 61\nF 2 0 -\nend 4\n",
                ..OF_MARKS
            },
            Try {
                report_fails: Some(0),
                status: Status::Report,
                report: b"",
                ..OF_MARKS
            },
            Try {
                codec: "delim,hex=00",
                input: b"a\0b",
                status: Status::Stream {
                    at: 2,
                    kind: FaultKind::Cut,
                },
                report: b"F 0 1 61\nX 2 Cut\nend 3\n",
                ..OF_MARKS
            },
        ],
    )
}

#[test]
fn a_run_over_equal_frames(rt: HostRuntime) -> Result<(), Fail> {
    all_meet(
        rt.alloc(),
        &rt,
        &[
            OF_TWO,
            Try {
                most: 3,
                input_fails: Some(1),
                status: Status::Source,
                report: b"F 0 2 6162\nend 3\n",
                ..OF_TWO
            },
            Try {
                limit: 3,
                status: Status::Limit,
                report: b"F 0 2 6162\nend 3\n",
                ..OF_TWO
            },
            Try {
                room: 8,
                report: b"F 0 2 61",
                ..OF_TWO
            },
        ],
    )
}

fn words_of(alloc: Global, line: &str) -> Result<Vec<String>, AllocError> {
    let mut words = Vec::new(alloc);
    for text in line.split_whitespace() {
        let word = String::from_str(alloc, text)?;
        if words.push(word).is_err() {
            return Err(AllocError);
        }
    }
    Ok(words)
}

// A host whose standard input and whose input `named` give these bytes.
fn named_host(alloc: Global, stdin: &[u8], named: &[u8]) -> Result<Option<MemHost>, AllocError> {
    let none = Vec::new(alloc);
    let Some(mut host) = host_of(alloc, stdin, 100, none, 4096, Vec::new(alloc))? else {
        return Ok(None);
    };
    let source = MemSource::new(Vec::from_slice(alloc, named)?, 100, Vec::new(alloc));
    host.add_in("named", source)?;
    Ok(Some(host))
}

// Words that are refused: the place of the bad word and its kind, and nothing is opened.
#[test]
fn words_that_are_bad_are_refused(rt: HostRuntime) -> Result<(), Fail> {
    let alloc = rt.alloc();
    let tries = [
        ("", 0, UsageKind::Command),
        ("frame length,field=1", 0, UsageKind::Command),
        ("frames", 1, UsageKind::Missing),
        ("frames length,field=01", 1, UsageKind::Codec),
        ("frames length,field=3,strip=1", 1, UsageKind::BadField),
        ("frames length,field=1 --cap 1", 2, UsageKind::Option),
        ("frames length,field=1 --block 0", 3, UsageKind::Value),
        ("frames line x --limit y", 2, UsageKind::Extra),
        ("relay line --in a --out raw a", 6, UsageKind::InOut),
        // Good commands that can't run yet.
        ("chain", 0, UsageKind::NotBuilt),
        ("relay line --out raw a", 0, UsageKind::NotBuilt),
        ("mill 3", 0, UsageKind::NotBuilt),
    ];
    for (line, word, kind) in tries {
        let words = words_of(alloc, line)?;
        let mut host = named_host(alloc, TWO, TWO)?.ok_or("no room")?;
        let status = run_plain(alloc, &mut host, &words);
        assert_eq!(rt; status, Status::Usage { word, kind });
        assert_eq!(rt; host.sink().bytes(), b"".as_slice());
        assert!(rt; host.open_in("").is_ok() && host.open_in("named").is_ok());
    }
    Ok(())
}

// What good words make of a standard input of two frames, an input `named` of one and one that is `empty`.
fn run_as(
    alloc: Global,
    rt: &impl Abort,
    text: &str,
    status: Status,
    report: &[u8],
) -> Result<(), Fail> {
    let words = words_of(alloc, format!(in alloc; "frames {text}")?.as_str())?;
    let mut host = named_host(alloc, TWO, b"\x01y")?.ok_or("no room")?;
    host.add_in("empty", MemSource::new(Vec::new(alloc), 1, Vec::new(alloc)))?;
    assert_eq!(rt; run_plain(alloc, &mut host, &words), status);
    assert_eq!(rt; host.sink().bytes(), report);
    Ok(())
}

#[test]
fn frames_by_their_codec(rt: HostRuntime) -> Result<(), Fail> {
    let tries: [(&str, Status, &[u8]); 6] = [
        ("length,field=1,strip=1", Status::Fine, WHOLE),
        ("length,strip=1,field=1 --block 1", Status::Fine, WHOLE),
        (
            "length,field=1",
            Status::Fine,
            b"F 0 4 03616263\nF 4 2 0178\nend 6\n",
        ),
        (
            "delim,hex=63|01",
            Status::Stream {
                at: 5,
                kind: FaultKind::Cut,
            },
            b"F 0 3 036162\nF 4 0 -\nX 5 Cut\nend 6\n",
        ),
        (
            "fixed,size=3 --block 2",
            Status::Fine,
            b"F 0 3 036162\nF 3 3 630178\nend 6\n",
        ),
        (
            "length,field=1,max=1",
            Status::Stream {
                at: 0,
                kind: FaultKind::TooLong,
            },
            b"X 0 TooLong\nX 4 TooLong\nend 6\n",
        ),
    ];
    for (text, status, report) in tries {
        run_as(rt.alloc(), &rt, text, status, report)?;
    }
    Ok(())
}

#[test]
fn frames_up_to_a_limit(rt: HostRuntime) -> Result<(), Fail> {
    let tries: [(&str, Status, &[u8]); 4] = [
        ("length,field=1,strip=1 --limit 6", Status::Fine, WHOLE),
        (
            "length,field=1,strip=1 --limit 5",
            Status::Limit,
            b"F 0 3 616263\nend 5\n",
        ),
        (
            "length,field=1,strip=1 --limit=5 --block=2",
            Status::Limit,
            b"F 0 3 616263\nend 5\n",
        ),
        ("length,field=1 --limit 0", Status::Limit, b"end 0\n"),
    ];
    for (text, status, report) in tries {
        run_as(rt.alloc(), &rt, text, status, report)?;
    }
    Ok(())
}

#[test]
fn frames_of_a_named_input(rt: HostRuntime) -> Result<(), Fail> {
    let tries: [(&str, Status, &[u8]); 8] = [
        (
            "length,field=1,strip=1 --limit 0 --in empty",
            Status::Fine,
            b"end 0\n",
        ),
        (
            "length,field=1,strip=1 --in named",
            Status::Fine,
            b"F 0 1 79\nend 2\n",
        ),
        (
            "--in=named --block 1 length,field=1,strip=1 --limit 2",
            Status::Fine,
            b"F 0 1 79\nend 2\n",
        ),
        (
            "length,field=1,strip=1 --in named --limit 1",
            Status::Limit,
            b"end 1\n",
        ),
        (
            "length,field=2,order=le,adjust=-1 --in named",
            CUT_FIELD,
            b"X 0 Cut\nend 2\n",
        ),
        ("line --in named", Status::Fine, b"F 0 2 0179\nend 2\n"),
        (
            "length,field=1 --in other",
            Status::NotOpened { nth: 0 },
            b"",
        ),
        ("length,field=1 --in nam", Status::NotOpened { nth: 0 }, b""),
    ];
    for (text, status, report) in tries {
        run_as(rt.alloc(), &rt, text, status, report)?;
    }
    Ok(())
}

// 20,000 frames without bytes, whose report is longer than the text that waits at most.
fn many_lines(alloc: Global) -> Result<Vec<u8>, AllocError> {
    let mut text = Vec::new(alloc);
    for at in 0..20_000u32 {
        let line = format!(in alloc; "F {at} 0 -\n")?;
        text.extend_from_slice(line.as_bytes())?;
    }
    text.extend_from_slice(b"end 20000\n")?;
    Ok(text)
}

#[test]
fn a_long_report_is_a_prefix_where_a_write_fails(rt: HostRuntime) -> Result<(), Fail> {
    let alloc = rt.alloc();
    let whole = many_lines(alloc)?;
    // The report goes out in four writes.
    for (fails, status) in [
        (0u64, Status::Report),
        (1, Status::Report),
        (2, Status::Report),
        (3, Status::Report),
        (4, Status::Fine),
    ] {
        let input = vec![in alloc; 0u8; 20_000]?;
        let fails_at = numbers(alloc, Some(fails))?;
        let none = Vec::new(alloc);
        let mut host = host_of(alloc, &input, 1000, none, 1_000_000, fails_at)?.ok_or("no room")?;
        let got = status_of(alloc, &mut host, ONE_BYTE, 4096, 1_000_000)?;
        assert_eq!(rt; got, Some(status));
        let written = host.sink().bytes();
        assert!(rt;
            whole.starts_with(written),
            "a prefix, with write {fails} failing"
        );
        assert_eq!(rt; written.len() == whole.len(), status == Status::Fine);
        assert_eq!(rt; written.is_empty(), fails == 0);
    }
    Ok(())
}

#[test]
fn statuses_have_numbers_and_lines(rt: HostRuntime) -> Result<(), Fail> {
    let alloc = rt.alloc();
    let kind = UsageKind::NotBuilt;
    for (status, number, line) in [
        (Status::Fine, 0, ""),
        (Status::Usage { word: 0, kind }, 2, "usage 0 NotBuilt"),
        (CUT_FIELD, 3, "stream 0 Cut"),
        (Status::Source, 4, "source"),
        (Status::NotOpened { nth: 0 }, 6, "not opened 0"),
        (Status::Limit, 7, "limit"),
        (Status::Memory, 8, "memory"),
        (Status::Report, 10, "report"),
    ] {
        assert_eq!(rt; status.number(), number);
        assert_eq!(rt; format!(in alloc; "{status}")?.as_str(), line);
    }
    Ok(())
}
