use crate::rows::{CODECS, FRAMES, OTHERS, RELAY};
use crate::shown::{ShownCodec, ShownOrder};
use crate::{Order, UsageKind, WordFault, read_words};
use clap::{Arg, ArgAction, ArgMatches, Command, value_parser};
use std::alloc::Global;
use std::process::Abort;
use std::test::Fail;

// The words of a line, between blanks.
fn words_of(alloc: Global, line: &str) -> Result<Vec<String>, Fail> {
    let mut words = Vec::new(alloc);
    for word in line.split_whitespace() {
        let word = if word == "''" { "" } else { word };
        words.push(String::from_str(alloc, word)?)?;
    }
    Ok(words)
}

// What words are read as.
fn read_as(alloc: Global, words: &[String]) -> Result<String, Fail> {
    Ok(match read_words(alloc, words) {
        Ok(order) => format!(in alloc; "{}", ShownOrder(&order))?,
        Err(WordFault::Usage { word, kind }) => format!(in alloc; "usage {word} {kind:?}")?,
        Err(WordFault::NoMemory) => String::from_str(alloc, "memory")?,
    })
}

// What the words of a line are read as.
fn line_as(alloc: Global, line: &str) -> Result<String, Fail> {
    let words = words_of(alloc, line)?;
    read_as(alloc, &words)
}

// Compares what the words of each line ask for with what stands behind its arrow.
fn try_rows(rt: &impl Abort, alloc: Global, rows: &str) -> Result<(), Fail> {
    for row in rows.lines() {
        let (line, want) = row.split_once("=> ").ok_or("a row has an arrow")?;
        let got = line_as(alloc, line)?;
        assert_eq!(rt; got.as_str(), want, "{line}");
    }
    Ok(())
}

#[test]
fn rows_of_frames(rt: HostRuntime) -> Result<(), Fail> {
    try_rows(&rt, rt.alloc(), FRAMES)
}

#[test]
fn rows_of_codecs(rt: HostRuntime) -> Result<(), Fail> {
    try_rows(&rt, rt.alloc(), CODECS)
}

#[test]
fn rows_of_others(rt: HostRuntime) -> Result<(), Fail> {
    try_rows(&rt, rt.alloc(), OTHERS)
}

#[test]
fn rows_of_relay(rt: HostRuntime) -> Result<(), Fail> {
    try_rows(&rt, rt.alloc(), RELAY)
}

// The words of `relay` with so many subscribers, and one more word.
fn many(alloc: Global, subs: usize, last: &str) -> Result<Vec<String>, Fail> {
    let mut words = words_of(alloc, "relay line --out raw")?;
    for i in 0..subs {
        words.push(format!(in alloc; "s{i}")?)?;
    }
    words.push(String::from_str(alloc, last)?)?;
    Ok(words)
}

// The first bad word among these.
fn fault_of_many(alloc: Global, subs: usize, last: &str) -> Result<Option<WordFault>, Fail> {
    let words = many(alloc, subs, last)?;
    Ok(read_words(alloc, &words).err())
}

#[test]
fn most_subscribers(rt: HostRuntime) -> Result<(), Fail> {
    let alloc = rt.alloc();
    assert_eq!(rt; fault_of_many(alloc, 63, "a")?, None);
    let rows = [
        (63, "s5", UsageKind::Twice, 67),
        (64, "a", UsageKind::Sub, 68),
        (64, "s0", UsageKind::Twice, 68),
        (64, "A", UsageKind::Sub, 68),
        (64, "--cap", UsageKind::Value, 68),
        (64, "--no", UsageKind::Option, 68),
        (70, "a", UsageKind::Sub, 68),
    ];
    for (subs, last, kind, word) in rows {
        let fault = fault_of_many(alloc, subs, last)?;
        let wanted = Some(WordFault::Usage { word, kind });
        assert_eq!(rt; fault, wanted, "{subs} {last}");
    }
    Ok(())
}

#[test]
fn faults_are_named(rt: HostRuntime) -> Result<(), Fail> {
    let (word, kind) = (1, UsageKind::Twice);
    let usage = WordFault::Usage { word, kind };
    let names = format!(in rt.alloc(); "{usage} {}", WordFault::NoMemory)?;
    assert_eq!(rt; names.as_str(), "Usage NoMemory");
    Ok(())
}

// Words of `frames` that are good, from the worked examples and with each option.
const READ_AGAIN: &str = "\
frames length,field=1,strip=1
frames length,field=1,strip=1 --block 1
frames length,field=2
frames length,field=8,max=16
frames length,field=1,adjust=-3
frames length,field=1,strip=3
frames line --block 2
frames line,end=crlf
frames line,max=2
frames delim,hex=00|0000
frames fixed,size=2
frames length,field=1,strip=1 --limit 4
frames length,field=1,strip=1 --limit=6
frames --in=a line
frames --limit 0 --block=1048576 --in b.c fixed,size=1
";

// The words by another reader, as one positional word and three options.
fn other_reading(alloc: Global, words: &[String]) -> Result<ArgMatches, Fail> {
    let command = Command::new(alloc, "frames")
        .arg(
            Arg::new(alloc, "codec")
                .required(true)
                .action(ArgAction::Set),
        )?
        .arg(
            Arg::new(alloc, "block")
                .long("block")
                .value_parser(value_parser!(u64)),
        )?
        .arg(
            Arg::new(alloc, "limit")
                .long("limit")
                .value_parser(value_parser!(u64)),
        )?
        .arg(Arg::new(alloc, "in").long("in").action(ArgAction::Set))?;
    Ok(command.try_get_matches_from(words)?)
}

// The codec's word and the other values, by the other reader.
fn read_again(alloc: Global, words: &[String]) -> Result<String, Fail> {
    let matches = other_reading(alloc, words)?;
    let codec = matches.get_str("codec").unwrap_or("none");
    let block = matches.get_one::<u64>("block").unwrap_or(65_536);
    let limit = matches.get_one::<u64>("limit").unwrap_or(1_099_511_627_776);
    let input = matches.get_str("in").unwrap_or("");
    Ok(format!(in alloc; "{codec} {block} {limit} {input}")?)
}

// The codec, as it is shown, and the other values.
fn read_once(alloc: Global, words: &[String]) -> Result<String, Fail> {
    match read_words(alloc, words) {
        Ok(
            Order::Frames {
                codec,
                block,
                limit,
                input,
            },
        ) => Ok(format!(in alloc; "{} {block} {limit} {}", ShownCodec(&codec), input.as_str())?),
        _ => Err(Fail::from("good words of frames")),
    }
}

// The codec of this word alone, as it is shown, and these values.
fn with_codec(alloc: Global, word: &str, values: &str) -> Result<String, Fail> {
    let words = words_of(alloc, format!(in alloc; "frames {word}")?.as_str())?;
    match read_words(alloc, &words) {
        Ok(Order::Frames { codec, .. }) => {
            Ok(format!(in alloc; "{} {values}", ShownCodec(&codec))?)
        }
        _ => Err(Fail::from("a good codec")),
    }
}

// What both readers make of a line.
fn both_readings(alloc: Global, line: &str) -> Result<(String, String), Fail> {
    let words = words_of(alloc, line)?;
    let again = read_again(alloc, &words)?;
    let (word, values) = again.as_str().split_once(' ').ok_or("a codec")?;
    let wanted = with_codec(alloc, word, values)?;
    Ok((read_once(alloc, &words)?, wanted))
}

#[test]
fn another_reader_agrees(rt: HostRuntime) -> Result<(), Fail> {
    for line in READ_AGAIN.lines() {
        let (got, wanted) = both_readings(rt.alloc(), line)?;
        assert_eq!(rt; got, wanted, "{line}");
    }
    Ok(())
}
