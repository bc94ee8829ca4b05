use super::*;
use std::alloc::{AllocError, Global};
use std::test::Fail;

// Reads once into a block of `size` times `#`, and gives the block and the answer.
fn read_once(
    alloc: Global,
    source: &mut MemSource,
    size: usize,
) -> Result<(Vec<u8>, Result<usize, Failed>), AllocError> {
    let mut block = vec![in alloc; b'#'; size]?;
    let answer = source.read(&mut block);
    Ok((block, answer))
}

#[test]
fn a_source_gives_its_bytes_in_order(rt: HostRuntime) -> Result<(), Fail> {
    let alloc = rt.alloc();
    let bytes = Vec::from_slice(alloc, b"abcde")?;
    let mut source = MemSource::new(bytes, 2, vec![in alloc; 1u64, 3, 4]?);
    let wanted: [(usize, &[u8], Result<usize, Failed>); 9] = [
        (4, b"ab##", Ok(2)),
        (4, b"####", Err(Failed::OTHER)),
        (1, b"c", Ok(1)),
        (4, b"####", Err(Failed::OTHER)),
        (0, b"", Err(Failed::OTHER)),
        (0, b"", Ok(0)),
        (4, b"de##", Ok(2)),
        (4, b"####", Ok(0)),
        (4, b"####", Ok(0)),
    ];
    for (size, block, answer) in wanted {
        let (got, told) = read_once(alloc, &mut source, size)?;
        assert_eq!(rt; told, answer);
        assert_eq!(rt; got.as_slice(), block);
    }
    Ok(())
}

#[test]
fn a_sink_takes_up_to_its_stop(rt: HostRuntime) -> Result<(), Fail> {
    let alloc = rt.alloc();
    let mut sink = MemSink::new(alloc, 5, vec![in alloc; 1u64]?)
        .ok()
        .ok_or("no room")?;
    let wanted: [(&[u8], Result<usize, Failed>, &[u8]); 7] = [
        (b"ab", Ok(2), b"ab"),
        (b"cd", Err(Failed::OTHER), b"ab"),
        (b"", Ok(0), b"ab"),
        (b"c", Ok(1), b"abc"),
        (b"defg", Ok(2), b"abcde"),
        (b"f", Err(Failed::OTHER), b"abcde"),
        (b"", Ok(0), b"abcde"),
    ];
    for (piece, taken, written) in wanted {
        assert_eq!(rt; sink.write(piece), taken);
        assert_eq!(rt; sink.bytes(), written);
    }
    assert!(rt; MemSink::closed(alloc).write(b"a").is_err());
    Ok(())
}

#[test]
fn a_host_opens_what_was_added_once(rt: HostRuntime) -> Result<(), Fail> {
    let alloc = rt.alloc();
    let mut host = MemHost::new(alloc);
    for (name, text) in [("in", b"old"), ("in", b"new"), ("", b"std")] {
        let bytes = Vec::from_slice(alloc, text)?;
        host.add_in(name, MemSource::new(bytes, 9, Vec::new(alloc)))?;
    }
    let wanted: [(&str, Result<&[u8], NotOpened>); 6] = [
        ("out", Err(NotOpened::Failed)),
        ("in", Ok(b"new####")),
        ("in", Err(NotOpened::Failed)),
        ("", Ok(b"std####")),
        ("", Err(NotOpened::Failed)),
        ("out", Err(NotOpened::Failed)),
    ];
    for (name, block) in wanted {
        match (host.open_in(name), block) {
            (Ok(mut input), Ok(block)) => {
                let (got, answer) = read_once(alloc, &mut input, 7)?;
                assert_eq!(rt; answer, Ok(3));
                assert_eq!(rt; got.as_slice(), block);
                host.finish_in(name, input);
            }
            (answer, block) => assert_eq!(rt; answer.err(), block.err()),
        }
    }
    Ok(())
}

// Adds an output that takes six bytes, twice, makes it, writes a piece to it once and finishes it. Nothing stands for
// an answer that wasn't wanted.
fn write_output(alloc: Global, host: &mut MemHost, name: &str, piece: &[u8]) -> Option<()> {
    for _ in 0..2 {
        let sink = MemSink::new(alloc, 6, Vec::new(alloc)).ok()?;
        host.add_out(name, sink).ok()?;
    }
    let mut output = host.create_out(name).ok()?;
    let _taken = output.write(piece);
    host.finish_out(name, output).ok()
}

fn has_text(host: &MemHost, name: &str, text: Option<&[u8]>) -> bool {
    host.written(name) == text
}

#[test]
fn the_last_output_of_a_name_is_its_text(rt: HostRuntime) -> Result<(), Fail> {
    let alloc = rt.alloc();
    let mut host = MemHost::new(alloc);
    let runs: [(&str, &[u8], &[u8]); 4] = [
        ("a", b"first", b"first"),
        ("b", b"", b""),
        ("a", b"second", b"second"),
        ("b", b"too long", b"too lo"),
    ];
    for (name, piece, text) in runs {
        assert_eq!(rt; host.create_out(name).err(), Some(NotOpened::Failed));
        assert!(rt; write_output(alloc, &mut host, name, piece).is_some());
        assert!(rt; has_text(&host, name, Some(text)));
    }
    assert!(rt; has_text(&host, "a", Some(b"second")));
    assert!(rt; has_text(&host, "c", None));
    Ok(())
}

#[test]
fn names_fail_that_are_told_to(rt: HostRuntime) -> Result<(), Fail> {
    let alloc = rt.alloc();
    let mut host = MemHost::new(alloc);
    let bytes = Vec::from_slice(alloc, b"x")?;
    host.add_in("in", MemSource::new(bytes, 9, Vec::new(alloc)))?;
    host.fail_open("in")?;
    host.fail_open("made")?;
    host.fail_finish("out")?;
    for _ in 0..2 {
        assert_eq!(rt; host.open_in("in").err(), Some(NotOpened::Failed));
        assert!(rt; write_output(alloc, &mut host, "made", b"text").is_none());
        assert!(rt; write_output(alloc, &mut host, "out", b"text").is_none());
    }
    assert!(rt; has_text(&host, "made", None));
    assert!(rt; has_text(&host, "out", Some(b"text")));
    Ok(())
}

#[test]
fn blocks_are_lent_and_taken_back(rt: HostRuntime) -> Result<(), Fail> {
    let alloc = rt.alloc();
    let mut host = MemHost::new(alloc);
    let first = host.lend(3)?;
    let second = host.lend(0)?;
    assert_eq!(rt; (first.number, second.number, host.out_count()), (0, 1, 2));
    assert_eq!(rt; first.bytes.as_slice(), [0u8, 0, 0].as_slice());
    host.take_back(first);
    let third = host.lend(1)?;
    assert_eq!(rt; (third.number, host.out_count()), (2, 2));
    host.take_back(third);
    host.set_most_out(1);
    assert!(rt; host.lend(1).is_err());
    host.take_back(second);
    assert_eq!(rt; host.out_count(), 0);
    assert_eq!(rt; host.lend(1)?.number, 3);
    Ok(())
}

#[test]
fn a_report_is_lent_and_errors_are_shown(rt: HostRuntime) -> Result<(), Fail> {
    let alloc = rt.alloc();
    let mut host = MemHost::new(alloc);
    assert!(rt; host.report().write(b"a").is_err());
    host.set_report(
        MemSink::new(alloc, 9, Vec::new(alloc))
            .ok()
            .ok_or("no room")?,
    );
    assert_eq!(rt; host.report().write(b"ab"), Ok(2));
    assert_eq!(rt; host.sink().bytes(), b"ab".as_slice());
    let shown = format!(in alloc;
        "{}, {}, {}",
        Failed::OTHER,
        NotOpened::Failed,
        NotOpened::NoMemory
    )?;
    let wanted =
        "a call of the outside failed: other error, the outside refused it, memory was refused";
    assert_eq!(rt; shown.as_str(), wanted);
    Ok(())
}
