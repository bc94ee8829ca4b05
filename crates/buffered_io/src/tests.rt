use super::*;
use relay_ports::{MemSink, MemSource};
use std::alloc::{AllocError, Global};
use std::test::Fail;

fn numbers(alloc: Global, n: Option<u64>) -> Result<Vec<u64>, AllocError> {
    let mut list = Vec::new(alloc);
    if let Some(n) = n {
        list.push(n)?;
    }
    Ok(list)
}

fn sink_of(alloc: Global, room: usize, fails: Option<u64>) -> Result<Option<MemSink>, AllocError> {
    Ok(MemSink::new(alloc, room, numbers(alloc, fails)?).ok())
}

#[test]
fn a_block_is_filled_by_repeated_reads(rt: HostRuntime) -> Result<(), Fail> {
    let alloc = rt.alloc();
    // How many bytes a read gives, which fails, the size of a block, what the first block holds and how it ended, and
    // what a byte more comes to.
    let tries: [(usize, Option<u64>, usize, &[u8], Filled, Stop); 8] = [
        (9, None, 3, b"abc", Filled::Full, Stop::Limit),
        (2, None, 3, b"abc", Filled::Full, Stop::Limit),
        (1, None, 5, b"abcde", Filled::Full, Stop::End),
        (2, None, 6, b"abcde", Filled::Ended, Stop::End),
        (2, Some(0), 6, b"", Filled::Broken, Stop::Limit),
        (2, Some(1), 6, b"ab", Filled::Broken, Stop::Limit),
        (2, Some(2), 4, b"abcd", Filled::Full, Stop::Failure),
        (2, None, 0, b"", Filled::Full, Stop::Limit),
    ];
    for (most, fails, size, bytes, filled, stop) in tries {
        let input = Vec::from_slice(alloc, b"abcde")?;
        let mut source = MemSource::new(input, most.max(1), numbers(alloc, fails)?);
        let mut block = vec![in alloc; b'-'; size]?;
        let (count, got) = fill(&mut source, &mut block);
        block.truncate(count);
        assert_eq!(rt; block.as_slice(), bytes);
        assert_eq!(rt; got, filled);
        assert_eq!(rt; probe(&mut source), stop);
    }
    Ok(())
}

#[test]
fn text_is_printed_in_order(rt: HostRuntime) -> Result<(), Fail> {
    let alloc = rt.alloc();
    let mut sink = sink_of(alloc, 1000, None)?.ok_or("no room")?;
    let mut printer = Printer::new(alloc)?;
    for n in [
        0u64,
        9,
        10,
        99,
        100,
        999,
        1000,
        9999,
        10_000,
        12_345_678,
        u64::MAX,
    ] {
        printer.put_decimal(&mut sink, n);
        printer.put(&mut sink, b" ");
    }
    printer.put_hexadecimal(&mut sink, b"\x00\x09\x0a\x0f\x10\x9f\xa0\xff");
    printer.put_hexadecimal(&mut sink, b"");
    assert!(rt; sink.bytes().is_empty());
    printer.flush(&mut sink);
    let numbers = "0 9 10 99 100 999 1000 9999 10000 12345678 18446744073709551615 ";
    let text = format!(in alloc; "{numbers}00090a0f109fa0ff")?;
    assert_eq!(rt; sink.bytes(), text.as_bytes());
    assert_eq!(rt; printer.failed(), false);
    Ok(())
}

#[test]
fn bytes_of_each_number_have_their_digits(rt: HostRuntime) -> Result<(), Fail> {
    let alloc = rt.alloc();
    let bytes =
        b"\x00\x1f\x2e\x3d\x4c\x5b\x6a\x79\x88\x97\xa6\xb5\xc4\xd3\xe2\xf1\xff\x0b\x30\x55\x7a\x9f\xc4\xe9\
        \x0e\x33\x58\x7d\xa2\xc7\xec\x11\x36\x5b\x80\xa5\xca\xef\x14\x39\x5e\x83\xa8\xcd\xf2\x17\x3c";
    let text = b"001f2e3d4c5b6a798897a6b5c4d3e2f1ff0b30557a9fc4e9\
        0e33587da2c7ec11365b80a5caef14395e83a8cdf2173c";
    for n in [1usize, 7, 8, 9, 15, 16, 17, 31, 32, 33, 47] {
        let mut sink = sink_of(alloc, 1000, None)?.ok_or("no room")?;
        let mut printer = Printer::new(alloc)?;
        printer.put_hexadecimal(&mut sink, &bytes[..n]);
        printer.flush(&mut sink);
        assert_eq!(rt; sink.bytes(), &text[..2 * n]);
    }
    Ok(())
}

#[test]
fn an_entry_is_a_letter_and_two_numbers(rt: HostRuntime) -> Result<(), Fail> {
    let alloc = rt.alloc();
    let mut sink = sink_of(alloc, 1000, None)?.ok_or("no room")?;
    let mut printer = Printer::new(alloc)?;
    for (letter, first, second) in [
        (b'F', 1_234_567u64, 16u64),
        (b'G', 0, 0),
        (b'H', u64::MAX, u64::MAX),
        (b'I', 99, 100),
    ] {
        printer.put_entry(&mut sink, letter, first, second);
        printer.put(&mut sink, b"-");
    }
    assert!(rt; sink.bytes().is_empty());
    printer.flush(&mut sink);
    let text = b"F 1234567 16 -G 0 0 -H 18446744073709551615 18446744073709551615 -I 99 100 -";
    assert_eq!(rt; sink.bytes(), text.as_slice());
    assert_eq!(rt; printer.failed(), false);
    Ok(())
}

#[test]
fn a_long_text_goes_out_in_large_writes(rt: HostRuntime) -> Result<(), Fail> {
    let alloc = rt.alloc();
    let piece = vec![in alloc; b'a'; 70_000]?;
    // Which write fails, and how many bytes were written. The text has 70,000 bytes, which are written from where they
    // lie, and then 140,000 digits and 5 bytes more, which go out in writes of at most 65,536 bytes.
    let tries: [(Option<u64>, usize); 6] = [
        (None, 210_005),
        (Some(0), 0),
        (Some(1), 70_000),
        (Some(2), 135_536),
        (Some(3), 201_072),
        (Some(4), 210_005),
    ];
    for (fails, length) in tries {
        let mut sink = sink_of(alloc, 1_000_000, fails)?.ok_or("no room")?;
        let mut printer = Printer::new(alloc)?;
        printer.put(&mut sink, &piece);
        printer.put_hexadecimal(&mut sink, &piece);
        printer.put(&mut sink, b"bcdef");
        printer.flush(&mut sink);
        assert_eq!(rt; printer.failed(), length < 210_005);
        assert_eq!(rt; sink.bytes().len(), length);
        // Nothing goes out behind a failure.
        printer.put(&mut sink, &piece);
        printer.flush(&mut sink);
        if length < 210_005 {
            assert_eq!(rt; sink.bytes().len(), length);
        }
    }
    Ok(())
}

#[test]
fn a_large_text_is_written_from_where_it_lies(rt: HostRuntime) -> Result<(), Fail> {
    let alloc = rt.alloc();
    let large = vec![in alloc; b'a'; 200_000]?;
    // Which write fails, and how many bytes were written: there are two writes, of the three bytes that wait and of the
    // text.
    let tries: [(u64, usize); 3] = [(0, 0), (1, 3), (2, 200_003)];
    for (fails, length) in tries {
        let mut sink = sink_of(alloc, 1_000_000, Some(fails))?.ok_or("no room")?;
        let mut printer = Printer::new(alloc)?;
        printer.put(&mut sink, b"bcd");
        printer.put(&mut sink, &large);
        assert_eq!(rt; printer.failed(), length < 200_003);
        assert_eq!(rt; sink.bytes().len(), length);
    }
    Ok(())
}

#[test]
fn a_text_is_written_whole(rt: HostRuntime) -> Result<(), Fail> {
    let alloc = rt.alloc();
    for (room, whole, written) in [
        (9usize, true, b"abcde".as_slice()),
        (3, false, b"abc"),
        (0, false, b""),
    ] {
        let mut sink = sink_of(alloc, room, None)?.ok_or("no room")?;
        assert_eq!(rt; write_all(&mut sink, b"abcde"), whole);
        assert_eq!(rt; sink.bytes(), written);
    }
    Ok(())
}
