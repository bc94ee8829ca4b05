ghost use Rattle.std.specs.Prelude.{◌≡◌, true};
ghost use Rattle.frame_head.specs.Framed.{has_known_field};

mod nodes;

use super::*;
use buffered_io::Printer;
use frame_head::{Mark, Out};
use relay_ports::MemSink;
use std::alloc::Global;
use std::process::Abort;
use std::test::Fail;

// A sink of so much room, whose first call fails where `fails` says so.
fn sink_of(alloc: Global, room: usize, fails: bool) -> Result<MemSink, Fail> {
    let mut calls = Vec::new(alloc);
    if fails {
        calls.push(0)?;
    }
    match MemSink::new(alloc, room, calls) {
        Ok(sink) => Ok(sink),
        Err(_) => Err("no room".into()),
    }
}

// The frames `ab`, none and `c`: one by one, as a list, and in parts.
fn writes(alloc: Global, rt: &impl Abort, out: &Out, text: &[u8]) -> Result<(), Fail>
    requires { has_known_field out.now ≡ true }
{
    let frames: [&[u8]; 3] = [b"ab", b"", b"c"];
    let mut sink = sink_of(alloc, 100, false)?;
    let mut printer = Printer::new(alloc)?;
    for frame in frames {
        assert!(rt; write_frame(&mut printer, &mut sink, out, frame).is_ok());
    }
    // Few large writes: what is small waits in the printer.
    assert!(rt; sink.bytes().is_empty());
    printer.flush(&mut sink);
    is_text(rt, sink.bytes(), text);

    let mut sink = sink_of(alloc, 100, false)?;
    assert!(rt; write_frames(&mut printer, &mut sink, out, &frames).is_ok());
    printer.flush(&mut sink);
    is_text(rt, sink.bytes(), text);

    let mut sink = sink_of(alloc, 100, false)?;
    let parts: [&[&[u8]]; 3] = [&[b"a", b"", b"b"], &[], &[b"", b"c"]];
    for frame in parts {
        assert!(rt; write_parts(&mut printer, &mut sink, out, frame).is_ok());
    }
    printer.flush(&mut sink);
    is_text(rt, sink.bytes(), text);
    Ok(())
}

fn is_text(rt: &impl Abort, bytes: &[u8], text: &[u8]) {
    assert_eq!(rt; bytes, text);
}

#[test]
fn frames_behind_their_lengths(rt: HostRuntime) -> Result<(), Fail> {
    let alloc = rt.alloc();
    let byte = Out::Length {
        field: 1,
        little: false,
    };
    writes(alloc, &rt, &byte, b"\x02ab\x00\x01c")?;
    let big = Out::Length {
        field: 2,
        little: false,
    };
    writes(alloc, &rt, &big, b"\x00\x02ab\x00\x00\x00\x01c")?;
    let little = Out::Length {
        field: 4,
        little: true,
    };
    writes(
        alloc,
        &rt,
        &little,
        b"\x02\x00\x00\x00ab\x00\x00\x00\x00\x01\x00\x00\x00c",
    )
}

#[test]
fn frames_with_their_endings(rt: HostRuntime) -> Result<(), Fail> {
    let alloc = rt.alloc();
    writes(alloc, &rt, &Out::Line { crlf: false }, b"ab\n\nc\n")?;
    writes(alloc, &rt, &Out::Line { crlf: true }, b"ab\r\n\r\nc\r\n")?;
    writes(alloc, &rt, &Out::Raw, b"abc")?;
    let mark = Mark::new(Vec::from_slice(alloc, b"--")?);
    writes(alloc, &rt, &Out::Delim { mark }, b"ab----c--")
}

#[test]
fn frames_over_their_field_are_refused(rt: HostRuntime) -> Result<(), Fail> {
    let alloc = rt.alloc();
    let out = Out::Length {
        field: 1,
        little: false,
    };
    let full = vec![in alloc; b'x'; 255]?;
    let over = vec![in alloc; b'x'; 256]?;
    let refused = FrameOver {
        size: 256,
        most: 255,
    };
    let mut sink = sink_of(alloc, 1000, false)?;
    let mut printer = Printer::new(alloc)?;
    let alone = write_frame(&mut printer, &mut sink, &out, &over);
    assert_eq!(rt; alone, Err(refused));
    let parts: [&[u8]; 2] = [&full, b"x"];
    assert_eq!(rt;
        write_parts(&mut printer, &mut sink, &out, &parts),
        Err(refused)
    );
    // Of a list with one such frame nothing is printed, not the frames before it either.
    let listed: [&[u8]; 3] = [b"a", &over, b"b"];
    assert_eq!(rt;
        write_frames(&mut printer, &mut sink, &out, &listed),
        Err(refused)
    );
    printer.flush(&mut sink);
    assert!(rt; sink.bytes().is_empty());
    assert!(rt; write_frame(&mut printer, &mut sink, &out, &full).is_ok());
    printer.flush(&mut sink);
    assert_eq!(rt; sink.bytes().len(), 256);
    assert!(rt; sink.bytes().starts_with(b"\xffx"));
    assert!(rt; write_frame(&mut printer, &mut sink, &Out::Raw, &over).is_ok());
    let text = format!(in alloc; "{refused}")?;
    let said = "a frame of 256 bytes is longer than the 255 that its field can hold";
    assert_eq!(rt; text.as_str(), said);
    Ok(())
}

#[test]
fn a_frame_longer_than_the_room(rt: HostRuntime) -> Result<(), Fail> {
    let alloc = rt.alloc();
    let out = Out::Length {
        field: 4,
        little: false,
    };
    let long = vec![in alloc; b'x'; 200_000]?;
    let mut sink = sink_of(alloc, 300_000, false)?;
    let mut printer = Printer::new(alloc)?;
    assert!(rt; write_frame(&mut printer, &mut sink, &out, &long).is_ok());
    printer.flush(&mut sink);
    assert_eq!(rt; sink.bytes().len(), 200_004);
    assert!(rt; sink.bytes().starts_with(b"\x00\x03\x0d\x40x"));
    Ok(())
}

#[test]
fn a_failed_sink_is_told_by_the_printer(rt: HostRuntime) -> Result<(), Fail> {
    let alloc = rt.alloc();
    let mut sink = sink_of(alloc, 100, true)?;
    let mut printer = Printer::new(alloc)?;
    let frames: [&[u8]; 2] = [b"ab", b"c"];
    // The frames are taken: that the sink fails shows when the printer writes.
    assert!(rt; write_frames(&mut printer, &mut sink, &Out::Line { crlf: false }, &frames).is_ok());
    assert!(rt; !printer.failed());
    printer.flush(&mut sink);
    assert!(rt; printer.failed());
    assert!(rt; sink.bytes().is_empty());
    Ok(())
}
