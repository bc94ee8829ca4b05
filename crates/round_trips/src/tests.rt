ghost use Rattle.std.specs.Prelude.{◌≡◌, true};
ghost use Rattle.frame_head.specs.Checks.{is_field};
ghost use Rattle.frame_head.specs.Framed.{has_known_field};

use crate::reading::{show_bytes, units_of};
use crate::writing::written;
use frame_head::{Codec, LineEnd, Mark, Marks, Out, check};
use std::alloc::Global;
use std::process::Abort;

// Frames that are written are what a decoder by this codec reads, whole and cut in pieces.
fn come_back(rt: &impl Abort, alloc: Global, out: &Out, codec: &Codec, frames: &[&[u8]])
    requires { has_known_field out.now ≡ true }
{
    assert!(rt; check(codec).is_ok());
    let text = written(rt, alloc, out, frames);
    let want = shown(rt, alloc, frames);
    for piece in [4000, 7, 3, 2, 1] {
        let units = units_of(rt, alloc, codec, &text, piece);
        assert!(rt; units.as_str() == want.as_str(), "in pieces of {piece}");
    }
}

// Frames as units are shown: each in hexadecimal, with a comma behind it.
fn shown(rt: &impl Abort, alloc: Global, frames: &[&[u8]]) -> String {
    let mut all = String::new(alloc);
    for frame in frames {
        show_bytes(rt, alloc, frame, &mut all);
        all.push_str(",").expect(rt, "memory for a text");
    }
    all
}

// So many bytes in turn.
fn long(rt: &impl Abort, alloc: Global, size: usize) -> Vec<u8> {
    let mut bytes = Vec::new(alloc);
    for i in 0..size {
        bytes.push((i % 251) as u8).expect(rt, "memory for a frame");
    }
    bytes
}

// A field of so many bytes in front of what it counts.
fn by_field(field: u8, little: bool) -> Codec {
    Codec::Length {
        field,
        offset: 0,
        adjust: 0,
        strip: u32::from(field),
        little,
        max: 1000,
    }
}

// Frames come back from behind lengths of so many bytes, in both orders.
fn by_lengths(rt: &impl Abort, alloc: Global, field: u8, frames: &[&[u8]])
    requires { is_field field ≡ true }
{
    for little in [false, true] {
        let out = Out::Length { field, little };
        come_back(rt, alloc, &out, &by_field(field, little), frames);
    }
}

#[test]
fn frames_behind_their_lengths(rt: HostRuntime) {
    let alloc = rt.alloc();
    let longest = long(&rt, alloc, 255);
    let frames: [&[u8]; 5] = [b"abc", b"", b"\x00\x01\x02", &longest, b"\xff"];
    by_lengths(&rt, alloc, 1, &frames);
    by_lengths(&rt, alloc, 2, &frames);
    by_lengths(&rt, alloc, 4, &frames);
    by_lengths(&rt, alloc, 8, &frames);
}

#[test]
fn frames_whose_length_has_two_bytes(rt: HostRuntime) {
    let alloc = rt.alloc();
    let longer = long(&rt, alloc, 258);
    let frames: [&[u8]; 3] = [&longer, b"", b"a"];
    by_lengths(&rt, alloc, 2, &frames);
    by_lengths(&rt, alloc, 4, &frames);
    by_lengths(&rt, alloc, 8, &frames);
}

#[test]
fn lines(rt: HostRuntime) {
    let alloc = rt.alloc();
    // A carriage return within a line stays.
    let frames: [&[u8]; 4] = [b"ab", b"", b"a\rb", b"c"];
    for (crlf, ending) in [
        (false, LineEnd::Lf),
        (true, LineEnd::Crlf),
        (false, LineEnd::Any),
        (true, LineEnd::Any),
    ] {
        let codec = Codec::Line {
            ending,
            strip: true,
            max: 100,
        };
        come_back(&rt, alloc, &Out::Line { crlf }, &codec, &frames);
    }
}

#[test]
fn delimited_frames(rt: HostRuntime) {
    let alloc = rt.alloc();
    let frames: [&[u8]; 4] = [b"ab", b"", b"<", b"-\n"];
    for bytes in [b"|".as_slice(), b"<>", b"<->"] {
        let mark = Mark::new(Vec::from_slice(alloc, bytes).expect(&rt, "memory for a mark"));
        let out = Out::Delim { mark };
        come_back(&rt, alloc, &out, &by_mark(&rt, alloc, bytes), &frames);
    }
}

// Frames that end with this delimiter.
fn by_mark(rt: &impl Abort, alloc: Global, bytes: &[u8]) -> Codec {
    let mut list = Vec::new(alloc);
    let mark = Mark::new(Vec::from_slice(alloc, bytes).expect(rt, "memory for a mark"));
    list.push(mark).expect(rt, "memory for a list");
    Codec::Delim {
        list: Marks::new(list),
        strip: true,
        max: 100,
    }
}
