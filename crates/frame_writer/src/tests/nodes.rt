//! Frames that lie in nodes.
ghost use Rattle.std.specs.Prelude.{◌≡◌, true};
ghost use Rattle.frame_head.specs.Framed.{has_known_field};

use super::sink_of;
use crate::{FrameOver, print_batch, write_batch, write_chain};
use buffered_io::Printer;
use frame_batch::{Batch, Window};
use frame_head::{Mark, Out};
use iobuf_chain::{Chain, Frame};
use iobuf_node::IoBuf;
use std::alloc::Global;
use std::process::Abort;
use std::test::Fail;

// A chain of wrapped nodes.
fn chain_of(rt: &impl Abort, alloc: Global, nodes: &[&'static [u8]]) -> Frame {
    let mut chain = Chain::of(alloc, IoBuf::wrap(b""));
    for node in nodes {
        let next = Chain::of(alloc, IoBuf::wrap(node));
        assert!(rt; chain.length() <= 1000 && next.length() <= 1000);
        chain.append_chain(next).expect(rt, "memory for a list");
    }
    chain
}

// The frames of these places and sizes on the bytes of these nodes.
fn batch_of(
    rt: &impl Abort,
    alloc: Global,
    nodes: &[&'static [u8]],
    windows: &[(u64, u64)],
) -> Batch {
    let mut list = Vec::new(alloc);
    for (place, size) in windows {
        let window = Window {
            place: *place,
            size: *size,
        };
        list.push(window).expect(rt, "memory for a window");
    }
    let chain = chain_of(rt, alloc, nodes);
    assert!(rt; Window::are_in(&list, chain.length()));
    Batch::new(alloc, chain, list).expect(rt, "memory for a list")
}

// The frames `ab`, none and `cd` in three nodes: as a batch, and each as a chain.
fn writes(rt: &impl Abort, alloc: Global, out: &Out, text: &[u8]) -> Result<(), Fail>
    requires { has_known_field out.now ≡ true }
{
    let batch = batch_of(rt, alloc, &[b"-a", b"bc", b"d-"], &[(1, 2), (3, 0), (3, 2)]);
    let mut printer = Printer::new(alloc)?;
    let mut sink = sink_of(alloc, 100, false)?;
    assert!(rt; write_batch(&mut printer, &mut sink, out, &batch).is_ok());
    // What is small waits in the printer.
    assert!(rt; sink.bytes().is_empty());
    printer.flush(&mut sink);
    assert_eq!(rt; sink.bytes(), text);

    let mut sink = sink_of(alloc, 100, false)?;
    print_batch(&mut printer, &mut sink, out, &batch);
    printer.flush(&mut sink);
    assert_eq!(rt; sink.bytes(), text);

    let mut sink = sink_of(alloc, 100, false)?;
    let frames: [&[&'static [u8]]; 3] = [&[b"a", b"b"], &[], &[b"", b"cd"]];
    for nodes in frames {
        let frame = chain_of(rt, alloc, nodes);
        assert!(rt; write_chain(&mut printer, &mut sink, out, &frame).is_ok());
    }
    printer.flush(&mut sink);
    assert_eq!(rt; sink.bytes(), text);
    Ok(())
}

#[test]
fn frames_of_nodes_are_framed(rt: HostRuntime) -> Result<(), Fail> {
    let alloc = rt.alloc();
    let length = Out::Length {
        field: 2,
        little: true,
    };
    writes(&rt, alloc, &length, b"\x02\x00ab\x00\x00\x02\x00cd")?;
    writes(&rt, alloc, &Out::Line { crlf: true }, b"ab\r\n\r\ncd\r\n")?;
    writes(&rt, alloc, &Out::Raw, b"abcd")?;
    let mark = Mark::new(Vec::from_slice(alloc, b"--")?);
    writes(&rt, alloc, &Out::Delim { mark }, b"ab----cd--")
}

const LONG: [u8; 256] = [b'x'; 256];

#[test]
fn a_batch_with_a_frame_that_is_too_long(rt: HostRuntime) -> Result<(), Fail> {
    let alloc = rt.alloc();
    let out = Out::Length {
        field: 1,
        little: false,
    };
    let refused = FrameOver {
        size: 256,
        most: 255,
    };
    let mut printer = Printer::new(alloc)?;
    let mut sink = sink_of(alloc, 1000, false)?;
    let frame = chain_of(&rt, alloc, &[b"ab", &LONG]);
    let over = FrameOver {
        size: 258,
        most: 255,
    };
    assert_eq!(rt;
        write_chain(&mut printer, &mut sink, &out, &frame),
        Err(over)
    );
    let batch = batch_of(&rt, alloc, &[b"ab", &LONG], &[(0, 2), (1, 256), (0, 257)]);
    assert_eq!(rt;
        write_batch(&mut printer, &mut sink, &out, &batch),
        Err(refused)
    );
    printer.flush(&mut sink);
    assert!(rt; sink.bytes().is_empty());
    // Without the look, the lowest byte of the length stands before it.
    print_batch(&mut printer, &mut sink, &out, &batch);
    printer.flush(&mut sink);
    assert!(rt; sink.bytes().starts_with(b"\x02ab\x00bx"));
    assert_eq!(rt; sink.bytes().len(), 3 + 257 + 258);
    Ok(())
}
