//! Drainers over sinks in memory.
ghost use Rattle.std.specs.Prelude.{◌≡◌, None, true};
ghost use Rattle.frame_head.specs.Framed.{has_known_field};
ghost use Rattle.sub_queue.specs.Ends.{end_of};

use super::*;
use frame_batch::{Batch, Window};
use frame_head::{Mark, Out};
use iobuf_chain::Chain;
use iobuf_node::IoBuf;
use relay_ports::{Failed, MemSink, Sink};
use std::alloc::Global;
use std::process::Abort;
use std::sync::Wait;
use std::test::Fail;
use sub_queue::{End, Feed, make};

const BYTE: Out = Out::Length {
    field: 1,
    little: false,
};

// A sink of so much room, of whose calls one fails where `fails` says so.
fn sink_of(rt: &impl Abort, alloc: Global, room: usize, fails: Option<u64>) -> MemSink {
    let mut calls = Vec::new(alloc);
    if let Some(n) = fails {
        calls.push(n).expect(rt, "memory for a number");
    }
    match MemSink::new(alloc, room, calls) {
        Ok(sink) => sink,
        Err(_) => rt.abort(),
    }
}

// The frames of these sizes, one behind another, on two nodes.
fn batch_of(rt: &impl Abort, alloc: Global, sizes: &[u64]) -> Batch {
    let mut chain = Chain::of(alloc, IoBuf::wrap(b"abc"));
    let rest = Chain::of(alloc, IoBuf::wrap(b"defghij"));
    assert!(rt; chain.length() <= 100 && rest.length() <= 100);
    chain.append_chain(rest).expect(rt, "memory for a list");
    let mut list = Vec::new(alloc);
    let mut place = 0u64;
    for size in sizes {
        list.push(Window { place, size: *size })
            .expect(rt, "memory for a window");
        place = place.saturating_add(*size);
    }
    assert!(rt; Window::are_in(&list, chain.length()));
    Batch::new(alloc, chain, list).expect(rt, "memory for a list")
}

// Sends a batch of frames of these sizes.
#[tactic(auto, using(sub_queue::proofs::Lists::end_pushed))]
fn send<R: Wait + Abort>(rt: &R, alloc: Global, feed: &mut Feed<Batch>, sizes: &[u64])
    requires { end_of feed.old.sent ≡ None }
    ensures { (end_of feed.new.sent ≡ None) × (feed.new.line ≡ feed.old.line) }
{
    let batch = batch_of(rt, alloc, sizes);
    match feed.push(rt, batch) {
        Ok(()) => (),
        Err(_) => rt.abort(),
    }
}

// Three frames of `ab`, nothing and `cde`, and in a second batch one of `a`, are written to a sink, and the end comes
// with them: the sink, and the count.
fn drain<S: Sink, R: Wait + Abort>(
    rt: &R,
    alloc: Global,
    out: Out,
    sink: S,
) -> Result<(S, u64), Fail>
    requires { has_known_field out ≡ true }
{
    let (mut feed, tap) = make::<Batch>(alloc, 9)?;
    let Ok(mut drainer) = Drainer::new(alloc, tap, sink, out, 9) else {
        return Err("no memory".into());
    };
    send(rt, alloc, &mut feed, &[2, 0, 3]);
    send(rt, alloc, &mut feed, &[1]);
    assert!(rt; feed.finish(rt, End::Left).is_ok());
    let turn = drainer.turn(rt, 5);
    assert_eq!(rt; (turn.took, turn.state), (3, Drained::Ended(End::Left)));
    assert!(rt; drainer.collect().is_some_and(|r| r.len() == 2));
    assert!(rt; drainer.collect().is_some());
    assert!(rt; drainer.collect().is_none());
    Ok(drainer.finish())
}

#[test]
fn frames_and_their_end_are_drained(rt: HostRuntime) -> Result<(), Fail> {
    let alloc = rt.alloc();
    let (sink, count) = drain(&rt, alloc, BYTE, sink_of(&rt, alloc, 99, None))?;
    assert_eq!(rt; sink.bytes(), b"\x02ab\x00\x03cde\x01a".as_slice());
    assert_eq!(rt; count, 4);
    let out = Out::Line { crlf: true };
    let (sink, count) = drain(&rt, alloc, out, sink_of(&rt, alloc, 99, None))?;
    assert_eq!(rt; sink.bytes(), b"ab\r\n\r\ncde\r\na\r\n".as_slice());
    assert_eq!(rt; count, 4);
    let mark = Mark::new(Vec::from_slice(alloc, b"--")?);
    let (sink, count) = drain(
        &rt,
        alloc,
        Out::Delim { mark },
        sink_of(&rt, alloc, 99, None),
    )?;
    assert_eq!(rt; sink.bytes(), b"ab----cde--a--".as_slice());
    assert_eq!(rt; count, 4);
    Ok(())
}

// The room of a sink, and how many first frames it has whole: behind lengths their texts end at 3, 4, 8 and 10 bytes.
const WHOLE: [(usize, u64); 9] = [
    (0, 0),
    (2, 0),
    (3, 1),
    (4, 2),
    (7, 2),
    (8, 3),
    (9, 3),
    (10, 4),
    (11, 4),
];

// The same where frames stand alone: their texts end at 2, 2, 5 and 6 bytes.
const ALONE: [(usize, u64); 6] = [(0, 0), (1, 0), (2, 2), (4, 2), (5, 3), (6, 4)];

#[test]
fn whole_frames_are_counted_after_a_failure(rt: HostRuntime) -> Result<(), Fail> {
    let alloc = rt.alloc();
    for (room, whole) in WHOLE {
        let (sink, count) = drain(&rt, alloc, BYTE, sink_of(&rt, alloc, room, None))?;
        assert_eq!(rt; (sink.bytes().len(), count), (room.min(10), whole));
    }
    for (room, whole) in ALONE {
        let (sink, count) = drain(&rt, alloc, Out::Raw, sink_of(&rt, alloc, room, None))?;
        assert_eq!(rt; (sink.bytes().len(), count), (room, whole));
    }
    Ok(())
}

// A sink in memory that takes one byte a call.
#[derive(Drop)]
struct Drip {
    sink: MemSink,
}

impl Sink for Drip {
    ghost use Rattle.relay_ports.specs.Memory.{sink_state};

    ghost state = { λ d. sink_state d.sink };

    fn write(&mut self, piece: &[u8]) -> Result<usize, Failed> {
        self.sink.write(&piece[..piece.len().min(1)])
    }
}

#[test]
fn each_call_may_take_one_byte_or_fail(rt: HostRuntime) -> Result<(), Fail> {
    let alloc = rt.alloc();
    for (call, whole) in WHOLE {
        let sink = sink_of(&rt, alloc, 99, Some(call as u64));
        let (drip, count) = drain(&rt, alloc, BYTE, Drip { sink })?;
        assert_eq!(rt; (drip.sink.bytes().len(), count), (call.min(10), whole));
    }
    Ok(())
}
