//! What no clause says: that what has room is published, that queues are looked at, and what taps then take.
use crate::{Hub, PubFault, SubFault};
use frame_batch::{Batch, Window};
use iobuf_chain::{Chain, Frame};
use iobuf_node::IoBuf;
use share_count::Mint;
use std::alloc::Global;
use std::process::Abort;
use std::sync::Wait;
use sub_queue::{End, Taken, Tap, make};

// A hub with the taps of all who came, by id.
#[derive(Drop)]
struct Rig {
    hub: Hub,
    taps: Vec<Tap<Batch>>,
    mint: Mint,
}

#[derive(Clone, Copy)]
enum Event {
    // Somebody comes, with a queue of so many frames.
    Join(usize),
    // The frames that commas separate are published.
    Publish(&'static str),
    Leave(u64, End),
    Close(End),
    CloseIfIdle(End),
    Flush,
    // An item is taken from the queue of this subscription.
    Take(usize),
}

use Event::*;

// The frames between commas, each a window on one node.
fn batch_of(rt: &impl Abort, alloc: Global, text: &'static str) -> Batch {
    let bytes = text.as_bytes();
    let mut windows = Vec::new(alloc);
    let mut place = 0usize;
    for part in bytes.split(|b| *b == b',') {
        let window = Window {
            place: place as u64,
            size: part.len() as u64,
        };
        windows.push(window).expect(rt, "memory for a window");
        place = place.saturating_add(part.len()).saturating_add(1);
    }
    let chain: Frame = Chain::of(alloc, IoBuf::wrap(bytes));
    assert!(rt; Window::are_in(&windows, chain.length()));
    Batch::new(alloc, chain, windows)
        .ok()
        .expect(rt, "memory for a list")
}

// The frames of a batch, each with a comma behind it.
fn text_of(rt: &impl Abort, alloc: Global, batch: &Batch) -> String {
    let mut text = String::new(alloc);
    for frame in batch.frames() {
        for part in frame {
            for byte in part {
                text.push(char::from(*byte)).expect(rt, "memory for a text");
            }
        }
        text.push(',').expect(rt, "memory for a text");
    }
    text
}

impl Rig {
    fn new(alloc: Global) -> Rig {
        Rig {
            hub: Hub::new(alloc),
            taps: Vec::new(alloc),
            mint: Mint::new(),
        }
    }

    fn join(&mut self, rt: &impl Abort, alloc: Global, cap: usize) -> String {
        assert!(rt; 1 <= cap && cap <= 1024);
        let (feed, tap) = make::<Batch>(alloc, cap).expect(rt, "memory for a queue");
        match self.hub.subscribe(feed) {
            Ok(sub) => {
                self.taps.push(tap).expect(rt, "memory for a tap");
                format!(in alloc; "{} from {}", sub.id, sub.first).expect(rt, "memory for a text")
            }
            Err(fault) => format!(in alloc; "{fault:?}").expect(rt, "memory for a text"),
        }
    }

    fn publish<R: Wait + Abort>(&mut self, rt: &R, alloc: Global, text: &'static str) -> String {
        let batch = batch_of(rt, alloc, text);
        assert!(rt; self.hub.closed().is_none());
        assert!(rt; self.hub.published() < 1000 && batch.len() < 1000);
        match self.hub.publish(rt, alloc, &mut self.mint, batch) {
            Ok(published) => {
                let rest = match &published.rest {
                    Some(rest) => text_of(rt, alloc, rest),
                    None => String::new(alloc),
                };
                let back = if published.returns.is_some() {
                    " back"
                } else {
                    ""
                };
                format!(in alloc; "{} {rest}{back}", published.count).expect(
                    rt,
                    "memory for a text",
                )
            }
            Err(PubFault::Blocked(id, batch)) => {
                let text = text_of(rt, alloc, &batch);
                format!(in alloc; "{id} blocks {text}").expect(rt, "memory for a text")
            }
            Err(PubFault::NoMemory(_)) => panic!(rt; "memory for a publication"),
        }
    }

    fn take<R: Wait + Abort>(&mut self, rt: &R, alloc: Global, id: usize) -> String {
        assert!(rt; id < self.taps.len());
        match self.taps[id].take(rt) {
            Taken::One(batch) => text_of(rt, alloc, &batch),
            Taken::Empty => format!(in alloc; "-").expect(rt, "memory for a text"),
            Taken::Ended(end) => format!(in alloc; "{end:?}").expect(rt, "memory for a text"),
        }
    }

    // What comes of an event.
    fn act<R: Wait + Abort>(&mut self, rt: &R, alloc: Global, event: Event) -> String {
        match event {
            Join(cap) => self.join(rt, alloc, cap),
            Publish(text) => self.publish(rt, alloc, text),
            Leave(id, end) => {
                let left = self.hub.unsubscribe(id, end);
                format!(in alloc; "{left:?}").expect(rt, "memory for a text")
            }
            Close(end) => {
                assert!(rt; self.hub.closed().is_none());
                self.hub.close(end);
                format!(in alloc; "{:?}", self.hub.closed()).expect(rt, "memory for a text")
            }
            CloseIfIdle(end) => {
                let did = self.hub.close_if_idle(end);
                format!(in alloc; "{did}").expect(rt, "memory for a text")
            }
            Flush => {
                let waits = self.hub.flush_ends(rt);
                let live = self.hub.live();
                format!(in alloc; "{waits} wait, {live} live").expect(rt, "memory for a text")
            }
            Take(id) => self.take(rt, alloc, id),
        }
    }
}

// Each event of a row, and what comes of it.
fn acts<R: Wait + Abort>(rt: &R, alloc: Global, row: &[(Event, &str)]) {
    let mut rig = Rig::new(alloc);
    for (event, wanted) in row {
        let came = rig.act(rt, alloc, *event);
        assert!(rt; came.as_str() == *wanted, "{wanted}");
    }
}

#[test]
fn frames_go_to_who_is_there(rt: HostRuntime) {
    acts(
        &rt,
        rt.alloc(),
        &[
            (Publish("x"), "1  back"),
            (Join(2), "0 from 1"),
            (Join(4), "1 from 1"),
            (Publish("ab,c"), "2 "),
            (Publish("d"), "0 blocks d,"),
            (Take(0), "ab,c,"),
            (Take(0), "-"),
            (Publish("d,e,f"), "2 f,"),
            (Join(1), "2 from 5"),
            (Take(1), "ab,c,"),
            (Take(1), "d,e,"),
            (Take(0), "d,e,"),
            (Publish(",g"), "1 g,"),
            (Take(2), ","),
            (Take(2), "-"),
        ],
    );
}

#[test]
fn ends_wait_for_room(rt: HostRuntime) {
    acts(
        &rt,
        rt.alloc(),
        &[
            (Join(1), "0 from 0"),
            (Join(2), "1 from 0"),
            (Publish("a"), "1 "),
            (Leave(7, End::Left), "Err(Unknown { id: 7 })"),
            (Leave(0, End::Lagged), "Ok(1)"),
            (Leave(0, End::Left), "Err(Unknown { id: 0 })"),
            (Flush, "1 wait, 1 live"),
            (Publish("b"), "1 "),
            (CloseIfIdle(End::Left), "false"),
            (Take(0), "a,"),
            (Flush, "0 wait, 1 live"),
            (Take(0), "Lagged"),
            (Take(0), "Lagged"),
            (Close(End::Source), "Some(Source)"),
            (Join(3), "Closed(Source)"),
            (CloseIfIdle(End::Left), "false"),
            (Flush, "1 wait, 0 live"),
            (Take(1), "a,"),
            (Flush, "0 wait, 0 live"),
            (Take(1), "b,"),
            (Take(1), "Source"),
        ],
    );
}

#[test]
fn who_is_idle_is_closed(rt: HostRuntime) {
    acts(
        &rt,
        rt.alloc(),
        &[
            (Join(1), "0 from 0"),
            (CloseIfIdle(End::Completed), "false"),
            (Leave(0, End::Left), "Ok(0)"),
            (CloseIfIdle(End::Completed), "true"),
            (Join(1), "Closed(Completed)"),
            (Flush, "0 wait, 0 live"),
            (Take(0), "Left"),
        ],
    );
}

// How many of so many come in.
fn crowd(rt: &impl Abort, alloc: Global, hub: &mut Hub, most: usize) -> usize {
    let mut came = 0usize;
    for _ in 0..most {
        let (feed, _) = make::<Batch>(alloc, 1).expect(rt, "memory for a queue");
        match hub.subscribe(feed) {
            Ok(_) => came = came.saturating_add(1),
            Err(SubFault::Full256(_)) => return came,
            Err(_) => panic!(rt; "room for a subscription"),
        }
    }
    came
}

#[test]
fn up_to_256_are_here(rt: HostRuntime) {
    let mut hub = Hub::new(rt.alloc());
    assert_eq!(rt; crowd(&rt, rt.alloc(), &mut hub, 300), 256);
    // One that leaves is here until its end was sent.
    assert_eq!(rt; hub.unsubscribe(7, End::Left), Ok(0));
    assert_eq!(rt; crowd(&rt, rt.alloc(), &mut hub, 1), 0);
    assert_eq!(rt; hub.flush_ends(&rt), 0);
    assert_eq!(rt; crowd(&rt, rt.alloc(), &mut hub, 2), 1);
    assert_eq!(rt;
        (hub.live(), hub.holds(7), hub.holds(256)),
        (256, true, true)
    );
}
