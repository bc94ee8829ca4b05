//! What no clause says: that what has room is sent and what is there is taken, and two threads on one queue.
ghost use Rattle.std.specs.Prelude.{◌≡◌, None};
ghost use Rattle.sub_queue.specs.Ends.{end_of};

use super::*;
use std::alloc::Global;
use std::sync::atomic::{AtomicU64, Ordering};
use std::sync::{Arc, Wait};
use std::test::Fail;
use std::thread;
use std::thread::{Threads, join};

// A number, of size 1.
impl Measured for u64 {
    ghost measure = { λ x. 1 };

    fn size(&self) -> usize {
        1
    }
}

// So many frames, one at least.
#[derive(Drop)]
struct Batch {
    frames: usize,
}

impl Measured for Batch {
    ghost use Rattle.std.specs.Prelude.{max};

    ghost measure = { λ b. max 1 b.frames };

    fn size(&self) -> usize {
        if self.frames == 0 { 1 } else { self.frames }
    }
}

// Adds one where it is dropped.
struct Probe {
    drops: Arc<AtomicU64, Global>,
}

impl Drop for Probe {
    fn drop(self) {
        let Probe { drops } = self;
        drops.fetch_add(1, Ordering::SeqCst);
    }
}

impl Measured for Probe {
    ghost measure = { λ x. 1 };

    fn size(&self) -> usize {
        1
    }
}

// What a take of frames answered: their number, 0 for nothing, 1,000 for an end.
fn frames_in(taken: Taken<Batch>) -> usize {
    match taken {
        Taken::One(batch) => batch.frames,
        Taken::Empty => 0,
        Taken::Ended(_) => 1000,
    }
}

#[test]
fn one_place(rt: HostRuntime) -> Result<(), Fail> {
    let (mut feed, mut tap) = make::<u64>(rt.alloc(), 1)?;
    assert_eq!(rt; feed.push(&rt, 7), Ok(()));
    assert_eq!(rt; feed.push(&rt, 8), Err(8));
    assert!(rt; matches!(tap.take(&rt), Taken::One(7)));
    assert!(rt; matches!(tap.take(&rt), Taken::Empty));
    assert_eq!(rt; feed.finish(&rt, End::Completed), Ok(()));
    assert_eq!(rt; tap.ended(), None);
    assert!(rt; matches!(tap.take(&rt), Taken::Ended(End::Completed)));
    assert!(rt; matches!(tap.take(&rt), Taken::Ended(End::Completed)));
    assert_eq!(rt; tap.ended(), Some(End::Completed));
    Ok(())
}

// Ways to fill a queue of 5 frames: the sizes that are pushed, how many of them go in, and the room that is left.
const FILLINGS: [(&[usize], usize, usize); 5] = [
    (&[5], 1, 0),
    (&[6], 0, 5),
    (&[2, 3, 1], 2, 0),
    (&[2, 4, 1, 2], 3, 0),
    (&[1, 1, 1, 1], 4, 1),
];

#[tactic(auto, using(crate::proofs::Lists::end_pushed))]
fn pushed<R: Wait>(rt: &R, feed: &mut Feed<Batch>, sizes: &[usize]) -> usize
    requires { end_of feed.old.sent ≡ None }
    ensures { (end_of feed.new.sent ≡ None) × (feed.new.line ≡ feed.old.line) }
{
    let mut sent = 0usize;
    'sizes: for frames in sizes {
        if feed.push(rt, Batch { frames: *frames }).is_ok() {
            sent = sent.saturating_add(1);
        }
    }
    sent
}

#[test]
fn items_of_sizes(rt: HostRuntime) -> Result<(), Fail> {
    for (sizes, sent, left) in FILLINGS {
        let (mut feed, mut tap) = make::<Batch>(rt.alloc(), 5)?;
        let count = pushed(&rt, &mut feed, sizes);
        let room = (feed.known_room(), feed.room(&rt));
        let waits = waiting(&mut feed, &mut tap);
        assert_eq!(rt; (count, room, waits), (sent, (left, left), sent));
    }
    Ok(())
}

#[test]
fn refused_and_pushed_later(rt: HostRuntime) -> Result<(), Fail> {
    let (mut feed, mut tap) = make::<Batch>(rt.alloc(), 4)?;
    assert_eq!(rt; pushed(&rt, &mut feed, &[1, 2]), 2);
    let back = feed.push(&rt, Batch { frames: 3 });
    assert_eq!(rt; frames_in(tap.take(&rt)), 1);
    assert_eq!(rt; frames_in(tap.take(&rt)), 2);
    if let Err(batch) = back {
        assert!(rt; feed.push(&rt, batch).is_ok());
    }
    assert_eq!(rt; frames_in(tap.take(&rt)), 3);
    assert_eq!(rt; frames_in(tap.take(&rt)), 0);
    Ok(())
}

// A push that finds no room by what is known looks, and finds what was taken. So do `room` and `finish`.
#[test]
fn a_room_that_is_there_is_found(rt: HostRuntime) -> Result<(), Fail> {
    let (mut feed, mut tap) = make::<Batch>(rt.alloc(), 3)?;
    assert_eq!(rt; pushed(&rt, &mut feed, &[2, 1]), 2);
    assert_eq!(rt; frames_in(tap.take(&rt)), 2);
    assert_eq!(rt; feed.known_room(), 0);
    assert_eq!(rt; pushed(&rt, &mut feed, &[2]), 1);
    assert_eq!(rt; frames_in(tap.take(&rt)), 1);
    assert_eq!(rt;
        (feed.known_room(), feed.room(&rt), feed.known_room()),
        (0, 1, 1)
    );
    assert_eq!(rt; pushed(&rt, &mut feed, &[1]), 1);
    assert_eq!(rt; frames_in(tap.take(&rt)), 2);
    assert_eq!(rt; feed.finish(&rt, End::Left), Ok(()));
    assert_eq!(rt; frames_in(tap.take(&rt)), 1);
    assert_eq!(rt; frames_in(tap.take(&rt)), 1000);
    Ok(())
}

// A tap that knows of nothing takes what is there, and a meeting tells the feed of it.
#[test]
fn an_item_that_is_there_is_found(rt: HostRuntime) -> Result<(), Fail> {
    let (mut feed, mut tap) = make::<Batch>(rt.alloc(), 3)?;
    assert_eq!(rt; frames_in(tap.take(&rt)), 0);
    assert_eq!(rt; pushed(&rt, &mut feed, &[1, 1]), 2);
    assert_eq!(rt; frames_in(tap.take(&rt)), 1);
    assert_eq!(rt; waiting(&mut feed, &mut tap), 1);
    assert_eq!(rt; feed.known_room(), 2);
    Ok(())
}

#[test]
fn what_is_held_is_dropped_once(rt: HostRuntime) -> Result<(), Fail> {
    let drops = Arc::new(rt.alloc(), AtomicU64::new(0))?;
    let (first, second) = (Arc::try_clone(&drops)?, Arc::try_clone(&drops)?);
    let (mut feed, mut tap) = make::<Probe>(rt.alloc(), 2)?;
    let sent = feed.push(&rt, Probe { drops: first }).is_ok();
    assert!(rt; sent && feed.push(&rt, Probe { drops: second }).is_ok());
    drop(tap.take(&rt));
    assert_eq!(rt; drops.load(Ordering::SeqCst), 1);
    drop(tap);
    assert_eq!(rt; drops.load(Ordering::SeqCst), 1);
    drop(feed);
    assert_eq!(rt; drops.load(Ordering::SeqCst), 2);
    Ok(())
}

// Pushes a number until it goes in.
#[tactic(auto, using(crate::proofs::Lists::end_pushed))]
fn push_one<R: Wait>(rt: &R, feed: &mut Feed<u64>, number: u64)
    requires { end_of feed.old.sent ≡ None }
    ensures { end_of feed.new.sent ≡ None }
{
    'tries: for _ in rt.forever() {
        if feed.push(rt, number).is_ok() {
            return;
        }
        thread::yield_now();
    }
    unreachable!()
}

fn push_all<R: Wait>(rt: &R, mut feed: Feed<u64>, count: u64) -> bool
    requires { end_of feed.sent ≡ None }
{
    'numbers: for number in 0..count {
        push_one(rt, &mut feed, number);
    }
    'tries: for _ in rt.forever() {
        if feed.room(rt) > 0 {
            return feed.finish(rt, End::Completed).is_ok();
        }
        thread::yield_now();
    }
    unreachable!()
}

// How many numbers came, each one more than the one before.
fn take_all<R: Wait>(rt: &R, mut tap: Tap<u64>) -> u64 {
    let mut next = 0u64;
    for _ in rt.forever() {
        match tap.take(rt) {
            Taken::One(number) if number == next => next = next.saturating_add(1),
            Taken::One(_) => return 0,
            Taken::Empty => thread::yield_now(),
            Taken::Ended(_) => return next,
        }
    }
    unreachable!()
}

// How many of so many numbers came through a queue, in order, from one thread to another.
fn relayed<R: Threads + Wait + Sync>(
    rt: &R,
    feed: Feed<u64>,
    tap: Tap<u64>,
    count: u64,
) -> (bool, u64)
    requires { end_of feed.sent ≡ None }
{
    join(
        rt,
        move ||
            requires { end_of feed.sent ≡ None }
        { push_all(rt, feed, count) },
        move || take_all(rt, tap),
    )
}

#[test]
fn two_threads(rt: HostRuntime) -> Result<(), Fail> {
    for cap in [1usize, 2, 1024] {
        let (feed, tap) = make::<u64>(rt.alloc(), cap)?;
        assert_eq!(rt; relayed(&rt, feed, tap, 1_000), (true, 1_000));
    }
    Ok(())
}

// Ends of items that may cross threads cross threads.
fn feeds_cross<T: Measured + Send, R: Threads + Sync>(rt: &R, feeds: &mut [Feed<T>]) {
    thread::for_each_mut(rt, feeds, 4, &|_, _feed| ());
}

fn taps_cross<T: Drop + Send, R: Threads + Sync>(rt: &R, taps: &mut [Tap<T>]) {
    thread::for_each_mut(rt, taps, 4, &|_, _tap| ());
}

#[test]
fn ends_cross_threads(rt: HostRuntime) -> Result<(), Fail> {
    let (feed, tap) = make::<Batch>(rt.alloc(), 1)?;
    let (mut feeds, mut taps) = ([feed], [tap]);
    feeds_cross(&rt, &mut feeds);
    taps_cross(&rt, &mut taps);
    Ok(())
}
