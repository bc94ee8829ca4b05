ghost use Rattle.std.specs.Prelude.{◌≡◌, []};

use super::*;
use std::alloc::{AllocError, Global};
use std::sync::atomic::AtomicU64;
use std::sync::atomic::Ordering::SeqCst;
use std::sync::{Arc, Wait};
use std::test::Fail;
use std::thread;
use std::thread::Threads;

/// Counts the work on it.
#[derive(Drop)]
struct Count {
    place: u64,
    works: u64,
}

impl Work for Count {
    ghost use Rattle.std.specs.Prelude.{◌≡◌, ◌+◌, ◌^◌, ◌%◌, ⊤};

    ghost takes = { λ _. ⊤ };

    ghost does = { λ x y. (y.place ≡ x.place) × (y.works ≡ (x.works + 1) % 2 ^ 64) };

    fn work<R: Wait>(&mut self, _rt: &R) {
        self.works = self.works.wrapping_add(1);
    }
}

fn counts(alloc: Global, n: u64) -> Result<Vec<Count>, AllocError> {
    let mut items = Vec::new(alloc);
    for place in 0..n {
        items.push(Count { place, works: 0 })?;
    }
    Ok(items)
}

// The items stand in their places, and each was worked on so often.
fn are_done(items: &[Count], n: usize, works: u64) -> bool {
    let mut place = 0u64;
    for item in items {
        if item.place != place || item.works != works {
            return false;
        }
        place = place.wrapping_add(1);
    }
    items.len() == n
}

fn run_often<R: Wait>(rt: &R, crew: &mut Crew<Count>, items: &mut Vec<Count>, times: u32)
    requires free { crew.old.out ≡ [] }
    ensures free { crew.new.out ≡ [] }
{
    for _ in 0..times {
        crew.run(rt, items);
    }
}

// Turns over so many items, by a crew that was made for `room` of them, and says whether all was done.
fn play<R: Threads + Wait + Copy + Send + 'static>(
    rt: R,
    alloc: Global,
    n: u64,
    room: usize,
    times: u32,
) -> Result<bool, AllocError> {
    let mut crew = Crew::new(alloc);
    crew.reserve(rt, alloc, room)?;
    let mut items = counts(alloc, n)?;
    run_often(&rt, &mut crew, &mut items, times);
    let mut own = 0u64;
    let answer = crew.beside(
        &rt,
        &mut items,
        &mut || {
            own = 7;
            own
        },
    );
    crew.end(&rt);
    Ok(answer == 7 && own == 7 && are_done(items.as_slice(), n as usize, times as u64 + 1))
}

#[test]
fn each_item_is_done_once_in_each_turn(rt: HostRuntime) -> Result<(), Fail> {
    let table = [
        (0, 4, 3),
        (1, 1, 3),
        (2, 2, 3),
        (3, 8, 3),
        (64, 64, 3),
        (64, 2, 3),
        (5, 0, 3),
        (6, 6, 1000),
    ];
    for (n, room, times) in table {
        let done = play::<HostRuntime>(rt, rt.alloc(), n, room, times)?;
        assert!(rt; done, "{n} items, room for {room}, {times} turns");
    }
    Ok(())
}

#[test]
fn all_but_what_is_kept_go_out_and_come_back(rt: HostRuntime) -> Result<(), Fail> {
    let mut crew = Crew::<Count>::new(rt.alloc());
    crew.reserve(rt, rt.alloc(), 64)?;
    assert!(rt; crew.threads() >= 2);
    let mut items = counts(rt.alloc(), 64)?;
    crew.give(&mut items, 10);
    assert_eq!(rt; items.len(), 10);
    crew.finish(&rt, &mut items);
    assert!(rt; are_done(items.as_slice(), 64, 1));
    crew.end(&rt);
    Ok(())
}

/// Says that it has begun, and waits for a while until another has.
#[derive(Drop)]
struct Meets {
    begun: Arc<AtomicU64, Global>,
    met: bool,
}

impl Work for Meets {
    ghost use Rattle.std.specs.Prelude.{⊤};

    ghost takes = { λ _. ⊤ };

    ghost does = { λ _ _. ⊤ };

    fn work<R: Wait>(&mut self, _rt: &R) {
        self.begun.fetch_add(1, SeqCst);
        for _ in 0..5_000_000u32 {
            if self.begun.load(SeqCst) >= 2 {
                self.met = true;
                return;
            }
            thread::yield_now();
        }
    }
}

fn two_that_meet(alloc: Global) -> Result<Vec<Meets>, AllocError> {
    let begun = Arc::new(alloc, AtomicU64::new(0))?;
    let mut items = Vec::new(alloc);
    for _ in 0..2 {
        let begun = Arc::try_clone(&begun)?;
        items.push(Meets { begun, met: false })?;
    }
    Ok(items)
}

#[test]
fn two_items_are_worked_on_beside_each_other(rt: HostRuntime) -> Result<(), Fail> {
    let mut crew = Crew::new(rt.alloc());
    crew.reserve(rt, rt.alloc(), 2)?;
    let mut items = two_that_meet(rt.alloc())?;
    crew.run(&rt, &mut items);
    let mut others = two_that_meet(rt.alloc())?;
    crew.beside(&rt, &mut others, &mut || ());
    assert_eq!(rt; items.len() + others.len(), 4);
    for item in items.iter().chain(others.iter()) {
        assert!(rt; item.met);
    }
    crew.end(&rt);
    Ok(())
}

/// Counts its end.
struct Ends {
    ends: Arc<AtomicU64, Global>,
}

impl Work for Ends {
    ghost use Rattle.std.specs.Prelude.{⊤};

    ghost takes = { λ _. ⊤ };

    ghost does = { λ _ _. ⊤ };

    fn work<R: Wait>(&mut self, _rt: &R) {
        thread::yield_now();
    }
}

impl Drop for Ends {
    fn drop(self) {
        let Ends { ends } = self;
        ends.fetch_add(1, SeqCst);
    }
}

#[test]
fn items_that_are_out_end_once_with_the_crew(rt: HostRuntime) -> Result<(), Fail> {
    let ends = Arc::new(rt.alloc(), AtomicU64::new(0))?;
    for _ in 0..20u32 {
        let mut crew = Crew::new(rt.alloc());
        crew.reserve(rt, rt.alloc(), 5)?;
        let mut items = Vec::new(rt.alloc());
        for _ in 0..5u32 {
            items.push(Ends {
                ends: Arc::try_clone(&ends)?,
            })?;
        }
        crew.give(&mut items, 1);
        assert_eq!(rt; items.len(), 1);
        crew.end(&rt);
    }
    assert_eq!(rt; ends.load(SeqCst), 100);
    Ok(())
}

#[test]
fn as_many_threads_as_serve(rt: HostRuntime) {
    let table = [
        (0, 4, 0),
        (1, 4, 1),
        (2, 1, 2),
        (9, 1, 2),
        (9, 2, 2),
        (9, 4, 3),
        (2, 64, 2),
        (100, 64, 63),
    ];
    for (items, processors, threads) in table {
        assert_eq!(rt;
            threads_for(items, processors),
            threads,
            "{items} items, {processors} processors"
        );
    }
}
