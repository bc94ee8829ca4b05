use super::*;
use std::alloc::{AllocError, Global};
use std::sync::atomic::AtomicU64;
use std::sync::atomic::Ordering::SeqCst;
use std::sync::{Arc, Wait};
use std::test::Fail;

/// Counts the work on it, and its end.
struct Counted {
    works: u64,
    ends: Arc<AtomicU64, Global>,
}

impl Work for Counted {
    ghost use Rattle.std.specs.Prelude.{◌≡◌, ◌+◌, ◌^◌, ◌%◌, ⊤};

    ghost takes = { λ _. ⊤ };

    ghost does = { λ x y. y.works ≡ (x.works + 1) % 2 ^ 64 };

    fn work<R: Wait>(&mut self, _rt: &R) {
        self.works = self.works.wrapping_add(1);
    }
}

impl Drop for Counted {
    fn drop(self) {
        let Counted { works: _, ends } = self;
        ends.fetch_add(1, SeqCst);
    }
}

fn make_counted(ends: &Arc<AtomicU64, Global>) -> Result<Counted, AllocError> {
    Ok(Counted {
        works: 0,
        ends: Arc::try_clone(ends)?,
    })
}

// Hands the item over and takes it back, again and again.
fn play<R: Wait>(
    rt: &R,
    mut idle: Idle<Counted>,
    mut item: Counted,
    times: u32,
) -> (Idle<Counted>, Counted) {
    for _ in 0..times {
        (idle, item) = idle.hand(item).collect(rt);
    }
    (idle, item)
}

#[test]
fn an_item_comes_back_from_each_round(rt: HostRuntime) -> Result<(), Fail> {
    let ends = Arc::new(rt.alloc(), AtomicU64::new(0))?;
    let (idle, thread) = start::<Counted, HostRuntime>(rt, rt.alloc())?;
    let (idle, item) = play(&rt, idle, make_counted(&ends)?, 1000);
    drop(idle);
    thread.join(&rt);
    assert_eq!(rt; item.works, 1000);
    assert_eq!(rt; ends.load(SeqCst), 0);
    Ok(())
}

#[test]
fn an_item_that_is_out_ends_with_the_handoff(rt: HostRuntime) -> Result<(), Fail> {
    let ends = Arc::new(rt.alloc(), AtomicU64::new(0))?;
    for round in 1..=50u64 {
        let (idle, thread) = start::<Counted, HostRuntime>(rt, rt.alloc())?;
        drop(idle.hand(make_counted(&ends)?));
        thread.join(&rt);
        assert_eq!(rt; ends.load(SeqCst), round);
    }
    Ok(())
}
