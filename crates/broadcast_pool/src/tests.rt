//! A pool in use: what one borrower of a hub does, the next finds.
use crate::Pool;
use broadcast_hub::Hub;
use frame_batch::Batch;
use std::alloc::Global;
use std::process::Abort;
use sub_queue::{End, make};

fn hub_of<'p>(rt: &impl Abort, pool: &'p mut Pool, key: &str) -> &'p mut Hub {
    pool.get(key).expect(rt, "memory for a hub")
}

// Somebody subscribes to the hub of this key.
fn join(rt: &impl Abort, alloc: Global, pool: &mut Pool, key: &str) {
    let (feed, _tap) = make::<Batch>(alloc, 1).expect(rt, "memory for a queue");
    let joined = hub_of(rt, pool, key).subscribe(feed);
    assert!(rt; joined.is_ok());
}

#[test]
fn a_key_has_one_hub(rt: HostRuntime) {
    let alloc = rt.alloc();
    let mut pool = Pool::new(alloc);
    join(&rt, alloc, &mut pool, "news");
    join(&rt, alloc, &mut pool, "news");
    join(&rt, alloc, &mut pool, "new");
    assert_eq!(rt; hub_of(&rt, &mut pool, "news").live(), 2);
    assert_eq!(rt; hub_of(&rt, &mut pool, "new").live(), 1);
    assert_eq!(rt; hub_of(&rt, &mut pool, "").live(), 0);
}

#[test]
fn a_closed_hub_is_not_broadcasting(rt: HostRuntime) {
    let alloc = rt.alloc();
    let mut pool = Pool::new(alloc);
    assert!(rt; !pool.is_broadcasting("news"));
    let hub = hub_of(&rt, &mut pool, "news");
    assert!(rt; hub.closed().is_none());
    assert!(rt; pool.is_broadcasting("news"));
    assert!(rt; !pool.is_broadcasting("sport"));
    assert!(rt; hub_of(&rt, &mut pool, "news").close_if_idle(End::Completed));
    assert!(rt; !pool.is_broadcasting("news"));
}

#[test]
fn a_retired_hub_is_gone(rt: HostRuntime) {
    let alloc = rt.alloc();
    let mut pool = Pool::new(alloc);
    assert!(rt; pool.retire("news").is_none());
    join(&rt, alloc, &mut pool, "news");
    join(&rt, alloc, &mut pool, "sport");
    let live = pool.retire("news").map(|hub| hub.live());
    assert_eq!(rt; live, Some(1));
    assert!(rt; !pool.is_broadcasting("news"));
    assert!(rt; pool.is_broadcasting("sport"));
    assert!(rt; pool.retire("news").is_none());
    assert_eq!(rt; hub_of(&rt, &mut pool, "news").live(), 0);
}

#[test]
fn a_hub_is_exchanged_and_comes_back(rt: HostRuntime) {
    let alloc = rt.alloc();
    let mut pool = Pool::new(alloc);
    join(&rt, alloc, &mut pool, "sport");
    pool.open("news").expect(&rt, "memory for a hub");
    let mut hub = Hub::new(alloc);
    pool.exchange("news", &mut hub);
    assert!(rt; hub.close_if_idle(End::Completed));
    assert!(rt; pool.is_broadcasting("news"));
    pool.exchange("news", &mut hub);
    assert!(rt; !pool.is_broadcasting("news"));
    assert_eq!(rt; hub_of(&rt, &mut pool, "sport").live(), 1);
}
