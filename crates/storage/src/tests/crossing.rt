use crate::tests::Unexpected;
use crate::tests::owners::Teller;
use crate::{Back, Hold, Managed, Owner, Receipt, Returns};
use share_count::Mint;
use std::alloc::Global;
use std::sync::Arc;
use std::sync::atomic::{AtomicU64, Ordering};
use std::test::Fail;
use std::thread::map_vec;

// What moves between threads.
fn moves<T: Send>(value: T) -> T {
    value
}

fn holds(hold: Hold<'static>) -> Hold<'static> {
    moves(hold)
}

fn owned_holds(hold: Hold<'static, Owner>) -> Hold<'static, Owner> {
    moves(hold)
}

fn managed(hold: Managed<Owner>) -> Managed<Owner> {
    moves(hold)
}

fn backs(back: Back<Owner>) -> Back<Owner> {
    moves(back)
}

fn lists(returns: Returns<Owner>) -> Returns<Owner> {
    moves(returns)
}

fn receipts(receipt: Receipt<Owner>) -> Receipt<Owner> {
    moves(receipt)
}

// How often the byte stands in the block, as a hold reads it again and again.
fn reads(hold: &Hold<'static, Owner>, byte: u8) -> usize {
    let mut count = 0usize;
    for _ in 0..100 {
        count = count.wrapping_add(hold.bytes().iter().filter(|b| **b == byte).count());
    }
    count
}

// Where there is a byte to look for, reads; else drops the hold at once.
fn reads_or_drops((byte, hold): (u8, Hold<'static, Owner>)) -> usize {
    if byte == 0 {
        drop(hold);
        return 0;
    }
    reads(&hold, byte)
}

#[test]
fn four_read_while_a_fifth_drops(rt: HostRuntime) -> Result<(), Fail> {
    let alloc = rt.alloc();
    let mut mint = Mint::new();
    let word = Arc::new(alloc, AtomicU64::new(0))?;
    let owner: Owner = Box::new(alloc, Teller::new(alloc, &word)?)?;
    let bytes = Vec::from_slice(alloc, &[3; 200])?;
    let Ok(mut hold) = Hold::user(alloc, bytes, owner, &mut mint) else {
        return Err(Fail::from(Unexpected));
    };
    let mut jobs = Vec::new(alloc);
    for _ in 0..4 {
        if let Some(share) = hold.share()? {
            jobs.push((3u8, share))?;
        }
    }
    // The fifth reads nothing.
    jobs.push((0, hold))?;
    let found = map_vec(&rt, jobs, &|job| reads_or_drops(job))?;
    assert!(rt; found.as_slice() == [20_000, 20_000, 20_000, 20_000, 0].as_slice());
    assert!(rt; word.load(Ordering::SeqCst) == (1 << 32) + 600);
    Ok(())
}

// Whether a value goes into a list.
fn is_listed(alloc: Global, back: Back<Owner>) -> bool {
    let mut list = lists(Returns::new(alloc));
    list.push(back).is_ok()
}

// How many lasts a managed hold's receipt has.
fn lasts_of(hold: Managed<Owner>) -> u64 {
    match managed(hold).give_back().receipt() {
        Some(receipt) => receipts(receipt).lasts(),
        None => 0,
    }
}

#[test]
fn each_type_goes_between_threads(rt: HostRuntime) -> Result<(), Fail> {
    let alloc = rt.alloc();
    let mut mint = Mint::new();
    let hold = holds(Hold::own(alloc, 1, &mut mint)?);
    assert!(rt; hold.bytes().len() == 1);
    let hold: Hold<'static, Owner> = owned_holds(Hold::own(alloc, 1, &mut mint)?);
    assert!(rt; is_listed(alloc, backs(hold.give_back())));
    let copied: Managed<Owner> = Managed::copy(alloc, b"a", &mut mint)?;
    assert!(rt; lasts_of(copied) == 1);
    Ok(())
}
