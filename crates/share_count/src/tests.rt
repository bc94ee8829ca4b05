ghost use Rattle.std.specs.Prelude.{◌≡◌, ◌+◌, length, OnOk};

use crate::{FULL, Given, Mint, Receipt, Standing, Unit, make};
use std::alloc::Global;
use std::sync::Arc;
use std::sync::atomic::{AtomicU64, Ordering};
use std::test::Fail;
use std::thread::{Threads, join};

// An answer that isn't the one that was looked for.
#[derive(Debug, Drop)]
struct Unexpected;

// Counts its drops.
struct Probe {
    drops: Arc<AtomicU64, Global>,
    bytes: Vec<u8>,
}

impl Drop for Probe {
    fn drop(self) {
        let Probe { drops, bytes: _ } = self;
        drops.fetch_add(1, Ordering::SeqCst);
    }
}

fn weight_of(given: &Given<Vec<u8>>) -> (bool, u64, u64) {
    match given {
        Given::Last(_, receipt) => (true, receipt.weight(), receipt.lasts()),
        Given::Kept(receipt) => (false, receipt.weight(), receipt.lasts()),
    }
}

#[test]
fn shares_of_shares(rt: HostRuntime) -> Result<(), Fail> {
    let mut mint = Mint::new();
    assert!(rt; mint.ready() && mint.next() == 0);
    let Ok(mut unit) = make(rt.alloc(), Vec::from_slice(rt.alloc(), b"ab")?, &mut mint) else {
        Err(Unexpected)?;
        return Ok(());
    };
    assert!(rt; unit.number() == 1 && unit.weight() == FULL && unit.absorbed() == 0);
    for want in [1 << 40, 1 << 30, 1 << 20, 1 << 10, 1] {
        let Some(share) = unit.share()? else {
            Err(Unexpected)?;
            return Ok(());
        };
        assert_eq!(rt; share.weight(), want);
        assert!(rt; share.number() == 1 && !share.whole() && !share.alone());
        assert!(rt; share.get().as_slice() == b"ab".as_slice());
        unit = share;
    }
    assert!(rt; matches!(unit.share()?, None));
    Ok(())
}

#[test]
fn alone_until_shared(rt: HostRuntime) -> Result<(), Fail> {
    let mut mint = Mint::new();
    let Ok(mut unit) = make(rt.alloc(), Vec::from_slice(rt.alloc(), b"ab")?, &mut mint) else {
        Err(Unexpected)?;
        return Ok(());
    };
    assert!(rt; unit.alone() && unit.whole());
    let text = format!(in rt.alloc(); "{unit:?}")?;
    assert!(rt; text.as_str() == "Unit { number: 0, weight: 4611686018427387904, absorbed: 0 }");
    assert_eq!(rt; unit.look(), Standing::Sole);
    let Some(mut share) = unit.share()? else {
        Err(Unexpected)?;
        return Ok(());
    };
    assert!(rt; !unit.alone() && !unit.whole());
    assert_eq!(rt; unit.look(), Standing::Shared { found: FULL });
    assert!(rt; matches!(unit.claim(), Err(FULL)));
    assert!(rt; matches!(share.get_mut(), Err(FULL)));
    assert!(rt; share.get().as_slice() == b"ab".as_slice());
    match share.give_back() {
        Given::Kept(receipt) => {
            let text = format!(in rt.alloc(); "{receipt:?}")?;
            assert!(rt; text.as_str() == "Receipt { number: 0, weight: 1099511627776, lasts: 0 }");
            assert_eq!(rt; unit.look(), Standing::Sole);
            unit.absorb(receipt);
        }
        Given::Last(..) => Err(Unexpected)?,
    }
    assert!(rt; unit.whole() && unit.absorbed() == 1 << 40 && !unit.alone());
    match unit.get_mut() {
        Ok(bytes) => bytes.push(b'c')?,
        Err(_) => Err(Unexpected)?,
    }
    assert!(rt; unit.alone());
    unit.alone_mut().push(b'd')?;
    assert!(rt; unit.get().as_slice() == b"abcd".as_slice());
    let given = unit.give_back();
    assert_eq!(rt; weight_of(&given), (true, FULL, 1));
    Ok(())
}

// A loan steps on the word that it read out of the table by the order of the table's fields. The table's own load
// finds what the loan's steps made.
#[test]
fn a_loan_steps_on_the_word_of_the_table(rt: HostRuntime) -> Result<(), Fail> {
    let mut mint = Mint::new();
    let Ok(mut unit) = make(rt.alloc(), Vec::from_slice(rt.alloc(), b"ab")?, &mut mint) else {
        Err(Unexpected)?;
        return Ok(());
    };
    let mut word = FULL;
    for _ in 0..3 {
        let one = unit.share()?;
        let Some(two) = unit.share()? else {
            Err(Unexpected)?;
            return Ok(());
        };
        assert_eq!(rt; unit.look(), Standing::Shared { found: word });
        word = word.saturating_sub(two.weight());
        drop(two);
        assert_eq!(rt; unit.look(), Standing::Shared { found: word });
        word = word.saturating_sub(one.as_ref().map_or(0, |u| u.weight()));
        drop(one);
        assert_eq!(rt; unit.look(), Standing::Sole);
        assert_eq!(rt; unit.weight(), word);
        assert!(rt; unit.claim().is_ok());
    }
    Ok(())
}

// Wherever memory is refused, all is as it was.
#[test]
fn refusals_change_nothing(rt: HostRuntime) -> Result<(), Fail> {
    let mut mint = Mint::new();
    let mut unit = match make(rt.alloc(), 7u64, &mut mint) {
        Ok(unit) => unit,
        Err(payload) => {
            assert!(rt; payload == 7 && mint.ready() && mint.next() == 0);
            return Ok(());
        }
    };
    assert!(rt; mint.next() == 1);
    match unit.share() {
        Ok(share) => assert!(rt; share.is_some() && !unit.alone()),
        Err(_) => {
            assert!(rt; unit.alone() && unit.whole() && *unit.get() == 7);
            assert_eq!(rt; unit.look(), Standing::Sole);
        }
    }
    Ok(())
}

// Shares, reads, gives back and absorbs once. At weight 1 there is no share.
fn share_once(unit: &mut Unit<Probe>) -> bool
    ensures { unit.new.table ≡ unit.old.table }
{
    let Ok(Some(mut share)) = unit.share() else {
        return false;
    };
    let read = share.get().bytes.len() == 2 && !matches!(share.look(), Standing::Sole);
    match share.give_back() {
        Given::Kept(receipt) => unit.absorb(receipt),
        Given::Last(payload, receipt) => {
            drop(payload);
            unit.absorb(receipt);
        }
    }
    read
}

// A unit shared again and again, and then given back.
fn churn(unit: Unit<Probe>, rounds: u64) -> (u64, Receipt<Probe>)
    ensures { result.1.table ≡ unit.table }
{
    let mut unit = unit;
    let mut reads = 0u64;
    for _ in 0..rounds {
        if share_once(&mut unit) {
            reads = reads.saturating_add(1);
        }
    }
    match unit.give_back() {
        Given::Kept(receipt) => (reads, receipt),
        Given::Last(payload, receipt) => {
            drop(payload);
            (reads, receipt)
        }
    }
}

// A unit and a share of it, each churned in a thread.
fn churn_two<R: Threads + Sync>(rt: &R, unit: Unit<Probe>, rounds: u64) -> (u64, Receipt<Probe>)
    ensures { result.1.table ≡ unit.table }
{
    let mut unit = unit;
    let Ok(Some(share)) = unit.share() else {
        return churn(unit, rounds);
    };
    let (one, two) = join(
        rt,
        move || churn(share, rounds),
        move || churn(unit, rounds),
    );
    (one.0.saturating_add(two.0), one.1.join(two.1))
}

fn churn_four<R: Threads + Sync>(rt: &R, unit: Unit<Probe>, rounds: u64) -> (u64, Receipt<Probe>)
    ensures { result.1.table ≡ unit.table }
{
    let mut unit = unit;
    let Ok(Some(share)) = unit.share() else {
        return churn_two(rt, unit, rounds);
    };
    let (one, two) = join(
        rt,
        move || churn_two(rt, share, rounds),
        move || churn_two(rt, unit, rounds),
    );
    (one.0.saturating_add(two.0), one.1.join(two.1))
}

fn churn_eight<R: Threads + Sync>(rt: &R, unit: Unit<Probe>, rounds: u64) -> (u64, Receipt<Probe>)
    ensures { result.1.table ≡ unit.table }
{
    let mut unit = unit;
    let Ok(Some(share)) = unit.share() else {
        return churn_four(rt, unit, rounds);
    };
    let (one, two) = join(
        rt,
        move || churn_four(rt, share, rounds),
        move || churn_four(rt, unit, rounds),
    );
    (one.0.saturating_add(two.0), one.1.join(two.1))
}

#[test]
fn eight_threads_have_one_last(rt: HostRuntime) -> Result<(), Fail> {
    let alloc = rt.alloc();
    let mut mint = Mint::new();
    for turn in 0..8u64 {
        let drops = Arc::new(alloc, AtomicU64::new(0))?;
        let probe = Probe {
            drops: Arc::try_clone(&drops)?,
            bytes: Vec::from_slice(alloc, b"ab")?,
        };
        let Ok(unit) = make(alloc, probe, &mut mint) else {
            Err(Unexpected)?;
            return Ok(());
        };
        let (reads, receipt) = churn_eight(&rt, unit, 8000);
        assert_eq!(rt;
            (receipt.number(), receipt.weight(), receipt.lasts()),
            (turn, FULL, 1)
        );
        assert!(rt; reads > 50_000);
        assert_eq!(rt; drops.load(Ordering::SeqCst), 1);
    }
    Ok(())
}

// A unit that is dropped in a thread gives its weight back there, and at the last the payload is dropped.
#[test]
fn drops_give_back(rt: HostRuntime) -> Result<(), Fail> {
    let alloc = rt.alloc();
    let drops = Arc::new(alloc, AtomicU64::new(0))?;
    let probe = Probe {
        drops: Arc::try_clone(&drops)?,
        bytes: Vec::new(alloc),
    };
    let mut mint = Mint::new();
    let Ok(mut unit) = make(alloc, probe, &mut mint) else {
        Err(Unexpected)?;
        return Ok(());
    };
    let share = unit.share()?;
    join(&rt, move || drop(share), || ());
    assert!(rt; matches!(unit.look(), Standing::Sole) && !unit.whole());
    assert_eq!(rt; drops.load(Ordering::SeqCst), 0);
    drop(unit);
    assert_eq!(rt; drops.load(Ordering::SeqCst), 1);
    Ok(())
}
