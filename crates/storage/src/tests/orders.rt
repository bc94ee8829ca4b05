use crate::tests::Unexpected;
use crate::tests::owners::Teller;
use crate::{Back, Hold, Owner, Receipt};
use share_count::{FULL, Mint};
use std::alloc::Global;
use std::sync::Arc;
use std::sync::atomic::{AtomicU64, Ordering};
use std::test::Fail;

// Three holds on one storage of the bytes `abc`, whose owner tells the word.
fn three(
    alloc: Global,
    word: &Arc<AtomicU64, Global>,
    mint: &mut Mint,
) -> Result<[Option<Hold<'static, Owner>>; 3], Fail> {
    let owner: Owner = Box::new(alloc, Teller::new(alloc, word)?)?;
    let bytes = Vec::from_slice(alloc, b"abc")?;
    let Ok(mut first) = Hold::user(alloc, bytes, owner, mint) else {
        return Err(Fail::from(Unexpected));
    };
    let second = first.share()?;
    let third = first.share()?;
    Ok([Some(first), second, third])
}

// What the three have handed back so far: how many runs were answered, the weight and the lasts of the receipts.
#[derive(Debug, Clone, Copy, PartialEq, Eq)]
struct Sums {
    ran: u64,
    weight: u64,
    lasts: u64,
}

fn counted(sums: Sums, receipt: &Receipt<Owner>, ran: u64) -> Sums {
    Sums {
        ran: sums.ran.wrapping_add(ran),
        weight: sums.weight.wrapping_add(receipt.weight()),
        lasts: sums.lasts.wrapping_add(receipt.lasts()),
    }
}

fn given_back(sums: Sums, hold: Option<Hold<'static, Owner>>) -> Sums {
    let Some(hold) = hold else { return sums };
    match hold.give_back() {
        Back::Kept(receipt) => counted(sums, &receipt, 0),
        Back::Ran(owner, receipt) => {
            drop(owner);
            counted(sums, &receipt, 1)
        }
        _ => sums,
    }
}

const ORDERS: [[usize; 3]; 6] = [
    [0, 1, 2],
    [0, 2, 1],
    [1, 0, 2],
    [1, 2, 0],
    [2, 0, 1],
    [2, 1, 0],
];

const NONE: Sums = Sums {
    ran: 0,
    weight: 0,
    lasts: 0,
};

#[test]
fn runs_once_in_each_order(rt: HostRuntime) -> Result<(), Fail> {
    let alloc = rt.alloc();
    let mut mint = Mint::new();
    for order in &ORDERS {
        let word = Arc::new(alloc, AtomicU64::new(0))?;
        let mut holds = three(alloc, &word, &mut mint)?;
        let mut sums = NONE;
        for &at in order {
            assert!(rt; at < 3);
            sums = given_back(sums, holds[at].take());
        }
        let all = Sums {
            ran: 1,
            weight: FULL,
            lasts: 1,
        };
        assert_eq!(rt; sums, all);
        assert!(rt; word.load(Ordering::SeqCst) == (1 << 32) + 294);
    }
    Ok(())
}

#[test]
fn runs_once_where_a_hold_is_dropped(rt: HostRuntime) -> Result<(), Fail> {
    let alloc = rt.alloc();
    let mut mint = Mint::new();
    for order in &ORDERS {
        let word = Arc::new(alloc, AtomicU64::new(0))?;
        let mut holds = three(alloc, &word, &mut mint)?;
        let [first, second, third] = *order;
        assert!(rt; first < 3 && second < 3 && third < 3);
        let mut sums = given_back(NONE, holds[first].take());
        drop(holds[second].take());
        assert!(rt; word.load(Ordering::SeqCst) == 0);
        sums = given_back(sums, holds[third].take());
        assert!(rt; sums.ran == 1 && sums.lasts == 1 && sums.weight < FULL);
        assert!(rt; word.load(Ordering::SeqCst) == (1 << 32) + 294);
    }
    let word = Arc::new(alloc, AtomicU64::new(0))?;
    let holds = three(alloc, &word, &mut mint)?;
    assert!(rt; word.load(Ordering::SeqCst) == 0);
    drop(holds);
    assert!(rt; word.load(Ordering::SeqCst) == (1 << 32) + 294);
    Ok(())
}

#[test]
fn shares_down_to_weight_one(rt: HostRuntime) -> Result<(), Fail> {
    let alloc = rt.alloc();
    let mut mint = Mint::new();
    let mut first: Hold = Hold::own(alloc, 1, &mut mint)?;
    let mut receipts = Vec::new(alloc);
    let Some(mut newest) = first.share()? else {
        return Err(Fail::from(Unexpected));
    };
    for weight in [1 << 40, 1 << 30, 1 << 20, 1 << 10] {
        assert_eq!(rt; newest.weight(), weight);
        let Some(next) = newest.share()? else {
            return Err(Fail::from(Unexpected));
        };
        if let Some(receipt) = newest.give_back().receipt() {
            receipts.push(receipt)?;
        }
        newest = next;
    }
    assert!(rt; newest.weight() == 1 && matches!(newest.share()?, None));
    if let Some(receipt) = newest.give_back().receipt() {
        receipts.push(receipt)?;
    }
    assert_eq!(rt; receipts.len(), 5);
    Ok(())
}
