use crate::tests::owners::Teller;
use crate::tests::{Unexpected, receipt_of};
use crate::{Back, Barred, Hold, Managed};
use relay_ports::Lent;
use share_count::{FULL, Mint, Standing};
use std::sync::Arc;
use std::sync::atomic::{AtomicU64, Ordering};
use std::test::Fail;

// The owner that was told.
fn owner_of(back: Back<Teller>) -> Option<Teller> {
    match back {
        Back::Ran(owner, receipt) => {
            drop(receipt);
            Some(owner)
        }
        _ => None,
    }
}

// The lent block.
fn block_of(back: Back<Teller>) -> Option<Lent> {
    match back {
        Back::Lent(block, receipt) => {
            drop(receipt);
            Some(block)
        }
        _ => None,
    }
}

#[test]
fn gives_back_by_way(rt: HostRuntime) -> Result<(), Fail> {
    let alloc = rt.alloc();
    let mut mint = Mint::new();
    let word = Arc::new(alloc, AtomicU64::new(0))?;

    let own: Hold<'_, Teller> = Hold::own(alloc, 1, &mut mint)?;
    assert!(rt; own.bytes() == [0].as_slice());
    assert!(rt; own.number() == Some(0) && own.weight() == FULL && own.whole());
    let own = own.give_back();
    assert_eq!(rt; receipt_of(&own), Some((0, FULL, 1)));
    assert!(rt; matches!(own, Back::Done(_)));

    let owner = Teller::new(alloc, &word)?;
    let bytes = Vec::from_slice(alloc, b"a")?;
    let Ok(user) = Hold::user(alloc, bytes, owner, &mut mint) else {
        return Err(Fail::from(Unexpected));
    };
    assert!(rt; user.bytes() == b"a".as_slice());
    let user = user.give_back();
    assert_eq!(rt; receipt_of(&user), Some((1, FULL, 1)));
    let Some(owner) = owner_of(user) else {
        return Err(Fail::from(Unexpected));
    };
    assert_eq!(rt; owner.told(), (1, b"a".as_slice()));

    let block = Lent {
        number: 9,
        bytes: Vec::from_slice(alloc, b"b")?,
    };
    let lent: Result<Hold<'_, Teller>, Lent> = Hold::lent(alloc, block, &mut mint);
    let Ok(mut lent) = lent else {
        return Err(Fail::from(Unexpected));
    };
    assert!(rt; lent.write().is_ok());
    let lent = lent.give_back();
    assert_eq!(rt; receipt_of(&lent), Some((2, FULL, 1)));
    let Some(block) = block_of(lent) else {
        return Err(Fail::from(Unexpected));
    };
    assert!(rt; block.number == 9 && block.bytes.as_slice() == b"b".as_slice());

    let bytes = Vec::from_slice(alloc, b"c")?;
    let tagged: Result<Hold<'_, Teller>, Vec<u8>> = Hold::tagged(alloc, bytes, 7, &mut mint);
    let Ok(tagged) = tagged else {
        return Err(Fail::from(Unexpected));
    };
    let tagged = tagged.give_back();
    assert_eq!(rt; receipt_of(&tagged), Some((3, FULL, 1)));
    assert!(rt; matches!(tagged, Back::Tag(7, _)));
    assert!(rt; word.load(Ordering::SeqCst) == (1 << 32) + 97);
    Ok(())
}

#[test]
fn writes_where_nobody_else_holds(rt: HostRuntime) -> Result<(), Fail> {
    let alloc = rt.alloc();
    let mut mint = Mint::new();
    let mut hold: Hold = Hold::own(alloc, 2, &mut mint)?;
    assert_eq!(rt; hold.standing(), Standing::Sole);
    assert!(rt; hold.write().is_ok());
    hold.bytes_mut().fill(5);

    let Some(mut share) = hold.share()? else {
        return Err(Fail::from(Unexpected));
    };
    assert!(rt; share.weight() == 1 << 40 && share.number() == Some(0) && !share.whole());
    assert_eq!(rt; hold.standing(), Standing::Shared { found: FULL });
    assert!(rt; matches!(hold.write(), Err(Barred::SharedNow { found: FULL })));
    assert!(rt; matches!(share.write(), Err(Barred::SharedNow { found: FULL })));
    assert!(rt; share.bytes() == [5, 5].as_slice());
    let Back::Kept(receipt) = share.give_back() else {
        return Err(Fail::from(Unexpected));
    };
    assert_eq!(rt; hold.standing(), Standing::Sole);
    assert!(rt; !hold.whole() && hold.number() == Some(receipt.number()));
    Ok(())
}

#[test]
fn wraps_bytes(rt: HostRuntime) -> Result<(), Fail> {
    let mut wrap: Hold<'_> = Hold::wrap(b"bc");
    assert_eq!(rt; wrap.standing(), Standing::Shared { found: 0 });
    assert!(rt; matches!(wrap.write(), Err(Barred::Unmanaged)));
    assert!(rt; wrap.number() == None && wrap.weight() == 0 && !wrap.whole());
    let Some(second) = wrap.share()? else {
        return Err(Fail::from(Unexpected));
    };
    assert!(rt; second.bytes() == b"bc".as_slice());
    assert!(rt; matches!(second.give_back(), Back::Nothing));
    assert!(rt; matches!(wrap.give_back(), Back::Nothing));

    let mut mint = Mint::new();
    let copy: Managed = Managed::copy(rt.alloc(), b"ab", &mut mint)?;
    assert!(rt; copy.bytes() == b"ab".as_slice());
    assert!(rt; matches!(copy.give_back(), Back::Done(_)));
    let mut none: Managed = Managed::none();
    assert!(rt; none.number() == None && none.bytes().is_empty());
    assert!(rt; matches!(none.share()?, Some(_)));
    Ok(())
}
