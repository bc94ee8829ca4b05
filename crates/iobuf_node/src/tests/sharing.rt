ghost use Rattle.std.specs.Prelude.{◌≤◌};

use crate::IoBuf;
use crate::tests::{fill, shows, word};
use share_count::{FULL, Mint};
use std::alloc::{AllocError, Global};
use std::process::Abort;
use storage::{Back, Barred, Release};

// A node of two copied bytes between rooms.
fn copied(
    rt: &impl Abort,
    alloc: Global,
    rooms: (usize, usize),
    mint: &mut Mint,
) -> IoBuf<'static> {
    let (head, tail) = rooms;
    assert!(rt; head < 100 && tail < 100);
    IoBuf::copy(alloc, b"ab", head, tail, mint).expect(rt, "memory for a node")
}

// The last two of three wrapped bytes.
fn wrapped() -> IoBuf<'static> {
    let mut node: IoBuf<'static> = IoBuf::wrap(b"xyz");
    node.trim_start(1);
    node
}

fn cloned(
    rt: &impl Abort,
    alloc: Global,
    node: &mut IoBuf<'static>,
    mint: &mut Mint,
) -> IoBuf<'static> {
    node.clone_one(alloc, mint).expect(rt, "a clone")
}

// What comes back, in a word, where 4 bytes of room before the data are reserved.
fn reserve(
    rt: &impl Abort,
    alloc: Global,
    node: &mut IoBuf<'static>,
    mint: &mut Mint,
) -> &'static str {
    let back = node.reserve(alloc, 4, 0, mint);
    word(back.expect(rt, "memory for a block"))
}

// What comes back, in a word, where a node leaves a storage that others share, as a look finds.
fn unshare_one(
    rt: &impl Abort,
    alloc: Global,
    node: &mut IoBuf<'static>,
    mint: &mut Mint,
) -> &'static str {
    let back = node.unshare_one(alloc, mint);
    word(back.expect(rt, "memory for a block"))
}

// What comes back, in a word, where a node leaves a storage that others may share, by its weight.
fn unshare_known(
    rt: &impl Abort,
    alloc: Global,
    node: &mut IoBuf<'static>,
    mint: &mut Mint,
) -> &'static str {
    let back = node.unshare_known(alloc, mint);
    word(back.expect(rt, "memory for a block"))
}

#[test]
fn makes_nodes(rt: HostRuntime) {
    let alloc = rt.alloc();
    let mut mint = Mint::new();
    let empty: IoBuf = IoBuf::create(alloc, 8, &mut mint).expect(&rt, "memory for a node");
    assert!(rt; shows(&empty, 0, &[], 8) && empty.number() == Some(0));
    let mut copied = copied(&rt, alloc, (0, 0), &mut mint);
    assert!(rt; shows(&copied, 0, b"ab", 0) && copied.capacity() == 2);
    assert!(rt; reserve(&rt, alloc, &mut copied, &mut mint) == "done");
    assert!(rt; shows(&copied, 4, b"ab", 0));
    assert!(rt; reserve(&rt, alloc, &mut copied, &mut mint) == "none");
    assert!(rt; copied.number() == Some(2) && copied.block() == b"\0\0\0\0ab".as_slice());
    let again = copied.duplicate(alloc, &mut mint).expect(&rt, "a copy");
    assert!(rt; shows(&again, 4, b"ab", 0) && again.number() == Some(3) && again.whole());
}

#[test]
fn wrapped_nodes_are_shared(rt: HostRuntime) {
    let alloc = rt.alloc();
    let mut mint = Mint::new();
    let mut wrap = wrapped();
    assert!(rt; shows(&wrap, 1, b"yz", 0));
    assert!(rt; wrap.number() == None && wrap.weight() == 0 && !wrap.whole());
    assert!(rt; matches!(wrap.mine(), Err(Barred::Unmanaged)));
    let mut clone = cloned(&rt, alloc, &mut wrap, &mut mint);
    assert!(rt; clone.number() == None && shows(&clone, 1, b"yz", 0));
    assert!(rt; unshare_known(&rt, alloc, &mut clone, &mut mint) == "nothing");
    assert!(rt; shows(&clone, 1, b"yz", 0) && clone.number() == Some(0));
    let mut third = cloned(&rt, alloc, &mut wrap, &mut mint);
    assert!(rt; unshare_one(&rt, alloc, &mut third, &mut mint) == "nothing");
    assert!(rt; shows(&third, 1, b"yz", 0) && third.number() == Some(1));
}

#[test]
fn wrapped_nodes_are_managed(rt: HostRuntime) {
    let alloc = rt.alloc();
    let mut mint = Mint::new();
    let _other = copied(&rt, alloc, (0, 0), &mut mint);
    let managed = wrapped().into_managed(alloc, &mut mint);
    let managed = managed.expect(&rt, "memory for a block");
    assert!(rt; shows(&managed, 1, b"yz", 0) && managed.number() == Some(1));
    let again = managed.into_managed(alloc, &mut mint);
    let again = again.expect(&rt, "the same node");
    assert!(rt; again.number() == Some(1) && word(Some(again.give_back())) == "done");
}

// Whether others keep the storage, by a receipt with this number, this weight and so many lasts.
fn is_kept(back: Option<Back>, number: u64, weight: u64, lasts: u64) -> bool {
    match back {
        Some(Back::Kept(r)) => r.number() == number && r.weight() == weight && r.lasts() == lasts,
        _ => false,
    }
}

#[test]
fn clones_share_the_storage(rt: HostRuntime) {
    let alloc = rt.alloc();
    let mut mint = Mint::new();
    let mut first = copied(&rt, alloc, (1, 2), &mut mint);
    let mut clone = cloned(&rt, alloc, &mut first, &mut mint);
    assert!(rt; clone.number() == Some(0) && shows(&clone, 1, b"ab", 2));
    assert!(rt; clone.weight() == 1 << 40 && !clone.whole() && !first.whole());
    assert!(rt; matches!(clone.mine(), Err(Barred::SharedNow { found: FULL })));

    // The clone leaves: the storage stays with the first.
    let back = clone.unshare_one(alloc, &mut mint);
    assert!(rt; is_kept(back.expect(&rt, "memory for a block"), 0, 1 << 40, 0));
    assert!(rt; clone.number() == Some(1) && shows(&clone, 1, b"ab", 2) && clone.whole());
    fill(&rt, &mut clone);
    assert!(rt; shows(&first, 1, b"ab", 2));
}

// Nobody else holds the storage, which a look finds, though the weight isn't all there.
#[test]
fn the_last_stays_on_the_storage(rt: HostRuntime) {
    let alloc = rt.alloc();
    let mut mint = Mint::new();
    let mut first = copied(&rt, alloc, (1, 2), &mut mint);
    let mut clone = cloned(&rt, alloc, &mut first, &mut mint);
    assert!(rt; unshare_one(&rt, alloc, &mut clone, &mut mint) == "kept");
    assert!(rt; unshare_one(&rt, alloc, &mut first, &mut mint) == "none");
    assert!(rt; first.number() == Some(0) && !first.whole() && first.mine().is_ok());
    let second = cloned(&rt, alloc, &mut first, &mut mint);
    assert!(rt; unshare_known(&rt, alloc, &mut first, &mut mint) == "kept");
    assert!(rt; first.number() == Some(2) && second.number() == Some(0));
    assert!(rt; unshare_known(&rt, alloc, &mut first, &mut mint) == "none");
}

#[test]
fn shares_one_where_there_is_weight(rt: HostRuntime) {
    let mut first = copied(&rt, rt.alloc(), (1, 2), &mut Mint::new());
    let share = first.share_one().expect(&rt, "memory for a share");
    let share = share.expect(&rt, "a share");
    assert!(rt; share.weight() == 1 << 40 && shows(&share, 1, b"ab", 2));
    assert!(rt; share.number() == Some(0) && shows(&first, 1, b"ab", 2));
}

#[test]
fn shares_no_wrapped_node(rt: HostRuntime) {
    let mut wrap: IoBuf<'_> = IoBuf::wrap(b"xyz");
    let share = wrap.share_one().expect(&rt, "an answer without memory");
    assert!(rt; share.is_none() && shows(&wrap, 0, b"xyz", 0));
}

// Clones a node that has weight to share, and takes the clone's weight back. Whether there was a receipt.
fn cloned_and_absorbed<O: Release>(
    node: &mut IoBuf<'static, O>,
    alloc: Global,
    mint: &mut Mint,
) -> Result<bool, AllocError>
    requires { 2 ≤ node.old.share.weight }
{
    let clone = node.clone_one(alloc, mint)?;
    let Some(receipt) = clone.give_back().receipt() else {
        return Ok(false);
    };
    node.absorb(receipt);
    Ok(true)
}

#[test]
fn absorbs_what_came_back(rt: HostRuntime) {
    let alloc = rt.alloc();
    let mut mint = Mint::new();
    let mut first = copied(&rt, alloc, (0, 0), &mut mint);
    assert!(rt; first.weight() > 1);
    let absorbed = cloned_and_absorbed(&mut first, alloc, &mut mint);
    assert!(rt; absorbed.expect(&rt, "a clone"));
    assert!(rt; first.whole() && first.weight() < FULL);
    assert!(rt; unshare_known(&rt, alloc, &mut first, &mut mint) == "none");
    assert!(rt; first.number() == Some(0));
}

#[test]
fn copies_at_weight_one(rt: HostRuntime) {
    let alloc = rt.alloc();
    let mut mint = Mint::new();
    let mut newest = copied(&rt, alloc, (0, 1), &mut mint);
    for weight in [1u64 << 40, 1 << 30, 1 << 20, 1 << 10, 1] {
        newest = cloned(&rt, alloc, &mut newest, &mut mint);
        assert!(rt; newest.weight() == weight && newest.number() == Some(0));
    }
    let mut copy = cloned(&rt, alloc, &mut newest, &mut mint);
    assert!(rt; copy.weight() == FULL && copy.number() == Some(1) && shows(&copy, 0, b"ab", 1));
    assert!(rt; newest.weight() == 1 && newest.number() == Some(0));
    fill(&rt, &mut copy);
    assert!(rt; shows(&newest, 0, b"ab", 1) && shows(&copy, 0, b"zz", 1));
}
