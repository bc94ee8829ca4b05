use crate::IoBuf;
use crate::tests::{fill, word};
use relay_ports::Lent;
use share_count::{FULL, Mint};
use std::alloc::{AllocError, Global};
use std::process::Abort;
use std::sync::Arc;
use std::sync::atomic::{AtomicU64, Ordering};
use storage::{Back, Owner, Release};

// Tells a word that others see, too: each run adds 2^32 and the number of bytes.
#[derive(Drop)]
pub(crate) struct Teller {
    word: Arc<AtomicU64, Global>,
    runs: u64,
}

impl Teller {
    pub(crate) fn boxed(alloc: Global, word: &Arc<AtomicU64, Global>) -> Result<Owner, AllocError> {
        let word = Arc::try_clone(word)?;
        Ok(Box::new(alloc, Teller { word, runs: 0 })?)
    }
}

impl Release for Teller {
    ghost use Rattle.std.specs.Prelude.{None};

    ghost runs = { λ t. t.runs };

    ghost last = { λ _. None };

    fn released(&mut self, bytes: Vec<u8>) {
        let told = u64::wrapping_add(1 << 32, bytes.len() as u64);
        self.word.fetch_add(told, Ordering::SeqCst);
        self.runs = self.runs.saturating_add(1);
    }
}

// A node that takes ownership of bytes, for an owner that tells the word.
pub(crate) fn owned(
    rt: &impl Abort,
    alloc: Global,
    bytes: &[u8],
    told: &Arc<AtomicU64, Global>,
    mint: &mut Mint,
) -> IoBuf<'static, Owner> {
    let bytes = Vec::from_slice(alloc, bytes).expect(rt, "memory for bytes");
    let owner = Teller::boxed(alloc, told).expect(rt, "memory for an owner");
    let node = IoBuf::take_ownership(alloc, bytes, owner, mint);
    node.ok().expect(rt, "memory for a node")
}

// A node with a tag.
fn tagged(
    rt: &impl Abort,
    alloc: Global,
    bytes: &[u8],
    tag: u32,
    mint: &mut Mint,
) -> IoBuf<'static> {
    let bytes = Vec::from_slice(alloc, bytes).expect(rt, "memory for bytes");
    IoBuf::take_tagged(alloc, bytes, tag, mint).expect(rt, "memory for a node")
}

#[test]
fn owners_and_tags_come_back(rt: HostRuntime) {
    let alloc = rt.alloc();
    let mut mint = Mint::new();
    let told = Arc::new(alloc, AtomicU64::new(0)).expect(&rt, "memory for a word");
    let mut taken = owned(&rt, alloc, b"abc", &told, &mut mint);
    assert!(rt; taken.bytes() == b"abc".as_slice() && taken.headroom() == 0);
    let clone = taken.clone_one(alloc, &mut mint).expect(&rt, "a clone");
    assert!(rt; clone.bytes() == b"abc".as_slice() && clone.number() == taken.number());
    assert!(rt; word(Some(taken.give_back())) == "kept");
    assert!(rt; told.load(Ordering::SeqCst) == 0);
    assert!(rt; word(Some(clone.give_back())) == "ran");
    assert!(rt; told.load(Ordering::SeqCst) == (1 << 32) + 3);

    drop(owned(&rt, alloc, b"de", &told, &mut mint));
    assert!(rt; told.load(Ordering::SeqCst) == (2 << 32) + 5);

    let tagged = tagged(&rt, alloc, b"f", 7, &mut mint);
    assert!(rt; tagged.bytes() == b"f".as_slice() && tagged.number() == Some(2));
    assert!(rt; word(Some(tagged.give_back())) == "tag 7");
}

// A node on the first two of three bytes, which are lent as block 7.
fn lent(rt: &impl Abort, alloc: Global, mint: &mut Mint) -> IoBuf<'static> {
    let bytes = Vec::from_slice(alloc, b"abc").expect(rt, "memory for bytes");
    IoBuf::from_lent(alloc, Lent { number: 7, bytes }, 2, mint).expect(rt, "memory for a node")
}

// Whether the block comes back with these bytes, and the receipt tells all of storage 1.
fn lent_back(back: Back, bytes: &[u8]) -> bool {
    let Back::Lent(block, receipt) = back else {
        return false;
    };
    let whole = receipt.weight() == FULL && receipt.lasts() == 1;
    whole && receipt.number() == 1 && block.number == 7 && block.bytes.as_slice() == bytes
}

#[test]
fn lent_blocks_come_back(rt: HostRuntime) {
    let mut mint = Mint::new();
    let _other = tagged(&rt, rt.alloc(), b"f", 7, &mut mint);
    let mut lent = lent(&rt, rt.alloc(), &mut mint);
    assert!(rt; lent.bytes() == b"ab".as_slice() && lent.tailroom() == 1);
    assert!(rt; lent.whole() && lent.weight() == FULL);
    fill(&rt, &mut lent);
    assert!(rt; lent_back(lent.give_back(), b"zzc"));
}
