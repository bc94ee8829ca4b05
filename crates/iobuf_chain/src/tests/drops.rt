//! Chains that go, and what a refusal says.
use crate::{Chain, CutFault};
use iobuf_node::IoBuf;
use share_count::Mint;
use std::alloc::{AllocError, Global};
use std::process::Abort;
use std::sync::Arc;
use std::sync::atomic::{AtomicU64, Ordering};
use std::test::Fail;
use storage::Release;

// Counts in a word that others see, too, how often it was told.
#[derive(Drop)]
struct Counter {
    word: Arc<AtomicU64, Global>,
    runs: u64,
}

impl Release for Counter {
    ghost use Rattle.std.specs.Prelude.{None};

    ghost runs = { λ c. c.runs };

    ghost last = { λ _. None };

    fn released(&mut self, _bytes: Vec<u8>) {
        self.word.fetch_add(1, Ordering::SeqCst);
        self.runs = self.runs.saturating_add(1);
    }
}

fn new_counter(word: &Arc<AtomicU64, Global>) -> Result<Counter, AllocError> {
    Ok(Counter {
        word: Arc::try_clone(word)?,
        runs: 0,
    })
}

// A chain of one node whose owner counts.
fn counted(
    rt: &impl Abort,
    alloc: Global,
    word: &Arc<AtomicU64, Global>,
    mint: &mut Mint,
) -> Chain<'static, Counter> {
    let owner = new_counter(word).expect(rt, "memory for an owner");
    let bytes = Vec::from_slice(alloc, b"ab").expect(rt, "memory for bytes");
    let node = IoBuf::take_ownership(alloc, bytes, owner, mint).ok();
    let node = node.expect(rt, "memory for a node");
    Chain::of(alloc, node)
}

#[test]
fn discarded_chains_tell_their_owners(rt: HostRuntime) {
    let alloc = rt.alloc();
    let mut mint = Mint::new();
    let word = Arc::new(alloc, AtomicU64::new(0)).expect(&rt, "memory for a word");
    counted(&rt, alloc, &word, &mut mint).discard();
    assert_eq!(rt; word.load(Ordering::SeqCst), 1);
    let mut chain = counted(&rt, alloc, &word, &mut mint);
    for _ in 0..2u32 {
        let next = counted(&rt, alloc, &word, &mut mint);
        assert!(rt; chain.length() <= 100 && next.length() <= 100);
        assert!(rt; chain.append_chain(next).is_ok());
    }
    assert_eq!(rt; word.load(Ordering::SeqCst), 1);
    chain.discard();
    assert_eq!(rt; word.load(Ordering::SeqCst), 4);
}

#[test]
fn refusals_are_named(rt: HostRuntime) -> Result<(), Fail> {
    let alloc = rt.alloc();
    let short = format!(in alloc; "{}", CutFault::Short { asked: 4, had: 3 })?;
    assert_eq!(rt; short.as_str(), "4 bytes are asked for, and there are 3");
    let refused = format!(in alloc; "{}", CutFault::NoMemory)?;
    assert_eq!(rt; refused.as_str(), "no memory");
    Ok(())
}
