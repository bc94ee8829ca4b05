use crate::{Back, Hold, Returns};
use share_count::Mint;
use std::alloc::Global;
use std::collections::VecDeque;
use std::process::Abort;

// A value that was handed back, with this tag.
fn tagged(rt: &impl Abort, alloc: Global, tag: u32, mint: &mut Mint) -> Back {
    let hold: Result<Hold, Vec<u8>> = Hold::tagged(alloc, Vec::new(alloc), tag, mint);
    hold.expect(rt, "memory for a storage").give_back()
}

// Values with these tags.
fn backs(rt: &impl Abort, alloc: Global, tags: &[u32], mint: &mut Mint) -> VecDeque<Back> {
    let mut backs = VecDeque::new(alloc);
    for tag in tags {
        let back = tagged(rt, alloc, *tag, mint);
        backs.push_back(back).expect(rt, "memory for a list");
    }
    backs
}

// The first of such values, and the others.
fn parts(
    rt: &impl Abort,
    alloc: Global,
    first: u32,
    others: &[u32],
    mint: &mut Mint,
) -> (Back, VecDeque<Back>) {
    let rest = backs(rt, alloc, others, mint);
    (tagged(rt, alloc, first, mint), rest)
}

fn push(rt: &impl Abort, alloc: Global, returns: &mut Returns, tag: u32, mint: &mut Mint) {
    let back = tagged(rt, alloc, tag, mint);
    returns.push(back).expect(rt, "memory for a list");
}

fn append(rt: &impl Abort, returns: &mut Returns, others: Returns) {
    returns.append(others).expect(rt, "memory for a list");
}

// The tag of a value, or 0 where there is none.
fn tag_of(back: Option<Back>) -> u32 {
    match back {
        Some(Back::Tag(tag, _)) => tag,
        _ => 0,
    }
}

// Whether values with these tags come off, first to last, and no more.
fn has_tags(mut returns: Returns, tags: &[u32]) -> bool {
    let count = returns.len();
    for tag in tags {
        if returns.is_empty() || tag_of(returns.pop()) != *tag {
            return false;
        }
    }
    count == tags.len() && returns.is_empty()
}

#[test]
fn an_empty_list_has_nothing(rt: HostRuntime) {
    let mut returns: Returns = Returns::new(rt.alloc());
    assert!(rt; returns.is_empty() && returns.len() == 0);
    assert!(rt; tag_of(returns.pop()) == 0);
    assert!(rt; has_tags(Returns::from_backs(VecDeque::new(rt.alloc())), &[]));
}

#[test]
fn lists_what_was_handed_back(rt: HostRuntime) {
    let alloc = rt.alloc();
    let mut mint = Mint::new();
    let mut returns: Returns = Returns::new(alloc);
    for tag in 1..4 {
        push(&rt, alloc, &mut returns, tag, &mut mint);
    }
    assert!(rt; returns.len() == 3 && tag_of(returns.pop()) == 1);
    assert!(rt; has_tags(returns, &[2, 3]));
    assert!(rt;
        has_tags(
            Returns::from_backs(backs(&rt, alloc, &[6], &mut mint)),
            &[6]
        )
    );
}

#[test]
fn lists_are_appended(rt: HostRuntime) {
    let alloc = rt.alloc();
    let mut mint = Mint::new();
    let mut all = Returns::new(alloc);
    append(&rt, &mut all, Returns::new(alloc));
    assert!(rt; all.is_empty());
    append(
        &rt,
        &mut all,
        Returns::from_backs(backs(&rt, alloc, &[2, 3], &mut mint)),
    );
    let (first, rest) = parts(&rt, alloc, 4, &[5], &mut mint);
    append(&rt, &mut all, Returns::from_parts(first, rest));
    assert!(rt; has_tags(all, &[2, 3, 4, 5]));
}

// Two lists come together without memory, and more goes behind both.
#[test]
fn two_lists_come_together(rt: HostRuntime) {
    let alloc = rt.alloc();
    let mut mint = Mint::new();
    let one = parts(&rt, alloc, 1, &[2], &mut mint);
    let mut both = Returns::from_two(one, parts(&rt, alloc, 3, &[], &mut mint));
    push(&rt, alloc, &mut both, 4, &mut mint);
    let one = parts(&rt, alloc, 5, &[], &mut mint);
    append(
        &rt,
        &mut both,
        Returns::from_two(one, parts(&rt, alloc, 6, &[], &mut mint)),
    );
    assert!(rt; has_tags(both, &[1, 2, 3, 4, 5, 6]));
}
