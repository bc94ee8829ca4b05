use crate::{clone_coalesced, coalesce, gather, split, unshare};
use iobuf_chain::{Chain, CutFault};
use iobuf_node::IoBuf;
use relay_ports::Lent;
use share_count::Mint;
use std::alloc::Global;
use std::test::Fail;
use storage::{Back, Returns};

// What a step of a test could not be done with.
#[derive(Debug, Drop)]
struct Unexpected;

fn wrong() -> Result<(), Fail> {
    Err(Unexpected)?;
    Ok(())
}

// A chain of nodes on lent blocks with these data.
fn chain_of(alloc: Global, texts: &[&[u8]], mint: &mut Mint) -> Result<Chain<'static>, Unexpected> {
    let mut chain: Option<Chain<'static>> = None;
    for text in texts {
        let more = chain_in(alloc, &[(*text, 0, 0)], mint)?;
        chain = match chain {
            None => Some(more),
            Some(mut first) => {
                join(&mut first, more)?;
                Some(first)
            }
        };
    }
    chain.ok_or(Unexpected)
}

// A node's block, and how many bytes of it lie before and after the data.
type Part<'t> = (&'t [u8], usize, usize);

// A chain of nodes on lent blocks, with rooms.
fn chain_in(
    alloc: Global,
    parts: &[Part<'_>],
    mint: &mut Mint,
) -> Result<Chain<'static>, Unexpected> {
    let mut chain: Option<Chain<'static>> = None;
    for &(block, head, tail) in parts {
        let bytes = Vec::from_slice(alloc, block).map_err(|_| Unexpected)?;
        let used = bytes.len();
        let mut node = IoBuf::from_lent(alloc, Lent { number: 0, bytes }, used, mint).map_err(
            |_| Unexpected,
        )?;
        if head > node.length() || tail > node.length() - head {
            return Err(Unexpected);
        }
        node.trim_start(head);
        node.trim_end(tail);
        let more = Chain::of(alloc, node);
        chain = match chain {
            None => Some(more),
            Some(mut first) => {
                join(&mut first, more)?;
                Some(first)
            }
        };
    }
    chain.ok_or(Unexpected)
}

// The second behind the first.
fn join<'a>(first: &mut Chain<'a>, second: Chain<'a>) -> Result<(), Unexpected> {
    if first.length() > 1000 || second.length() > 1000 {
        return Err(Unexpected);
    }
    first.append_chain(second).map_err(|_| Unexpected)
}

// Whether a node has this block, and so many bytes of it before and after the data.
fn has(node: &IoBuf<'_>, block: &[u8], head: usize, tail: usize) -> bool {
    node.block() == block && node.headroom() == head && node.tailroom() == tail
}

// How many blocks came back, where nothing else did.
fn lent_back(mut backs: Returns) -> Result<usize, Unexpected> {
    let count = backs.len();
    for _ in 0..count {
        match backs.pop() {
            Some(Back::Lent(..)) => (),
            _ => return Err(Unexpected),
        }
    }
    Ok(count)
}

// Whether the nodes of a chain have these data, in order.
fn shows(chain: &Chain<'_>, texts: &[&[u8]]) -> bool {
    if chain.elements() != texts.len() {
        return false;
    }
    for (i, text) in texts.iter().enumerate() {
        if i >= chain.elements() || chain.node(i).bytes() != *text {
            return false;
        }
    }
    true
}

#[test]
fn splits_as_lists_do(rt: HostRuntime) -> Result<(), Fail> {
    let alloc = rt.alloc();
    let mut mint = Mint::new();
    let two: &[&[u8]] = &[b"ab", b"", b"cdef"];
    let one: &[&[u8]] = &[b"abc"];
    // The chain, how many bytes leave, and the nodes of both sides.
    let rows: [(&[&[u8]], usize, &[&[u8]], &[&[u8]]); 7] = [
        (two, 0, &[b""], &[b"ab", b"", b"cdef"]),
        (two, 1, &[b"a"], &[b"b", b"", b"cdef"]),
        (two, 2, &[b"ab", b""], &[b"cdef"]),
        (two, 3, &[b"ab", b"", b"c"], &[b"def"]),
        (two, 6, &[b"ab", b"", b"cdef"], &[b""]),
        (one, 2, &[b"ab"], &[b"c"]),
        (one, 3, &[b"abc"], &[b""]),
    ];
    for &(texts, n, front, rest) in &rows {
        let mut chain = chain_of(alloc, texts, &mut mint)?;
        let first = split(&mut chain, alloc, n, &mut mint).map_err(|_| Unexpected)?;
        assert!(rt; shows(&first, front));
        assert!(rt; shows(&chain, rest));
    }
    let mut chain = chain_of(alloc, one, &mut mint)?;
    match split(&mut chain, alloc, 4, &mut mint) {
        Err(CutFault::Short { asked, had }) => assert!(rt; asked == 4 && had == 3),
        _ => assert!(rt; false),
    }
    assert!(rt; shows(&chain, one));
    let front = split(&mut chain, alloc, 1, &mut mint).map_err(|_| Unexpected)?;
    assert!(rt; front.elements() == 1 && chain.elements() == 1);
    assert_eq!(rt; front.node(0).number(), chain.node(0).number());
    assert_eq!(rt; front.node(0).weight(), 1 << 40);
    assert_eq!(rt; chain.node(0).weight(), (1 << 62) - (1 << 40));
    Ok(())
}

#[test]
fn shared_nodes_move(rt: HostRuntime) -> Result<(), Fail> {
    let alloc = rt.alloc();
    let mut mint = Mint::new();
    let mut other = chain_in(alloc, &[(b"xaby", 1, 1)], &mut mint)?;
    let mut chain = other.share_all(alloc, &mut mint).map_err(|_| Unexpected)?;
    join(&mut chain, chain_in(alloc, &[(b"cdz", 0, 1)], &mut mint)?)?;
    join(&mut chain, Chain::of(alloc, IoBuf::wrap(b"ef")))?;
    join(&mut chain, chain_in(alloc, &[(b"", 0, 0)], &mut mint)?)?;
    assert!(rt; shows(&chain, &[b"ab", b"cd", b"ef", b""]));
    assert!(rt; chain.elements() == 4);
    let stays = chain.node(1).number();

    let mut backs = unshare(&mut chain, alloc, &mut mint)?;
    assert_eq!(rt; backs.len(), 2);
    assert!(rt; matches!(backs.pop(), Some(Back::Kept(_))));
    assert!(rt; matches!(backs.pop(), Some(Back::Nothing)));
    assert!(rt; shows(&chain, &[b"ab", b"cd", b"ef", b""]));
    assert!(rt; chain.elements() == 4 && !chain.is_shared());
    assert!(rt; has(chain.node(0), b"xaby", 1, 1) && has(chain.node(2), b"ef", 0, 0));
    assert!(rt; other.elements() == 1 && chain.node(0).number() != other.node(0).number());
    assert!(rt; chain.node(1).number() == stays && chain.node(2).number().is_some());
    assert!(rt; shows(&other, &[b"ab"]));

    assert_eq!(rt; unshare(&mut chain, alloc, &mut mint)?.len(), 0);
    assert!(rt; shows(&chain, &[b"ab", b"cd", b"ef", b""]));
    Ok(())
}

#[test]
fn nodes_become_one(rt: HostRuntime) -> Result<(), Fail> {
    let alloc = rt.alloc();
    let mut mint = Mint::new();
    let one: &[Part<'_>] = &[(b"xaby", 1, 1)];
    let two: &[Part<'_>] = &[(b"xab.", 1, 1), (b"-cdyz", 1, 2)];
    let empty: &[Part<'_>] = &[(b"xy", 2, 0), (b"ab", 0, 0), (b"--", 1, 1), (b"z", 0, 1)];
    // The chain, how many bytes are cut off its front, the node's block with its rooms, and how many blocks come back.
    let rows: [(&[Part<'_>], usize, &[u8], usize, usize, usize); 6] = [
        (one, 0, b"xaby", 1, 1, 0),
        (one, 1, b"xaby", 2, 1, 0),
        (two, 0, b"xabcdyz", 1, 2, 2),
        (two, 1, b"xabcdyz", 2, 2, 2),
        (two, 3, b"xabdyz", 3, 2, 2),
        (empty, 0, b"xyabz", 2, 1, 4),
    ];
    for &(parts, n, block, head, tail, count) in &rows {
        let mut chain = chain_in(alloc, parts, &mut mint)?;
        if n > chain.length() {
            return wrong();
        }
        chain.trim_start(n);
        let before = chain.node(0).number();
        let copy = clone_coalesced(&chain, alloc, &mut mint)?;
        assert!(rt; has(&copy, block, head, tail) && copy.whole());
        assert!(rt; chain.elements() == parts.len());
        let backs = coalesce(&mut chain, alloc, &mut mint)?;
        assert_eq!(rt; lent_back(backs)?, count);
        assert!(rt; chain.elements() == 1 && has(chain.node(0), block, head, tail));
        assert!(rt; (chain.node(0).number() == before) == (count == 0));
        assert!(rt; copy.number() != chain.node(0).number());
    }
    Ok(())
}

#[test]
fn first_nodes_become_one(rt: HostRuntime) -> Result<(), Fail> {
    let alloc = rt.alloc();
    let mut mint = Mint::new();
    let four: &[&[u8]] = &[b"ab", b"", b"cdef", b"g"];
    let three: &[&[u8]] = &[b"", b"ab", b"c"];
    // The chain, how many bytes the first node is to have, the nodes then, and how many blocks come back.
    let rows: [(&[&[u8]], usize, &[&[u8]], usize); 11] = [
        (four, 0, four, 0),
        (four, 1, four, 0),
        (four, 2, four, 0),
        (four, 3, &[b"abcdef", b"g"], 3),
        (four, 6, &[b"abcdef", b"g"], 3),
        (four, 7, &[b"abcdefg"], 4),
        (three, 0, three, 0),
        (three, 1, &[b"ab", b"c"], 2),
        (three, 2, &[b"ab", b"c"], 2),
        (three, 3, &[b"abc"], 3),
        (&[b"abc"], 3, &[b"abc"], 0),
    ];
    for &(texts, n, nodes, count) in &rows {
        let mut chain = chain_of(alloc, texts, &mut mint)?;
        let backs = gather(&mut chain, alloc, n, &mut mint).map_err(|_| Unexpected)?;
        assert_eq!(rt; lent_back(backs)?, count);
        assert!(rt; shows(&chain, nodes));
    }
    let mut chain = chain_of(alloc, four, &mut mint)?;
    match gather(&mut chain, alloc, 8, &mut mint) {
        Err(CutFault::Short { asked, had }) => assert!(rt; asked == 8 && had == 7),
        _ => assert!(rt; false),
    }
    assert!(rt; shows(&chain, four));
    Ok(())
}

#[test]
fn wrapped_nodes_become_one(rt: HostRuntime) -> Result<(), Fail> {
    let alloc = rt.alloc();
    let mut mint = Mint::new();
    let mut chain: Chain<'_> = Chain::of(alloc, IoBuf::wrap(b"ab"));
    join(&mut chain, Chain::of(alloc, IoBuf::wrap(b"cd")))?;
    join(&mut chain, Chain::of(alloc, IoBuf::wrap(b"ef")))?;
    let mut backs = gather(&mut chain, alloc, 3, &mut mint).map_err(|_| Unexpected)?;
    assert!(rt; backs.len() == 2 && matches!(backs.pop(), Some(Back::Nothing)));
    assert!(rt; shows(&chain, &[b"abcd", b"ef"]));
    let mut backs = coalesce(&mut chain, alloc, &mut mint)?;
    assert!(rt; backs.len() == 2 && matches!(backs.pop(), Some(Back::Done(_))));
    assert!(rt; matches!(backs.pop(), Some(Back::Nothing)));
    assert!(rt; shows(&chain, &[b"abcdef"]));
    Ok(())
}
