use crate::{Appender, PrivateCursor, UnshareCursor};
use iobuf_chain::{Chain, CutFault};
use iobuf_node::IoBuf;
use share_count::Mint;
use std::alloc::Global;
use std::test::Fail;

// What a step of a test could not be done with.
#[derive(Debug, Drop)]
struct Unexpected;

// A node with this text and so much room behind it.
fn node(
    alloc: Global,
    text: &[u8],
    tail: usize,
    mint: &mut Mint,
) -> Result<Chain<'static>, Unexpected> {
    if text.len() > 1000 || tail > 1000 {
        return Err(Unexpected);
    }
    match IoBuf::copy(alloc, text, 0, tail, mint) {
        Ok(node) => Ok(Chain::of(alloc, node)),
        Err(_) => Err(Unexpected),
    }
}

// The second behind the first.
fn join<'a>(first: &mut Chain<'a>, second: Chain<'a>) -> Result<(), Unexpected> {
    if first.length() > 1000 || second.length() > 1000 {
        return Err(Unexpected);
    }
    Appender::new(first, 1)
        .insert(second)
        .map_err(|_| Unexpected)
}

// A chain of a node without data, and then nodes with these.
fn chain_of(alloc: Global, texts: &[&[u8]], mint: &mut Mint) -> Result<Chain<'static>, Unexpected> {
    let mut chain = node(alloc, b"", 0, mint)?;
    for text in texts {
        join(&mut chain, node(alloc, *text, 0, mint)?)?;
    }
    Ok(chain)
}

// Whether the nodes of a chain have these data, in order.
fn shows(chain: &Chain<'_>, texts: &[&[u8]]) -> bool {
    if chain.elements() != texts.len() {
        return false;
    }
    for (i, text) in texts.iter().enumerate() {
        if i >= chain.elements() || chain.node(i).bytes() != *text {
            return false;
        }
    }
    true
}

// Writes into a chain from a place on, and tells how many nodes moved.
fn write<'a>(
    chain: &mut Chain<'a>,
    alloc: Global,
    place: usize,
    bytes: &[u8],
    mint: &mut Mint,
) -> Result<usize, CutFault> {
    let mut cursor = UnshareCursor::new(chain);
    if cursor.skip(place).is_err() {
        return Err(CutFault::NoMemory);
    }
    Ok(cursor.push(alloc, bytes, mint)?.len())
}

// How many nodes of a shared chain move, where a write makes its data these and the clone's stay.
fn moved(
    alloc: Global,
    place: usize,
    bytes: &[u8],
    after: &[&[u8]],
    mint: &mut Mint,
) -> Result<usize, Unexpected> {
    let mut chain = chain_of(alloc, &[b"abc", b"", b"de", b"fg"], mint)?;
    let clone = chain.share_all(alloc, mint).map_err(|_| Unexpected)?;
    let count = write(&mut chain, alloc, place, bytes, mint).map_err(|_| Unexpected)?;
    if shows(&chain, after) && shows(&clone, &[b"", b"abc", b"", b"de", b"fg"]) {
        return Ok(count);
    }
    Err(Unexpected)
}

// Whether three bytes are refused where two are left, and the chain stays.
fn short(alloc: Global, mint: &mut Mint) -> Result<bool, Unexpected> {
    let mut chain = chain_of(alloc, &[b"abc", b"de"], mint)?;
    let refused = match write(&mut chain, alloc, 3, b"XYZ", mint) {
        Err(CutFault::Short { asked, had }) => asked == 3 && had == 2,
        _ => false,
    };
    Ok(refused && shows(&chain, &[b"", b"abc", b"de"]))
}

#[test]
fn writes_show_in_no_clone(rt: HostRuntime) -> Result<(), Fail> {
    let alloc = rt.alloc();
    let mut mint = Mint::new();
    // The place, what is written, what the nodes have then, and how many moved.
    let rows: [(usize, &[u8], &[&[u8]], usize); 6] = [
        (0, b"", &[b"", b"abc", b"", b"de", b"fg"], 0),
        (0, b"Z", &[b"", b"Zbc", b"", b"de", b"fg"], 1),
        (2, b"YZ", &[b"", b"abY", b"", b"Ze", b"fg"], 2),
        (3, b"Z", &[b"", b"abc", b"", b"Ze", b"fg"], 1),
        (4, b"XYZ", &[b"", b"abc", b"", b"dX", b"YZ"], 2),
        (7, b"", &[b"", b"abc", b"", b"de", b"fg"], 0),
    ];
    for &(place, bytes, after, count) in &rows {
        assert_eq!(rt; moved(alloc, place, bytes, after, &mut mint)?, count);
    }
    assert!(rt; short(alloc, &mut mint)?);
    Ok(())
}

// Two numbers are written, the second with the byte that weighs least first; tells how many nodes moved.
fn write_numbers<'a>(
    chain: &mut Chain<'a>,
    alloc: Global,
    mint: &mut Mint,
) -> Result<usize, CutFault> {
    let mut cursor = UnshareCursor::new(chain);
    let first = cursor.write_be(alloc, 258, 2, mint)?.len();
    let second = cursor.write_le(alloc, 258, 2, mint)?.len();
    Ok(first.saturating_add(second))
}

// The same in a chain of which every node is whole, and then as many bytes as there is place for.
fn write_private(alloc: Global, mint: &mut Mint) -> Result<bool, Unexpected> {
    let mut chain = chain_of(alloc, &[b"a", b"bcdefg"], mint)?;
    if chain.is_shared() {
        return Err(Unexpected);
    }
    let mut cursor = PrivateCursor::new(&mut chain);
    let done = cursor.write_be(258, 2).is_ok()
        && cursor.write_le(258, 2).is_ok()
        && cursor.skip(1).is_ok()
        && cursor.push_at_most(b"XYZ") == 2
        && cursor.push(b"Z").is_err();
    Ok(done && shows(&chain, &[b"", b"\x01", b"\x02\x02\x01eXY"]))
}

// The same in a shared chain.
fn write_shared(alloc: Global, mint: &mut Mint) -> Result<bool, Unexpected> {
    let mut chain = chain_of(alloc, &[b"a", b"bcdefg"], mint)?;
    let clone = chain.share_all(alloc, mint).map_err(|_| Unexpected)?;
    let count = write_numbers(&mut chain, alloc, mint).map_err(|_| Unexpected)?;
    Ok(
        count == 2
            && shows(&chain, &[b"", b"\x01", b"\x02\x02\x01efg"])
            && shows(&clone, &[b"", b"a", b"bcdefg"]),
    )
}

#[test]
fn numbers_cross_nodes(rt: HostRuntime) -> Result<(), Fail> {
    let alloc = rt.alloc();
    let mut mint = Mint::new();
    assert!(rt; write_private(alloc, &mut mint)?);
    assert!(rt; write_shared(alloc, &mut mint)?);
    Ok(())
}

// The bytes come last in a chain.
fn push<'a>(
    chain: &mut Chain<'a>,
    alloc: Global,
    bytes: &[u8],
    mint: &mut Mint,
) -> Result<(), Unexpected> {
    if chain.length() > 1000 || bytes.len() > 1000 {
        return Err(Unexpected);
    }
    Appender::new(chain, 3)
        .push(alloc, bytes, mint)
        .map_err(|_| Unexpected)
}

// A number comes last, the byte that weighs least first or last.
fn put<'a>(
    chain: &mut Chain<'a>,
    alloc: Global,
    little: bool,
    size: u8,
    mint: &mut Mint,
) -> Result<(), Unexpected> {
    if chain.length() > 1000 || (size != 2 && size != 4) {
        return Err(Unexpected);
    }
    let mut appender = Appender::new(chain, 1);
    let put = if little {
        appender.write_le(alloc, 258, size, mint)
    } else {
        appender.write_be(alloc, 258, size, mint)
    };
    put.map_err(|_| Unexpected)
}

// Whether bytes, and then numbers, fill the room of the last node before new ones come.
fn filled(alloc: Global, mint: &mut Mint) -> Result<bool, Unexpected> {
    let mut chain = node(alloc, b"a", 2, mint)?;
    push(&mut chain, alloc, b"bcdefgh", mint)?;
    let first = shows(&chain, &[b"abc", b"def", b"gh"]);
    push(&mut chain, alloc, b"i", mint)?;
    put(&mut chain, alloc, false, 2, mint)?;
    put(&mut chain, alloc, true, 4, mint)?;
    Ok(
        first
            && shows(
                &chain,
                &[b"abc", b"def", b"ghi", b"\x01\x02", b"\x02\x01\x00\x00"],
            ),
    )
}

// Room for bytes is made sure of behind a chain.
fn ensure<'a>(
    chain: &mut Chain<'a>,
    alloc: Global,
    n: usize,
    mint: &mut Mint,
) -> Result<(), Unexpected> {
    if chain.length() > 1000 {
        return Err(Unexpected);
    }
    Appender::new(chain, 3)
        .ensure(alloc, n, mint)
        .map_err(|_| Unexpected)
}

// Whether a node comes exactly where the last has no room for so many bytes.
fn ensured(alloc: Global, mint: &mut Mint) -> Result<bool, Unexpected> {
    let mut chain = node(alloc, b"a", 2, mint)?;
    ensure(&mut chain, alloc, 2, mint)?;
    let stays = shows(&chain, &[b"a"]);
    ensure(&mut chain, alloc, 3, mint)?;
    Ok(stays && shows(&chain, &[b"a", b""]))
}

#[test]
fn appends_fill_the_room_first(rt: HostRuntime) -> Result<(), Fail> {
    let alloc = rt.alloc();
    let mut mint = Mint::new();
    assert!(rt; filled(alloc, &mut mint)?);
    assert!(rt; ensured(alloc, &mut mint)?);
    Ok(())
}
