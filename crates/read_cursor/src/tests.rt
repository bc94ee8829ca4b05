use crate::{Cursor, FindFault, Short};
use iobuf_chain::Chain;
use iobuf_node::IoBuf;
use std::alloc::Global;
use std::test::Fail;

// What a step of a test could not be done with.
#[derive(Debug, Drop)]
struct Unexpected;

type Reader<'c> = Cursor<'c, &'static [u8], storage::NoOwner>;

// Bytes that are read from the fifth on.
const TEXT: &[u8] = &[
    0x11, 0x92, 0x23, 0xa4, 0x81, 0x02, 0xf3, 0x04, 0x95, 0x06, 0x17, 0x88, 0x79, 0x0a, 0x0b, 0xec,
    0x1d, 0x0e, 0xff, 0x10,
];

// A chain of four nodes: the bytes up to the first place, to the second, to the third, and the rest.
fn cut_at(alloc: Global, i: usize, j: usize, k: usize) -> Result<Chain<'static>, Unexpected> {
    let mut chain = part(alloc, 0, i)?;
    for more in [
        part(alloc, i, j)?,
        part(alloc, j, k)?,
        part(alloc, k, TEXT.len())?,
    ] {
        join(&mut chain, more)?;
    }
    Ok(chain)
}

fn part(alloc: Global, from: usize, to: usize) -> Result<Chain<'static>, Unexpected> {
    let bytes = TEXT.get(from..to).ok_or(Unexpected)?;
    Ok(Chain::of(alloc, IoBuf::wrap(bytes)))
}

// The second behind the first.
fn join(first: &mut Chain<'static>, second: Chain<'static>) -> Result<(), Unexpected> {
    if first.length() > 1000 || second.length() > 1000 {
        return Err(Unexpected);
    }
    first.append_chain(second).map_err(|_| Unexpected)
}

fn unsigned_most_first(c: &mut Reader<'_>) -> bool {
    let n8 = u8::from_be_bytes([0x81]);
    let n16 = u16::from_be_bytes([0x81, 0x02]);
    let n32 = u32::from_be_bytes([0x81, 0x02, 0xf3, 0x04]);
    let n64 = u64::from_be_bytes([0x81, 0x02, 0xf3, 0x04, 0x95, 0x06, 0x17, 0x88]);
    let n128 = u128::from_be_bytes([
        0x81, 0x02, 0xf3, 0x04, 0x95, 0x06, 0x17, 0x88, 0x79, 0x0a, 0x0b, 0xec, 0x1d, 0x0e, 0xff,
        0x10,
    ]);
    c.read_u8().is_ok_and(|n| n == n8)
        && c.retreat(1).is_ok()
        && c.read_u16_be().is_ok_and(|n| n == n16)
        && c.retreat(2).is_ok()
        && c.read_u32_be().is_ok_and(|n| n == n32)
        && c.retreat(4).is_ok()
        && c.read_u64_be().is_ok_and(|n| n == n64)
        && c.retreat(8).is_ok()
        && c.read_u128_be().is_ok_and(|n| n == n128)
        && c.retreat(16).is_ok()
}

fn unsigned_least_first(c: &mut Reader<'_>) -> bool {
    let n8 = u8::from_le_bytes([0x81]);
    let n16 = u16::from_le_bytes([0x81, 0x02]);
    let n32 = u32::from_le_bytes([0x81, 0x02, 0xf3, 0x04]);
    let n64 = u64::from_le_bytes([0x81, 0x02, 0xf3, 0x04, 0x95, 0x06, 0x17, 0x88]);
    let n128 = u128::from_le_bytes([
        0x81, 0x02, 0xf3, 0x04, 0x95, 0x06, 0x17, 0x88, 0x79, 0x0a, 0x0b, 0xec, 0x1d, 0x0e, 0xff,
        0x10,
    ]);
    c.read_u8().is_ok_and(|n| n == n8)
        && c.retreat(1).is_ok()
        && c.read_u16_le().is_ok_and(|n| n == n16)
        && c.retreat(2).is_ok()
        && c.read_u32_le().is_ok_and(|n| n == n32)
        && c.retreat(4).is_ok()
        && c.read_u64_le().is_ok_and(|n| n == n64)
        && c.retreat(8).is_ok()
        && c.read_u128_le().is_ok_and(|n| n == n128)
        && c.retreat(16).is_ok()
}

fn signed_most_first(c: &mut Reader<'_>) -> bool {
    let n8 = i8::from_be_bytes([0x81]);
    let n16 = i16::from_be_bytes([0x81, 0x02]);
    let n32 = i32::from_be_bytes([0x81, 0x02, 0xf3, 0x04]);
    let n64 = i64::from_be_bytes([0x81, 0x02, 0xf3, 0x04, 0x95, 0x06, 0x17, 0x88]);
    let n128 = i128::from_be_bytes([
        0x81, 0x02, 0xf3, 0x04, 0x95, 0x06, 0x17, 0x88, 0x79, 0x0a, 0x0b, 0xec, 0x1d, 0x0e, 0xff,
        0x10,
    ]);
    c.read_i8().is_ok_and(|n| n == n8)
        && c.retreat(1).is_ok()
        && c.read_i16_be().is_ok_and(|n| n == n16)
        && c.retreat(2).is_ok()
        && c.read_i32_be().is_ok_and(|n| n == n32)
        && c.retreat(4).is_ok()
        && c.read_i64_be().is_ok_and(|n| n == n64)
        && c.retreat(8).is_ok()
        && c.read_i128_be().is_ok_and(|n| n == n128)
        && c.retreat(16).is_ok()
}

fn signed_least_first(c: &mut Reader<'_>) -> bool {
    let n8 = i8::from_le_bytes([0x81]);
    let n16 = i16::from_le_bytes([0x81, 0x02]);
    let n32 = i32::from_le_bytes([0x81, 0x02, 0xf3, 0x04]);
    let n64 = i64::from_le_bytes([0x81, 0x02, 0xf3, 0x04, 0x95, 0x06, 0x17, 0x88]);
    let n128 = i128::from_le_bytes([
        0x81, 0x02, 0xf3, 0x04, 0x95, 0x06, 0x17, 0x88, 0x79, 0x0a, 0x0b, 0xec, 0x1d, 0x0e, 0xff,
        0x10,
    ]);
    c.read_i8().is_ok_and(|n| n == n8)
        && c.retreat(1).is_ok()
        && c.read_i16_le().is_ok_and(|n| n == n16)
        && c.retreat(2).is_ok()
        && c.read_i32_le().is_ok_and(|n| n == n32)
        && c.retreat(4).is_ok()
        && c.read_i64_le().is_ok_and(|n| n == n64)
        && c.retreat(8).is_ok()
        && c.read_i128_le().is_ok_and(|n| n == n128)
        && c.retreat(16).is_ok()
}

// Whether each number is read from the fifth byte on.
fn reads_all(chain: &Chain<'static>) -> bool {
    let mut c = Cursor::new(chain);
    c.skip(4).is_ok()
        && unsigned_most_first(&mut c)
        && unsigned_least_first(&mut c)
        && signed_most_first(&mut c)
        && signed_least_first(&mut c)
        && c.place() == 4
        && c.left() == 16
}

// How many of the cuts with these first places read wrongly.
fn wrong_behind(alloc: Global, i: usize, j: usize) -> Result<usize, Unexpected> {
    let mut wrong = 0usize;
    for k in j..=TEXT.len() {
        if !reads_all(&cut_at(alloc, i, j, k)?) {
            wrong = wrong.saturating_add(1);
        }
    }
    Ok(wrong)
}

#[test]
fn each_number_over_each_cut(rt: HostRuntime) -> Result<(), Fail> {
    let alloc = rt.alloc();
    for i in 0..=TEXT.len() {
        for j in i..=TEXT.len() {
            assert_eq!(rt; wrong_behind(alloc, i, j)?, 0);
        }
    }
    Ok(())
}

#[test]
fn bytes_across_nodes(rt: HostRuntime) -> Result<(), Fail> {
    let alloc = rt.alloc();
    let chain = cut_at(alloc, 2, 2, 7)?;
    let mut c = Cursor::new(&chain);
    assert_eq!(rt; c.skip_while(&[0x92, 0x11, 0xa4, 0x23]), 4);
    assert_eq!(rt; c.place(), 4);
    let mut few = [0u8; 4];
    assert!(rt; c.pull(&mut few).is_ok());
    assert!(rt; few == [0x81, 0x02, 0xf3, 0x04]);
    assert!(rt; c.retreat(9) == Err(Short { asked: 9, had: 8 }));
    assert!(rt; c.skip(13) == Err(Short { asked: 13, had: 12 }));
    assert!(rt; c.read_u128_be() == Err(Short { asked: 16, had: 12 }));
    let mut before = Vec::new(alloc);
    assert!(rt; c.read_until(0x79, 4, &mut before) == Err(FindFault::NoByte { looked: 4 }));
    assert!(rt; c.read_until(0x79, 5, &mut before).is_ok());
    assert!(rt; before.as_slice() == [0x95, 0x06, 0x17, 0x88].as_slice());
    assert_eq!(rt; c.place(), 13);
    let mut more = [0u8; 9];
    assert_eq!(rt; c.pull_at_most(&mut more), 7);
    assert!(rt; more == [0x0a, 0x0b, 0xec, 0x1d, 0x0e, 0xff, 0x10, 0, 0]);
    assert_eq!(rt; c.skip_at_most(3), 0);
    assert_eq!(rt; c.left(), 0);
    Ok(())
}
