ghost use Rattle.std.specs.Prelude.{◌≡◌, OnOk};

use crate::codecs::{BYTE, Field, by_field, lines};
use crate::rig::Rig;
use any_scanner::AnyScanner;
use frame_head::{LineEnd, check};
use frame_length::LengthScanner;
use frame_line::LineScanner;
use frame_rule::{Decoder, FrameUnit, Framer};
use iobuf_chain::{Chain, Frame};
use iobuf_node::IoBuf;
use relay_ports::Lent;
use share_count::Mint;
use std::alloc::Global;
use std::process::Abort;
use std::test::Fail;
use storage::{Back, Receipt, Returns};

// All weight of a storage, and the part of it that a share gets while there is much of it.
const ALL: u64 = 1 << 62;

const PART: u64 = 1 << 40;

// A piece of one node on a lent block.
fn lent_piece(alloc: Global, bytes: &[u8], mint: &mut Mint) -> Result<Frame, Fail> {
    let bytes = Vec::from_slice(alloc, bytes)?;
    let used = bytes.len();
    let Ok(node) = IoBuf::from_lent(alloc, Lent { number: 7, bytes }, used, mint) else {
        return Err(Fail::from("no memory"));
    };
    Ok(Chain::of(alloc, node))
}

// Feeds pieces of one node each, on lent blocks.
fn feed_lent<D: Decoder>(alloc: Global, rig: &mut Rig<D>, pieces: &[&[u8]]) -> Result<(), Fail>
    requires { (D.state rig.old.decoder).fed ≡ rig.old.fed }
    ensures { OnOk result ((D.state rig.new.decoder).fed ≡ rig.new.fed) }
{
    'pieces: for bytes in pieces {
        let piece = lent_piece(alloc, bytes, &mut rig.mint)?;
        rig.feed(alloc, piece)?;
    }
    Ok(())
}

// A unit that is a frame of one node on this storage: the node's weight.
fn weight_of(unit: &FrameUnit, number: Option<u64>) -> Option<u64> {
    let FrameUnit::Frame { chain, .. } = unit else {
        return None;
    };
    if chain.elements() != 1 || chain.node(0).number() != number {
        return None;
    }
    Some(chain.node(0).weight())
}

// Each frame of a block is one node on the block's storage. Each but the last has a part of the weight, and so has the
// field before the last, which is handed back. The last has all that is left, since it takes the block's own node.
#[test]
fn a_frame_in_one_block_is_one_node(rt: HostRuntime) -> Result<(), Fail> {
    let alloc = rt.alloc();
    let rows: [(&[u8], &[u64]); 3] = [
        (b"\x03abc\x01x\x02yz", &[PART, PART, ALL - 3 * PART]),
        (b"\x03abc", &[ALL - PART]),
        (b"\x00\x00\x01x", &[PART, PART, ALL - 3 * PART]),
    ];
    for (bytes, weights) in rows {
        let codec = by_field(BYTE);
        assert!(rt; check(&codec).is_ok());
        let mut rig = Rig::new(alloc, Framer::<LengthScanner>::new(codec));
        let piece = lent_piece(alloc, bytes, &mut rig.mint)?;
        let number = piece.node(0).number();
        assert!(rt; number.is_some());
        assert!(rt; rig.feed(alloc, piece)?);
        assert_eq!(rt; rig.haul.units.len(), weights.len());
        for (unit, weight) in rig.haul.units.iter().zip(weights) {
            assert_eq!(rt; weight_of(unit, number), Some(*weight));
        }
    }
    Ok(())
}

// Frames whose stripped bytes lie in nodes of their own are one node all the same. One without bytes has no storage.
#[test]
fn emptied_nodes_leave_a_frame(rt: HostRuntime) -> Result<(), Fail> {
    let alloc = rt.alloc();
    let rows: [(&[&[u8]], &[usize]); 5] = [
        (&[b"\x03", b"abc"], &[1]),
        (&[b"\x03", b"a", b"bc\x01", b"d"], &[2, 1]),
        (&[b"\x00"], &[1]),
        (&[b"\x00\x00", b"\x01", b"a"], &[1, 1, 1]),
        (&[b"\x02a", b"b\x02", b"cd\x00"], &[2, 1, 1]),
    ];
    for (pieces, nodes) in rows {
        let codec = by_field(BYTE);
        assert!(rt; check(&codec).is_ok());
        let mut rig = Rig::new(alloc, Framer::<LengthScanner>::new(codec));
        feed_lent(alloc, &mut rig, pieces)?;
        have_nodes(&rt, &rig.haul.units, nodes)?;
    }
    let endings: [(&[&[u8]], &[usize]); 4] = [
        (&[b"ab\r", b"\n"], &[1]),
        (&[b"ab", b"\r", b"\n"], &[1]),
        (&[b"a", b"b\r", b"\nc", b"\n"], &[2, 1]),
        (&[b"\r", b"\n", b"\n"], &[1, 1]),
    ];
    for (pieces, nodes) in endings {
        let codec = lines(LineEnd::Any, true, 9);
        assert!(rt; check(&codec).is_ok());
        let mut rig = Rig::new(alloc, Framer::<LineScanner>::new(codec));
        feed_lent(alloc, &mut rig, pieces)?;
        have_nodes(&rt, &rig.haul.units, nodes)?;
    }
    Ok(())
}

// How many nodes each of these frames has.
fn have_nodes(rt: &impl Abort, units: &[FrameUnit], nodes: &[usize]) -> Result<(), Fail> {
    assert_eq!(rt; units.len(), nodes.len());
    for (unit, count) in units.iter().zip(nodes) {
        match unit {
            FrameUnit::Frame { chain, .. } => assert_eq!(rt; chain.elements(), *count),
            FrameUnit::Fault { .. } => return Err(Fail::from("a fault")),
        }
    }
    Ok(())
}

// What was handed back of a storage: the weight in all, how many were its last, and how often its block came back.
#[derive(Clone, Copy, Debug, PartialEq, Eq)]
struct Handed {
    weight: u64,
    lasts: u64,
    blocks: u64,
}

const NOTHING: Handed = Handed {
    weight: 0,
    lasts: 0,
    blocks: 0,
};

const EVERYTHING: Handed = Handed {
    weight: ALL,
    lasts: 1,
    blocks: 1,
};

// Adds what was handed back to the accounts of the storages, by their numbers.
fn settle(mut backs: Returns, accounts: &mut [Handed]) {
    for _ in 0..backs.len() {
        if let Some(back) = backs.pop() {
            settle_one(back, accounts);
        }
    }
}

fn settle_one(back: Back, accounts: &mut [Handed]) {
    let block = matches!(back, Back::Lent(..));
    if let Some(receipt) = back.receipt() {
        add(&receipt, block, accounts);
    }
}

fn add(receipt: &Receipt, block: bool, accounts: &mut [Handed]) {
    let at = receipt.number() as usize;
    if at < accounts.len() {
        let account = &mut accounts[at];
        account.weight = account.weight.saturating_add(receipt.weight());
        account.lasts = account.lasts.saturating_add(receipt.lasts());
        account.blocks = account.blocks.saturating_add(block as u64);
    }
}

// Gives back all that a decoder found, was handed and keeps.
fn settle_all<D: Decoder>(rig: Rig<D>, accounts: &mut [Handed]) {
    let Rig {
        mut decoder,
        haul,
        ..
    } = rig;
    for unit in haul.units {
        if let FrameUnit::Frame { chain, .. } = unit {
            settle(chain.give_back(), accounts);
        }
    }
    for backs in haul.back {
        settle(backs, accounts);
    }
    if let Some(backs) = decoder.give_back() {
        settle(backs, accounts);
    }
}

// All weight of each block comes back, and the block itself once, with the last of it: whether the
// stream is ended or not.
#[test]
fn every_block_comes_back_once(rt: HostRuntime) -> Result<(), Fail> {
    let rows: [&[&[u8]]; 7] = [
        &[b"\x03abc\x01x\x02yz"],
        &[b"\x03abc\x01", b"x\x04", b"yz", b"", b"yz\x00\x00"],
        &[b"\x03", b"abc", b"\x00"],
        &[b"", b"\x05abc", b"", b"d"],
        &[b"\x09abcdefgh", b"i\x01j\x09", b"abc"],
        &[b"\x01a\x08bcdefgh", b"i\x08bcdefg"],
        &[b"\x00", b"", b""],
    ];
    for pieces in rows {
        come_back(&rt, rt.alloc(), pieces, false)?;
        come_back(&rt, rt.alloc(), pieces, true)?;
    }
    Ok(())
}

// At most six blocks come back.
fn come_back(rt: &impl Abort, alloc: Global, pieces: &[&[u8]], ended: bool) -> Result<(), Fail> {
    let codec = by_field(Field { max: 6, ..BYTE });
    assert!(rt; check(&codec).is_ok());
    let mut rig = Rig::new(alloc, Framer::<AnyScanner>::new(codec));
    feed_lent(alloc, &mut rig, pieces)?;
    if ended {
        rig.end()?;
    }
    let mut accounts = [NOTHING; 6];
    settle_all(rig, &mut accounts);
    for (i, account) in accounts.iter().enumerate() {
        let back = i < pieces.len();
        assert_eq!(rt;
            *account,
            if back { EVERYTHING } else { NOTHING },
            "storage {i}"
        );
    }
    Ok(())
}
