//! How far a stream was scanned, and what the nodes come to that are scanned next.
ghost use Rattle.std.specs.Prelude.{◌≡◌, ◌+◌, ◌-◌, ◌≤◌, ◌<◌, ◌^◌, true, false, min, IfOk, OnOk, OnErr, length, take, drop, slice_get};
ghost use Rattle.std.specs.Option.{ForSome};
ghost use Rattle.buffer_model.specs.Segment.{bytes_of};
ghost use Rattle.frame_head.specs.Heads.{FrameAt, FaultAt};
ghost use Rattle.frame_rule.specs.Scanning.{inner};
ghost use Rattle.frame_rule.specs.Framing.{Advances, Passes, Stands, Stops, kept_size};
ghost use Rattle.frame_rule.specs.Hauls.{CutsNodes, Moves};
ghost use Rattle.frame_rule.specs.Units.{Gives};

use crate::cuts::{drop_front, give_frame};
use crate::haul::Haul;
use crate::scanner::{Scan, Scanner};
use crate::unit::FrameUnit;
use frame_head::FaultKind;
use iobuf_chain::Frame;
use share_count::Mint;
use std::alloc::{AllocError, Global};

/// How far a stream was scanned: its scanner, how many bytes were taken, how many of them are an open unit, whether
/// these are lost since no frame can come of them, and how many of the next bytes are skipped.
#[derive(Drop)]
pub(crate) struct Progress<S: Scanner> {
    pub(crate) scanner: S,
    pub(crate) fed: u64,
    pub(crate) unread: u64,
    pub(crate) lost: bool,
    pub(crate) skip: u128,
}

impl<S: Scanner> Progress<S> {
    // Passes over all nodes of a chain of which the first are the open unit. Those that stay are the open unit then.
    pub(crate) fn pass_all(
        &mut self,
        alloc: Global,
        chain: &mut Frame,
        first: usize,
        haul: &mut Haul,
        mint: &mut Mint,
    ) -> Result<(), AllocError>
        requires there { first ≤ length chain.old }
        requires stands { Stands S.codec_of S.saw self.old (take first chain.old) }
        requires room { self.old.fed + length (bytes_of (drop first chain.old)) < 2 ^ 62 }
        ensures passed { OnOk result (Passes S.codec_of S.saw self.old self.new first (length chain.new)
            chain.old chain.new haul.old.units.items haul.new.units.items) }
        ensures stops { OnErr result (Stops S.codec_of S.saw self.old self.new first chain.old
            haul.old.units.items haul.new.units.items) }
        ensures moves { Moves mint.old mint.new chain.old chain.new haul.old haul.new }
        ensures nodes { OnOk result
            (CutsNodes chain.old chain.new haul.old.units.items haul.new.units.items) }
    {
        let mut i = with_data(chain, first);
        'nodes: while i < chain.elements() {
            let j = self.pass(alloc, chain, i, haul, mint)?;
            i = with_data(chain, j);
        }
        Ok(())
    }

    // Passes over node i, which has data, or over its first bytes. Answers how many nodes the open unit has then.
    fn pass(
        &mut self,
        alloc: Global,
        chain: &mut Frame,
        i: usize,
        haul: &mut Haul,
        mint: &mut Mint,
    ) -> Result<usize, AllocError>
        requires there { i < length chain.old }
        requires count { length chain.old < 2 ^ 64 }
        requires data { ForSome (slice_get chain.old i) (λ s. 0 < length s.window) }
        requires stands { Stands S.codec_of S.saw self.old (take i chain.old) }
        requires room { self.old.fed + length (bytes_of (drop i chain.old)) < 2 ^ 62 }
        ensures passed { IfOk result (λ j. Advances S.codec_of S.saw self.old self.new i j
            chain.old chain.new haul.old.units.items haul.new.units.items) }
        ensures refused { OnErr result (haul.new.units.items ≡ haul.old.units.items) }
        ensures codec { S.codec_of self.new.scanner ≡ S.codec_of self.old.scanner }
        ensures moves { Moves mint.old mint.new chain.old chain.new haul.old haul.new }
        ensures nodes { OnOk result
            (CutsNodes chain.old chain.new haul.old.units.items haul.new.units.items) }
    {
        let bytes = chain.node(i).bytes();
        let len = bytes.len();
        if self.skip > 0 {
            let n = least(self.skip, len);
            self.leave(alloc, chain, n, haul, mint)?;
            self.skip -= n as u128;
            return Ok(0);
        }
        match self.scanner.scan(self.unread as usize, bytes) {
            Scan::Open => {
                if self.lost {
                    self.lose(alloc, chain, len, haul, mint)?;
                    return Ok(0);
                }
                self.unread += len as u64;
                self.fed += len as u64;
                Ok(i + 1)
            }
            Scan::Hopeless => {
                self.lose(alloc, chain, len, haul, mint)?;
                Ok(0)
            }
            Scan::Frame { used, front, back } => {
                self.give(alloc, chain, used, (front, back), haul, mint)?;
                Ok(0)
            }
            Scan::Fault { kind, used, over } => {
                self.refuse(alloc, chain, used, kind, haul, mint)?;
                self.skip = over;
                Ok(0)
            }
        }
    }

    // How many bytes of the open unit are kept.
    fn kept(&self) -> usize
        ensures { result ≡ kept_size self.now }
    {
        if self.lost { 0 } else { self.unread as usize }
    }

    // What is kept of the open unit and the n bytes behind it leave, and are given back.
    fn leave(
        &mut self,
        alloc: Global,
        chain: &mut Frame,
        n: usize,
        haul: &mut Haul,
        mint: &mut Mint,
    ) -> Result<(), AllocError>
        requires there { kept_size self.old + n ≤ length (bytes_of chain.old) }
        requires room { self.old.fed + n < 2 ^ 62 }
        ensures rest { OnOk result (bytes_of chain.new ≡ drop (kept_size self.old + n) (bytes_of chain.old)) }
        ensures progress { OnOk result (self.new ≡ record self.old { fed = self.old.fed + n }) }
        ensures stays { OnErr result (self.new ≡ self.old) }
        ensures units { haul.new.units ≡ haul.old.units }
        ensures moves { Moves mint.old mint.new chain.old chain.new haul.old haul.new }
        ensures nodes { OnOk result
            (CutsNodes chain.old chain.new haul.old.units.items haul.new.units.items) }
    {
        let _all = chain.length();
        drop_front(chain, alloc, self.kept() + n, haul, mint)?;
        self.fed += n as u64;
        Ok(())
    }

    // The n bytes behind the open unit are open too, and no frame comes of them: none of its bytes stays.
    fn lose(
        &mut self,
        alloc: Global,
        chain: &mut Frame,
        n: usize,
        haul: &mut Haul,
        mint: &mut Mint,
    ) -> Result<(), AllocError>
        requires there { kept_size self.old + n ≤ length (bytes_of chain.old) }
        requires within { self.old.unread ≤ self.old.fed }
        requires room { self.old.fed + n < 2 ^ 62 }
        ensures rest { OnOk result (bytes_of chain.new ≡ drop (kept_size self.old + n) (bytes_of chain.old)) }
        ensures progress { OnOk result (self.new
            ≡ record self.old { fed = self.old.fed + n; unread = self.old.unread + n; lost = true }) }
        ensures stays { OnErr result (self.new ≡ self.old) }
        ensures units { haul.new.units ≡ haul.old.units }
        ensures moves { Moves mint.old mint.new chain.old chain.new haul.old haul.new }
        ensures nodes { OnOk result
            (CutsNodes chain.old chain.new haul.old.units.items haul.new.units.items) }
    {
        self.leave(alloc, chain, n, haul, mint)?;
        self.unread += n as u64;
        self.lost = true;
        Ok(())
    }

    // The open unit and the next bytes leave, and are a frame without its first and its last bytes.
    fn give(
        &mut self,
        alloc: Global,
        chain: &mut Frame,
        used: usize,
        edges: (usize, usize),
        haul: &mut Haul,
        mint: &mut Mint,
    ) -> Result<(), AllocError>
        requires within { self.old.unread ≤ self.old.fed }
        requires there { self.old.unread + used ≤ length (bytes_of chain.old) }
        requires edges { edges.0 + edges.1 ≤ self.old.unread + used }
        requires room { self.old.fed + used < 2 ^ 62 }
        ensures rest { OnOk result (bytes_of chain.new ≡ drop (self.old.unread + used) (bytes_of chain.old)) }
        ensures unit { OnOk result (Gives (FrameAt (self.old.fed - self.old.unread)
            (inner edges.0 edges.1 (take (self.old.unread + used) (bytes_of chain.old))))
            haul.old.units.items haul.new.units.items) }
        ensures progress { OnOk result (self.new ≡ record self.old { fed = self.old.fed + used; unread = 0 }) }
        ensures stays { OnErr result (self.new ≡ self.old) }
        ensures refused { OnErr result (haul.new.units.items ≡ haul.old.units.items) }
        ensures moves { Moves mint.old mint.new chain.old chain.new haul.old haul.new }
        ensures nodes { OnOk result
            (CutsNodes chain.old chain.new haul.old.units.items haul.new.units.items) }
    {
        let at = self.fed - self.unread;
        let size = self.unread as usize + used;
        give_frame(chain, alloc, size, edges, at, haul, mint)?;
        self.fed += used as u64;
        self.unread = 0;
        Ok(())
    }

    // The open unit and the next bytes leave, and are a fault.
    fn refuse(
        &mut self,
        alloc: Global,
        chain: &mut Frame,
        used: usize,
        kind: FaultKind,
        haul: &mut Haul,
        mint: &mut Mint,
    ) -> Result<(), AllocError>
        requires within { self.old.unread ≤ self.old.fed }
        requires there { kept_size self.old + used ≤ length (bytes_of chain.old) }
        requires room { self.old.fed + used < 2 ^ 62 }
        ensures rest { OnOk result (bytes_of chain.new ≡ drop (kept_size self.old + used) (bytes_of chain.old)) }
        ensures unit { OnOk result (Gives (FaultAt (self.old.fed - self.old.unread) kind)
            haul.old.units.items haul.new.units.items) }
        ensures progress { OnOk result (self.new
            ≡ record self.old { fed = self.old.fed + used; unread = 0; lost = false }) }
        ensures stays { OnErr result (self.new ≡ self.old) }
        ensures refused { OnErr result (haul.new.units.items ≡ haul.old.units.items) }
        ensures moves { Moves mint.old mint.new chain.old chain.new haul.old haul.new }
        ensures nodes { OnOk result
            (CutsNodes chain.old chain.new haul.old.units.items haul.new.units.items) }
    {
        let at = self.fed - self.unread;
        haul.units.reserve(1)?;
        self.leave(alloc, chain, used, haul, mint)?;
        haul.units.push_reserved(FrameUnit::Fault { at, kind });
        self.unread = 0;
        self.lost = false;
        Ok(())
    }
}

// The first node with data from node i on, or the number of nodes.
fn with_data(chain: &Frame, i: usize) -> usize
    requires { i ≤ length chain.now }
    ensures within { (i ≤ result) × (result ≤ length chain.now) }
    ensures none { bytes_of (take result chain.now) ≡ bytes_of (take i chain.now) }
    ensures rest { bytes_of (drop result chain.now) ≡ bytes_of (drop i chain.now) }
    ensures data { result < length chain.now → ForSome (slice_get chain.now result) (λ s. 0 < length s.window) }
{
    let nodes = chain.elements();
    // Nearly always it is the first node, which lies apart from the others.
    if i == 0 && chain.node(0).length() > 0 {
        return 0;
    }
    let mut i = i;
    'empties: while i < nodes {
        if chain.node(i).length() > 0 {
            return i;
        }
        i += 1;
    }
    i
}

fn least(a: u128, b: usize) -> usize
    ensures { result ≡ min a b }
{
    if a < b as u128 { a as usize } else { b }
}
