ghost use Rattle.std.specs.Prelude.{◌≡◌, ◌↔◌, ℕ, ◌+◌, ◌-◌, ◌<◌, ◌≤◌, List, [], ◌++◌, true, length, take, drop, min};
ghost use Rattle.std.specs.Prelude.{vec_len, vec_capacity, Contains, Ok, IfOk, IfErr, IsErr, OnErr, MatchResult};
ghost use Rattle.relay_ports.specs.States.{TellsEnd};
ghost use Rattle.relay_ports.specs.Calls.{KeepsBehind};
ghost use Rattle.relay_ports.specs.Memory.{IsFull, new_source, new_sink, source_state, sink_state};
ghost use Rattle.relay_ports.specs.Memory.{after_read, after_failed_read, after_write, after_failed_write};

use crate::failures::Failed;
use crate::sink::Sink;
use crate::source::Source;
use crate::tally::{Faults, one_more};
use std::alloc::Global;
use std::marker::Model;

/// A source over bytes in memory. Contracts see what it gave, what it has left and which of its calls fail.
#[derive(Debug, Drop)]
pub struct MemSource {
    bytes: Vec<u8>,
    at: usize,
    most: usize,
    calls: u64,
    fails: Vec<u64>,
    counts: Faults,
    longest: usize,
}

impl Model for MemSource {
    ghost use Rattle.std.specs.Prelude.{ℕ, ◌≤◌, take, drop, vec_len};
    ghost use Rattle.relay_ports.specs.Memory.{Feeding};

    ghost Value = { Feeding };

    ghost view = { λ s. record {
      given = take s.at s.bytes.items;
      left = drop s.at s.bytes.items;
      most = s.most;
      calls = s.calls;
      fails = s.fails.items;
      faults = s.counts.faults;
      after = s.counts.after;
      longest = s.longest;
    } };

    ghost invariant = { λ s. (s.at ≤ vec_len s.bytes) × (1 ≤ s.most) };
}

impl MemSource {
    /// A source that gives at most `most` bytes a call, and whose calls with a number in `fails`, counted from 0,
    /// fail. It takes no memory.
    pub fn new(bytes: Vec<u8>, most: usize, fails: Vec<u64>) -> MemSource
        requires { 1 ≤ most }
        ensures { result ≡ new_source bytes.items most fails.items }
    {
        MemSource {
            bytes,
            at: 0,
            most,
            calls: 0,
            fails,
            counts: Faults::NONE,
            longest: 0,
        }
    }
}

// Copies `n` bytes from a place on.
fn copy_part(from: &[u8], at: usize, into: &mut [u8], n: usize)
    requires from { at + n ≤ length from.now }
    requires into { n ≤ length into.old }
    ensures copied { take n into.new ≡ take n (drop at from.now) }
    ensures behind { drop n into.new ≡ drop n into.old }
{
    into[..n].copy_from_slice(&from[at..at + n]);
}

impl Source for MemSource {
    ghost state = { source_state };

    #[tactic(auto, using(crate::proofs::Lists::cuts))]
    fn read(&mut self, into: &mut [u8]) -> Result<usize, Failed>
        ensures given { IfOk result (λ n. take n into.new ≡ take n self.old.left) }
        ensures behind { KeepsBehind result into.old into.new }
        ensures ended { IfOk result (λ n. 0 < length into.old → TellsEnd n (source_state self.old)) }
        // Beyond what every source promises: which calls fail, how much the others give, and what each field becomes.
        ensures fails { IsErr result ↔ Contains self.old.fails self.old.calls }
        ensures count { IfOk result (λ n. n ≡ min (min (length into.old) self.old.most) (length self.old.left)) }
        ensures read { IfOk result (λ n. self.new ≡ after_read (length into.old) n self.old) }
        ensures failed { OnErr result (self.new ≡ after_failed_read (length into.old) self.old) }
        ensures kind { IfErr result (λ e. e ≡ Failed.OTHER) }
    {
        let call = self.calls;
        self.calls = one_more(call);
        self.longest = self.longest.max(into.len());
        if self.fails.contains(&call) {
            self.counts.count_failure();
            return Err(Failed::OTHER);
        }
        self.counts.count_call();
        let left = self.bytes.len() - self.at;
        let n = into.len().min(self.most).min(left);
        copy_part(&self.bytes, self.at, into, n);
        self.at += n;
        Ok(n)
    }
}

/// A sink over memory, which takes room for all that it will take when it is made. Contracts see what it took and
/// which of its calls fail.
#[derive(Debug, Drop)]
pub struct MemSink {
    bytes: Vec<u8>,
    stop_at: usize,
    calls: u64,
    fails: Vec<u64>,
    counts: Faults,
}

impl Model for MemSink {
    ghost use Rattle.std.specs.Prelude.{ℕ, ◌≤◌, vec_len, vec_capacity};
    ghost use Rattle.relay_ports.specs.Memory.{Filling};

    ghost Value = { Filling };

    ghost view = { λ s. record {
      written = s.bytes.items;
      stop_at = s.stop_at;
      calls = s.calls;
      fails = s.fails.items;
      faults = s.counts.faults;
      after = s.counts.after;
    } };

    ghost invariant = { λ s. (vec_len s.bytes ≤ s.stop_at) × (s.stop_at ≤ vec_capacity s.bytes) };
}

impl MemSink {
    /// A sink that takes `stop_at` bytes in all, and whose calls with a number in `fails` fail. Its calls with pieces
    /// that aren't empty are counted from 0. It takes room for `stop_at` bytes; where memory is refused the numbers
    /// are handed back.
    pub fn new(alloc: Global, stop_at: usize, fails: Vec<u64>) -> Result<MemSink, Vec<u64>>
        ensures { MatchResult result (λ s. s ≡ new_sink stop_at fails.items) (λ f. f.items ≡ fails.items) }
    {
        let mut bytes = Vec::new(alloc);
        if bytes.reserve(stop_at).is_err() {
            return Err(fails);
        }
        Ok(MemSink {
            bytes,
            stop_at,
            calls: 0,
            fails,
            counts: Faults::NONE,
        })
    }

    /// A sink that takes nothing. It takes no memory.
    pub fn closed(alloc: Global) -> MemSink
        ensures { result ≡ new_sink 0 [] }
    {
        MemSink {
            bytes: Vec::new(alloc),
            stop_at: 0,
            calls: 0,
            fails: Vec::new(alloc),
            counts: Faults::NONE,
        }
    }

    // Whether the next call with a piece that isn't empty fails.
    fn is_full(&self) -> bool
        ensures { (result ≡ true) ↔ IsFull self.now }
    {
        self.bytes.len() == self.stop_at || self.fails.contains(&self.calls)
    }

    /// What was written.
    pub fn bytes(&self) -> &[u8]
        ensures { result.now ≡ self.now.written }
    {
        &self.bytes
    }
}

// Adds bytes for which there is room.
fn add_part(to: &mut Vec<u8>, from: &[u8])
    requires { vec_len to.old + length from.now ≤ vec_capacity to.old }
    ensures items { to.new.items ≡ to.old.items ++ from.now }
    ensures room { vec_capacity to.new ≡ vec_capacity to.old }
{
    for x in from {
        to.push_reserved(*x);
    }
}

impl Sink for MemSink {
    ghost state = { sink_state };

    fn write(&mut self, piece: &[u8]) -> Result<usize, Failed>
        // Beyond what every sink promises: which calls fail, how much the others take, and what each field becomes.
        ensures fails { IsErr result ↔ ((0 < length piece.now) × IsFull self.old) }
        ensures count { IfOk result (λ n. n ≡ min (length piece.now) (self.old.stop_at - length self.old.written)) }
        ensures empty { length piece.now ≡ 0 → (result ≡ Ok 0) × (self.new ≡ self.old) }
        ensures written { IfOk result (λ n. 0 < n → self.new ≡ after_write (take n piece.now) self.old) }
        ensures failed { OnErr result (self.new ≡ after_failed_write self.old) }
        ensures kind { IfErr result (λ e. e ≡ Failed.OTHER) }
    {
        if piece.is_empty() {
            return Ok(0);
        }
        let full = self.is_full();
        self.calls = one_more(self.calls);
        if full {
            self.counts.count_failure();
            return Err(Failed::OTHER);
        }
        self.counts.count_call();
        let n = piece.len().min(self.stop_at - self.bytes.len());
        add_part(&mut self.bytes, &piece[..n]);
        Ok(n)
    }
}
