//! The pool: what keys there are, and how a hub is lent, made and taken out.
ghost use Rattle.std.specs.Prelude.{◌≡◌, Some, IsOk, IsSome, IfOk, OnOk, OnErr};
ghost use Rattle.std.specs.FinMap as map;
ghost use Rattle.broadcast_pool.specs.Pools.{hub_or_new, is_open};

use broadcast_hub::Hub;
use std::alloc::{AllocError, Global};
use std::collections::BTreeMap;
use std::marker::Model;
use std::mem::swap;

/// Hubs by their keys. Contracts see a finite map from the bytes of a key to its hub.
///
/// Each call compares keys: O(m log n), for n keys of up to m bytes.
#[derive(Drop)]
pub struct Pool {
    hubs: BTreeMap<String, Hub>,
    alloc: Global,
}

impl Model for Pool {
    ghost use Rattle.std.specs.Coded.{codes, coded_list, coded_ℕ};
    ghost use Rattle.std.specs.FinMap as map;
    ghost use Rattle.broadcast_hub.specs.contracts.hub.Hub as hub;
    ghost use Rattle.broadcast_pool.specs.Pools.{Pooled, by_bytes};

    ghost Value = { Pooled };

    ghost coded = { map.code (coded_list coded_ℕ) (hub.the_row.coded) };

    ghost view = { λ p. by_bytes p.hubs };
}

impl Pool {
    /// A pool with no hub. It takes no memory.
    pub fn new(alloc: Global) -> Pool
        ensures { result ≡ map.empty }
    {
        Pool {
            hubs: BTreeMap::new(alloc),
            alloc,
        }
    }

    /// Makes a hub for a key that has none, and changes nothing where the key has one. The error is want of memory: it
    /// comes only where there is none, and then nothing changes.
    pub fn open(&mut self, key: &str) -> Result<(), AllocError>
        ensures made { OnOk result (self.new ≡ map.insert self.old key.now (hub_or_new (map.get self.old key.now))) }
        ensures there { OnOk result (IsSome (map.get self.new key.now)) }
        ensures err { OnErr result (self.new ≡ self.old) }
        ensures succeeds { IsSome (map.get self.old key.now) → IsOk result }
    {
        if self.hubs.contains_key(key) {
            return Ok(());
        }
        let name = String::from_str(self.alloc, key)?;
        self.hubs.insert(name, Hub::new(self.alloc))?;
        Ok(())
    }

    /// Lends the one hub of a key, opened where there is none: the errors are those of `open`. The contract says what
    /// hub is lent; what the pool is after the loan isn't said.
    pub fn get(&mut self, key: &str) -> Result<&mut Hub, AllocError>
        ensures value { IfOk result (λ hub. hub.now ≡ hub_or_new (map.get self.old key.now)) }
        ensures succeeds { IsSome (map.get self.old key.now) → IsOk result }
    {
        self.open(key)?;
        match self.hubs.get_mut(key) {
            Some(hub) => Ok(hub),
            None => unreachable!(),
        }
    }

    /// Swaps a hub with the one that a key has. No memory.
    pub fn exchange(&mut self, key: &str, hub: &mut Hub)
        requires { IsSome (map.get self.old key.now) }
        ensures taken { map.get self.old key.now ≡ Some hub.new }
        ensures put { self.new ≡ map.insert self.old key.now hub.old }
    {
        match self.hubs.get_mut(key) {
            Some(kept) => swap(kept, hub),
            None => unreachable!(),
        }
    }

    /// Whether a key has a hub that isn't closed.
    pub fn is_broadcasting(&self, key: &str) -> bool
        ensures { result ≡ is_open (map.get self.now key.now) }
    {
        match self.hubs.get(key) {
            Some(hub) => hub.closed().is_none(),
            None => false,
        }
    }

    /// Takes the hub of a key out, if there is one. No memory.
    pub fn retire(&mut self, key: &str) -> Option<Hub>
        ensures value { result ≡ map.get self.old key.now }
        ensures rest { self.new ≡ map.remove self.old key.now }
    {
        self.hubs.remove(key)
    }
}
