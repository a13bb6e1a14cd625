//! The cache's keys in the order of their last use.

ghost use Rattle.std.specs.Prelude.{◌≡◌, ℕ, ◌<◌, ◌≤◌, List, [], ◌∷◌, length, IfOk, IfErr, IsOk, OnErr, OnOk};
ghost use Rattle.lru.specs.LruCache.{last_entry};
ghost use Rattle.cache_plan.specs.CacheUse.{IsMiss};
ghost use Rattle.cache_plan.specs.Answers.{use_of, IsAfterUses};

use crate::{CacheFault, OutOfMemory, Use};
use lru::LruCache;
use std::alloc::Global;
use std::marker::Model;
use std::num::NonZeroUsize;

/// The entries of one cache of a client, by the host's keys.
#[derive(Drop)]
pub struct Cache {
    keys: LruCache<u64, u16>,
}

impl Model for Cache {
    ghost use Rattle.std.specs.Prelude.{ℕ, ◌^◌, ◌<◌};
    ghost use Rattle.cache_plan.specs.Kept.{Kept};

    ghost Value = { Kept };

    ghost view = { λ c. record { entries = c.keys.cap; held = c.keys.entries } };

    ghost invariant = { λ c. (0 < c.keys.cap) × (c.keys.cap < 2 ^ 16) };
}

impl Cache {
    /// A cache of so many entries, none of them filled.
    pub fn new(alloc: Global, entries: u16) -> Result<Cache, CacheFault>
        ensures made { IfOk result (λ c. (c.entries ≡ entries) × IsAfterUses c []) }
        ensures unusable { entries ≡ 0 → result ≡ Err CacheFault.Unusable }
        ensures memory { 0 < entries → IfErr result (λ fault. fault ≡ CacheFault.OutOfMemory) }
    {
        let Some(entries) = NonZeroUsize::new(usize::from(entries)) else {
            return Err(CacheFault::Unusable);
        };
        match LruCache::sparse(alloc, entries) {
            Ok(keys) => Ok(Cache { keys }),
            Err(_) => Err(CacheFault::OutOfMemory),
        }
    }

    /// What a use of a key would answer.
    pub fn peek(&self, key: u64) -> Use
        ensures { (past : List ℕ) → IsAfterUses self.now past → result ≡ use_of self.now.entries past key }
    {
        match self.keys.peek(&key).copied() {
            Some(index) => Use::Hit(index),
            None => Use::Miss(self.miss_index()),
        }
    }

    /// Uses a key: a hit at the index where it is held, or a miss at a new index, or, where all
    /// are taken, at that of the key used longest ago, which is given up.
    ///
    /// A hit takes no memory. After an `Err` the cache is as before.
    pub fn use_key(&mut self, key: u64) -> Result<Use, OutOfMemory>
        ensures answer { IfOk result (λ answer. (past : List ℕ) → IsAfterUses self.old past → answer ≡ use_of self.old.entries past key) }
        ensures after { OnOk result ((past : List ℕ) → IsAfterUses self.old past → IsAfterUses self.new (key ∷ past)) }
        ensures hit { (past : List ℕ) → IsAfterUses self.old past → (IsMiss self.old.entries past key → ⊥) → IsOk result }
        ensures entries { self.new.entries ≡ self.old.entries }
        ensures unchanged { OnErr result (self.new ≡ self.old) }
    {
        if let Some(index) = self.keys.peek(&key).copied() {
            self.keys.promote(&key);
            return Ok(Use::Hit(index));
        }
        let index = self.miss_index();
        match self.keys.put(key, index) {
            Ok(_) => Ok(Use::Miss(index)),
            Err(_) => Err(OutOfMemory),
        }
    }

    /// The index of a miss.
    fn miss_index(&self) -> u16
        ensures room { length self.now.held < self.now.entries → result ≡ length self.now.held }
        ensures full { self.now.entries ≤ length self.now.held → (oldest : ℕ × ℕ) × (last_entry self.now.held ≡ Some oldest) × (result ≡ oldest.1) }
    {
        let held = self.keys.len();
        if held < self.keys.cap().get() {
            held as u16
        } else {
            let (_, index) = self.keys.peek_lru().unwrap();
            *index
        }
    }
}
