//! The fourteen caches of a viewer, as its encoder keeps them: bitmap caches 0 to 2, glyph caches 3 to 12, the brush cache 13 ([MS-RDPEGDI] 2.2.2.2.1.2; which
//! entry a miss takes is profile).
ghost use Rattle.std.specs.Prelude.{◌≡◌, ◌∷◌, [], ◌<◌, IfOk, OnOk};
ghost use Rattle.cache_plan.specs.CacheUse.{uses_of};
ghost use Rattle.cache_plan.specs.Answers.{use_of};
ghost use Rattle.frame_rules.specs.FrameOrders.{Uses, entries_of};
ghost use Rattle.viewer_sender.specs.Stands.{CacheStands, CachesStand};

use crate::OutOfMemory;
use cache_plan::{Cache, CacheFault, Use};
use caps_sets::Confirmed;
use std::alloc::Global;
use std::marker::Model;

/// The most entries of a bitmap cache that are used (profile).
const MOST_BITMAPS: u16 = 512;

/// The most entries of a glyph cache that are used (profile).
const MOST_GLYPHS: u16 = 254;

/// The entries of the brush cache.
const BRUSHES: u16 = 64;

/// The caches by their numbers; one without an entry isn't made.
#[derive(Drop)]
pub(crate) struct Caches {
    caches: Vec<Option<Cache>>,
}

impl Model for Caches {
    ghost use Rattle.std.specs.Prelude.{◌≡◌, List, Option, length};
    ghost use Rattle.cache_plan.specs.Kept.{Kept};

    ghost Value = { List (Option Kept) };

    ghost view = { λ s. s.caches.items };

    ghost invariant = { λ s. length s.caches.items ≡ 14 };
}

impl Caches {
    /// The caches of a new viewer, which hold nothing.
    pub fn new(alloc: Global, confirmed: &Confirmed) -> Result<Caches, OutOfMemory>
        ensures { IfOk result (λ caches. CachesStand confirmed.now caches []) }
    {
        let mut caches = Vec::new(alloc);
        for size in confirmed.bitmaps.sizes() {
            caches.push(made(alloc, size.entries.min(MOST_BITMAPS))?)?;
        }
        for size in confirmed.glyphs.sizes() {
            caches.push(made(alloc, size.entries.min(MOST_GLYPHS))?)?;
        }
        caches.push(made(alloc, BRUSHES)?)?;
        Ok(Caches { caches })
    }

    /// Uses a key of a cache: in one without an entry each use misses, and the order names entry 0.
    pub fn use_key(&mut self, cache: usize, number: u64) -> Result<Use, OutOfMemory>
        requires { cache < 14 }
        ensures answer { IfOk result (λ answer. (c : Confirmed) (uses : Uses) → CachesStand c self.old uses
            → answer ≡ use_of (entries_of c cache) (uses_of cache uses) number) }
        ensures after { OnOk result ((c : Confirmed) (uses : Uses) → CachesStand c self.old uses → CachesStand c self.new ((cache, number) ∷ uses)) }
    {
        let Some(kept) = &mut self.caches[cache] else {
            return Ok(Use::Miss(0));
        };
        kept.use_key(number)
    }
}

/// A cache of so many entries, where that is any.
fn made(alloc: Global, entries: u16) -> Result<Option<Cache>, OutOfMemory>
    ensures { IfOk result (λ cache. CacheStands cache entries []) }
{
    match Cache::new(alloc, entries) {
        Ok(cache) => Ok(Some(cache)),
        Err(CacheFault::Unusable) => Ok(None),
        Err(CacheFault::OutOfMemory) => Err(OutOfMemory),
    }
}
