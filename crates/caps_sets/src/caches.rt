//! The sizes of a viewer's caches of one kind, the first cache first: three for bitmaps ([MS-RDPBCGR] 2.2.7.1.4.1), ten for glyphs
//! (2.2.7.1.8).
#![tactic(auto)]

ghost use Rattle.std.specs.Prelude.{◌≡◌, ◌<◌, length, slice_set};

use crate::CacheSize;
use std::marker::Model;

/// How many bitmap caches there are (revision 1).
pub const BITMAP_CACHES: usize = 3;

/// How many glyph caches there are.
pub const GLYPH_CACHES: usize = 10;

/// The sizes of the three bitmap caches.
pub type Caches3 = Caches<BITMAP_CACHES>;

/// The sizes of the ten glyph caches.
pub type Caches10 = Caches<GLYPH_CACHES>;

/// The sizes of `N` caches.
#[derive(Clone, Copy, PartialEq, Eq)]
pub struct Caches<const N: usize> {
    sizes: [CacheSize; N],
}

impl<const N: usize> Model for Caches<N> {
    ghost use Rattle.std.specs.Prelude.{List};
    ghost use Rattle.caps_sets.specs.declared.cache_size.CacheSize.{CacheSize};

    ghost Value = { List CacheSize };

    ghost view = { λ c. c.sizes };

    ghost inverse = { λ v. record { sizes = v } };
}

impl<const N: usize> Caches<N> {
    /// The sizes of the caches, from cache 0 on.
    pub fn new(sizes: [CacheSize; N]) -> Caches<N>
        ensures { result ≡ sizes.entry }
    {
        Caches { sizes }
    }

    /// The sizes, the first cache first.
    pub fn sizes(&self) -> &[CacheSize]
        ensures value { result.now ≡ self.now }
        ensures number { length result.now ≡ N }
    {
        &self.sizes
    }

    /// Gives one cache another size.
    pub fn set(&mut self, cache: usize, size: CacheSize)
        requires { cache < N }
        ensures { self.new ≡ slice_set self.old cache size }
    {
        self.sizes[cache] = size;
    }
}
