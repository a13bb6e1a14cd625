//! Which cache serves: the lowest-numbered one that has what is needed (profile).
ghost use Rattle.std.specs.Prelude.{◌≡◌, ◌≤◌, length};
ghost use Rattle.caps_sets.specs.Confirmed.{first_cache};
ghost use Rattle.frame_plan.specs.Needs.{serves};

use caps_sets::CacheSize;

/// The bytes in which cells are counted here.
const WORD: u16 = 4;

/// What a cache must have.
#[derive(Clone, Copy)]
pub(crate) struct Needs {
    /// So many used entries.
    pub entries: usize,
    /// The most entries of a cache that are used.
    pub most: usize,
    /// A cell of so many times four bytes.
    pub words: usize,
}

/// Whether a cache of this size has what is needed.
fn serves(needs: Needs, size: CacheSize) -> bool
    ensures { result ≡ serves needs size }
{
    needs.entries <= usize::from(size.entries).min(needs.most)
        && needs.words <= usize::from(size.cell / WORD)
}

/// The number of the first cache that has what is needed.
pub(crate) fn first_cache(sizes: &[CacheSize], needs: Needs) -> Option<u8>
    requires { length sizes.now ≤ 10 }
    ensures { result ≡ first_cache (serves needs) sizes.now }
{
    for cache in 0..sizes.len() {
        if serves(needs, sizes[cache]) {
            return Some(cache as u8);
        }
    }
    None
}
