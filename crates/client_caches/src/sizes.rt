//! The confirmed sizes of caches.

ghost use Rattle.std.specs.Prelude.{◌≡◌, option_copied};
ghost use Rattle.caps_sets.specs.Confirmed.{cache_size};
ghost use Rattle.order_means.specs.ClientState.{holds, brush_entries, used};
ghost use Rattle.client_caches.specs.Answers.{Gives};

use crate::ObeyFault;
use caps_sets::CacheSize;

/// The entries of the brush cache, where brushes are confirmed.
const BRUSHES: u16 = 64;

/// A cache without an entry.
const NONE: CacheSize = CacheSize {
    entries: 0,
    cell: 0,
};

/// The size of a cache; past the last there is none.
pub fn size_of(sizes: &[CacheSize], cache: usize) -> CacheSize
    ensures { result ≡ cache_size sizes.now cache }
{
    match sizes.get(cache) {
        Some(size) => *size,
        None => NONE,
    }
}

/// Whether a cache has the entry, and a cell of so many bytes.
pub fn holds(size: CacheSize, index: u16, cell: usize) -> bool
    ensures { result ≡ holds size index cell }
{
    index < size.entries && cell <= usize::from(size.cell)
}

/// The entries of the brush cache.
pub fn brush_entries(confirmed: bool) -> u16
    ensures { result ≡ brush_entries confirmed }
{
    if confirmed { BRUSHES } else { 0 }
}

/// What an entry holds that an order uses.
pub fn used<T>(cache: u8, entries: u16, index: u16, held: Option<&T>) -> Result<&T, ObeyFault>
    ensures { Gives (λ x. x.now) result (used cache entries index (option_copied held.entry)) }
{
    if entries <= index {
        return Err(ObeyFault::Oversized { cache, index });
    }
    match held {
        Some(content) => Ok(content),
        None => Err(ObeyFault::Empty { cache, index }),
    }
}
