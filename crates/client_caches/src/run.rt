//! A run of cached glyphs: pairs of an index and a delta, a byte each.

ghost use Rattle.std.specs.Prelude.{◌≡◌, ◌<◌, is_some, true};
ghost use Rattle.order_means.specs.ClientState.{ClientState, pairs_of, glyph_used};
ghost use Rattle.client_caches.specs.Answers.{Gives};
ghost use Rattle.client_caches.specs.Caches.{with_caches};
ghost use Rattle.client_caches.specs.Runs.{run_used};

use crate::{ClientCaches, ObeyFault};
use caps_sets::Confirmed;

/// Indices of glyphs are below this.
const END_OF_INDICES: u8 = 254;

/// Deltas are below this: they have one byte.
const END_OF_DELTAS: u8 = 128;

/// Whether the bytes of a run are pairs of an index and a delta.
fn is_run(run: &[u8]) -> bool
    ensures { result ≡ is_some (pairs_of run.now) }
{
    match run {
        [] => true,
        [_] => false,
        [index, delta, rest @ ..] => {
            *index < END_OF_INDICES && *delta < END_OF_DELTAS && is_run(rest)
        }
    }
}

/// Whether a cache holds each glyph of a run's bytes, which are pairs.
fn check_pairs(
    caches: &ClientCaches,
    confirmed: &Confirmed,
    cache: u8,
    run: &[u8],
) -> Result<(), ObeyFault>
    requires cache { cache < 10 }
    requires pairs { is_some (pairs_of run.now) ≡ true }
    ensures { (c : ClientState) → Gives (λ done. done) result (run_used (glyph_used confirmed.now (with_caches c caches.now) cache) (pairs_of run.now)) }
{
    match run {
        [index, _, rest @ ..] => {
            caches.glyph_used(confirmed, cache, u16::from(*index))?;
            check_pairs(caches, confirmed, cache, rest)
        }
        _ => Ok(()),
    }
}

/// Whether the bytes of a run are pairs, and a cache holds each of its glyphs.
pub fn check_run(
    caches: &ClientCaches,
    confirmed: &Confirmed,
    cache: u8,
    run: &[u8],
) -> Result<(), ObeyFault>
    requires { cache < 10 }
    ensures { (c : ClientState) → Gives (λ done. done) result (run_used (glyph_used confirmed.now (with_caches c caches.now) cache) (pairs_of run.now)) }
{
    if !is_run(run) {
        return Err(ObeyFault::Broken);
    }
    check_pairs(caches, confirmed, cache, run)
}
