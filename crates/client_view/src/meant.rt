//! A refusal by meaning stands at the first byte of its update's body.

ghost use Rattle.std.specs.Prelude.{◌≡◌, ℕ, Result, is_ok};
ghost use Rattle.order_means.specs.ClientState.{Fault};
ghost use Rattle.order_means.specs.FrameMarks.{View, meant};
ghost use Rattle.client_view.specs.declared.viewer.Viewer.{Viewer};
ghost use Rattle.client_view.specs.Views.{capped, Obeys};
ghost use Rattle.client_view.specs.Refusals.{Shows};

use crate::ClientFault;
use client_caches::ObeyFault;

/// What came of an update whose body begins at a place.
pub(crate) fn meant(at: u64, obeyed: Result<(), ObeyFault>) -> Result<(), ClientFault>
    ensures shown { (place : ℕ) (meaning : Result View Fault) (m : Viewer) → at ≡ capped place → Obeys obeyed meaning m → Shows result (meant place meaning) m }
    ensures same { is_ok result ≡ is_ok obeyed }
{
    match obeyed {
        Ok(()) => Ok(()),
        Err(ObeyFault::Broken) => Err(ClientFault::Refused { at }),
        Err(ObeyFault::Oversized { cache, index }) => Err(ClientFault::Named {
            at,
            oversized: true,
            cache,
            index,
        }),
        Err(ObeyFault::Empty { cache, index }) => Err(ClientFault::Named {
            at,
            oversized: false,
            cache,
            index,
        }),
        Err(ObeyFault::OutOfMemory) => Err(ClientFault::OutOfMemory),
    }
}
