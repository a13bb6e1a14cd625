//! The refusals of a share PDU.

ghost use Rattle.std.specs.Prelude.{◌≡◌};
ghost use Rattle.share_pdu.specs.declared.share_fault.Cause.TheVariants.{Broken};
ghost use Rattle.share_pdu.specs.ClientPdu.{share_fault_of};

use wire_num::Short;

/// Why a share PDU is refused.
///
/// `at` is the offset in bytes of the first field that breaks its rule, from the slice's start.
#[derive(Clone, Copy, Debug, PartialEq, Eq)]
pub enum ShareFault {
    /// A field breaks its rule or doesn't fit.
    BadShare { at: usize },
    /// This compressedType says that the PDU is compressed.
    Compressed { at: usize },
}

/// What is wrong with the field at which a cursor stands.
#[derive(Clone, Copy, Debug, PartialEq, Eq)]
pub enum Cause {
    /// It breaks its rule or doesn't fit.
    Broken,
    /// It says that the PDU is compressed.
    Packed,
}

impl From<Short> for Cause {
    ghost from_gives = { λ _ cause. cause ≡ Broken };

    fn from(_: Short) -> Cause {
        Cause::Broken
    }
}

/// The refusal for this cause at this place.
pub fn fault_of(cause: Cause, at: usize) -> ShareFault
    ensures { result ≡ share_fault_of cause at }
{
    match cause {
        Cause::Broken => ShareFault::BadShare { at },
        Cause::Packed => ShareFault::Compressed { at },
    }
}
