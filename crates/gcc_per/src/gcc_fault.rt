//! The refusals of client data.

ghost use Rattle.std.specs.Prelude.{◌≡◌};
ghost use Rattle.gcc_per.specs.declared.gcc_fault.Cause.TheVariants.{Broken};
ghost use Rattle.gcc_per.specs.Checked.{fault_of};

use wire_num::Short;

/// Why client data are refused.
///
/// `at` is the offset in bytes of the first field that breaks its rule, from the slice's start.
#[derive(Clone, Copy, Debug, PartialEq, Eq)]
pub enum GccFault {
    /// A field breaks its rule or doesn't fit, a block is repeated, or CS_CORE is missing.
    BadGcc { at: usize },
    /// The CS_CORE that begins there offers neither 24 nor 16 bits for each pixel.
    DepthNotOffered { at: usize },
    /// This channel count is above 31.
    TooManyChannels { at: usize },
}

/// What is wrong with the field at which a cursor stands.
#[derive(Clone, Copy, Debug, PartialEq, Eq)]
pub enum Cause {
    /// It breaks its rule or doesn't fit.
    Broken,
    /// The block offers neither 24 nor 16 bits for each pixel.
    NoDepth,
    /// It counts more than 31 channels.
    Crowded,
}

impl From<Short> for Cause {
    ghost from_gives = { λ _ cause. cause ≡ Broken };

    fn from(_: Short) -> Cause {
        Cause::Broken
    }
}

/// The refusal for this cause at this place.
pub fn fault_of(cause: Cause, at: usize) -> GccFault
    ensures { result ≡ fault_of cause at }
{
    match cause {
        Cause::Broken => GccFault::BadGcc { at },
        Cause::NoDepth => GccFault::DepthNotOffered { at },
        Cause::Crowded => GccFault::TooManyChannels { at },
    }
}
