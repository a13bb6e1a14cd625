use crate::BodyForm;

/// What a byte of the stream gives, or what its packet has further.
#[derive(Clone, Copy, Debug, PartialEq, Eq)]
pub enum Step {
    /// The packet goes on, or has no further update.
    More,
    /// The packet is whole, and the body of an update that came so begins at that place of the stream.
    Update { at: u64, form: BodyForm },
    /// The stream is refused at that place, from now on.
    Refused { at: u64 },
}
