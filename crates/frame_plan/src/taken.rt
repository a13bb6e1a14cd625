use crate::Take;

/// What a take gives.
#[derive(Drop)]
pub enum Taken {
    /// A frame.
    Frame(Take),
    /// There is nothing to send.
    Nothing,
}
