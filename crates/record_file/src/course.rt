use crate::playing::Playing;

/// How far the reading of a record has come.
#[derive(Drop)]
pub struct Course {
    /// The bytes behind the replayed entries; those of the head, while it isn't whole.
    pub part: Vec<u8>,
    /// The place of the field of the head that isn't all there.
    pub missing: usize,
    /// The session, once the head is whole; none behind a fault.
    pub playing: Option<Playing>,
}
