//! What a use of a cache answers.

/// Whether the client has the key's content already, and the index of its entry.
#[derive(Clone, Copy, Debug, PartialEq, Eq)]
pub enum Use {
    /// The entry at this index holds the content.
    Hit(u16),
    /// The content has to be sent to the entry at this index.
    Miss(u16),
}
