//! The exit statuses that the programs share.

/// What the words ask for was done.
pub const DONE: u8 = 0;

/// The words ask for nothing.
pub const BAD_WORDS: u8 = 2;

/// What was read is refused: a script's line that breaks a rule, a record or a capture without such a picture, or a host's bytes.
pub const REFUSED: u8 = 3;

/// What is to be read couldn't be read.
pub const READ_FAULT: u8 = 4;

/// What is to be written couldn't be written.
pub const WRITE_FAULT: u8 = 5;

/// No memory was left.
pub const OUT_OF_MEMORY: u8 = 6;

/// The port couldn't be opened or reached, or gave no link.
pub const PORT_FAULT: u8 = 7;

/// The other side's bytes ended before what was asked for was done.
pub const ENDED_EARLY: u8 = 35;

/// The other side isn't let in, or was sent away.
pub const NOT_INVITED: u8 = 36;
