//! What a row comes to.

use crate::ending::Ending;
use edge_io::OutOfMemory;
use std::alloc::AllocError;

/// In which way a row was run.
#[derive(Clone, Copy, Debug, PartialEq, Eq)]
pub enum Way {
    /// As it is.
    Whole,
    /// Its input came byte by byte.
    ByByte,
    /// Its input was cut in two behind so many bytes.
    CutAt(usize),
    /// The read of this number failed.
    Read(u32),
    /// The write of this number failed.
    Write(u32),
    /// The write of the output of this number failed, beside which there is a link.
    Print(u32),
    /// The port couldn't be dialled.
    Dial,
}

/// What is otherwise than it should be.
#[derive(Clone, Copy, Debug, PartialEq, Eq)]
pub enum Found {
    /// It ended so.
    Ending(Ending),
    /// What was written has another byte at this place, or ends there and shouldn't, or should.
    Byte(usize),
    /// The number of what was found is this.
    Number(u64),
    /// No call failed, though there must be one.
    NoFault,
    /// A digest that isn't the kept one.
    Digest,
}

/// Why a row isn't as expected.
#[derive(Clone, Copy, Debug, PartialEq, Eq)]
pub enum Trouble {
    /// No memory was left.
    OutOfMemory,
    /// A file can't be read.
    NoFile,
    /// The row's words, or a file's, are none of a row.
    NoForm,
    /// The first way in which it is otherwise, and what is.
    Differs { way: Way, found: Found },
}

impl From<AllocError> for Trouble {
    fn from(_: AllocError) -> Trouble {
        Trouble::OutOfMemory
    }
}

impl From<OutOfMemory> for Trouble {
    fn from(_: OutOfMemory) -> Trouble {
        Trouble::OutOfMemory
    }
}
