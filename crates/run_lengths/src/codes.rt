//! The kinds of run-length orders and their lengths, as the table of codes names them ([MS-RDPBCGR] 2.2.9.1.1.3.1.2.4).

/// What an order draws.
#[derive(Clone, Copy, Debug, PartialEq, Eq)]
pub enum RunKind {
    /// Pixels as one row earlier, black in the first row.
    BackgroundRun,
    /// Pixels as one row earlier, exclusive-or the foreground.
    ForegroundRun,
    /// A foreground pixel for each 1 of a mask, a background pixel for each 0.
    MaskImage,
    /// One pixel, repeated.
    ColorRun,
    /// The pixels themselves.
    ColorImage,
    /// Two pixels, repeated in turn.
    DitheredRun,
    /// A mask image whose mask is this byte.
    FixedMask(u8),
    /// One pixel of this colour.
    FixedColor(u32),
}

/// Where the length of an order stands.
#[derive(Clone, Copy, Debug, PartialEq, Eq)]
pub enum Length {
    /// The low bits of the code times the first number, or, where they are 0, the next byte and the second.
    InCode(u8, u8),
    /// The next two bytes, the low one first.
    TwoBytes,
    /// It is always so much.
    Fixed(u8),
}

/// The codes from the first to the last, and what their orders are.
#[derive(Clone, Copy, Debug, PartialEq, Eq)]
pub struct Row {
    /// The first code, whose low bits are 0.
    pub first: u8,
    /// The last code.
    pub last: u8,
    /// Whether a new foreground pixel follows the length.
    pub sets_foreground: bool,
    /// What the orders draw.
    pub kind: RunKind,
    /// Where their length stands.
    pub length: Length,
}

/// What stands before an order.
#[derive(Clone, Copy, Debug, PartialEq, Eq)]
pub enum Before {
    /// No order, or one that is no background run.
    Other,
    /// A background run that begins in the first row.
    FirstRowBackground,
    /// A background run that begins later.
    LaterBackground,
}
