/// Which step is drawn.
#[derive(Clone, Copy, Debug, PartialEq, Eq)]
pub enum StepKind {
    /// A rectangle in one colour.
    Fill,
    /// A copy within the picture.
    Copy,
    /// A rectangle that is inverted.
    Dst,
    /// A line.
    Line,
    /// A brush.
    Pat,
    /// An image.
    Blit,
    /// Three glyphs.
    Text,
    /// A rectangle is kept in a slot.
    Save,
    /// What a slot keeps is put back.
    Restore,
    /// The holder gives control on.
    Give,
    /// A viewer takes a frame.
    Take,
}
