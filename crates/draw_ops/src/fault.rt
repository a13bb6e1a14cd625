/// The least rule that a drawing breaks, 1 to 9.
#[derive(Clone, Copy, Debug, PartialEq, Eq)]
pub struct BadDrawing {
    pub rule: u8,
}
