/// How a field of a primary order stands in bytes ([MS-RDPEGDI] 2.2.2.2.1.1.1).
#[derive(Clone, Copy, Debug, PartialEq, Eq)]
pub enum FieldKind {
    /// Two bytes, signed; in the delta form one signed byte that is added to the last value.
    Coordinate,
    /// So many bytes, unsigned.
    Number(u8),
    /// Two bytes, signed, never in the delta form.
    Signed,
    /// Three bytes: red, green, blue.
    Color,
}
