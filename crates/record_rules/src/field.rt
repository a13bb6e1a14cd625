/// A field of a record, with what stands in it. Numbers go with the lowest byte first, a colour as red, green, blue.
#[derive(Clone, Copy, Debug, PartialEq, Eq)]
pub enum Field {
    /// A number of one byte.
    Byte(u32),
    /// A number of two bytes.
    Short(u32),
    /// A number of four bytes.
    Long(u32),
    /// A signed number of one byte.
    SignedByte(i32),
    /// A signed number of two bytes.
    SignedShort(i32),
    /// A colour of three bytes.
    Color(u32),
}
