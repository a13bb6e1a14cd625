//! On which operands the result of a code depends.
//!
//! A code depends on an operand where two of its bits differ whose places differ in that operand
//! alone. Such places lie apart by the operand's weight: 4 for the pattern, 2 for the source, 1 for
//! the destination.

ghost use Rattle.std.specs.Prelude.{◌≡◌, ◌↔◌, IsTrue};
ghost use Rattle.rop3_core.specs.Rop3.{DependsOnPattern, DependsOnSource, DependsOnDestination, is_pattern_needed, is_source_needed, is_destination_needed};

/// The weight of the pattern's bit in a place of the code.
const PATTERN_WEIGHT: u32 = 4;
/// The places where the pattern's bit is 0.
const WITHOUT_PATTERN: u8 = 0b0000_1111;
/// The weight of the source's bit.
const SOURCE_WEIGHT: u32 = 2;
/// The places where the source's bit is 0.
const WITHOUT_SOURCE: u8 = 0b0011_0011;
/// The weight of the destination's bit.
const DESTINATION_WEIGHT: u32 = 1;
/// The places where the destination's bit is 0.
const WITHOUT_DESTINATION: u8 = 0b0101_0101;

/// Whether some change of the pattern alone changes the result of this code.
pub fn needs_pattern(code: u8) -> bool
    ensures dependence { IsTrue result ↔ DependsOnPattern code }
    ensures bits { result ≡ is_pattern_needed code }
{
    (code ^ (code >> PATTERN_WEIGHT)) & WITHOUT_PATTERN != 0
}

/// Whether some change of the source alone changes the result of this code.
pub fn needs_source(code: u8) -> bool
    ensures dependence { IsTrue result ↔ DependsOnSource code }
    ensures bits { result ≡ is_source_needed code }
{
    (code ^ (code >> SOURCE_WEIGHT)) & WITHOUT_SOURCE != 0
}

/// Whether some change of the destination alone changes the result of this code.
pub fn needs_destination(code: u8) -> bool
    ensures dependence { IsTrue result ↔ DependsOnDestination code }
    ensures bits { result ≡ is_destination_needed code }
{
    (code ^ (code >> DESTINATION_WEIGHT)) & WITHOUT_DESTINATION != 0
}
