//! What a run is to write.

ghost use Rattle.std.specs.Prelude.{◌≡◌, IfNone};

/// What a run is to write.
#[derive(Drop)]
pub enum Expected {
    /// Just these bytes.
    Whole(Vec<u8>),
    /// Bytes that end so.
    Tail(Vec<u8>),
    /// A picture with this head, whose pixels have this Adler-32 checksum.
    Picture { head: Vec<u8>, sum: u32 },
}

/// The first place where what was written is otherwise than expected, where it is.
pub fn differs(expected: &Expected, told: &[u8]) -> Option<usize> {
    match expected {
        Expected::Whole(bytes) => first_difference(told, bytes),
        Expected::Tail(bytes) => {
            if told.ends_with(bytes) {
                None
            } else {
                Some(told.len().saturating_sub(bytes.len()))
            }
        }
        Expected::Picture { head, sum } => match told.strip_prefix(head.as_slice()) {
            Some(pixels) if adler(pixels) == *sum => None,
            Some(_) => Some(head.len()),
            None => Some(0),
        },
    }
}

/// The first place where two texts have another byte, or where one of them ends; none where they are the same.
pub fn first_difference(found: &[u8], wanted: &[u8]) -> Option<usize>
    ensures { IfNone result (found.now ≡ wanted.now) }
{
    if found == wanted {
        None
    } else {
        Some(shared_length(found, wanted))
    }
}

/// How many bytes two texts share at their front.
fn shared_length(found: &[u8], wanted: &[u8]) -> usize {
    let shorter = found.len().min(wanted.len());
    for at in 0..shorter {
        if found.get(at) != wanted.get(at) {
            return at;
        }
    }
    shorter
}

/// The modulus of the Adler-32 checksum (RFC 1950, 8.2).
const ADLER: u32 = 65_521;

/// The Adler-32 checksum of bytes.
fn adler(bytes: &[u8]) -> u32 {
    let mut sum = 1_u32;
    let mut sum_of_sums = 0_u32;
    for byte in bytes {
        sum = sum.wrapping_add(u32::from(*byte)) % ADLER;
        sum_of_sums = sum_of_sums.wrapping_add(sum) % ADLER;
    }
    (sum_of_sums << 16) | sum
}
