//! The MCS Connect-Initial (T.125, 7, Connect-Initial; MS-RDPBCGR, 2.2.1.3).
//!
//! | size | field | value |
//! |---|---|---|
//! | 2 | tag | `7F 65` |
//! | 1 to 3 | length | of all that follows |
//! | 1, 1 to 3, n | callingDomainSelector | `04`, length, any bytes |
//! | 1, 1 to 3, n | calledDomainSelector | `04`, length, any bytes |
//! | 3 | upwardFlag | `01 01` and any byte |
//! | | targetParameters, minimumParameters, maximumParameters | domain parameters, not compared |
//! | 1, 1 to 3, n | userData | `04`, length, the bytes to the end |

ghost use Rattle.std.specs.Prelude.{◌≡◌, ◌≤◌, length, [], ◌∷◌, OnOk, IfOk};
ghost use Rattle.wire_num.specs.Layout.{fields_at};
ghost use Rattle.wire_num.specs.Cursor.{ReadsFieldsAs, rest};
ghost use Rattle.mcs_ber.specs.ConnectInitial.{connect_initial, initial_fields, upward_flag, three_parameters, user_data, user_data_of};

use crate::BadBer;
use crate::domain_parameters::read_domain_parameters;
use wire_num::{Cursor, Range, Short};

/// The tag of a Connect-Initial (T.125, 7, ConnectMCSPDU).
const CONNECT_INITIAL: [u8; 2] = [0x7F, 0x65];
/// The tag of an octet string (X.690, 8.7).
const OCTET_STRING: u8 = 4;
/// The tag and the length of a boolean (X.690, 8.2).
const BOOLEAN: [u8; 2] = [1, 1];
/// The bytes of a boolean's value.
const BOOLEAN_SIZE: usize = 1;

/// Where the user data of a Connect-Initial stand, whose first byte is the slice's (T.125, 7). They are the slice's last bytes.
#[tactic(auto, using(crate::proofs::InitialText::range_is))]
pub fn read_initial(bytes: &[u8]) -> Result<Range, BadBer>
    ensures exact { result ≡ user_data_of bytes.now }
    ensures range { IfOk result (λ place. (place.from ≤ place.to) × (place.to ≡ length bytes.now)) }
{
    let mut cursor = Cursor::new(bytes);
    match read_connect_initial(&mut cursor) {
        Ok(size) => Ok(Range {
            from: bytes.len() - size,
            to: bytes.len(),
        }),
        Err(_) => Err(BadBer { at: cursor.at() }),
    }
}

/// Reads a Connect-Initial, and gives the size of its user data, which are its last bytes.
#[tactic(auto, unfolding(crate::specs::ConnectInitial::connect_initial))]
fn read_connect_initial(cursor: &mut Cursor<'_>) -> Result<usize, Short>
    ensures fields { ReadsFieldsAs (λ size. size ∷ []) (fields_at connect_initial) result cursor.old cursor.new }
    ensures fits { IfOk result (λ size. size ≤ length cursor.old.bytes) }
{
    cursor.expect(&CONNECT_INITIAL)?;
    let length = cursor.ber_len()?;
    let mut content = cursor.within(length as usize)?;
    match read_initial_fields(&mut content) {
        Ok(size) => {
            cursor.end()?;
            Ok(size)
        }
        Err(short) => {
            cursor.go_to(content.at());
            Err(short)
        }
    }
}

/// Reads all fields, and gives the size of the user data.
#[tactic(auto, unfolding(crate::specs::ConnectInitial::initial_fields, wire_num::specs::FieldValue::passing_at))]
fn read_initial_fields(cursor: &mut Cursor<'_>) -> Result<usize, Short>
    ensures fields { ReadsFieldsAs (λ size. size ∷ []) (fields_at initial_fields) result cursor.old cursor.new }
    ensures fits { IfOk result (λ size. size ≤ length cursor.old.bytes) }
    ensures end { OnOk result (rest cursor.new ≡ []) }
{
    cursor.expect(&[OCTET_STRING])?;
    let calling = cursor.ber_len()?;
    cursor.bytes(calling as usize)?;
    cursor.expect(&[OCTET_STRING])?;
    let called = cursor.ber_len()?;
    cursor.bytes(called as usize)?;
    read_upward_flag(cursor)
}

/// Reads the upward flag and what follows it, and gives the size of the user data.
#[tactic(auto, unfolding(crate::specs::ConnectInitial::upward_flag))]
fn read_upward_flag(cursor: &mut Cursor<'_>) -> Result<usize, Short>
    ensures fields { ReadsFieldsAs (λ size. size ∷ []) (fields_at upward_flag) result cursor.old cursor.new }
    ensures fits { IfOk result (λ size. size ≤ length cursor.old.bytes) }
    ensures end { OnOk result (rest cursor.new ≡ []) }
{
    cursor.expect(&BOOLEAN)?;
    cursor.bytes(BOOLEAN_SIZE)?;
    read_three_parameters(cursor)
}

/// Reads the domain parameters and what follows them, and gives the size of the user data.
#[tactic(auto, unfolding(crate::specs::ConnectInitial::three_parameters))]
fn read_three_parameters(cursor: &mut Cursor<'_>) -> Result<usize, Short>
    ensures fields { ReadsFieldsAs (λ size. size ∷ []) (fields_at three_parameters) result cursor.old cursor.new }
    ensures fits { IfOk result (λ size. size ≤ length cursor.old.bytes) }
    ensures end { OnOk result (rest cursor.new ≡ []) }
{
    read_domain_parameters(cursor)?;
    read_domain_parameters(cursor)?;
    read_domain_parameters(cursor)?;
    read_user_data(cursor)
}

/// Reads the user data to the end, and gives their size.
#[tactic(auto, unfolding(crate::specs::ConnectInitial::user_data))]
fn read_user_data(cursor: &mut Cursor<'_>) -> Result<usize, Short>
    ensures fields { ReadsFieldsAs (λ size. size ∷ []) (fields_at user_data) result cursor.old cursor.new }
    ensures fits { IfOk result (λ size. size ≤ length cursor.old.bytes) }
    ensures end { OnOk result (rest cursor.new ≡ []) }
{
    cursor.expect(&[OCTET_STRING])?;
    let size = cursor.ber_len()?;
    cursor.within(size as usize)?;
    cursor.end()?;
    Ok(size as usize)
}
