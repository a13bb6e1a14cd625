//! The domain PDUs of a client (T.125, 7, DomainMCSPDU, by the packed encoding rules of X.691).
//!
//! | offset | size | field | value |
//! |---|---|---|---|
//! | 0 | 1 | choice | `04` Erect Domain Request, `28` Attach User Request, `38` Channel Join Request, `64` Send Data Request, `20` to `22` Disconnect Provider Ultimatum; `30` begins one by the basic encoding rules |
//! | 1 | | fields of the choice | each in a file of its own |

ghost use Rattle.std.specs.Prelude.{◌≡◌, length, IfOk};
ghost use Rattle.wire_num.specs.Cursor.{ReadsFields, rest};
ghost use Rattle.mcs_dom.specs.DomainPdu.{domain_pdu_of, domain_at, pdu_at, choice_of, HasBodyAtEnd};

use crate::attach_user::{ATTACH_USER_REQUEST, read_attach_user};
use crate::bad_domain::BadDomain;
use crate::channel_join::{CHANNEL_JOIN_REQUEST, read_channel_join};
use crate::erect_domain::{ERECT_DOMAIN_REQUEST, read_erect_domain};
use crate::send_data::{SEND_DATA_REQUEST, read_send_data};
use crate::ultimatum::{
    BASIC_SEQUENCE, FIRST_ULTIMATUM, LAST_ULTIMATUM, read_basic_ultimatum, read_ultimatum,
};
use wire_num::{Cursor, Range, Short};

/// What a client says to its domain.
#[derive(Clone, Copy, Debug, PartialEq, Eq)]
pub enum DomainPdu {
    /// Erect Domain Request; its values aren't looked at.
    Erect,
    /// Attach User Request.
    Attach,
    /// Channel Join Request, with the initiator's user channel and the channel to join.
    Join {
        user: u16,
        channel: u16,
    },
    /// Send Data Request, with the initiator's user channel, the channel, and where the data stand in the slice.
    Data {
        user: u16,
        channel: u16,
        body: Range,
    },
    /// Disconnect Provider Ultimatum, with its reason, 0 to 4.
    Bye {
        reason: u8,
    },
}

/// Reads a domain PDU, which is all of the slice (T.125, 7). The body of data is the slice's last bytes.
#[tactic(auto, using(crate::proofs::TextPdu::body_at_end))]
pub fn read_domain(bytes: &[u8]) -> Result<DomainPdu, BadDomain>
    ensures exact { result ≡ domain_pdu_of bytes.now }
    ensures range { IfOk result (HasBodyAtEnd (length bytes.now)) }
{
    let mut cursor = Cursor::new(bytes);
    match read_pdu(bytes, &mut cursor) {
        Ok(pdu) => Ok(pdu),
        Err(_) => Err(BadDomain { at: cursor.at() }),
    }
}

/// Reads the PDU by its first byte.
fn read_pdu(bytes: &[u8], cursor: &mut Cursor<'_>) -> Result<DomainPdu, Short>
    requires { cursor.old ≡ record { bytes = bytes.now; at = 0 } }
    ensures { ReadsFields (domain_at (length bytes.now)) result cursor.old cursor.new }
{
    match bytes {
        [ERECT_DOMAIN_REQUEST, ..] => read_erect_domain(cursor),
        [ATTACH_USER_REQUEST, ..] => read_attach_user(cursor),
        [CHANNEL_JOIN_REQUEST, ..] => read_channel_join(cursor),
        [SEND_DATA_REQUEST, ..] => read_send_data(cursor),
        [first @ FIRST_ULTIMATUM..=LAST_ULTIMATUM, ..] => read_ultimatum(*first, cursor),
        [BASIC_SEQUENCE, ..] => read_basic_ultimatum(cursor),
        _ => Err(Short { at: cursor.at() }),
    }
}
