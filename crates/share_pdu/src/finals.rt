//! The host's answers of the finalisation ([MS-RDPBCGR] 2.2.1.19 to 2.2.1.22), each behind the headers of a share data PDU.
//!
//! | answer | pduType2 | body |
//! |---|---|---|
//! | Synchronize | `1F` | messageType `01 00`, targetUser: the client's user channel (2) |
//! | Control, cooperate | `14` | action `04 00`, grantId `00 00`, controlId `00 00 00 00` |
//! | Control, granted | `14` | action `02 00`, grantId: the client's user channel (2), controlId `EA 03 00 00` |
//! | Font Map | `28` | numberEntries `00 00`, totalNumEntries `00 00`, mapFlags `03 00`, entrySize `04 00` |

ghost use Rattle.std.specs.Prelude.{◌≡◌, ◌++◌, OnOk, OnErr};
ghost use Rattle.wire_num.specs.Written.{AppendsFront};
ghost use Rattle.share_pdu.specs.Final.{final_bytes};

use crate::data::write_data;
use crate::kinds::{CONTROL, FONT_MAP, SYNCHRONIZE};
use wire_num::OutOfMemory;

/// An answer of the finalisation, in the order in which they are given.
#[derive(Clone, Copy, Debug, PartialEq, Eq)]
pub enum Final {
    /// To the client's Synchronize.
    Synchronize,
    /// To the client's Control with the action cooperate.
    Cooperate,
    /// To the client's Control with the action request control.
    Granted,
    /// To the client's Font List.
    FontMap,
}

/// Writes an answer of the finalisation to the client of this user channel at the end. An `Err` leaves a front of it there.
pub fn write_final(out: &mut Vec<u8>, which: Final, user: u16) -> Result<(), OutOfMemory>
    ensures ok { OnOk result (out.new.items ≡ out.old.items ++ final_bytes which user) }
    ensures memory { OnErr result (AppendsFront out.old.items (final_bytes which user) out.new.items) }
{
    let [low, high] = user.to_le_bytes();
    match which {
        Final::Synchronize => write_data(out, SYNCHRONIZE, &[1, 0, low, high]),
        Final::Cooperate => write_data(out, CONTROL, &[4, 0, 0, 0, 0, 0, 0, 0]),
        Final::Granted => write_data(out, CONTROL, &[2, 0, low, high, 0xEA, 3, 0, 0]),
        Final::FontMap => write_data(out, FONT_MAP, &[0, 0, 0, 0, 3, 0, 4, 0]),
    }
}
