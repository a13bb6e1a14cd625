//! Client Info ([MS-RDPBCGR] 2.2.1.11): of its texts only UserName isn't empty.
//!
//! | size | field | value |
//! |---|---|---|
//! | 4 | flags and flagsHi | `40 00 00 00`, SEC_INFO_PKT |
//! | 4 | CodePage | 0 |
//! | 4 | flags | `10 00 00 00`, INFO_UNICODE |
//! | 2 | cbDomain | 0 |
//! | 2 | cbUserName | the name's bytes |
//! | 6 | cbPassword, cbAlternateShell, cbWorkingDir | 0 |
//! | 2 | Domain | its terminator |
//! | | UserName | UTF-16, and its terminator |
//! | 6 | Password, AlternateShell, WorkingDir | their terminators |

ghost use Rattle.std.specs.Prelude.{◌≡◌, ◌≤◌, ◌++◌, length, OnOk};
ghost use Rattle.viewer_rules.specs.ClientPackets.{wide, info_body, client_info};

use crate::data::put_data;
use info_lic::Name;
use wire_num::OutOfMemory;

const INFO_START: [u8; 14] = [0x40, 0, 0, 0, 0, 0, 0, 0, 0x10, 0, 0, 0, 0, 0];

/// Writes a Client Info with this name at the end. `body` is taken for its data.
#[tactic(auto, using(crate::proofs::Written::info_length))]
pub(crate) fn put_info(
    out: &mut Vec<u8>,
    body: &mut Vec<u8>,
    user: u16,
    name: Name,
) -> Result<(), OutOfMemory>
    ensures { OnOk result (out.new.items ≡ out.old.items ++ client_info user name) }
{
    body.clear();
    put_info_body(body, name.bytes())?;
    put_data(out, user, body)
}

fn put_info_body(body: &mut Vec<u8>, name: &[u8]) -> Result<(), OutOfMemory>
    requires { length name.now ≤ 64 }
    ensures { OnOk result (body.new.items ≡ body.old.items ++ info_body name.now) }
{
    let size = name.len() as u16 * 2;
    body.extend_from_slice(&INFO_START)?;
    body.extend_from_slice(&size.to_le_bytes())?;
    body.extend_from_slice(&[0; 8])?;
    put_wide(body, name)?;
    body.extend_from_slice(&[0; 8])?;
    Ok(())
}

/// Writes the letters of a name as code units of UTF-16.
fn put_wide(body: &mut Vec<u8>, name: &[u8]) -> Result<(), OutOfMemory>
    ensures { OnOk result (body.new.items ≡ body.old.items ++ wide name.now) }
{
    match name {
        [] => Ok(()),
        [first, rest @ ..] => {
            body.extend_from_slice(&u16::from(*first).to_le_bytes())?;
            put_wide(body, rest)
        }
    }
}
