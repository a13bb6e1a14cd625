//! What a viewer answers Demand Active with: Confirm Active ([MS-RDPBCGR] 2.2.1.13.2), and the PDUs of the finalisation (2.2.1.14 to 2.2.1.18).

ghost use Rattle.std.specs.Prelude.{◌≡◌, ◌≤◌, ◌++◌, length, flat_map, OnOk};
ghost use Rattle.viewer_rules.specs.ClientPackets.{confirm_body, confirm_active, client_data, send_data, last_five};
ghost use Rattle.viewer_wire.specs.Writes.{confirm_start, share_headers};

use crate::data::put_data;
use crate::sets::put_sets;
use caps_sets::Confirmed;
use wire_num::OutOfMemory;

/// PDUTYPE2_SYNCHRONIZE, PDUTYPE2_CONTROL and PDUTYPE2_FONTLIST ([MS-RDPBCGR] 2.2.8.1.1.1.2).
const SYNCHRONIZE: u8 = 0x1F;

const CONTROL: u8 = 0x14;

const FONT_LIST: u8 = 0x27;

/// Writes what answers Demand Active at the end: Confirm Active, Synchronize, Control (cooperate), Control (request control), and Font List. `body` is taken
/// for
/// the data of each.
pub(crate) fn put_five(
    out: &mut Vec<u8>,
    body: &mut Vec<u8>,
    user: u16,
    c: &Confirmed,
) -> Result<(), OutOfMemory>
    ensures { OnOk result (out.new.items ≡ out.old.items ++ flat_map (λ packet. packet) (last_five user c.now)) }
{
    put_confirm(out, body, user, c)?;
    put_final(out, body, user, SYNCHRONIZE, &[1, 0, 0xEA, 3])?;
    put_final(out, body, user, CONTROL, &[4, 0, 0, 0, 0, 0, 0, 0])?;
    put_final(out, body, user, CONTROL, &[1, 0, 0, 0, 0, 0, 0, 0])?;
    put_final(out, body, user, FONT_LIST, &[0, 0, 0, 0, 3, 0, 50, 0])?;
    Ok(())
}

fn put_confirm(
    out: &mut Vec<u8>,
    body: &mut Vec<u8>,
    user: u16,
    c: &Confirmed,
) -> Result<(), OutOfMemory>
    ensures { OnOk result (out.new.items ≡ out.old.items ++ confirm_active user c.now) }
{
    body.clear();
    put_confirm_body(body, user, c)?;
    put_data(out, user, body)
}

fn put_confirm_body(body: &mut Vec<u8>, user: u16, c: &Confirmed) -> Result<(), OutOfMemory>
    ensures written { OnOk result (body.new.items ≡ body.old.items ++ confirm_body user c.now) }
    ensures size { OnOk result (length (confirm_body user c.now) ≡ 246) }
{
    put_confirm_start(body, user)?;
    put_sets(body, c)?;
    Ok(())
}

/// What stands before the sets.
fn put_confirm_start(body: &mut Vec<u8>, user: u16) -> Result<(), OutOfMemory>
    ensures { OnOk result (body.new.items ≡ body.old.items ++ confirm_start user) }
{
    let [u, v] = user.to_le_bytes();
    body.extend_from_slice(&[
        246, 0, 19, 0, u, v, 0xEA, 3, 1, 0, 0xEA, 3, 4, 0, 226, 0, 0x52, 0x44, 0x50, 0, 6, 0, 0, 0,
    ])?;
    Ok(())
}

/// Writes a share data PDU with a short body.
fn put_final(
    out: &mut Vec<u8>,
    body: &mut Vec<u8>,
    user: u16,
    kind: u8,
    content: &[u8],
) -> Result<(), OutOfMemory>
    requires { length content.now ≤ 8 }
    ensures { OnOk result (out.new.items ≡ out.old.items ++ send_data user (client_data user kind content.now)) }
{
    body.clear();
    put_share_headers(body, user, kind, content.len() as u8)?;
    body.extend_from_slice(content)?;
    put_data(out, user, body)
}

/// What stands before a body of so many bytes.
fn put_share_headers(body: &mut Vec<u8>, user: u16, kind: u8, size: u8) -> Result<(), OutOfMemory>
    requires { size ≤ 8 }
    ensures { OnOk result (body.new.items ≡ body.old.items ++ share_headers user kind size) }
{
    let [u, v] = user.to_le_bytes();
    body.extend_from_slice(&[
        18 + size,
        0,
        23,
        0,
        u,
        v,
        0xEA,
        3,
        1,
        0,
        0,
        1,
        4 + size,
        0,
        kind,
        0,
        0,
        0,
    ])?;
    Ok(())
}
