//! The host's replies, written as whole packets.

ghost use Rattle.std.specs.Prelude.{◌≡◌, ◌≤◌, ◌+◌, ◌++◌, [], length, OnOk, OnErr};
ghost use Rattle.wire_num.specs.Written.{AppendsFront};
ghost use Rattle.mcs_ber.specs.ConnectResponse.{connect_response};
ghost use Rattle.gcc_per.specs.ServerData.{create_response};
ghost use Rattle.mcs_dom.specs.SendData.{send_data_indication};
ghost use Rattle.info_lic.specs.Licence.{licence};
ghost use Rattle.caps_sets.specs.DemandActive.{demand_active};
ghost use Rattle.share_pdu.specs.Final.{final_bytes};
ghost use Rattle.conn_rules.specs.Replies.{resizes, reply_bytes};
ghost use Rattle.conn_core.specs.Judges.{IsWritable};

use caps_sets::{write_demand, write_demand_with};
use conn_rules::{Client, Reply};
use gcc_per::write_server;
use info_lic::LICENCE;
use mcs_ber::write_response;
use mcs_dom::{write_attach, write_indication, write_join};
use px_core::{Depth, Size};
use share_pdu::{Final, write_final};
use tpkt_x224::write_confirm;
use wire_num::OutOfMemory;

/// Writes a reply of a session with a picture of this size at the end. `body` is taken for the data of a packet. An `Err` leaves a
/// front of the reply there.
pub fn write_reply(
    out: &mut Vec<u8>,
    size: Size,
    body: &mut Vec<u8>,
    reply: Reply,
) -> Result<(), OutOfMemory>
    requires wide { size.w ≤ 65535 }
    requires high { size.h ≤ 65535 }
    requires writable { IsWritable reply }
    ensures ok { OnOk result (out.new.items ≡ out.old.items ++ reply_bytes size reply) }
    ensures memory { OnErr result (AppendsFront out.old.items (reply_bytes size reply) out.new.items) }
{
    match reply {
        Reply::Nothing => Ok(()),
        Reply::Confirm(request) => write_confirm(out, request),
        Reply::Response { channels, asked } => respond(out, body, channels, asked),
        Reply::Attached { user } => write_attach(out, user),
        Reply::Joined { user, channel } => write_join(out, user, channel),
        Reply::Welcome(client) => welcome(out, size, body, client.depth, resizes(size, client)),
        Reply::Final { which, user } => finish(out, body, which, user),
    }
}

/// Writes a Connect-Response with the server data.
fn respond(
    out: &mut Vec<u8>,
    body: &mut Vec<u8>,
    channels: u8,
    asked: u32,
) -> Result<(), OutOfMemory>
    requires { channels ≤ 31 }
    ensures ok { OnOk result (out.new.items ≡ out.old.items ++ connect_response (create_response channels asked)) }
    ensures memory { OnErr result (AppendsFront out.old.items (connect_response (create_response channels asked)) out.new.items) }
{
    body.clear();
    write_server(body, u16::from(channels), asked)?;
    write_response(out, body)
}

/// Whether a client that states its build asked for another size than the session's (profile).
fn resizes(size: Size, client: Client) -> bool
    ensures { result ≡ resizes size client }
{
    client.build != 0 && !(u32::from(client.width) == size.w && u32::from(client.height) == size.h)
}

/// Writes the licence, and a Demand Active to a client of this depth behind it, with whether the client is to take the session's size for its window.
fn welcome(
    out: &mut Vec<u8>,
    size: Size,
    body: &mut Vec<u8>,
    depth: Depth,
    resizes: bool,
) -> Result<(), OutOfMemory>
    requires wide { size.w ≤ 65535 }
    requires high { size.h ≤ 65535 }
    ensures ok { OnOk result (out.new.items ≡ out.old.items ++ (send_data_indication licence ++ send_data_indication (demand_active size depth resizes))) }
    ensures memory { OnErr result (AppendsFront out.old.items (send_data_indication licence ++ send_data_indication (demand_active size depth resizes)) out.new.items) }
{
    license(out)?;
    demand(out, size, body, depth, resizes)?;
    Ok(())
}

/// Writes the licence.
fn license(out: &mut Vec<u8>) -> Result<(), OutOfMemory>
    ensures ok { OnOk result (out.new.items ≡ out.old.items ++ send_data_indication licence) }
    ensures memory { OnErr result (AppendsFront out.old.items (send_data_indication licence) out.new.items) }
{
    write_indication(out, &LICENCE)
}

/// Writes a Demand Active to a client of this depth.
fn demand(
    out: &mut Vec<u8>,
    size: Size,
    body: &mut Vec<u8>,
    depth: Depth,
    resizes: bool,
) -> Result<(), OutOfMemory>
    requires wide { size.w ≤ 65535 }
    requires high { size.h ≤ 65535 }
    ensures ok { OnOk result (out.new.items ≡ out.old.items ++ send_data_indication (demand_active size depth resizes)) }
    ensures memory { OnErr result (AppendsFront out.old.items (send_data_indication (demand_active size depth resizes)) out.new.items) }
{
    body.clear();
    put_demand(body, size, depth, resizes)?;
    write_indication(out, body)
}

/// Writes a Demand Active's own bytes.
fn put_demand(
    body: &mut Vec<u8>,
    size: Size,
    depth: Depth,
    resizes: bool,
) -> Result<(), OutOfMemory>
    requires wide { size.w ≤ 65535 }
    requires high { size.h ≤ 65535 }
    ensures ok { OnOk result (body.new.items ≡ body.old.items ++ demand_active size depth resizes) }
    ensures size { OnOk result (length body.new.items ≡ length body.old.items + 288) }
    ensures memory { OnErr result (AppendsFront body.old.items (demand_active size depth resizes) body.new.items) }
{
    if resizes {
        write_demand_with(body, size, depth, true)
    } else {
        write_demand(body, size, depth)
    }
}

/// Writes an answer of the finalisation.
fn finish(out: &mut Vec<u8>, body: &mut Vec<u8>, which: Final, user: u16) -> Result<(), OutOfMemory>
    ensures ok { OnOk result (out.new.items ≡ out.old.items ++ send_data_indication (final_bytes which user)) }
    ensures memory { OnErr result (AppendsFront out.old.items (send_data_indication (final_bytes which user)) out.new.items) }
{
    body.clear();
    write_final(body, which, user)?;
    write_indication(out, body)
}
