//! What a client's share PDUs ask for, in their sequence and after the Font List ([MS-RDPBCGR] 1.3.1.1).

ghost use Rattle.std.specs.Prelude.{◌≡◌, [], length, Ok};
ghost use Rattle.caps_sets.specs.ConfirmActive.{confirmed_of};
ghost use Rattle.input_pdu.specs.Events.{events_of};
ghost use Rattle.share_pdu.specs.Bodies.{areas_of};
ghost use Rattle.share_pdu.specs.ClientPdu.{share_pdu_of, HasBodyWithin};
ghost use Rattle.conn_rules.specs.Answers.{telling};
ghost use Rattle.conn_rules.specs.Told.{area_steps};
ghost use Rattle.conn_rules.specs.Shares.{early_deed, order_of, due, finish_deed, ready_deed, plain_deed, sets_read, confirm_deed, input_deed};
ghost use Rattle.conn_rules.specs.Shares.{deed_of, read_deed};
ghost use Rattle.conn_core.specs.Judges.{IsJudgedBeside, found_steps};

use crate::fault::Fault;
use crate::found::{Found, find_refresh};
use crate::refusals::{BAD_CAPS, BAD_INPUT, BAD_SHARE, COMPRESSED};
use caps_sets::{CapsFault, Confirmed, read_confirm};
use conn_rules::{Deed, Refusal, SharePhase};
use input_pdu::{InputFault, read_events};
use px_core::Depth;
use share_pdu::{ClientPdu, Final, ShareFault, read_share};
use wire_num::OutOfMemory;

/// Reads what the share PDU in a body asks for, which begins at a place; none where it isn't expected. `found` takes what is found in
/// it.
pub fn read_deed(
    phase: SharePhase,
    place: usize,
    body: &[u8],
    found: &mut Found,
) -> Result<Option<Deed>, Fault>
    requires events { found.old.events.items ≡ [] }
    requires areas { found.old.areas.items ≡ [] }
    ensures { IsJudgedBeside (found_steps found.new.events.items found.new.areas.items) result (read_deed phase place body.now (share_pdu_of body.now)) }
{
    match read_share(body) {
        Ok(pdu) => deed_of(phase, place, body, pdu, found),
        Err(ShareFault::BadShare { at }) => Err(Fault::Refused(Refusal {
            k: BAD_SHARE,
            at: place.saturating_add(at),
        })),
        Err(ShareFault::Compressed { at }) => Err(Fault::Refused(Refusal {
            k: COMPRESSED,
            at: place.saturating_add(at),
        })),
    }
}

/// What a PDU of a body asks for.
fn deed_of(
    phase: SharePhase,
    place: usize,
    body: &[u8],
    pdu: ClientPdu,
    found: &mut Found,
) -> Result<Option<Deed>, Fault>
    requires body { HasBodyWithin (length body.now) pdu }
    requires events { found.old.events.items ≡ [] }
    requires areas { found.old.areas.items ≡ [] }
    ensures { IsJudgedBeside (found_steps found.new.events.items found.new.areas.items) result (deed_of phase place body.now pdu) }
{
    match pdu {
        ClientPdu::Confirm(part) => confirm_deed(
            phase,
            place.saturating_add(part.from),
            &body[part.from..part.to],
        ),
        ClientPdu::Input(part) => input_deed(
            plain_deed(phase, pdu),
            place.saturating_add(part.from),
            &body[part.from..part.to],
            found,
        ),
        ClientPdu::Refresh(part) => {
            refresh_deed(plain_deed(phase, pdu), &body[part.from..part.to], found)
        }
        ClientPdu::Synchronize => Ok(plain_deed(phase, ClientPdu::Synchronize)),
        ClientPdu::Cooperate => Ok(plain_deed(phase, ClientPdu::Cooperate)),
        ClientPdu::Request => Ok(plain_deed(phase, ClientPdu::Request)),
        ClientPdu::FontList => Ok(plain_deed(phase, ClientPdu::FontList)),
        ClientPdu::KeyList => Ok(plain_deed(phase, ClientPdu::KeyList)),
        ClientPdu::Suppress(stop) => Ok(plain_deed(phase, ClientPdu::Suppress(stop))),
        ClientPdu::Shutdown => Ok(plain_deed(phase, ClientPdu::Shutdown)),
        ClientPdu::Other => Ok(plain_deed(phase, ClientPdu::Other)),
    }
}

/// What a Confirm Active asks for, whose fields begin at a place. After the Font List it isn't read.
fn confirm_deed(phase: SharePhase, place: usize, fields: &[u8]) -> Result<Option<Deed>, Fault>
    ensures { IsJudgedBeside [] result (confirm_deed phase place fields.now) }
{
    match phase {
        SharePhase::Confirm { depth } => {
            let confirmed = read_sets(depth, place, fields)?;
            Ok(Some(Deed::Confirm(confirmed)))
        }
        SharePhase::Finish { confirmed, .. } => {
            read_sets(confirmed.depth, place, fields)?;
            Ok(None)
        }
        SharePhase::Ready => Ok(Some(Deed::Nothing)),
    }
}

/// What an Input PDU asks for, whose body begins at a place and has its events there.
fn input_deed(
    deed: Option<Deed>,
    place: usize,
    body: &[u8],
    found: &mut Found,
) -> Result<Option<Deed>, Fault>
    requires events { found.old.events.items ≡ [] }
    requires areas { found.old.areas.items ≡ [] }
    ensures { IsJudgedBeside (found_steps found.new.events.items found.new.areas.items) result (input_deed deed place (events_of body.now)) }
{
    match read_events(body, &mut found.events) {
        Ok(()) => Ok(deed),
        Err(InputFault::BadInput { at }) => Err(Fault::Refused(Refusal {
            k: BAD_INPUT,
            at: place.saturating_add(at),
        })),
        Err(InputFault::OutOfMemory) => Err(Fault::OutOfMemory),
    }
}

/// What a Refresh Rect asks for, whose areas are found.
fn refresh_deed(deed: Option<Deed>, body: &[u8], found: &mut Found) -> Result<Option<Deed>, Fault>
    requires events { found.old.events.items ≡ [] }
    requires areas { found.old.areas.items ≡ [] }
    ensures { IsJudgedBeside (found_steps found.new.events.items found.new.areas.items) result (Ok (telling deed (area_steps (areas_of body.now)))) }
{
    match find_refresh(body, &mut found.areas) {
        Ok(()) => Ok(deed),
        Err(OutOfMemory) => Err(Fault::OutOfMemory),
    }
}

/// What a PDU asks for that isn't read further.
fn plain_deed(phase: SharePhase, pdu: ClientPdu) -> Option<Deed>
    ensures { result ≡ plain_deed phase pdu }
{
    match phase {
        SharePhase::Confirm { .. } => early_deed(pdu),
        SharePhase::Finish { confirmed, next } => finish_deed(confirmed, next, pdu),
        SharePhase::Ready => ready_deed(pdu),
    }
}

/// The same before the Confirm Active.
fn early_deed(pdu: ClientPdu) -> Option<Deed>
    ensures { result ≡ early_deed pdu }
{
    match pdu {
        ClientPdu::Input(_) | ClientPdu::Refresh(_) | ClientPdu::Suppress(_) | ClientPdu::Other =>
            Some(Deed::Nothing),
        ClientPdu::Confirm(_)
        | ClientPdu::Synchronize
        | ClientPdu::Cooperate
        | ClientPdu::Request
        | ClientPdu::FontList
        | ClientPdu::KeyList
        | ClientPdu::Shutdown => None,
    }
}

/// The same in the finalisation, where this answer is the next one.
fn finish_deed(confirmed: Confirmed, next: Final, pdu: ClientPdu) -> Option<Deed>
    ensures { result ≡ finish_deed confirmed next pdu }
{
    match pdu {
        ClientPdu::Synchronize => due(confirmed, next, Final::Synchronize),
        ClientPdu::Cooperate => due(confirmed, next, Final::Cooperate),
        ClientPdu::Request => due(confirmed, next, Final::Granted),
        ClientPdu::FontList => due(confirmed, next, Final::FontMap),
        ClientPdu::KeyList => {
            if order_of(next) == order_of(Final::FontMap) {
                Some(Deed::Nothing)
            } else {
                None
            }
        }
        ClientPdu::Input(_) | ClientPdu::Refresh(_) | ClientPdu::Suppress(_) | ClientPdu::Other =>
            Some(Deed::Nothing),
        ClientPdu::Confirm(_) | ClientPdu::Shutdown => None,
    }
}

/// An answer that is asked for, where it is the next one.
fn due(confirmed: Confirmed, next: Final, which: Final) -> Option<Deed>
    ensures { result ≡ due confirmed next which }
{
    if order_of(which) == order_of(next) {
        Some(Deed::Answer { confirmed, which })
    } else {
        None
    }
}

/// The place of an answer in the order of the finalisation.
fn order_of(which: Final) -> u8
    ensures { result ≡ order_of which }
{
    match which {
        Final::Synchronize => 0,
        Final::Cooperate => 1,
        Final::Granted => 2,
        Final::FontMap => 3,
    }
}

/// The same after the Font List.
fn ready_deed(pdu: ClientPdu) -> Option<Deed>
    ensures { result ≡ ready_deed pdu }
{
    match pdu {
        ClientPdu::Input(_) | ClientPdu::Refresh(_) => Some(Deed::Tell),
        ClientPdu::Suppress(stop) => Some(Deed::Suppress(stop)),
        ClientPdu::Shutdown => Some(Deed::Shutdown),
        ClientPdu::Confirm(_)
        | ClientPdu::Synchronize
        | ClientPdu::Cooperate
        | ClientPdu::Request
        | ClientPdu::FontList
        | ClientPdu::KeyList
        | ClientPdu::Other => Some(Deed::Nothing),
    }
}

/// Reads the capability sets of a Confirm Active of a client of this depth, whose fields begin at a place.
fn read_sets(depth: Depth, place: usize, fields: &[u8]) -> Result<Confirmed, Refusal>
    ensures { result ≡ sets_read place (confirmed_of depth fields.now) }
{
    match read_confirm(fields, depth) {
        Ok(confirmed) => Ok(confirmed),
        Err(CapsFault::BadCaps { at }) => Err(Refusal {
            k: BAD_CAPS,
            at: place.saturating_add(at),
        }),
    }
}
