//! What is found in a share PDU that is told.

ghost use Rattle.std.specs.Prelude.{◌≡◌, ◌++◌, [], IsOk, OnOk};
ghost use Rattle.wire_num.specs.Cursor.{rest};
ghost use Rattle.share_pdu.specs.Bodies.{areas_at, areas_by, areas_of};

use input_pdu::Event;
use px_core::Rect;
use share_pdu::{find_areas, read_area};
use wire_num::{Cursor, OutOfMemory};

/// The events of an Input PDU, or the areas of a Refresh Rect.
#[derive(Drop)]
pub struct Found {
    pub events: Vec<Event>,
    pub areas: Vec<Rect>,
}

/// Forgets what was found in another packet.
pub fn forget(found: &mut Found)
    ensures events { found.new.events.items ≡ [] }
    ensures areas { found.new.areas.items ≡ [] }
{
    found.events.clear();
    found.areas.clear();
}

/// Appends the areas of a body of a Refresh Rect.
pub fn find_refresh(body: &[u8], areas: &mut Vec<Rect>) -> Result<(), OutOfMemory>
    ensures { OnOk result (areas.new.items ≡ areas.old.items ++ areas_of body.now) }
{
    let mut cursor = Cursor::new(body);
    match find_areas(&mut cursor) {
        Ok(count) => push_areas(count, &mut cursor, areas),
        Err(_) => Ok(()),
    }
}

/// Appends so many areas, all of which are there.
fn push_areas(count: u8, cursor: &mut Cursor<'_>, areas: &mut Vec<Rect>) -> Result<(), OutOfMemory>
    requires { IsOk (areas_at count (rest cursor.old)) }
    ensures { OnOk result (areas.new.items ≡ areas.old.items ++ areas_by (areas_at count (rest cursor.old))) }
{
    for _ in 0..count {
        let area = match read_area(cursor) {
            Ok(area) => area,
            Err(_) => return Ok(()),
        };
        if let Some(area) = area {
            areas.push(area)?;
        }
    }
    Ok(())
}
