//! The rows of a session, as words: its owner, and the guests.

ghost use Rattle.std.specs.Prelude.{◌≡◌, ◌∷◌, map, IfOk, IfSome};
ghost use Rattle.std.specs.Option.{option_map};
ghost use Rattle.session_rules.specs.Steps.{are_names_distinct};
ghost use Rattle.session_core.specs.Heads.{rows_of};
ghost use Rattle.session_core.specs.SessionModel.{AreInvited};
ghost use Rattle.host_program.specs.Serving.{row_in, row_with, guest_row, guest_rows, rows_of_words};

use command_words::OutOfMemory;
use info_lic::Name;
use script_lines::is_name;
use session_core::{Invite, Role, is_new_name};
use std::alloc::Global;

/// The most guests (profile).
const MOST_GUESTS: usize = 63;

/// What stands behind the name of a guest that may hold control.
const PLUS: u8 = b'+';

/// The rows of the owner's name and of the guests' words: `NAME` may view, and `NAME+` may hold control. `None` where there are too many,
/// one is no name, or two are the same.
pub(crate) fn rows_of_words(
    alloc: Global,
    owner: &[u8],
    guests: &[&str],
) -> Result<Option<Vec<Invite>>, OutOfMemory>
    ensures form { IfOk result (λ found. option_map (λ rows. rows_of rows.items) found ≡ rows_of_words owner.now (map (λ s. s.now) guests.now)) }
    ensures range { IfOk result (λ found. IfSome found (λ rows. AreInvited (rows_of rows.items))) }
{
    if guests.len() > MOST_GUESTS {
        return Ok(None);
    }
    let Some(owner) = row_with(owner, Role::Owner) else {
        return Ok(None);
    };
    match all_rows(alloc, owner, guests)? {
        Some(rows) if are_names_distinct(&rows) => Ok(Some(rows)),
        _ => Ok(None),
    }
}

/// The rows of the owner and of the guests' words, whatever names are the same.
fn all_rows(
    alloc: Global,
    owner: Invite,
    guests: &[&str],
) -> Result<Option<Vec<Invite>>, OutOfMemory>
    ensures { IfOk result (λ found. option_map (λ rows. rows_of rows.items) found ≡ option_map (λ rows. row_in owner ∷ rows) (guest_rows (map (λ s. s.now) guests.now))) }
{
    let mut rows = Vec::new(alloc);
    rows.push(owner)?;
    for word in guests {
        match guest_row(word.as_bytes()) {
            Some(row) => rows.push(row)?,
            None => return Ok(None),
        }
    }
    Ok(Some(rows))
}

/// The row of a guest's word.
fn guest_row(word: &[u8]) -> Option<Invite>
    ensures { option_map row_in result ≡ guest_row word.now }
{
    match word {
        [name @ .., PLUS] => row_with(name, Role::Control),
        _ => row_with(word, Role::View),
    }
}

/// The row of a word with this role, where the word is a name.
fn row_with(word: &[u8], role: Role) -> Option<Invite>
    ensures { option_map row_in result ≡ row_with role word.now }
{
    if is_name(word) {
        let name = Name::new(word);
        Some(Invite { name, role })
    } else {
        None
    }
}

/// Whether the rows' names differ from each other.
fn are_names_distinct(rows: &[Invite]) -> bool
    ensures { result ≡ are_names_distinct (rows_of rows.now) }
{
    for i in 0..rows.len() {
        if !is_new_name(rows[i].name.bytes(), &rows[i + 1..]) {
            return false;
        }
    }
    true
}
