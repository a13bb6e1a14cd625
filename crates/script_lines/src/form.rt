//! Lines by their forms: `invite NAME ROLE`, `join NAME PRESET OVERRIDE ..`, and steps, before which `@V` may stand.
ghost use Rattle.std.specs.Prelude.{◌≡◌, ◌∷◌, IfOk, IfSome, codes};
ghost use Rattle.std.specs.Option.{option_map, option_copied};
ghost use Rattle.line_text.specs.Words.{words_of, parts_left};
ghost use Rattle.script_rules.specs.Script.{line_form, invite_form, join_form, step_form, addressed_form, role_named, viewer_of_word};
ghost use Rattle.script_rules.specs.Script.LineForm.{InviteForm};
ghost use Rattle.script_lines.specs.Lines.{form_of, begins_with_at, IsFormInRange};

use crate::OutOfMemory;
use crate::step::{ViewerStep, read_step};
use crate::words::{are_words, first_word, three_words};
use line_text::{Parts, is_same_word, read_number};
use session_rules::Role;
use std::alloc::Global;

/// The word of an invite.
const INVITE: &[u8] = b"invite";

/// The word of a join.
const JOIN: &[u8] = b"join";

/// The word of an owner's role.
const OWNER: &[u8] = b"owner";

/// The word of the role that may control.
const CONTROL: &[u8] = b"control";

/// The word of the role that may only view.
const VIEW: &[u8] = b"view";

/// What stands before the number of a viewer.
const AT: u8 = b'@';

/// The greatest number of a viewer (profile).
const VIEWER_LIMIT: u64 = 65_535;

/// The viewer of a line that names none.
const FIRST_VIEWER: u32 = 1;

/// A line of a script by its form.
#[derive(Debug, Drop)]
pub enum LineForm<'a> {
    /// A row: who may join, and as what.
    Invite { name: &'a [u8], role: Role },
    /// A join by a row's name, with its preset words and single spaces between them.
    Join { name: &'a [u8], preset: &'a [u8] },
    /// A step of a viewer.
    Step { viewer: u32, step: ViewerStep },
}

/// The form of a line, where it has one. It wants memory only where it is a step's that has glyphs, pixels or rows.
pub fn line_form(alloc: Global, text: &[u8]) -> Result<Option<LineForm<'_>>, OutOfMemory>
    ensures form { IfOk result (λ form. option_map form_of form ≡ line_form (words_of text.now)) }
    ensures range { IfOk result (λ form. IfSome form IsFormInRange) }
{
    let mut words = Parts::words(text);
    let Some(first) = words.next_part() else {
        return Ok(None);
    };
    if is_same_word(first, INVITE) {
        Ok(invite_form(text))
    } else if is_same_word(first, JOIN) {
        let (_, rest) = first_word(text);
        Ok(join_form(rest))
    } else if names_viewer(first) {
        addressed_form(alloc, first, &mut words)
    } else {
        step_form(alloc, FIRST_VIEWER, first, &mut words)
    }
}

/// The row that a line invites, where it is an invite by its form.
pub(crate) fn invite_form(text: &[u8]) -> Option<LineForm<'_>>
    ensures form { option_map form_of result ≡ invite_form (words_of text.now) }
    ensures range { IfSome result IsFormInRange }
{
    let (word, name, role) = three_words(text)?;
    if is_same_word(word, INVITE) && !name.is_empty() {
        invite(name, role_named(role)?)
    } else {
        None
    }
}

/// An invite by its parts.
fn invite(name: &[u8], role: Role) -> Option<LineForm<'_>>
    ensures form { option_map form_of result ≡ Some (InviteForm name.now role) }
    ensures range { IfSome result IsFormInRange }
{
    Some(LineForm::Invite { name, role })
}

/// The role that a word names.
fn role_named(word: &[u8]) -> Option<Role>
    ensures { result ≡ role_named word.now }
{
    if is_same_word(word, OWNER) {
        Some(Role::Owner)
    } else if is_same_word(word, CONTROL) {
        Some(Role::Control)
    } else if is_same_word(word, VIEW) {
        Some(Role::View)
    } else {
        None
    }
}

/// The join that the text behind its first word asks for.
fn join_form(rest: Option<&[u8]>) -> Option<LineForm<'_>>
    ensures form { option_map form_of result ≡ join_form (codes "join" ∷ parts_left 32 (option_copied rest.entry)) }
    ensures range { IfSome result IsFormInRange }
{
    let (name, preset) = first_word(rest?);
    let preset = preset?;
    if !name.is_empty() && are_words(preset) {
        Some(LineForm::Join { name, preset })
    } else {
        None
    }
}

/// Whether a word is to be `@` and a number.
fn names_viewer(word: &[u8]) -> bool
    ensures { result ≡ begins_with_at word.now }
{
    matches!(word, [AT, ..])
}

/// The step of the viewer that the first word names, by the words behind that word.
fn addressed_form<'a>(
    alloc: Global,
    first: &[u8],
    words: &mut Parts<'_>,
) -> Result<Option<LineForm<'a>>, OutOfMemory>
    ensures form { IfOk result (λ form. option_map form_of form ≡ addressed_form (first.now ∷ words.old)) }
    ensures range { IfOk result (λ form. IfSome form IsFormInRange) }
{
    match (viewer_of_word(first), words.next_part()) {
        (Some(viewer), Some(word)) => step_form(alloc, viewer, word, words),
        (_, _) => Ok(None),
    }
}

/// The viewer's number behind an `@`.
fn viewer_of_word(word: &[u8]) -> Option<u32>
    ensures { result ≡ viewer_of_word word.now }
{
    match word {
        [AT, number @ ..] => Some(read_number(number, VIEWER_LIMIT)? as u32),
        _ => None,
    }
}

/// The step of a viewer that a word and the words behind it ask for.
fn step_form<'a>(
    alloc: Global,
    viewer: u32,
    word: &[u8],
    words: &mut Parts<'_>,
) -> Result<Option<LineForm<'a>>, OutOfMemory>
    ensures form { IfOk result (λ form. option_map form_of form ≡ step_form viewer (word.now ∷ words.old)) }
    ensures range { IfOk result (λ form. IfSome form IsFormInRange) }
{
    match read_step(alloc, word, words) {
        Ok(Some(step)) => Ok(Some(LineForm::Step { viewer, step })),
        Ok(None) => Ok(None),
        Err(fault) => Err(fault),
    }
}
