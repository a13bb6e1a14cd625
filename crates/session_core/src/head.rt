//! What of a session never changes.

ghost use Rattle.std.specs.Prelude.{◌≡◌};
ghost use Rattle.session_rules.specs.Steps.{row_role, is_new_name};
ghost use Rattle.session_core.specs.Heads.{rows_of};

use info_lic::Name;
use line_text::is_same_word;
use px_core::Size;
use session_rules::Role;
use std::marker::Model;

/// A row of the invitation list: who may join, and as what.
#[derive(Clone, Copy, Drop)]
pub struct Invite {
    pub name: Name,
    pub role: Role,
}

/// A session's size in pixels, and its rows.
#[derive(Drop)]
pub struct SessionHead {
    pub(crate) size: Size,
    pub(crate) rows: Vec<Invite>,
}

impl Model for SessionHead {
    ghost use Rattle.session_rules.specs.Journal.{Head};
    ghost use Rattle.session_core.specs.Heads.{rows_of};

    ghost Value = { Head };

    ghost view = { λ h. record { size = h.size; rows = rows_of h.rows.items } };
}

impl SessionHead {
    /// The size in pixels.
    pub(crate) fn size(&self) -> Size
        ensures { result ≡ self.now.size }
    {
        self.size
    }

    /// The role of the row that has a name.
    pub(crate) fn role_of(&self, name: &Name) -> Option<Role>
        ensures { result ≡ row_role name.now self.now.rows }
    {
        role_in(&self.rows, name.bytes())
    }
}

/// Whether no row has a name.
pub fn is_new_name(name: &[u8], rows: &[Invite]) -> bool
    ensures { result ≡ is_new_name name.now (rows_of rows.now) }
{
    role_in(rows, name).is_none()
}

/// The role of the row that has a name.
fn role_in(rows: &[Invite], name: &[u8]) -> Option<Role>
    ensures { result ≡ row_role name.now (rows_of rows.now) }
{
    for row in rows {
        if is_same_word(name, row.name.bytes()) {
            return Some(row.role);
        }
    }
    None
}
