//! Who may join.

ghost use Rattle.std.specs.Prelude.{◌≡◌, ℕ, ◌≤◌};
ghost use Rattle.session_core.specs.Standing.{reached_of};
ghost use Rattle.session_core.specs.LetIn.{IsLetIn};

use crate::faults::JoinFault;
use crate::head::SessionHead;
use crate::members::MOST_VIEWERS;
use crate::standing::Standing;
use info_lic::Name;
use session_rules::Role;

/// How many viewers may join in a session (profile).
const MOST_JOINS: u32 = 65_535;

/// The role by which a name joins, else the first refusal.
pub fn let_in(head: &SessionHead, standing: &Standing, name: &Name) -> Result<Role, JoinFault>
    requires { standing.now.joins ≤ 65535 }
    ensures { (n : ℕ) → IsLetIn head.now (reached_of standing.now n) name.now result }
{
    let Some(role) = head.role_of(name) else {
        return Err(JoinFault::NotInvited);
    };
    if MOST_VIEWERS <= standing.members.list().len() {
        return Err(JoinFault::RoomFull);
    }
    if MOST_JOINS <= standing.joins {
        return Err(JoinFault::JoinsSpent);
    }
    Ok(role)
}
