// Users by their names.

ghost use Rattle.std.specs.Prelude.{◌≡◌, IfOk, MatchResult};
ghost use Rattle.tenant_sessions.specs.Users as spec;

use apex_list::Items;
use apex_num::{NoMemory, Text};
use apex_text::Name;
use bundle_read::SessionEntry;
use fault_words::{Fault, FaultWord};
use schema_names::Places;
use schema_plans::UserPlan;
use std::alloc::{AllocError, Global};
use thiserror::Error;

/// Why sessions have no users.
#[derive(Debug, Drop, Error)]
pub enum SessionFault {
    /// `UnknownName` of the first session whose user's name is that of no user, at `session` and its number from 0.
    #[error("a session has a fault")]
    Wrong(Fault),
    /// Memory was refused.
    #[error("no memory")]
    NoMemory,
}

impl From<AllocError> for SessionFault {
    ghost use Rattle.std.specs.Prelude.{◌≡◌};
    ghost use Rattle.tenant_sessions.specs.declared.users.SessionFault.TheVariants.{NoMemory};

    ghost from_gives = { λ _ e. e ≡ NoMemory };

    fn from(_: AllocError) -> SessionFault {
        SessionFault::NoMemory
    }
}

fn places(alloc: Global, users: &[UserPlan]) -> Result<Places, NoMemory>
    ensures { IfOk result (λ places. places.names.items ≡ spec.names users.now) }
{
    let mut names = Vec::new(alloc);
    for user in users {
        names.push(Name::of(alloc, user.name.bytes())?)?;
    }
    Places::of(alloc, names)
}

// The number of a session's user.
fn user_of(alloc: Global, users: &Places, session: &SessionEntry) -> Result<Option<usize>, NoMemory>
    ensures { IfOk result (λ user. user ≡ spec.user_of users.now.names.items session.now) }
{
    let name = Name::of(alloc, session.user.bytes())?;
    Ok(users.place(&name))
}

// The fault of the session with this number.
fn unknown(alloc: Global, session: usize) -> Result<Fault, NoMemory>
    ensures { IfOk result (λ fault. fault ≡ spec.unknown session) }
{
    let place = format!(in alloc; "session {session}")?;
    Ok(Fault {
        place: Text::from_string(alloc, place)?,
        word: FaultWord::UnknownName,
    })
}

fn unknown_user(alloc: Global, session: usize) -> SessionFault
    ensures { spec.IsUnknownUser session result }
{
    match unknown(alloc, session) {
        Ok(fault) => SessionFault::Wrong(fault),
        Err(_) => SessionFault::NoMemory,
    }
}

/// The number of each session's user among these users: the first whose name is the session's, without case. The fault
/// is that of the first session that has none.
pub fn session_users(
    alloc: Global,
    users: &[UserPlan],
    sessions: &[SessionEntry],
) -> Result<Items<usize>, SessionFault>
    ensures { MatchResult result (spec.AreUsers users.now sessions.now) (spec.IsFirstFault users.now sessions.now) }
{
    let places = places(alloc, users)?;
    let mut all = Items::new(alloc);
    'sessions: for i in 0..sessions.len() {
        match user_of(alloc, &places, &sessions[i])? {
            Some(user) => all.push(user)?,
            None => return Err(unknown_user(alloc, i)),
        }
    }
    Ok(all)
}
