// The sessions of a tenant.

ghost use Rattle.std.specs.Prelude.{◌≡◌, ◌+◌, Some, replicate, slice_get, slice_set, IfOk, OnOk, OnErr};
ghost use Rattle.legal_trails.specs.Legal.{Session as TheSession, closing, tell};
ghost use Rattle.session_states.specs.States as spec;

use crate::state::{OpenRequest, SessionState};
use apex_num::NoMemory;
use std::alloc::{AllocError, Global};
use std::marker::Model;

/// The sessions of a tenant. Where a count would pass the range of its type, the answer is want of memory.
#[derive(Drop)]
pub struct Sessions {
    all: Vec<SessionState>,
    // how many requests have written
    writes: u64,
}

impl Model for Sessions {
    ghost use Rattle.std.specs.Prelude.{List};
    ghost use Rattle.std.specs.Coded.{codes};
    ghost use Rattle.legal_trails.specs.Legal.{Session};
    ghost use Rattle.session_states.specs.States.{AllSince, sessions_of};

    ghost Value = { List Session };

    ghost view = { λ s. sessions_of s.writes s.all.items };

    ghost invariant = { λ s. AllSince s.writes s.all.items };
}

// One more.
fn more(count: u64) -> Result<u64, NoMemory>
    ensures { IfOk result (λ n. n ≡ count + 1) }
{
    count.checked_add(1).ok_or(AllocError)
}

// The session behind the start of its next request.
fn opened(state: SessionState, since: u64) -> SessionState
    ensures { result ≡ spec.opened since state }
{
    let request = state.closed;
    SessionState {
        closed: request,
        running: Some(OpenRequest {
            request,
            grabs: 0,
            restarts: 0,
            since,
        }),
    }
}

fn granted_open(request: OpenRequest) -> Result<OpenRequest, NoMemory>
    ensures { IfOk result (λ o. o ≡ spec.granted_open request) }
{
    let grabs = more(request.grabs)?;
    Ok(OpenRequest { grabs, ..request })
}

// The session whose request is granted rows.
fn granted(state: SessionState) -> Result<SessionState, NoMemory>
    ensures { IfOk result (λ s. s ≡ spec.granted state) }
{
    let running = match state.running {
        Some(request) => Some(granted_open(request)?),
        None => None,
    };
    Ok(SessionState { running, ..state })
}

fn again_open(request: OpenRequest, since: u64) -> Result<OpenRequest, NoMemory>
    ensures { IfOk result (λ o. o ≡ spec.again_open since request) }
{
    let restarts = more(request.restarts)?;
    Ok(OpenRequest {
        request: request.request,
        grabs: 0,
        restarts,
        since,
    })
}

// The session whose request begins again.
fn begun_again(state: SessionState, since: u64) -> Result<SessionState, NoMemory>
    ensures { IfOk result (λ s. s ≡ spec.begun_again since state) }
{
    let running = match state.running {
        Some(request) => Some(again_open(request, since)?),
        None => None,
    };
    Ok(SessionState { running, ..state })
}

// The session behind the end of its request.
fn closed(state: SessionState) -> Result<SessionState, NoMemory>
    ensures { IfOk result (λ s. s ≡ spec.closed state) }
{
    match state.closed.checked_add(1) {
        Some(closed) => Ok(SessionState {
            closed,
            running: None,
        }),
        None => Err(AllocError),
    }
}

// How many requests have written behind one more.
fn behind(writes: u64, wrote: bool) -> Result<u64, NoMemory>
    ensures { IfOk result (λ n. n ≡ spec.behind wrote writes) }
{
    if wrote { more(writes) } else { Ok(writes) }
}

impl Sessions {
    /// So many sessions, none of which has opened a request.
    pub fn new(alloc: Global, sessions: usize) -> Result<Sessions, NoMemory>
        ensures { IfOk result (λ s. s ≡ replicate sessions spec.fresh) }
    {
        let state = SessionState {
            closed: 0,
            running: None,
        };
        let mut all = Vec::new(alloc);
        for _ in 0..sessions {
            all.push(state)?;
        }
        Ok(Sessions { all, writes: 0 })
    }

    /// The number of the request that a session would open next.
    pub fn next(&self, session: u32) -> u32
        requires { spec.IsThere self.now session }
        ensures { (at : TheSession) → slice_get self.now session ≡ Some at → result ≡ at.closed }
    {
        self.all[session as usize].closed
    }

    /// A session opens its next request. It takes no memory.
    pub fn start(&mut self, session: u32)
        requires { spec.IsThere self.old session }
        ensures { (at : TheSession) → slice_get self.old session ≡ Some at → self.new ≡ slice_set self.old session (spec.opens at) }
    {
        let at = session as usize;
        let state = self.all[at];
        self.all[at] = opened(state, self.writes);
    }

    /// The open request of a session is granted rows. After want of memory nothing has changed.
    pub fn grab(&mut self, session: u32) -> Result<(), NoMemory>
        requires { spec.IsThere self.old session }
        ensures grabs { OnOk result ((at : TheSession) → slice_get self.old session ≡ Some at → self.new ≡ slice_set self.old session (spec.grants at)) }
        ensures err { OnErr result (self.new ≡ self.old) }
    {
        let at = session as usize;
        let state = granted(self.all[at])?;
        self.all[at] = state;
        Ok(())
    }

    /// The open request of a session begins again. After want of memory nothing has changed.
    pub fn restart(&mut self, session: u32) -> Result<(), NoMemory>
        requires { spec.IsThere self.old session }
        ensures restarts { OnOk result ((at : TheSession) → slice_get self.old session ≡ Some at → self.new ≡ slice_set self.old session (spec.begins_again at)) }
        ensures err { OnErr result (self.new ≡ self.old) }
    {
        let at = session as usize;
        let state = begun_again(self.all[at], self.writes)?;
        self.all[at] = state;
        Ok(())
    }

    /// The open request of a session is closed, and `wrote` says whether it wrote anything, which is news to the open requests
    /// of the others. After want of memory nothing has changed.
    pub fn close(&mut self, session: u32, wrote: bool) -> Result<(), NoMemory>
        requires { spec.IsThere self.old session }
        ensures closes { OnOk result ((at : TheSession) → slice_get self.old session ≡ Some at → self.new ≡ tell wrote session (slice_set self.old session (closing at))) }
        ensures err { OnErr result (self.new ≡ self.old) }
    {
        let at = session as usize;
        let state = closed(self.all[at])?;
        let writes = behind(self.writes, wrote)?;
        self.all[at] = state;
        self.writes = writes;
        Ok(())
    }
}
