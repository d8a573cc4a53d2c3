// Requests whose blocks are checked.

ghost use Rattle.std.specs.Prelude.{◌≡◌, IfOk};
ghost use Rattle.tenant_requests.specs.Requests as spec;

use crate::open::{OpenRequest, OpenSession, OpenWork};
use apex_list::Items;
use apex_num::{NoMemory, Text};
use apex_requests::{Request, Work};
use std::alloc::{AllocError, Global};
use tenant_parts::Session;
use tenant_units::{UnitFault, fault_at};
use type_names::TreeFault;

fn refused(alloc: Global, text: &Text, fault: &TreeFault) -> Result<Work, NoMemory>
    ensures { IfOk result (spec.IsRefused text.now fault.now) }
{
    match fault_at(alloc, "block", text.bytes(), fault.at, fault.word) {
        UnitFault::Wrong(fault) => Ok(Work::Refused(fault)),
        UnitFault::NoMemory => Err(AllocError),
    }
}

fn closed_block(
    alloc: Global,
    faults: &[Option<TreeFault>],
    number: usize,
    text: &Text,
) -> Result<Work, NoMemory>
    ensures { IfOk result (spec.IsJudged faults.now number text.now) }
{
    match faults.get(number) {
        Some(Some(fault)) => refused(alloc, text, fault),
        _ => Ok(Work::Apex(number)),
    }
}

fn closed_work(
    alloc: Global,
    faults: &[Option<TreeFault>],
    work: OpenWork,
) -> Result<Work, NoMemory>
    ensures { IfOk result (spec.IsClosedWork faults.now work) }
{
    match work {
        OpenWork::Known(work) => Ok(work),
        OpenWork::Block(number, text) => closed_block(alloc, faults, number, &text),
    }
}

fn closed_request(
    alloc: Global,
    faults: &[Option<TreeFault>],
    request: OpenRequest,
) -> Result<Request, NoMemory>
    ensures { IfOk result (spec.IsClosed faults.now request) }
{
    let OpenRequest { user, work, now } = request;
    let work = closed_work(alloc, faults, work)?;
    Ok(Request { user, work, now })
}

fn closed_requests(
    alloc: Global,
    faults: &[Option<TreeFault>],
    requests: Items<OpenRequest>,
) -> Result<Items<Request>, NoMemory>
    ensures { IfOk result (spec.AreClosed faults.now requests) }
{
    let mut all = Items::new(alloc);
    for request in requests.into_vec() {
        all.push(closed_request(alloc, faults, request)?)?;
    }
    Ok(all)
}

/// The sessions, where these are the first faults of their blocks, in their order. A block that has one is refused by it,
/// at `block` and its line and column.
pub fn closed_sessions(
    alloc: Global,
    faults: &[Option<TreeFault>],
    sessions: Items<OpenSession>,
) -> Result<Items<Session>, NoMemory>
    ensures { IfOk result (spec.AreClosedSessions faults.now sessions) }
{
    let mut all = Items::new(alloc);
    for session in sessions.into_vec() {
        let OpenSession { requests } = session;
        let requests = closed_requests(alloc, faults, requests)?;
        all.push(Session { requests })?;
    }
    Ok(all)
}
