// The text of a run.

ghost use Rattle.std.specs.Prelude.{◌≡◌, ◌≤◌, ◌<◌, ◌+◌, ◌++◌, ◌^◌, length, slice_index_or, OnOk, IfOk};
ghost use Rattle.reply_text.specs.Reports as spec;

use crate::lines::{put_fault, put_number, put_reply};
use apex_list::Items;
use apex_num::{NoMemory, id_18};
use apex_requests::{Event, EventKind};
use bundle_read::{Bundle, RequestEntry, SessionEntry, TenantPlan};
use fault_words::Fault;
use std::alloc::{AllocError, Global};

// What a line begins with.
fn put_head(out: &mut Vec<u8>, number: u64, session: u64, request: u64) -> Result<(), AllocError>
    ensures { OnOk result (out.new.items ≡ out.old.items ++ spec.head_text number session request) }
{
    put_number(out, b"", number)?;
    put_number(out, b" session ", session)?;
    put_number(out, b" request ", request)?;
    out.extend_from_slice(b" ")
}

// The line of an event that closes a request.
fn put_event(out: &mut Vec<u8>, number: u64, request: u32, event: &Event) -> Result<(), AllocError>
    ensures { OnOk result (out.new.items ≡ out.old.items ++ spec.said event.now.kind number event.now.session request) }
{
    let (session, request) = (u64::from(event.session), u64::from(request));
    match &event.kind {
        EventKind::Start(_) | EventKind::Grab | EventKind::Restart => Ok(()),
        EventKind::Refuse { row, holder } => {
            put_head(out, number, session, request)?;
            out.extend_from_slice(b"locked ")?;
            out.extend_from_slice(id_18(row).as_slice())?;
            put_number(out, b" by ", u64::from(*holder))?;
            out.extend_from_slice(b"\n")
        }
        EventKind::End(reply) => {
            put_head(out, number, session, request)?;
            put_reply(out, reply)
        }
    }
}

// The number of the line behind an event.
fn next_number(kind: &EventKind, number: u64) -> u64
    requires { number < 2 ^ 63 }
    ensures { result ≡ spec.next kind.now number }
{
    match kind {
        EventKind::Refuse { .. } | EventKind::End(_) => number + 1,
        EventKind::Start(_) | EventKind::Grab | EventKind::Restart => number,
    }
}

// Has the request that a session opens as its last one.
fn note_start(opened: &mut Vec<u32>, event: &Event)
    ensures { opened.new.items ≡ spec.with_start event.now.kind event.now.session opened.old.items }
{
    if let EventKind::Start(request) = &event.kind {
        if let Some(last) = opened.get_mut(event.session as usize) {
            *last = *request;
        }
    }
}

// The request that a session opened last.
fn opened_in(opened: &[u32], session: u32) -> u32
    ensures { result ≡ slice_index_or opened.now session 0 }
{
    match opened.get(session as usize) {
        Some(request) => *request,
        None => 0,
    }
}

// The lines of a trail of so many sessions.
fn put_trail(
    alloc: Global,
    out: &mut Vec<u8>,
    sessions: usize,
    trail: &[Event],
) -> Result<(), AllocError>
    ensures { OnOk result (out.new.items ≡ out.old.items ++ spec.trail_text 1 (spec.unopened sessions) trail.now) }
{
    let mut opened = vec![in alloc; 0_u32; sessions]?;
    let mut number: u64 = 1;
    'events: for i in 0..trail.len() {
        let event = &trail[i];
        let request = opened_in(&opened, event.session);
        put_event(out, number, request, event)?;
        number = next_number(&event.kind, number);
        note_start(&mut opened, event);
    }
    Ok(())
}

// The line of a request of a tenant that isn't deployed.
fn put_undeployed(
    out: &mut Vec<u8>,
    fault: &Fault,
    number: usize,
    session: usize,
    request: usize,
) -> Result<(), AllocError>
    ensures { OnOk result (out.new.items ≡ out.old.items ++ spec.undeployed_line number session request fault.now) }
{
    put_head(out, number as u64, session as u64, request as u64)?;
    out.extend_from_slice(b"not deployed ")?;
    put_fault(out, fault)?;
    out.extend_from_slice(b"\n")
}

// The lines of a session's requests, from a number on; answers the number of the next line.
fn put_requests(
    out: &mut Vec<u8>,
    fault: &Fault,
    first: usize,
    session: usize,
    requests: &[RequestEntry],
) -> Result<usize, AllocError>
    requires { first ≤ length out.old.items }
    ensures text { OnOk result (out.new.items ≡ out.old.items ++ spec.requests_text first session 0 fault.now requests.now) }
    ensures number { IfOk result (λ n. (n ≡ first + length requests.now) × (n ≤ length out.new.items)) }
{
    let mut number = first;
    'requests: for i in 0..requests.len() {
        put_undeployed(out, fault, number, session, i)?;
        number += 1;
    }
    Ok(number)
}

// The lines of all requests of a tenant that isn't deployed.
fn put_sessions(
    out: &mut Vec<u8>,
    fault: &Fault,
    sessions: &[SessionEntry],
) -> Result<(), AllocError>
    requires { 1 ≤ length out.old.items }
    ensures { OnOk result (out.new.items ≡ out.old.items ++ spec.sessions_text 1 0 fault.now sessions.now) }
{
    let mut number = 1;
    'sessions: for s in 0..sessions.len() {
        number = put_requests(out, fault, number, s, sessions[s].requests.as_slice())?;
    }
    Ok(())
}

// The name of a tenant, and its lines.
fn put_tenant(
    alloc: Global,
    out: &mut Vec<u8>,
    plan: &TenantPlan,
    fault: &Option<Fault>,
    trail: &[Event],
) -> Result<(), AllocError>
    ensures { OnOk result (out.new.items ≡ out.old.items ++ spec.tenant_text plan.now fault.now trail.now) }
{
    out.extend_from_slice(b"tenant ")?;
    out.extend_from_slice(plan.name.bytes())?;
    out.extend_from_slice(b"\n")?;
    match fault {
        None => put_trail(alloc, out, plan.sessions.len(), trail),
        Some(fault) => put_sessions(out, fault, plan.sessions.as_slice()),
    }
}

/// The text of a run of a bundle: for each tenant in its order `tenant NAME`, and behind that a line for each closed request
/// in the order of its trail, numbered from 1, with its debug lines; or, where the tenant has a fault, a line for each of its
/// requests by session and request, which tells that fault.
pub fn report(
    alloc: Global,
    bundle: &Bundle,
    faults: &[Option<Fault>],
    trails: &[Items<Event>],
) -> Result<Vec<u8>, NoMemory>
    requires faults { length faults.now ≡ length bundle.now.tenants }
    requires trails { length trails.now ≡ length bundle.now.tenants }
    ensures { IfOk result (λ text. text.items ≡ spec.report bundle.now.tenants faults.now trails.now) }
{
    let mut out = Vec::new(alloc);
    let tenants = bundle.tenants.as_slice();
    'tenants: for t in 0..tenants.len() {
        put_tenant(
            alloc,
            &mut out,
            &tenants[t],
            &faults[t],
            trails[t].as_slice(),
        )?;
    }
    Ok(out)
}
