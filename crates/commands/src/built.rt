// Which tenants are run so far.

ghost use Rattle.std.specs.Prelude.{◌≡◌};
ghost use Rattle.std.specs.List.{list_all};
ghost use Rattle.commands.specs.Built as spec;

use bundle_read::{RequestEntry, SessionEntry, TenantPlan, WorkEntry};
use schema_plans::{FieldPlan, ObjectPlan, PlanKind, SchemaPlan};

fn is_plain_field(field: &FieldPlan) -> bool
    ensures { result ≡ spec.is_plain_field field.now }
{
    match field.kind {
        PlanKind::Text
        | PlanKind::Number
        | PlanKind::Checkbox
        | PlanKind::Date
        | PlanKind::Datetime
        | PlanKind::Lookup
        | PlanKind::MasterDetail => true,
        PlanKind::Rollup => false,
    }
}

fn are_plain_fields(fields: &[FieldPlan]) -> bool
    ensures { result ≡ list_all spec.is_plain_field fields.now }
{
    fields.iter().all(|field| is_plain_field(field))
}

fn is_plain_object(object: &ObjectPlan) -> bool
    ensures { result ≡ spec.is_plain_object object.now }
{
    are_plain_fields(object.fields.as_slice())
}

fn is_plain_schema(plan: &SchemaPlan) -> bool
    ensures { result ≡ spec.is_plain_schema plan.now }
{
    let objects = plan.objects.as_slice();
    objects.iter().all(|object| is_plain_object(object))
}

fn is_plain_request(request: &RequestEntry) -> bool
    ensures { result ≡ spec.is_plain_request request.entry.now }
{
    match request.work {
        WorkEntry::Apex(_) => true,
        WorkEntry::Save(_) => false,
    }
}

fn is_plain_session(session: &SessionEntry) -> bool
    ensures { result ≡ spec.is_plain_session session.now }
{
    let requests = session.requests.as_slice();
    requests.iter().all(|request| is_plain_request(request))
}

fn are_plain(sessions: &[SessionEntry]) -> bool
    ensures { result ≡ spec.are_plain sessions.now }
{
    sessions.iter().all(|session| is_plain_session(session))
}

/// Whether a tenant is one that is run so far: no field of its objects is rolled up, and the requests of its sessions are blocks.
pub fn is_built(plan: &TenantPlan) -> bool
    ensures { result ≡ spec.is_built plan.now }
{
    is_plain_schema(&plan.schema) && are_plain(plan.sessions.as_slice())
}
