// What a run has of its tenants.

ghost use Rattle.std.specs.Prelude.{◌≡◌, IfOk};
ghost use Rattle.tenant_runs.specs.Steps as spec;

use apex_list::Items;
use apex_num::NoMemory;
use apex_requests::Request;
use attempt_run::Plan;
use compile_unit::compile;
use program_means::laws_of_images;
use stack_code::Image;
use std::alloc::Global;
use std::mem::replace;
use tenant_parts::{Session, TenantPart};

fn copied(alloc: Global, requests: &[Request]) -> Result<Items<Request>, NoMemory>
    ensures { IfOk result (λ copies. copies ≡ requests.now) }
{
    let mut copies = Items::new(alloc);
    'requests: for request in requests {
        copies.push(request.copy()?)?;
    }
    Ok(copies)
}

fn all_copied(alloc: Global, sessions: &[Session]) -> Result<Items<Session>, NoMemory>
    ensures { IfOk result (λ copies. copies ≡ sessions.now) }
{
    let mut copies = Items::new(alloc);
    'sessions: for session in sessions {
        let requests = copied(alloc, session.requests.as_slice())?;
        copies.push(Session { requests })?;
    }
    Ok(copies)
}

// The plan of a tenant: its program compiled, its schema and its sessions.
fn plan_of(alloc: Global, part: &TenantPart) -> Result<Plan, NoMemory>
    ensures { IfOk result (spec.IsPlanned part.now) }
{
    laws_of_images();
    let image = compile(alloc, &part.program)?;
    let schema = part.schema.copy()?;
    let sessions = all_copied(alloc, part.sessions.as_slice())?;
    Ok(Plan {
        schema,
        image,
        sessions,
    })
}

fn planned(alloc: Global, part: &Option<TenantPart>) -> Result<Option<Plan>, NoMemory>
    ensures { IfOk result (spec.IsPlannedBy part.now) }
{
    match part {
        Some(part) => Ok(Some(plan_of(alloc, part)?)),
        None => Ok(None),
    }
}

/// The plans of tenants, none where one isn't deployed.
pub fn plans_of(alloc: Global, parts: &[Option<TenantPart>]) -> Result<Vec<Option<Plan>>, NoMemory>
    ensures { IfOk result (λ plans. spec.ArePlanned parts.now plans.items) }
{
    let mut plans = Vec::new(alloc);
    'parts: for part in parts {
        plans.push(planned(alloc, part)?)?;
    }
    Ok(plans)
}

fn image_in(plan: Option<Plan>) -> Option<Image>
    ensures { result ≡ spec.image_in plan }
{
    match plan {
        Some(Plan { image, .. }) => Some(image),
        None => None,
    }
}

/// The images of plans.
pub fn images_of(alloc: Global, plans: Vec<Option<Plan>>) -> Result<Items<Option<Image>>, NoMemory>
    ensures { IfOk result (λ images. images ≡ spec.images_in plans.items) }
{
    let mut plans = plans;
    let mut images = Items::new(alloc);
    'plans: for t in 0..plans.len() {
        images.push(image_in(replace(&mut plans[t], None)))?;
    }
    Ok(images)
}
