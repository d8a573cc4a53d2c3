// Parts and their faults.

ghost use Rattle.std.specs.Prelude.{◌≡◌, ◌<◌, ◌≤◌, map, length, IfOk, MatchResult};
ghost use Rattle.tenant_requests.specs.Requests.{AreClosedSessions};
ghost use Rattle.tenant_sessions.specs.Users.{AreUsers};
ghost use Rattle.tenant_units.specs.Trees.{AreUnits};
ghost use Rattle.tenant_front.specs.Parts as spec;

use crate::fault::FrontFault;
use apex_list::Items;
use apex_num::NoMemory;
use apex_rows::Row;
use apex_schema::Schema;
use apex_syntax::Unit;
use apex_types::{CheckFault, TypeFault, check};
use bundle_read::{TenantPlan, UnitPlan};
use record_words::SchemaPlaces;
use seed_rows::seed_rows;
use std::alloc::Global;
use tenant_parts::{Program, Session, TenantPart};
use tenant_requests::{OpenSession, closed_sessions, open_sessions};
use tenant_schema::deploy_schema;
use tenant_sessions::session_users;
use tenant_units::{fault_at, unit_trees};
use type_names::TreeFault;
use typed_program::TypedStmt;

// The fault of a unit, at its name.
fn told(alloc: Global, units: &[UnitPlan], fault: &TypeFault) -> FrontFault
    requires { fault.now.unit < length units.now }
    ensures { spec.IsTold units.now fault.now result }
{
    let Some(unit) = units.get(fault.unit) else {
        unreachable!()
    };
    let (name, text) = (unit.name.as_str(), unit.text.bytes());
    fault_at(alloc, name, text, fault.fault.at, fault.fault.word).into()
}

fn program_of(
    alloc: Global,
    schema: &Schema,
    plans: &[UnitPlan],
    units: &[Unit],
    blocks: &[Unit],
) -> Result<Program, FrontFault>
    requires { AreUnits plans.now units.now }
    ensures { MatchResult result (spec.IsProgram schema.now units.now blocks.now) (spec.NoProgram schema.now plans.now units.now) }
{
    match check(alloc, schema, units, blocks) {
        Ok(program) => Ok(program),
        Err(CheckFault::Wrong(fault)) => Err(told(alloc, plans, &fault)),
        Err(CheckFault::NoMemory) => Err(FrontFault::NoMemory),
    }
}

fn fault_of(block: &Result<Items<TypedStmt>, TreeFault>) -> Option<TreeFault>
    ensures { result ≡ spec.fault_of block.now }
{
    match block {
        Ok(_) => None,
        Err(fault) => Some(*fault),
    }
}

fn faults_of(
    alloc: Global,
    blocks: &[Result<Items<TypedStmt>, TreeFault>],
) -> Result<Items<Option<TreeFault>>, NoMemory>
    ensures { IfOk result (λ all. all ≡ map spec.fault_of blocks.now) }
{
    let mut all = Items::new(alloc);
    for block in blocks {
        all.push(fault_of(block))?;
    }
    Ok(all)
}

// What a tenant has of a schema.
#[derive(Drop)]
struct Rest {
    program: Program,
    seed: Items<Row>,
    sessions: Items<Session>,
}

// The sessions, behind the check of their blocks.
fn sessions_of(
    alloc: Global,
    program: &Program,
    sessions: Items<OpenSession>,
) -> Result<Items<Session>, NoMemory>
    ensures { IfOk result (AreClosedSessions (map spec.fault_of program.now.blocks) sessions) }
{
    let faults = faults_of(alloc, program.blocks.as_slice())?;
    closed_sessions(alloc, faults.as_slice(), sessions)
}

// Everything but the schema.
fn rest_of(
    alloc: Global,
    plan: &TenantPlan,
    schema: &Schema,
    users: &[usize],
    units: &[Unit],
) -> Result<Rest, FrontFault>
    requires users { AreUsers plan.now.schema.users plan.now.sessions users.now }
    requires units { AreUnits plan.now.units units.now }
    requires few { length schema.now.users ≤ 1000000 }
    ensures { MatchResult result (λ r. spec.IsRest plan.now schema.now users.now units.now r.program r.seed r.sessions) (spec.NoRest plan.now schema.now units.now) }
{
    let places = SchemaPlaces::of(alloc, schema)?;
    let opened = open_sessions(alloc, &places, users, plan.sessions.as_slice())?;
    let blocks = opened.blocks.as_slice();
    let program = program_of(alloc, schema, plan.units.as_slice(), units, blocks)?;
    let seed = seed_rows(alloc, &places, plan.seed.as_slice())?;
    let sessions = sessions_of(alloc, &program, opened.sessions)?;
    Ok(Rest {
        program,
        seed: Items::of(seed),
        sessions,
    })
}

/// What a tenant of a bundle is; or its first fault, in this order: that of its schema, of its rules, of the users of its
/// sessions, of the texts of its units in their order, of their code in their order, of its seed.
pub fn front(alloc: Global, plan: &TenantPlan) -> Result<TenantPart, FrontFault>
    requires { length plan.now.schema.users ≤ 1000000 }
    ensures { MatchResult result (spec.IsPart plan.now) (spec.NoPart plan.now) }
{
    let schema = deploy_schema(alloc, &plan.schema)?;
    let users = plan.schema.users.as_slice();
    let users = session_users(alloc, users, plan.sessions.as_slice())?;
    let units = unit_trees(alloc, plan.units.as_slice())?;
    let rest = rest_of(alloc, plan, &schema, users.as_slice(), units.as_slice())?;
    let Rest {
        program,
        seed,
        sessions,
    } = rest;
    Ok(TenantPart {
        schema,
        program,
        seed,
        sessions,
    })
}
