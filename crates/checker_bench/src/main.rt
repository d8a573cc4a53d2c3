//! The checker on the units of the last tenant of a bundle on standard input: prints `ok` and how many units there are,
//! or the first fault.
//!
//! With the word `time` it prints the nanoseconds that the check alone took before that.
#![tactic(auto)]

use apex_io::{StdSource, read_all};
use apex_list::Items;
use apex_types::{CheckFault, check};
use bundle_read::{TenantPlan, read_bundle};
use std::alloc::Global;
use std::env;
use std::process::ExitCode;
use std::time::Instant;
use tenant_schema::deploy_schema;
use tenant_units::unit_trees;

// The greatest text that is read.
const MOST_BYTES: usize = 60_000_000;

// The most users that a tenant may have.
const MOST_USERS: usize = 1_000_000;

// The last tenant of a bundle.
fn last_tenant(alloc: Global, bytes: &[u8]) -> Option<TenantPlan> {
    let Ok(bundle) = read_bundle(alloc, bytes) else {
        return None;
    };
    let mut tenants = bundle.tenants.into_vec();
    tenants.pop()
}

fn main(rt: HostRuntime) -> anyhow::Result<ExitCode> {
    let alloc = rt.alloc();
    let timed = env::args(&rt)?.len() > 1;
    let mut source = StdSource::new(rt.stdin());
    let Ok(bytes) = read_all(alloc, &mut source, MOST_BYTES) else {
        return Ok(ExitCode::FAILURE);
    };
    let Some(tenant) = last_tenant(alloc, bytes.as_slice()) else {
        return Ok(ExitCode::FAILURE);
    };
    if tenant.schema.users.len() > MOST_USERS {
        return Ok(ExitCode::FAILURE);
    }
    let Ok(schema) = deploy_schema(alloc, &tenant.schema) else {
        return Ok(ExitCode::FAILURE);
    };
    let Ok(units) = unit_trees(alloc, tenant.units.as_slice()) else {
        return Ok(ExitCode::FAILURE);
    };
    let blocks = Items::new(alloc);
    let start = Instant::now(&rt)?;
    let checked = check(alloc, &schema, units.as_slice(), blocks.as_slice());
    let elapsed = start.elapsed(&rt)?.as_nanos();
    if timed {
        print!(rt; "{elapsed} ")?;
    }
    match checked {
        Ok(_) => println!(rt; "ok {}", units.len())?,
        Err(CheckFault::Wrong(fault)) => {
            println!(rt;
                "unit {} {} {:?}",
                fault.unit, fault.fault.at, fault.fault.word
            )?;
        }
        Err(CheckFault::NoMemory) => return Ok(ExitCode::FAILURE),
    }
    Ok(ExitCode::SUCCESS)
}
