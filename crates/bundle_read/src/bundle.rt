// Tenants and bundles.

ghost use Rattle.std.specs.Prelude.{◌≡◌, []};
ghost use Rattle.std.specs.List.{list_all};
ghost use Rattle.bundle_read.specs.Bundles as bundle;
ghost use Rattle.bundle_read.specs.Words as words;
ghost use Rattle.bundle_read.specs.Readings as spec;
ghost use Rattle.bundle_read.specs.Readings.{Tells};
ghost use Rattle.serde_json.specs.View.{view, items_view};

use crate::entries::{Bundle, TenantPlan};
use crate::fault::{BundleFault, wrong};
use crate::lists::{keyed, needed_list, or_empty, short, slice_in};
use crate::read::{Entry, at_item, needed, optional, within_key};
use crate::schema::schema;
use crate::taken::Taken;
use apex_list::Items;
use apex_num::Text;
use fault_words::FaultWord;
use serde_json::Value;
use std::alloc::Global;

fn is_name_byte(b: u8) -> bool
    ensures { result ≡ words.is_name_byte b }
{
    (96 < b && b < 123) || (47 < b && b < 58) || b == 95
}

fn are_name_bytes(name: &[u8]) -> bool
    ensures { result ≡ list_all words.is_name_byte name.now }
{
    for b in name {
        if !is_name_byte(*b) {
            return false;
        }
    }
    true
}

fn is_tenant_name(name: &[u8]) -> bool
    ensures { result ≡ words.is_tenant_name name.now }
{
    0 < name.len() && name.len() < 65 && are_name_bytes(name)
}

// A text that may be a tenant's name, behind tenants with these names.
fn new_name(alloc: Global, taken: &Taken, name: Text) -> Result<Text, BundleFault>
    ensures { Tells result (bundle.named taken.now.list.items name) }
{
    if !is_tenant_name(name.bytes()) {
        return Err(wrong(alloc, FaultWord::BadValue));
    }
    if taken.has(&name) {
        return Err(wrong(alloc, FaultWord::Duplicate));
    }
    Ok(name)
}

fn tenant_name(alloc: Global, taken: &Taken, value: &Value) -> Result<Text, BundleFault>
    ensures { Tells result (bundle.tenant_name taken.now.list.items (view value.now)) }
{
    let name = Text::read(alloc, value)?;
    new_name(alloc, taken, name)
}

fn found_name(alloc: Global, taken: &Taken, value: Option<&Value>) -> Result<Text, BundleFault>
    ensures { Tells result (spec.found (bundle.tenant_name taken.now.list.items) (spec.option_view value.entry)) }
{
    match value {
        Some(value) => tenant_name(alloc, taken, value),
        None => Err(wrong(alloc, FaultWord::Missing)),
    }
}

const TENANT_KEYS: [&str; 7] = [
    "name", "roles", "users", "objects", "units", "seed", "sessions",
];

// A tenant behind others with these names.
fn tenant(alloc: Global, taken: &Taken, value: &Value) -> Result<TenantPlan, BundleFault>
    ensures { Tells result (bundle.tenant taken.now.list.items (view value.now)) }
{
    keyed(alloc, value, &TENANT_KEYS)?;
    let name = within_key(alloc, "name", found_name(alloc, taken, value.get("name")))?;
    let schema = schema(alloc, value)?;
    let units = needed(alloc, value, "units")?;
    let seed = optional(alloc, value, "seed")?;
    let sessions = needed_list(alloc, value, "sessions", 10_000)?;
    Ok(TenantPlan {
        name,
        schema,
        units,
        seed: or_empty(alloc, seed),
        sessions,
    })
}

fn each_tenant(alloc: Global, list: &[Value]) -> Result<Items<TenantPlan>, BundleFault>
    ensures { Tells result (bundle.each_tenant [] 0 (items_view list.now)) }
{
    let mut taken = Taken::new(alloc);
    let mut all = Items::new(alloc);
    'tenants: for i in 0..list.len() {
        match tenant(alloc, &taken, &list[i]) {
            Ok(one) => {
                taken = taken.with(&one.name)?;
                all.push(one)?;
            }
            Err(fault) => return Err(at_item(alloc, i, fault)),
        }
    }
    Ok(all)
}

fn tenants(alloc: Global, value: &Value) -> Result<Items<TenantPlan>, BundleFault>
    ensures { Tells result (bundle.tenants (view value.now)) }
{
    let list = slice_in(alloc, value)?;
    short(alloc, list, Some(1_000))?;
    each_tenant(alloc, list)
}

fn found_tenants(alloc: Global, value: Option<&Value>) -> Result<Items<TenantPlan>, BundleFault>
    ensures { Tells result (spec.found bundle.tenants (spec.option_view value.entry)) }
{
    match value {
        Some(value) => tenants(alloc, value),
        None => Err(wrong(alloc, FaultWord::Missing)),
    }
}

/// The bundle that a JSON value says.
pub fn bundle(alloc: Global, value: &Value) -> Result<Bundle, BundleFault>
    ensures { Tells result (bundle.bundle (view value.now)) }
{
    keyed(alloc, value, &["version", "tenants"])?;
    let version = needed(alloc, value, "version")?;
    let tenants = within_key(alloc, "tenants", found_tenants(alloc, value.get("tenants")))?;
    Ok(Bundle { version, tenants })
}
