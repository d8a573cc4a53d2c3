// Units, seed entries, requests and sessions.

ghost use Rattle.std.specs.Prelude.{◌≡◌};
ghost use Rattle.bundle_read.specs.Bundles as bundle;
ghost use Rattle.bundle_read.specs.Readings as spec;
ghost use Rattle.bundle_read.specs.Readings.{Tells};
ghost use Rattle.serde_json.specs.View.{view};

use crate::entries::{RequestEntry, SaveEntry, SeedEntry, SessionEntry, UnitPlan, WorkEntry};
use crate::fault::{BundleFault, wrong};
use crate::lists::{keyed, needed_list};
use crate::read::{Entry, needed, optional, within_key};
use crate::rows::needed_rows;
use apex_num::Text;
use fault_words::FaultWord;
use serde_json::Value;
use std::alloc::Global;

impl Entry for UnitPlan {
    ghost use Rattle.bundle_read.specs.Bundles as bundle;

    ghost reads = { bundle.unit };

    fn read(alloc: Global, value: &Value) -> Result<UnitPlan, BundleFault> {
        keyed(alloc, value, &["name", "text"])?;
        let name = needed(alloc, value, "name")?;
        let text = needed(alloc, value, "text")?;
        Ok(UnitPlan { name, text })
    }
}

impl Entry for SeedEntry {
    ghost use Rattle.bundle_read.specs.Bundles as bundle;

    ghost reads = { bundle.seed_entry };

    fn read(alloc: Global, value: &Value) -> Result<SeedEntry, BundleFault> {
        keyed(alloc, value, &["object", "rows"])?;
        let object = needed(alloc, value, "object")?;
        let rows = needed_rows(alloc, value)?;
        Ok(SeedEntry { object, rows })
    }
}

impl Entry for SaveEntry {
    ghost use Rattle.bundle_read.specs.Bundles as bundle;

    ghost reads = { bundle.save };

    fn read(alloc: Global, value: &Value) -> Result<SaveEntry, BundleFault> {
        keyed(alloc, value, &["op", "object", "allOrNone", "rows"])?;
        let op = needed(alloc, value, "op")?;
        let object = needed(alloc, value, "object")?;
        let all_or_none = needed(alloc, value, "allOrNone")?;
        let rows = needed_rows(alloc, value)?;
        Ok(SaveEntry {
            op,
            object,
            all_or_none,
            rows,
        })
    }
}

fn apex(alloc: Global, value: &Value) -> Result<WorkEntry, BundleFault>
    ensures { Tells result (bundle.apex_work (view value.now)) }
{
    Ok(WorkEntry::Apex(Text::read(alloc, value)?))
}

fn save(alloc: Global, value: &Value) -> Result<WorkEntry, BundleFault>
    ensures { Tells result (bundle.save_work (view value.now)) }
{
    Ok(WorkEntry::Save(SaveEntry::read(alloc, value)?))
}

// What a request does, of what its two keys say.
fn work_of(
    alloc: Global,
    block: Option<&Value>,
    rows: Option<&Value>,
) -> Result<WorkEntry, BundleFault>
    ensures { Tells result (bundle.work (spec.option_view block.entry) (spec.option_view rows.entry)) }
{
    match (block, rows) {
        (Some(block), None) => within_key(alloc, "apex", apex(alloc, block)),
        (None, Some(rows)) => within_key(alloc, "save", save(alloc, rows)),
        _ => Err(wrong(alloc, FaultWord::BadValue)),
    }
}

fn or_then(now: Option<i64>) -> i64
    ensures { result ≡ bundle.or_then now }
{
    match now {
        Some(now) => now,
        None => 946_684_800,
    }
}

impl Entry for RequestEntry {
    ghost use Rattle.bundle_read.specs.Bundles as bundle;

    ghost reads = { bundle.request };

    fn read(alloc: Global, value: &Value) -> Result<RequestEntry, BundleFault> {
        keyed(alloc, value, &["apex", "save", "now"])?;
        let work = work_of(alloc, value.get("apex"), value.get("save"))?;
        let now = optional(alloc, value, "now")?;
        Ok(RequestEntry {
            work,
            now: or_then(now),
        })
    }
}

impl Entry for SessionEntry {
    ghost use Rattle.bundle_read.specs.Bundles as bundle;

    ghost reads = { bundle.session };

    fn read(alloc: Global, value: &Value) -> Result<SessionEntry, BundleFault> {
        keyed(alloc, value, &["user", "requests"])?;
        let user = needed(alloc, value, "user")?;
        let requests = needed_list(alloc, value, "requests", 10_000)?;
        Ok(SessionEntry { user, requests })
    }
}
