// Stores: writes, with ` | ` between them, each the number of a tenant and the changes of a transaction, and what is read
// of a tenant in the end.

use crate::conds::cond_of;
use crate::overlays::{add_row, overlay_of};
use apex_list::Boxed;
use apex_requests::Ticket;
use apex_rows::{Answer, Question};
use record_store::Store;
use std::alloc::{AllocError, Global};

// Takes the changes of a transaction.
fn take(alloc: Global, store: &mut Store, written: &str) -> Result<(), AllocError> {
    let (tenant, changes) = written.split_once(' ').unwrap_or((written, ""));
    let tenant: usize = tenant.parse().unwrap_or(0);
    let ticket = Ticket {
        session: 999_999,
        index: 0,
        user: 0,
        now: 0,
    };
    let writes = overlay_of(alloc, changes)?.into_writes(&ticket)?;
    store.reserve(tenant, &writes)?;
    store.apply(tenant, writes);
    Ok(())
}

fn read(alloc: Global, store: &mut Store, wanted: &str) -> Result<String, AllocError> {
    let (tenant, wanted) = wanted.split_once(' ').unwrap_or((wanted, ""));
    let (object, condition) = wanted.split_once(' ').unwrap_or((wanted, ""));
    let Some(cond) = cond_of(alloc, condition)? else {
        return String::from_str(alloc, "no condition");
    };
    let question = Question::Read {
        object: object.parse().unwrap_or(0),
        cond: Boxed::new(alloc, cond)?,
    };
    match store.answer(tenant.parse().unwrap_or(0), &question)? {
        Answer::Rows(found) => {
            let mut out = String::new(alloc);
            for row in found.as_slice() {
                add_row(alloc, &mut out, row)?;
            }
            Ok(out)
        }
        Answer::Granted => String::from_str(alloc, "granted"),
    }
}

// The rows of an object for which a condition holds, behind some writes.
pub fn stored(alloc: Global, text: &str) -> Result<String, AllocError> {
    let (writes, wanted) = text.split_once(" ; ").unwrap_or((text, ""));
    let mut store = Store::new(alloc);
    for written in writes.split(" | ") {
        take(alloc, &mut store, written)?;
    }
    read(alloc, &mut store, wanted)
}
