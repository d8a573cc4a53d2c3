// The records of a trigger that threw.

ghost use Rattle.std.specs.Prelude.{◌≡◌, Some, IfOk};
ghost use Rattle.platform_errors.specs.declared.record.RecordError.TheVariants as Error;
ghost use Rattle.save_meaning.specs.Drafts.{or_later};
ghost use Rattle.save_statements.specs.Firings as spec;
ghost use Rattle.save_firings.specs.Steps.{thrown_one};

use apex_list::Items;
use apex_num::{NoMemory, Text};
use platform_errors::RecordError;
use save_statements::Entry;
use std::alloc::Global;

// The error of a record whose trigger threw.
fn in_trigger(name: &Text, class: &Text, message: &Text) -> Result<RecordError, NoMemory>
    ensures { IfOk result (λ e. e ≡ Error.InTrigger name.now class.now message.now) }
{
    let name = name.copy()?;
    let class = class.copy()?;
    let message = message.copy()?;
    Ok(RecordError::InTrigger(name, class, message))
}

// The first error stays.
fn or_thrown(
    error: Option<RecordError>,
    name: &Text,
    class: &Text,
    message: &Text,
) -> Result<Option<RecordError>, NoMemory>
    ensures { IfOk result (λ e. e ≡ or_later error (Some (Error.InTrigger name.now class.now message.now))) }
{
    match error {
        Some(first) => Ok(Some(first)),
        None => Ok(Some(in_trigger(name, class, message)?)),
    }
}

fn throw_one(name: &Text, class: &Text, message: &Text, entry: Entry) -> Result<Entry, NoMemory>
    ensures { IfOk result (λ one. one ≡ thrown_one (Error.InTrigger name.now class.now message.now) entry) }
{
    match entry {
        Entry::Inside(pending, error) => Ok(Entry::Inside(
            pending,
            or_thrown(error, name, class, message)?,
        )),
        Entry::Outside(error) => Ok(Entry::Outside(error)),
    }
}

/// The records of a trigger that threw an exception of a class with a message: each without an error has this one.
pub fn threw(
    alloc: Global,
    name: &Text,
    class: &Text,
    message: &Text,
    entries: Items<Entry>,
) -> Result<Items<Entry>, NoMemory>
    ensures { IfOk result (λ after. after ≡ spec.thrown_in (Error.InTrigger name.now class.now message.now) entries) }
{
    let mut after = Items::new(alloc);
    for entry in entries.into_vec() {
        after.push(throw_one(name, class, message, entry)?)?;
    }
    Ok(after)
}
