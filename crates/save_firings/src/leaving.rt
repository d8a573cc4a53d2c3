// The records as a trigger left them.

ghost use Rattle.std.specs.Prelude.{◌≡◌, ◌∷◌, List, IfOk};
ghost use Rattle.save_meaning.specs.Drafts.{or_later};
ghost use Rattle.save_statements.specs.Firings as spec;
ghost use Rattle.save_statements.specs.declared.firing.Entry.{Entry as AnEntry};
ghost use Rattle.save_statements.specs.declared.firing.Entry.TheVariants as E;

use crate::throwing::threw;
use apex_list::{Boxed, Items, Stack};
use apex_num::{Cell, NoMemory, Text};
use apex_rows::Row;
use platform_errors::RecordError;
use save_statements::{Entry, Fired, Left, Pending, Trigger};
use std::alloc::Global;

// The message that a trigger added is an error.
fn custom(message: Option<Text>) -> Option<RecordError>
    ensures { result ≡ spec.custom message }
{
    match message {
        Some(message) => Some(RecordError::Custom(message)),
        None => None,
    }
}

// The first error stays.
fn or_custom(error: Option<RecordError>, message: Option<Text>) -> Option<RecordError>
    ensures { result ≡ or_later error (spec.custom message) }
{
    match error {
        Some(first) => Some(first),
        None => custom(message),
    }
}

// The cells of a row as a trigger left it. The first one stays; where the trigger left none, all do.
fn cells_left(was: Items<Cell>, left: Items<Cell>) -> Items<Cell>
    ensures { result ≡ spec.cells_left was left }
{
    if was.is_empty() || left.is_empty() {
        return was;
    }
    let mut cells = left;
    cells.set(0, was.into_vec().swap_remove(0));
    cells
}

// A row as a trigger left it: its object and its Id stay.
fn row_left(was: Row, left: Row) -> Row
    ensures { result ≡ spec.row_left was left }
{
    let Row { object, id, cells } = was;
    let cells = cells_left(cells, left.cells);
    Row { object, id, cells }
}

// A record with its row as a trigger left it.
fn with_row(pending: Boxed<Pending>, left: Row) -> Result<Boxed<Pending>, NoMemory>
    ensures { IfOk result (λ p. p ≡ record pending { row = spec.row_left pending.row left }) }
{
    let alloc = pending.allocator();
    let Pending {
        row,
        old,
        seen,
        under,
    } = pending.into_value();
    let row = row_left(row, left);
    Boxed::new(
        alloc,
        Pending {
            row,
            old,
            seen,
            under,
        },
    )
}

// A record as a trigger left it.
fn left_so(
    pending: Boxed<Pending>,
    error: Option<RecordError>,
    one: Left,
) -> Result<Entry, NoMemory>
    ensures { IfOk result (λ entry. entry ≡ E.Inside (record pending { row = spec.row_left pending.row one.row }) (or_later error (spec.custom one.message))) }
{
    let Left { row, message } = one;
    let error = or_custom(error, message);
    Ok(Entry::Inside(with_row(pending, row)?, error))
}

// A record that is inside takes what the trigger left first.
fn leave_inside(
    left: &mut Stack<Left>,
    pending: Boxed<Pending>,
    error: Option<RecordError>,
) -> Result<Entry, NoMemory>
    ensures { IfOk result (λ one. (es : List AnEntry) → spec.all_left left.old (E.Inside pending error ∷ es) ≡ one ∷ spec.all_left left.new es) }
{
    match left.pop() {
        Some(one) => left_so(pending, error, one),
        None => Ok(Entry::Inside(pending, error)),
    }
}

fn leave_one(left: &mut Stack<Left>, entry: Entry) -> Result<Entry, NoMemory>
    ensures { IfOk result (λ one. (es : List AnEntry) → spec.all_left left.old (entry ∷ es) ≡ one ∷ spec.all_left left.new es) }
{
    match entry {
        Entry::Inside(pending, error) => leave_inside(left, pending, error),
        Entry::Outside(error) => Ok(Entry::Outside(error)),
    }
}

// What a trigger left, the first on top.
fn stacked(alloc: Global, left: Items<Left>) -> Result<Stack<Left>, NoMemory>
    ensures { IfOk result (λ stack. stack ≡ left) }
{
    let mut left = left;
    let mut stack = Stack::new(alloc);
    while let Some(one) = left.pop() {
        stack.push(one)?;
    }
    Ok(stack)
}

// The records as a trigger left them; the first error of each stays.
fn leave_all(
    alloc: Global,
    left: Items<Left>,
    entries: Items<Entry>,
) -> Result<Items<Entry>, NoMemory>
    ensures { IfOk result (λ after. after ≡ spec.all_left left entries) }
{
    let mut left = stacked(alloc, left)?;
    let mut after = Items::new(alloc);
    for entry in entries.into_vec() {
        after.push(leave_one(&mut left, entry)?)?;
    }
    Ok(after)
}

/// The records behind the firing of a trigger, by what it came to. The rows that it left are moved. The first error of a record
/// stays; where the trigger threw, that is the error of each record that has none.
pub fn fired(
    alloc: Global,
    trigger: &Trigger,
    outcome: Fired,
    entries: Items<Entry>,
) -> Result<Items<Entry>, NoMemory>
    ensures { IfOk result (λ after. after ≡ spec.fired trigger.now outcome entries) }
{
    match outcome {
        Fired::Ran(left) => leave_all(alloc, left, entries),
        Fired::Threw(class, message, left) => {
            let after = leave_all(alloc, left, entries)?;
            threw(alloc, &trigger.name, &class, &message, after)
        }
    }
}
