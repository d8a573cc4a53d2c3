// What guards the things of triggers, and the errors that are added to their records.

ghost use Rattle.std.specs.Prelude.{◌≡◌, IfOk, Option};
ghost use Rattle.std.specs.Option.{option_copied};
ghost use Rattle.txn_heap.specs.Guards as spec;

use crate::heap::Heap;
use crate::thing::{Guard, Ref, Thing};
use apex_num::{NoMemory, Text};

fn guard_in(thing: Option<&Thing>) -> Option<&Guard>
    ensures { option_copied result ≡ spec.guard_in (option_copied thing.entry) }
{
    match thing {
        Some(Thing::Guard(guard)) => Some(guard),
        _ => None,
    }
}

fn takes_cell(guard: Option<&Guard>, field: usize) -> bool
    ensures { result ≡ spec.takes_cell (option_copied guard.entry) field }
{
    match guard {
        None => true,
        Some(Guard::Open(_)) => field != 0,
        Some(_) => false,
    }
}

fn takes_error(guard: Option<&Guard>) -> bool
    ensures { result ≡ spec.takes_error (option_copied guard.entry) }
{
    match guard {
        Some(Guard::Watched(_)) | Some(Guard::Open(_)) => true,
        _ => false,
    }
}

fn copy_error(error: &Option<Text>) -> Result<Option<Text>, NoMemory>
    ensures { IfOk result (λ e. e ≡ error.now) }
{
    match error {
        None => Ok(None),
        Some(message) => Ok(Some(message.copy()?)),
    }
}

fn error_of(guard: Option<&Guard>) -> Result<Option<Text>, NoMemory>
    ensures { IfOk result (λ e. e ≡ spec.error_of (option_copied guard.entry)) }
{
    match guard {
        Some(Guard::Watched(error)) => copy_error(error),
        Some(Guard::Open(error)) => copy_error(error),
        _ => Ok(None),
    }
}

fn keep_first(error: &mut Option<Text>, message: Text)
    ensures { error.new ≡ spec.first_error error.old message }
{
    if error.is_none() {
        *error = Some(message);
    }
}

impl Guard {
    fn add_error(&mut self, message: Text)
        ensures { self.new ≡ spec.guard_with message self.old }
    {
        match self {
            Guard::Fixed => {}
            Guard::Watched(error) => keep_first(error, message),
            Guard::Open(error) => keep_first(error, message),
        }
    }
}

impl Thing {
    /// Takes an error, where it is a guard that takes one and has none.
    pub(crate) fn add_error(&mut self, message: Text)
        ensures { self.new ≡ spec.thing_with message self.old }
    {
        match self {
            Thing::Guard(guard) => guard.add_error(message),
            _ => {}
        }
    }
}

impl Heap {
    /// What guards the thing: the guard that stands right before it, or `None`.
    pub fn guard_of(&self, on: Ref) -> Option<&Guard>
        ensures { option_copied result ≡ spec.guard_of self.now on.place }
    {
        if on.place == 0 {
            return None;
        }
        guard_in(self.get(Ref {
            place: on.place - 1,
        }))
    }

    /// Whether a cell of the record may be set. Of a record of a trigger only one that the trigger may change takes cells, and
    /// none takes its Id; a record that nothing guards takes each.
    pub fn takes_cell(&self, on: Ref, field: usize) -> bool
        ensures { result ≡ spec.takes_cell (spec.guard_of self.now on.place) field }
    {
        takes_cell(self.guard_of(on), field)
    }

    /// Whether an error may be added to the record: it is one of a trigger whose firing isn't over.
    pub fn takes_error(&self, on: Ref) -> bool
        ensures { result ≡ spec.takes_error (spec.guard_of self.now on.place) }
    {
        takes_error(self.guard_of(on))
    }

    /// Whether the list or the map may be changed: nothing guards it.
    pub fn takes_change(&self, on: Ref) -> bool
        ensures { result ≡ spec.takes_change (spec.guard_of self.now on.place) }
    {
        self.guard_of(on).is_none()
    }

    /// A copy of the message of the first error that was added to the record, or `None`. Want of memory is the only error.
    pub fn error_of(&self, on: Ref) -> Result<Option<Text>, NoMemory>
        ensures { IfOk result (λ error. error ≡ spec.error_of (spec.guard_of self.now on.place)) }
    {
        error_of(self.guard_of(on))
    }

    /// Adds an error to the record. The first one stays; where the record takes none, nothing changes.
    pub fn add_error(&mut self, on: Ref, message: Text)
        ensures { self.new ≡ spec.with_error on.place message self.old }
    {
        if on.place > 0 {
            self.add_error_at(on.place - 1, message);
        }
    }
}
