// Which triggers there are.

ghost use Rattle.std.specs.Prelude.{◌≡◌, ◌<◌, ◌&&◌, ◌++◌, ℕ, Bool, [], eqb, cond, length, IfOk, OnOk};
ghost use Rattle.save_statements.specs.declared.pending.Act.{Act as AnAct};
ghost use Rattle.save_firings.specs.Tables as spec;
ghost use Rattle.save_firings.specs.Tables.{listed_at};

use apex_list::{Items, Stack};
use apex_num::NoMemory;
use save_statements::{Act, Trigger};
use std::alloc::Global;
use std::mem;

/// Triggers of an object for an act, before or behind the write, in the order in which they fire.
#[derive(Drop)]
pub struct Listing {
    /// The number of the object.
    pub object: usize,
    pub act: Act,
    pub before: bool,
    pub triggers: Items<Trigger>,
}

/// Which triggers there are: for each event a list of triggers for each object, by its number. An object past the end of a list
/// has none.
#[derive(Drop)]
pub struct TriggerTable {
    pub before_insert: Items<Items<Trigger>>,
    pub after_insert: Items<Items<Trigger>>,
    pub before_update: Items<Items<Trigger>>,
    pub after_update: Items<Items<Trigger>>,
    pub before_delete: Items<Items<Trigger>>,
    pub after_delete: Items<Items<Trigger>>,
}

// A trigger of the same name and number.
fn copied(trigger: &Trigger) -> Result<Trigger, NoMemory>
    ensures { IfOk result (λ t. t ≡ trigger.now) }
{
    Ok(Trigger {
        name: trigger.name.copy()?,
        number: trigger.number,
    })
}

fn same_act(one: Act, other: Act) -> bool
    ensures { result ≡ spec.same_act one other }
{
    match one {
        Act::Inserting => matches!(other, Act::Inserting),
        Act::Updating => matches!(other, Act::Updating),
        Act::Deleting => matches!(other, Act::Deleting),
    }
}

fn same_side(one: bool, other: bool) -> bool
    ensures { result ≡ spec.same_side one other }
{
    if one { other } else { !other }
}

// Whether a listing is for this act and side.
fn is_for(listing: &Listing, act: Act, before: bool) -> bool
    ensures { result ≡ (spec.same_act listing.now.act act && spec.same_side listing.now.before before) }
{
    same_act(listing.act, act) && same_side(listing.before, before)
}

// With empty lists up to the one of an object.
fn grow(alloc: Global, lists: &mut Items<Items<Trigger>>, object: usize) -> Result<(), NoMemory>
    ensures within { OnOk result (object < length lists.new) }
    ensures same { OnOk result ((other : ℕ) → listed_at lists.new other ≡ listed_at lists.old other) }
{
    'more: while lists.len() <= object {
        lists.push(Items::new(alloc))?;
    }
    Ok(())
}

// With copies of triggers behind those that there are.
fn add_copies(list: &mut Items<Trigger>, triggers: &[Trigger]) -> Result<(), NoMemory>
    ensures { OnOk result (list.new ≡ list.old ++ triggers.now) }
{
    for trigger in triggers {
        list.push(copied(trigger)?)?;
    }
    Ok(())
}

// With copies of triggers behind those of an object that has a list.
fn add_within(
    alloc: Global,
    lists: &mut Items<Items<Trigger>>,
    object: usize,
    triggers: &[Trigger],
) -> Result<(), NoMemory>
    requires { object < length lists.old }
    ensures { OnOk result ((other : ℕ) → listed_at lists.new other ≡ listed_at lists.old other ++ cond (eqb object other) triggers.now []) }
{
    let mut all = mem::replace(lists, Items::new(alloc)).into_vec();
    let mut list = mem::replace(&mut all[object], Items::new(alloc));
    add_copies(&mut list, triggers)?;
    all[object] = list;
    *lists = Items::of(all);
    Ok(())
}

// With copies of triggers behind those of an object.
fn add_triggers(
    alloc: Global,
    lists: &mut Items<Items<Trigger>>,
    object: usize,
    triggers: &[Trigger],
) -> Result<(), NoMemory>
    ensures { OnOk result ((other : ℕ) → listed_at lists.new other ≡ listed_at lists.old other ++ cond (eqb object other) triggers.now []) }
{
    grow(alloc, lists, object)?;
    add_within(alloc, lists, object, triggers)
}

// With copies of the triggers of a listing behind those of its object, where it is for this act and side.
fn add_listing(
    alloc: Global,
    act: Act,
    before: bool,
    lists: &mut Items<Items<Trigger>>,
    listing: &Listing,
) -> Result<(), NoMemory>
    ensures { OnOk result ((object : ℕ) → listed_at lists.new object ≡ listed_at lists.old object ++ spec.listed_by object act before listing.now) }
{
    if is_for(listing, act, before) {
        add_triggers(alloc, lists, listing.object, listing.triggers.as_slice())
    } else {
        Ok(())
    }
}

// The triggers of each object for an act, before or behind the write.
fn by_object(
    alloc: Global,
    act: Act,
    before: bool,
    listings: &[Listing],
) -> Result<Items<Items<Trigger>>, NoMemory>
    ensures { IfOk result (λ lists. (object : ℕ) → listed_at lists object ≡ spec.all_listed object act before listings.now) }
{
    let mut lists = Items::new(alloc);
    for listing in listings {
        add_listing(alloc, act, before, &mut lists, listing)?;
    }
    Ok(lists)
}

// Copies of triggers, the first on top.
fn stacked(alloc: Global, triggers: &[Trigger]) -> Result<Stack<Trigger>, NoMemory>
    ensures { IfOk result (λ stack. stack ≡ triggers.now) }
{
    let mut stack = Stack::new(alloc);
    let mut i = triggers.len();
    'back: while i > 0 {
        i -= 1;
        stack.push(copied(&triggers[i])?)?;
    }
    Ok(stack)
}

// The lists before the write, or those behind it.
fn either<'t>(
    before: bool,
    first: &'t Items<Items<Trigger>>,
    second: &'t Items<Items<Trigger>>,
) -> &'t Items<Items<Trigger>>
    ensures { result.now ≡ cond before first.now second.now }
{
    if before { first } else { second }
}

impl TriggerTable {
    /// No triggers; takes no memory.
    pub fn none(alloc: Global) -> TriggerTable
        ensures { (object : ℕ) (act : AnAct) (before : Bool) → spec.listed result object act before ≡ [] }
    {
        TriggerTable {
            before_insert: Items::new(alloc),
            after_insert: Items::new(alloc),
            before_update: Items::new(alloc),
            after_update: Items::new(alloc),
            before_delete: Items::new(alloc),
            after_delete: Items::new(alloc),
        }
    }

    /// The triggers of these listings; those of one event are in the order of the listings. It takes places for as many objects as
    /// the greatest of their numbers says.
    pub fn of(alloc: Global, listings: &[Listing]) -> Result<TriggerTable, NoMemory>
        ensures { IfOk result (λ table. (object : ℕ) (act : AnAct) (before : Bool) → spec.listed table object act before ≡ spec.all_listed object act before listings.now) }
    {
        Ok(TriggerTable {
            before_insert: by_object(alloc, Act::Inserting, true, listings)?,
            after_insert: by_object(alloc, Act::Inserting, false, listings)?,
            before_update: by_object(alloc, Act::Updating, true, listings)?,
            after_update: by_object(alloc, Act::Updating, false, listings)?,
            before_delete: by_object(alloc, Act::Deleting, true, listings)?,
            after_delete: by_object(alloc, Act::Deleting, false, listings)?,
        })
    }

    // The triggers of each object for an act, before or behind the write.
    fn lists(&self, act: Act, before: bool) -> &Items<Items<Trigger>>
        ensures { result.now ≡ spec.lists self.now act before }
    {
        match act {
            Act::Inserting => either(before, &self.before_insert, &self.after_insert),
            Act::Updating => either(before, &self.before_update, &self.after_update),
            Act::Deleting => either(before, &self.before_delete, &self.after_delete),
        }
    }

    /// The triggers of an object for an act, before or behind the write, in the order in which they fire. No others are looked at.
    pub fn listed(&self, object: usize, act: Act, before: bool) -> &[Trigger]
        ensures { result.now ≡ spec.listed self.now object act before }
    {
        match self.lists(act, before).get(object) {
            Some(triggers) => triggers.as_slice(),
            None => &[],
        }
    }

    /// Copies of the triggers of an object for an act, before or behind the write, the first on top. No others are looked at.
    pub fn triggers_of(
        &self,
        alloc: Global,
        object: usize,
        act: Act,
        before: bool,
    ) -> Result<Stack<Trigger>, NoMemory>
        ensures { IfOk result (λ triggers. triggers ≡ spec.listed self.now object act before) }
    {
        stacked(alloc, self.listed(object, act, before))
    }
}
