// Which triggers fire on what.

ghost use Rattle.std.specs.Prelude.{◌≡◌, ◌++◌, map, IfOk, OnOk};
ghost use Rattle.apex_meaning.specs.Firings as spec;
ghost use Rattle.query_rows.specs.Orders.{sorted_in};
ghost use Rattle.compile_unit.specs.Ranks.{numbered_of, ranks_order};

use apex_list::Items;
use apex_num::NoMemory;
use apex_syntax::EventOp;
use save_firings::{Firings, Listing};
use save_statements::{Act, Trigger};
use std::alloc::Global;
use std::cmp::Ordering;
use typed_program::{Program, TypedEvent, TypedTrigger};

/// A trigger with its number.
#[derive(Drop)]
pub struct Ranked<'a> {
    pub number: usize,
    pub trigger: &'a TypedTrigger,
}

fn numbered(alloc: Global, triggers: &[TypedTrigger]) -> Result<Vec<Ranked>, NoMemory>
    ensures { IfOk result (λ all. map numbered_of all.items ≡ spec.numbered 0 triggers.now) }
{
    let mut all = Vec::new(alloc);
    for number in 0..triggers.len() {
        let trigger = &triggers[number];
        all.push(Ranked { number, trigger })?;
    }
    Ok(all)
}

fn order(a: &Ranked, b: &Ranked) -> Ordering
    ensures { result ≡ ranks_order a.now b.now }
{
    a.trigger.folded.bytes().cmp(&b.trigger.folded.bytes())
}

// Puts triggers in the order of their folded names.
fn sort(triggers: &mut Vec<Ranked>) -> Result<(), NoMemory>
    ensures { OnOk result (triggers.new.items ≡ sorted_in ranks_order triggers.old.items) }
{
    triggers.sort_by(|a, b| order(a, b))
}

fn act_of(op: EventOp) -> Act
    ensures { result ≡ spec.act_of op }
{
    match op {
        EventOp::Insert => Act::Inserting,
        EventOp::Update => Act::Updating,
        EventOp::Delete => Act::Deleting,
    }
}

fn listing(alloc: Global, ranked: &Ranked, event: TypedEvent) -> Result<Listing, NoMemory>
    ensures { IfOk result (λ one. one ≡ spec.listing (numbered_of ranked.now) event) }
{
    let mut triggers = Items::new(alloc);
    triggers.push(Trigger {
        name: ranked.trigger.name.copy()?,
        number: ranked.number,
    })?;
    Ok(Listing {
        object: ranked.trigger.object,
        act: act_of(event.op),
        before: !event.after,
        triggers,
    })
}

// A trigger at each of its events, behind others.
fn add_listings(all: &mut Items<Listing>, alloc: Global, ranked: &Ranked) -> Result<(), NoMemory>
    ensures { OnOk result (all.new ≡ all.old ++ map (spec.listing (numbered_of ranked.now)) ranked.now.trigger.now.events) }
{
    for event in ranked.trigger.events.as_slice() {
        all.push(listing(alloc, ranked, *event)?)?;
    }
    Ok(())
}

fn listings(alloc: Global, triggers: &[Ranked]) -> Result<Items<Listing>, NoMemory>
    ensures { IfOk result (λ all. all ≡ spec.listings_of (map numbered_of triggers.now)) }
{
    let mut all = Items::new(alloc);
    for ranked in triggers {
        add_listings(&mut all, alloc, ranked)?;
    }
    Ok(all)
}

/// What the triggers of a program fire on, in the order of their folded names; those of one name, which a checked program
/// doesn't have, in that of their units.
#[tactic(auto, using(crate::proofs::Ranks::in_order))]
pub fn firings_of(alloc: Global, program: &Program) -> Result<Firings, NoMemory>
    ensures { IfOk result (λ firings. firings ≡ spec.listings program.now) }
{
    let mut triggers = numbered(alloc, program.triggers.as_slice())?;
    sort(&mut triggers)?;
    let listings = listings(alloc, triggers.as_slice())?;
    Firings::new(alloc, listings)
}
