// Which triggers fire.

ghost use Rattle.std.specs.Prelude.{◌≡◌, [], IfOk};
ghost use Rattle.save_firings.specs.Tables.{all_listed, fires, listed};

use crate::table::{Listing, TriggerTable};
use apex_list::{Items, Stack};
use apex_num::NoMemory;
use save_statements::{Act, Trigger};
use std::alloc::Global;
use std::marker::Model;
use std::snapshot::Snapshot;

/// Which triggers fire, which contracts see as the listings that say so. Its table finds those of an event without a walk.
#[derive(Drop)]
pub struct Firings {
    table: TriggerTable,
    listings: Snapshot<Items<Listing>>,
}

impl Model for Firings {
    ghost use Rattle.std.specs.Prelude.{List};
    ghost use Rattle.save_firings.specs.declared.table.Listing.{Listing as OneListing};

    ghost Value = { List OneListing };

    ghost use Rattle.save_firings.specs.Tables.{IsTableOf};

    ghost view = { λ f. f.listings.value };

    ghost invariant = { λ f. IsTableOf f.table f.listings.value };
}

impl Firings {
    /// No trigger fires; takes no memory.
    pub fn none(alloc: Global) -> Firings
        ensures { result ≡ [] }
    {
        let listings = Items::new(alloc);
        Firings {
            table: TriggerTable::none(alloc),
            listings: Snapshot::of(&listings),
        }
    }

    /// The triggers of these listings; those of one event fire in the order of the listings. It takes places for as many objects as
    /// the greatest of their numbers says.
    pub fn new(alloc: Global, listings: Items<Listing>) -> Result<Firings, NoMemory>
        ensures { IfOk result (λ firings. firings ≡ listings) }
    {
        let table = TriggerTable::of(alloc, listings.as_slice())?;
        let listings = Snapshot::of(&listings);
        Ok(Firings { table, listings })
    }

    /// The triggers of an object for an act, before or behind the write, in the order in which they fire. No others are looked at.
    pub fn listed(&self, object: usize, act: Act, before: bool) -> &[Trigger]
        ensures { result.now ≡ all_listed object act before self.now }
    {
        self.table.listed(object, act, before)
    }

    /// Copies of the triggers of an object for an act, before or behind the write, the first on top. No others are looked at.
    pub fn triggers_of(
        &self,
        alloc: Global,
        object: usize,
        act: Act,
        before: bool,
    ) -> Result<Stack<Trigger>, NoMemory>
        ensures { IfOk result (λ triggers. triggers ≡ all_listed object act before self.now) }
    {
        self.table.triggers_of(alloc, object, act, before)
    }

    /// The table of the triggers, which moves of a save look at.
    pub fn table(&self) -> &TriggerTable
        ensures { listed result.now ≡ fires self.now }
    {
        &self.table
    }
}
