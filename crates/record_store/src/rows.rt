// The rows of one tenant.

ghost use Rattle.std.specs.Prelude.{◌≡◌, ◌&&◌, eqb, [], ◌∷◌, Some, OnOk, IfOk};
ghost use Rattle.std.specs.BTreeMap.{is_at};
ghost use Rattle.std.specs.List.Sorted.{IsStrictlySortedBy};
ghost use Rattle.std.specs.Map.{keys_of, set_value};
ghost use Rattle.row_meaning.specs.Cells.{bytes_cmp};
ghost use Rattle.row_meaning.specs.Conds.{own_value};
ghost use Rattle.row_conditions.specs.Prepared.{prepared_holds};
ghost use Rattle.row_meaning.specs.Stores.{answer, put, taken, without};
ghost use Rattle.record_store.specs.Places.{HasPlace, HasRoom, Stay, answer_to, rows_of};

use apex_list::Items;
use apex_num::{Id, NoMemory};
use apex_rows::{Answer, Cond, Question, Row, Writes};
use row_conditions::{PreparedCond, prepare};
use std::alloc::{AllocError, Global};
use std::collections::BTreeMap;
use std::marker::Model;

/// The rows of a tenant in rising order of their Ids, with places for rows that are to come.
#[derive(Drop)]
pub struct TenantRows {
    alloc: Global,
    places: BTreeMap<Id, Option<Row>>,
}

impl Model for TenantRows {
    ghost use Rattle.std.specs.Prelude.{ℕ, List, Option};
    ghost use Rattle.apex_rows.specs.declared.row.Row.{Row};
    ghost use Rattle.record_store.specs.Places.{IsKeyed};

    ghost Value = { List (List ℕ × Option Row) };

    ghost view = { λ t. t.places.entries };

    ghost invariant = { λ t. IsKeyed t.places.entries };
}

// Whether a row is one of an object for which a condition holds.
fn is_answer(alloc: Global, object: usize, cond: &PreparedCond, row: &Row) -> Result<bool, NoMemory>
    ensures { IfOk result (λ found. found ≡ (eqb row.now.object object && prepared_holds (own_value row.now) cond.now)) }
{
    if row.object != object {
        return Ok(false);
    }
    cond.holds(alloc, row)
}

// Writes a row into the place of an Id, where there is one.
fn write(places: &mut BTreeMap<Id, Option<Row>>, id: &Id, row: Row)
    ensures entries { places.new.entries ≡ set_value (is_at (bytes_cmp id.now)) places.old.entries (Some row) }
    ensures keys { keys_of places.new.entries ≡ keys_of places.old.entries }
    ensures rising { IsStrictlySortedBy bytes_cmp (keys_of places.new.entries) }
{
    if let Some(slot) = places.get_mut(id) {
        *slot = Some(row);
    }
}

impl TenantRows {
    /// No rows; takes no memory.
    pub fn new(alloc: Global) -> TenantRows
        ensures { result ≡ [] }
    {
        TenantRows {
            alloc,
            places: BTreeMap::new(alloc),
        }
    }

    fn read(&self, object: usize, cond: &Cond) -> Result<Items<Row>, NoMemory>
        ensures { IfOk result (λ rows. rows ≡ answer (rows_of self.now) object cond.now) }
    {
        let prepared = prepare(self.alloc, &[], cond)?;
        let mut rows = Items::new(self.alloc);
        for (_, slot) in &self.places {
            if let Some(row) = slot {
                if is_answer(self.alloc, object, &prepared, row)? {
                    rows.push(row.copy()?)?;
                }
            }
        }
        Ok(rows)
    }

    /// What the rows answer: to Read, in rising order of their Ids, those of the object for which the condition holds; Grab
    /// is granted.
    pub fn answer(&self, question: &Question) -> Result<Answer, NoMemory>
        ensures { IfOk result (λ a. a ≡ answer_to (rows_of self.now) question.now) }
    {
        match question {
            Question::Read { object, cond } => {
                Ok(Answer::Rows(self.read(*object, cond.get())?))
            },
            Question::Grab { .. } => Ok(Answer::Granted),
        }
    }

    // Makes a place for an Id, where there is none.
    fn make_place(&mut self, id: Id) -> Result<(), NoMemory>
        ensures ready { OnOk result (HasPlace id self.new) }
        ensures rows { rows_of self.new ≡ rows_of self.old }
        ensures stay { Stay self.old self.new }
    {
        if self.places.contains_key(&id) {
            return Ok(());
        }
        match self.places.insert(id, None) {
            Ok(_) => Ok(()),
            Err(_) => Err(AllocError),
        }
    }

    /// Makes room for writes, so that `apply` can take them. The rows stay as they are, also where memory is wanted.
    pub fn reserve(&mut self, writes: &Writes) -> Result<(), NoMemory>
        ensures ready { OnOk result (HasRoom writes.entry.now.puts self.new) }
        ensures rows { rows_of self.new ≡ rows_of self.old }
    {
        for row in writes.puts.as_slice() {
            self.make_place(row.id)?;
        }
        Ok(())
    }

    // Writes a row into its place.
    fn put(&mut self, row: Row)
        requires { HasPlace row.id self.old }
        ensures rows { rows_of self.new ≡ put row (rows_of self.old) }
        ensures stay { Stay self.old self.new }
    {
        let id = row.id;
        write(&mut self.places, &id, row);
    }

    // Removes an Id.
    fn drop_id(&mut self, id: Id)
        ensures rows { rows_of self.new ≡ without (id ∷ []) (rows_of self.old) }
    {
        self.places.remove(&id);
    }

    /// Takes writes for which room was made. It takes no memory.
    pub fn apply(&mut self, writes: Writes)
        requires { HasRoom writes.puts self.old }
        ensures { rows_of self.new ≡ taken writes (rows_of self.old) }
    {
        let Writes { puts, drops } = writes;
        for row in puts.into_vec() {
            self.put(row);
        }
        for id in drops.into_vec() {
            self.drop_id(id);
        }
    }
}
