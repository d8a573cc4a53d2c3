// What is looked up while a planned schema is read.

ghost use Rattle.std.specs.Prelude.{◌≡◌, ◌++◌, ◌∷◌, [], ℕ, List, cond, map, IfOk};
ghost use Rattle.schema_names.specs.Names.{has};
ghost use Rattle.schema_build.specs.Lookups.{words_in, masters_in, flag_at, found_at};
ghost use Rattle.schema_plans.specs.Plans as spec;

use crate::heights::short;
use crate::numbers::all_numbers;
use crate::objects::{is_link, masters, object_names};
use crate::sets::{Masters, Words};
use apex_num::NoMemory;
use apex_text::Name;
use indexmap::IndexMap;
use schema_names::{Places, name_of};
use schema_plans::{FieldPlan, ObjectPlan, SchemaPlan};
use std::alloc::Global;

/// The names of the objects, their masters, their words and the names of their fields.
#[derive(Drop)]
pub struct Lookup<'a> {
    pub plan: &'a SchemaPlan,
    pub objects: Places,
    pub masters: Vec<Masters>,
    pub short: Vec<bool>,
    pub words: Vec<Words>,
    pub numbers: Vec<IndexMap<Name, usize>>,
    ghost objects_are: { objects.names.items ≡ spec.object_names plan.now },
    ghost masters_are: { map masters_in masters.items ≡ spec.masters plan.now },
    ghost short_is: { (n : ℕ) → flag_at short.items n ≡ spec.all_end_within (spec.masters plan.now) 2 n },
    ghost words_are: { map words_in words.items ≡ spec.word_lists plan.now },
    ghost numbers_are: { (d : ℕ) → (n : List ℕ) → found_at numbers.items d n ≡ spec.number_in plan.now.objects d n },
}

// With the relation word of a field that leads to another object.
fn with_relation(alloc: Global, words: Words, field: &FieldPlan) -> Result<Words, NoMemory>
    ensures { IfOk result (λ all. all.list.items ≡ words.list.items ++ cond (spec.is_link field.now.kind) (spec.given field.now.relation) []) }
{
    if !is_link(field.kind) {
        return Ok(words);
    }
    match &field.relation {
        Some(relation) => words.with(name_of(alloc, relation)?),
        None => Ok(words),
    }
}

/// With the words of a field.
pub fn with_field(alloc: Global, words: Words, field: &FieldPlan) -> Result<Words, NoMemory>
    ensures { IfOk result (λ all. all.list.items ≡ words.list.items ++ spec.field_words field.now) }
{
    let name = name_of(alloc, &field.name)?;
    let named = words.with(name)?;
    let all = with_relation(alloc, named, field)?;
    Ok(all)
}

/// The words that each object has.
pub fn own_words(alloc: Global) -> Result<Words, NoMemory>
    ensures { IfOk result (λ all. all.list.items ≡ spec.own_words) }
{
    let words = Words::new(alloc).with(Name::of(alloc, b"id")?)?;
    words.with(Name::of(alloc, b"ownerid")?)
}

fn row_share_words(alloc: Global) -> Result<Words, NoMemory>
    ensures { IfOk result (λ all. all.list.items ≡ spec.row_share_words) }
{
    let words = own_words(alloc)?.with(Name::of(alloc, b"rowid")?)?;
    let words = words.with(Name::of(alloc, b"userid")?)?;
    words.with(Name::of(alloc, b"level")?)
}

fn object_words(alloc: Global, object: &ObjectPlan) -> Result<Words, NoMemory>
    ensures { IfOk result (λ all. all.list.items ≡ spec.object_words object.now) }
{
    let mut words = own_words(alloc)?;
    for field in object.fields.as_slice() {
        words = with_field(alloc, words, field)?;
    }
    Ok(words)
}

fn word_lists(alloc: Global, plan: &SchemaPlan) -> Result<Vec<Words>, NoMemory>
    ensures { IfOk result (λ all. map words_in all.items ≡ spec.word_lists plan.now) }
{
    let mut all = Vec::new(alloc);
    for object in plan.objects.as_slice() {
        all.push(object_words(alloc, object)?)?;
    }
    all.push(row_share_words(alloc)?)?;
    Ok(all)
}

impl<'a> Lookup<'a> {
    pub fn of(alloc: Global, plan: &'a SchemaPlan) -> Result<Lookup<'a>, NoMemory>
        ensures { IfOk result (λ l. l.plan.now ≡ plan.now) }
    {
        let objects = object_names(alloc, plan)?;
        let masters = masters(alloc, plan, &objects)?;
        let short = short(alloc, &masters)?;
        let words = word_lists(alloc, plan)?;
        let numbers = all_numbers(alloc, plan)?;
        Ok(Lookup {
            plan,
            objects,
            masters,
            short,
            words,
            numbers,
        })
    }
}

/// Whether a word is one of an object.
pub fn has_word(lookup: &Lookup, object: usize, word: &Name) -> bool
    ensures { result ≡ has (spec.words_at lookup.now.plan.now object) word.now }
{
    match lookup.words.get(object) {
        Some(words) => words.has(word),
        None => false,
    }
}

/// Whether an object is among the masters of another.
pub fn has_master(lookup: &Lookup, object: usize, master: usize) -> bool
    ensures { result ≡ spec.is_among (spec.masters_at (spec.masters lookup.now.plan.now) object) master }
{
    match lookup.masters.get(object) {
        Some(masters) => masters.has(master),
        None => false,
    }
}

/// The place of an object's first Number of this name.
pub fn number(lookup: &Lookup, object: usize, name: &Name) -> Option<usize>
    ensures { result ≡ spec.number_in lookup.now.plan.now.objects object name.now }
{
    match lookup.numbers.get(object) {
        Some(map) => map.get(name).copied(),
        None => None,
    }
}
