// The words of all objects.

ghost use Rattle.std.specs.Prelude.{◌≡◌, ◌∷◌, ◌++◌, [], IfOk, OnOk};
ghost use Rattle.record_words.specs.Words as spec;

use apex_num::NoMemory;
use apex_schema::{Field, FieldKind, Link, Object};
use apex_text::Name;
use std::alloc::{AllocError, Global};

/// A word of the records of an object, which has this number.
#[derive(PartialEq, Eq, Hash, Drop)]
pub struct RecordKey {
    pub object: usize,
    pub name: Name,
}

impl RecordKey {
    /// An equal key.
    pub fn copy(&self) -> Result<RecordKey, NoMemory>
        ensures { IfOk result (λ k. k ≡ self.now) }
    {
        Ok(RecordKey {
            object: self.object,
            name: self.name.copy()?,
        })
    }
}

/// What a word of a record means.
#[derive(Clone, Copy, PartialEq, Eq, Drop)]
pub enum RecordWord {
    /// The field with this number.
    Field(usize),
    /// The record that the field with this number names.
    Parent(usize),
    /// The records of an object whose field names this record: the numbers of the object and of its field.
    Children(usize, usize),
}

/// A word of an object, and what it means.
#[derive(Drop)]
pub struct WordEntry {
    pub key: RecordKey,
    pub word: RecordWord,
}

fn add(
    alloc: Global,
    all: &mut Vec<WordEntry>,
    object: usize,
    name: &[u8],
    word: RecordWord,
) -> Result<(), NoMemory>
    ensures { OnOk result (all.new.items ≡ all.old.items ++ spec.entry object name.now word ∷ []) }
{
    let name = Name::of(alloc, name)?;
    let key = RecordKey { object, name };
    all.push(WordEntry { key, word }).map_err(AllocError::from)?;
    Ok(())
}

fn add_link(
    alloc: Global,
    all: &mut Vec<WordEntry>,
    object: usize,
    field: usize,
    link: &Link,
) -> Result<(), NoMemory>
    ensures { OnOk result (all.new.items ≡ all.old.items ++ spec.link_words object field link.now) }
{
    let parent = RecordWord::Parent(field);
    let children = RecordWord::Children(object, field);
    add(alloc, all, object, link.relation.bytes(), parent)?;
    add(alloc, all, link.to, link.children.bytes(), children)
}

fn add_links(
    alloc: Global,
    all: &mut Vec<WordEntry>,
    object: usize,
    field: usize,
    kind: &FieldKind,
) -> Result<(), NoMemory>
    ensures { OnOk result (all.new.items ≡ all.old.items ++ spec.kind_words object field kind.now) }
{
    match kind {
        FieldKind::Lookup(link) | FieldKind::MasterDetail(link) => {
            add_link(alloc, all, object, field, link)
        }
        _ => Ok(()),
    }
}

fn add_field(
    alloc: Global,
    all: &mut Vec<WordEntry>,
    object: usize,
    n: usize,
    field: &Field,
) -> Result<(), NoMemory>
    ensures { OnOk result (all.new.items ≡ all.old.items ++ spec.field_words object n field.now) }
{
    add(alloc, all, object, field.name.bytes(), RecordWord::Field(n))?;
    add_links(alloc, all, object, n, &field.kind)
}

fn add_fields(
    alloc: Global,
    all: &mut Vec<WordEntry>,
    object: usize,
    fields: &[Field],
) -> Result<(), NoMemory>
    ensures { OnOk result (all.new.items ≡ all.old.items ++ spec.fields_from object 0 fields.now) }
{
    for n in 0..fields.len() {
        add_field(alloc, all, object, n, &fields[n])?;
    }
    Ok(())
}

/// The words of all objects, in the order of the objects and their fields.
pub fn all_words(alloc: Global, objects: &[Object]) -> Result<Vec<WordEntry>, NoMemory>
    ensures { IfOk result (λ all. all.items ≡ spec.words_from 0 objects.now) }
{
    let mut all = Vec::new(alloc);
    for o in 0..objects.len() {
        add_fields(alloc, &mut all, o, objects[o].fields.as_slice())?;
    }
    Ok(all)
}
