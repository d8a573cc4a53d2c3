// Paths, and the keys of orders.

ghost use Rattle.std.specs.Prelude.{◌≡◌, IfOk};
ghost use Rattle.std.specs.Option.{option_copied};
ghost use Rattle.type_names.specs.Walks.{Comes, Tells};
ghost use Rattle.query_terms.specs.Paths as spec;

use apex_list::Items;
use apex_num::NoMemory;
use apex_rows::{CondOp, Path, SortKey};
use apex_schema::{Field, Object};
use apex_syntax::{CompareOp, KeyTree, PathTree, Word};
use fault_words::FaultWord;
use name_meanings::{cell_type, field_in, parent_object};
use record_words::{RecordKey, RecordWord, RecordWords};
use static_types::Primitive;
use std::alloc::Global;
use type_names::{TreeFault, WalkFault};

/// The field that a path leads to, and the type of what it holds.
#[derive(Drop)]
pub struct FieldPath {
    pub path: Path,
    pub kind: Primitive,
}

// Where a path has come to.
#[derive(Clone, Copy, Drop)]
pub enum Place {
    /// A record of this object.
    Record(usize),
    /// A field with values of this type.
    Cell(usize, Primitive),
}

// Where a name leads.
#[derive(Clone, Copy, Drop)]
pub enum Lead {
    /// Over a field to a record of an object.
    Parent(usize, usize),
    /// To a field with values of this type.
    Cell(usize, Primitive),
    Nowhere,
}

fn to_cell(n: usize, field: Option<&Field>) -> Lead
    ensures { result ≡ spec.to_cell n (option_copied field.entry) }
{
    match field {
        Some(field) => Lead::Cell(n, cell_type(&field.kind)),
        None => Lead::Nowhere,
    }
}

fn to_object(n: usize, to: Option<usize>) -> Lead
    ensures { result ≡ spec.to_object n to }
{
    match to {
        Some(to) => Lead::Parent(n, to),
        None => Lead::Nowhere,
    }
}

fn to_parent(n: usize, field: Option<&Field>) -> Lead
    ensures { result ≡ spec.to_parent n (option_copied field.entry) }
{
    match field {
        Some(field) => to_object(n, parent_object(&field.kind)),
        None => Lead::Nowhere,
    }
}

fn lead_of(objects: &[Object], object: usize, word: Option<RecordWord>) -> Lead
    ensures { result ≡ spec.lead_of objects.now object word }
{
    match word {
        Some(RecordWord::Field(n)) => to_cell(n, field_in(objects, object, n)),
        Some(RecordWord::Parent(n)) => to_parent(n, field_in(objects, object, n)),
        Some(RecordWord::Children(..)) | None => Lead::Nowhere,
    }
}

fn lead_from(words: &RecordWords, object: usize, word: &Word) -> Result<Lead, NoMemory>
    ensures { IfOk result (λ lead. lead ≡ spec.lead_from words.now.schema.now.objects object word.now) }
{
    let name = word.name.copy()?;
    let found = words.word(&RecordKey { object, name });
    Ok(lead_of(words.schema.objects.as_slice(), object, found))
}

// Nothing goes on behind a field.
fn next_lead(words: &RecordWords, place: Place, word: &Word) -> Result<Lead, NoMemory>
    ensures { IfOk result (λ lead. lead ≡ spec.next_lead words.now.schema.now.objects place word.now) }
{
    match place {
        Place::Record(object) => lead_from(words, object, word),
        Place::Cell(..) => Ok(Lead::Nowhere),
    }
}

fn ended(place: Place, parents: Items<usize>, at: usize) -> Result<FieldPath, TreeFault>
    ensures { Tells (spec.ended at place parents) result }
{
    match place {
        Place::Cell(field, kind) => {
            let path = Path { parents, field };
            Ok(FieldPath { path, kind })
        }
        Place::Record(_) => Err(TreeFault::new(FaultWord::BadQuery, at)),
    }
}

/// The field that a path leads to from the records of an object on: over relation words to a field. `BadQuery` at its
/// first name where it leads to none.
pub fn field_path(
    alloc: Global,
    words: &RecordWords,
    object: usize,
    tree: &PathTree,
) -> Result<FieldPath, WalkFault>
    ensures { Comes (spec.field_path words.now.schema.now.objects object tree.now) result }
{
    let at = tree.span.from;
    let mut place = Place::Record(object);
    let mut parents = Items::new(alloc);
    for word in tree.names.as_slice() {
        match next_lead(words, place, word)? {
            Lead::Parent(n, to) => {
                parents.push(n)?;
                place = Place::Record(to);
            }
            Lead::Cell(n, kind) => place = Place::Cell(n, kind),
            Lead::Nowhere => return Err(TreeFault::new(FaultWord::BadQuery, at).into()),
        }
    }
    Ok(ended(place, parents, at)?)
}

/// The operator of a condition.
pub fn cond_op(op: CompareOp) -> CondOp
    ensures { result ≡ spec.cond_op op }
{
    match op {
        CompareOp::Equal => CondOp::Equal,
        CompareOp::Differs => CondOp::Differs,
        CompareOp::Less => CondOp::Less,
        CompareOp::AtMost => CondOp::AtMost,
        CompareOp::More => CondOp::More,
        CompareOp::AtLeast => CondOp::AtLeast,
        CompareOp::Like => CondOp::Like,
    }
}

fn compares(op: CompareOp, kind: Primitive) -> bool
    ensures { result ≡ spec.compares op kind }
{
    match op {
        CompareOp::Like => kind == Primitive::String,
        _ => true,
    }
}

/// The path in front of an operator. `BadQuery` at its first name where it leads to no field, or, for `LIKE`, to one that
/// holds no text.
pub fn compared_path(
    alloc: Global,
    words: &RecordWords,
    object: usize,
    tree: &PathTree,
    op: CompareOp,
) -> Result<FieldPath, WalkFault>
    ensures { Comes (spec.compared_path words.now.schema.now.objects object tree.now op) result }
{
    let found = field_path(alloc, words, object, tree)?;
    if compares(op, found.kind) {
        Ok(found)
    } else {
        Err(TreeFault::new(FaultWord::BadQuery, tree.span.from).into())
    }
}

/// A key of an order. `BadQuery` at its path where that leads to no field.
pub fn sort_key(
    alloc: Global,
    words: &RecordWords,
    object: usize,
    tree: &KeyTree,
) -> Result<SortKey, WalkFault>
    ensures { Comes (spec.sort_key words.now.schema.now.objects object tree.now) result }
{
    let found = field_path(alloc, words, object, &tree.path)?;
    Ok(SortKey {
        path: found.path,
        descending: tree.descending,
        nulls_last: tree.nulls_last,
    })
}
