// Fields of a new record.

ghost use Rattle.std.specs.Prelude.{◌≡◌, IfOk};
ghost use Rattle.std.specs.Option.{option_copied};
ghost use Rattle.static_types.specs.declared.kind.ValueType.TheViews.{out-ValueType};
ghost use Rattle.type_names.specs.Walks.{Comes, Tells};
ghost use Rattle.new_values.specs.Fields as spec;

use crate::open::OpenRecord;
use apex_list::{Boxed, Items};
use apex_num::NoMemory;
use apex_schema::{Field, Object};
use apex_syntax::Word;
use class_tables::ClassHeads;
use fault_words::FaultWord;
use name_meanings::{cell_type, field_in, may_set_cell};
use record_words::{RecordKey, RecordWord, RecordWords};
use static_types::{Primitive, ValueType};
use std::alloc::Global;
use type_names::{TreeFault, WalkFault};
use typed_program::{TypedExpr, TypedNew, TypedPair};
use typed_values::{Kind, Typed, fitted};

/// A field that a new record is given: its number, and the type of its value.
#[derive(Clone, Copy, Drop)]
pub struct RecordField {
    pub field: usize,
    pub kind: Primitive,
}

/// The object whose records a type's values are; `WrongType` at the type, which stands at this byte, where they aren't.
pub fn record_of(kind: &ValueType, at: usize) -> Result<usize, TreeFault>
    ensures { Tells (spec.record_of (out-ValueType kind.now) at) result }
{
    match kind {
        ValueType::Record(object) => Ok(*object),
        _ => Err(TreeFault::new(FaultWord::WrongType, at)),
    }
}

fn writable_as(
    given: &OpenRecord,
    n: usize,
    field: &Field,
    at: usize,
) -> Result<RecordField, TreeFault>
    ensures { Tells (spec.writable_as given.now.pairs n field.now at) result }
{
    if given.has(n) {
        return Err(TreeFault::new(FaultWord::Duplicate, at));
    }
    if may_set_cell(&field.kind) {
        let kind = cell_type(&field.kind);
        Ok(RecordField { field: n, kind })
    } else {
        Err(TreeFault::new(FaultWord::NotWritable, at))
    }
}

fn writable(
    given: &OpenRecord,
    n: usize,
    field: Option<&Field>,
    at: usize,
) -> Result<RecordField, TreeFault>
    ensures { Tells (spec.writable given.now.pairs n (option_copied field.entry) at) result }
{
    match field {
        Some(field) => writable_as(given, n, field, at),
        None => Err(TreeFault::new(FaultWord::UnknownName, at)),
    }
}

// Relations and children can't be given.
fn given_as(
    objects: &[Object],
    object: usize,
    given: &OpenRecord,
    word: Option<RecordWord>,
    at: usize,
) -> Result<RecordField, TreeFault>
    ensures { Tells (spec.given_as objects.now object given.now.pairs word at) result }
{
    match word {
        Some(RecordWord::Field(n)) => writable(given, n, field_in(objects, object, n), at),
        Some(RecordWord::Parent(_) | RecordWord::Children(..)) => {
            Err(TreeFault::new(FaultWord::NotWritable, at))
        }
        None => Err(TreeFault::new(FaultWord::UnknownName, at)),
    }
}

/// The field that a name means in front of `=` in a new record of an object, which has these fields already. At the name
/// stands `UnknownName` where there is no such field, `Duplicate` where it was given, and `NotWritable` where it is a
/// roll-up, a relation or a children word.
pub fn field_named(
    words: &RecordWords,
    object: usize,
    given: &OpenRecord,
    word: &Word,
) -> Result<RecordField, WalkFault>
    ensures { Comes (spec.field_named words.now.schema.now.objects object given.now.pairs word.now) result }
{
    let name = word.name.copy()?;
    let found = words.word(&RecordKey { object, name });
    let objects = words.schema.objects.as_slice();
    Ok(given_as(objects, object, given, found, word.span.from)?)
}

/// The tree of the value of a field, with its conversion; `WrongType` at it where it doesn't fit.
pub fn with_value(
    alloc: Global,
    lines: &ClassHeads,
    field: RecordField,
    value: Typed,
) -> Result<Boxed<TypedExpr>, WalkFault>
    ensures { Comes (spec.with_value lines.now.heads field value) result }
{
    fitted(alloc, lines, value, &ValueType::Primitive(field.kind))
}

/// A new record of an object with the values of these fields; `new` stands at this byte.
pub fn record_with(
    alloc: Global,
    at: usize,
    object: usize,
    pairs: Items<TypedPair>,
) -> Result<Typed, NoMemory>
    ensures { IfOk result (λ t. t ≡ spec.record_with at object pairs) }
{
    let new = Boxed::new(alloc, TypedNew::Record(object, pairs))?;
    Typed::plain(
        alloc,
        at,
        Kind::Is(ValueType::Record(object)),
        TypedExpr::New(new),
    )
}
