// What a query reads, and what it gives.

ghost use Rattle.std.specs.Prelude.{◌≡◌, IfOk};
ghost use Rattle.type_names.specs.Walks.{Comes, Tells};
ghost use Rattle.query_terms.specs.Sources as spec;

use apex_list::{Boxed, Items};
use apex_num::NoMemory;
use apex_rows::Query;
use apex_syntax::Word;
use fault_words::FaultWord;
use record_words::{RecordKey, RecordWord, RecordWords};
use schema_names::Places;
use static_types::{Primitive, ValueType};
use std::alloc::Global;
use type_names::{TreeFault, WalkFault};
use typed_program::{TypedBind, TypedExpr};
use typed_values::{Kind, Role, Typed};

/// The records under a record: the number of their object, and that of its field that names the record.
#[derive(Clone, Copy, Drop)]
pub struct ChildSource {
    pub object: usize,
    pub lookup: usize,
}

/// The number of the object that a query names, among these names of objects; `BadQuery` at the name where there is none.
pub fn object_named(objects: &Places, word: &Word) -> Result<usize, TreeFault>
    ensures { Tells (spec.object_named objects.now.names.items word.now) result }
{
    match objects.place(&word.name) {
        Some(object) => Ok(object),
        None => Err(TreeFault::new(FaultWord::BadQuery, word.span.from)),
    }
}

fn children_of(word: Option<RecordWord>, at: usize) -> Result<ChildSource, TreeFault>
    ensures { Tells (spec.children_of word at) result }
{
    match word {
        Some(RecordWord::Children(object, lookup)) => Ok(ChildSource { object, lookup }),
        Some(RecordWord::Field(_) | RecordWord::Parent(_)) | None => {
            Err(TreeFault::new(FaultWord::BadQuery, at))
        }
    }
}

/// What a subquery of a query of an object names; `BadQuery` at the name where that is no children word of the object.
pub fn children_named(
    words: &RecordWords,
    object: usize,
    word: &Word,
) -> Result<ChildSource, WalkFault>
    ensures { Comes (spec.children_named words.now.schema.now.objects object word.now) result }
{
    let name = word.name.copy()?;
    let found = words.word(&RecordKey { object, name });
    Ok(children_of(found, word.span.from)?)
}

fn listed(alloc: Global, object: usize) -> Result<Kind, NoMemory>
    ensures { IfOk result (λ kind. kind ≡ spec.listed object) }
{
    let item = Boxed::new(alloc, ValueType::Record(object))?;
    Ok(Kind::Is(ValueType::List(item)))
}

/// The value of a query, which begins at this byte: an Integer for `COUNT()`, otherwise a list of records.
pub fn query_value(
    alloc: Global,
    at: usize,
    query: Boxed<Query>,
    binds: Items<TypedBind>,
) -> Result<Typed, NoMemory>
    ensures { IfOk result (λ t. t ≡ spec.query_value at query binds) }
{
    if query.get().counted {
        let kind = Kind::Is(ValueType::Primitive(Primitive::Integer));
        Typed::plain(alloc, at, kind, TypedExpr::Query(query, binds))
    } else {
        let kind = listed(alloc, query.get().object)?;
        Typed::of(alloc, at, kind, Role::Query, TypedExpr::Query(query, binds))
    }
}
