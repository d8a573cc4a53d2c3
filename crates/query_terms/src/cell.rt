// Values that are written in conditions.

ghost use Rattle.std.specs.Prelude.{◌≡◌, IfOk};
ghost use Rattle.type_names.specs.Walks.{Tells};
ghost use Rattle.query_terms.specs.Values as spec;

use apex_list::Items;
use apex_num::{Cell, Dec, Id, NoMemory, Text, read_id};
use apex_rows::Term;
use apex_syntax::NumberTree;
use fault_words::FaultWord;
use static_types::Primitive;
use std::alloc::Global;
use type_names::TreeFault;

fn unsigned(number: NumberTree) -> i128
    ensures { result ≡ spec.unsigned number }
{
    match number {
        NumberTree::Integer(n) => i128::from(n) * 1_000_000,
        NumberTree::Long(n) => i128::from(n) * 1_000_000,
        NumberTree::Decimal(millionths) => i128::from(millionths),
    }
}

fn millionths(minus: bool, number: NumberTree) -> i128
    ensures { result ≡ spec.millionths minus number }
{
    let size = unsigned(number);
    if minus { -size } else { size }
}

#[tactic(auto, using(crate::proofs::Decimals::fits, crate::proofs::Decimals::none))]
fn decimal_of(millionths: i128) -> Option<Dec>
    ensures { result ≡ spec.decimal_of millionths }
{
    match Dec::of(millionths) {
        Some(d) => Some(d),
        None => None,
    }
}

fn decimal_cell(number: Option<Dec>) -> Option<Cell>
    ensures { result ≡ spec.decimal_cell number }
{
    match number {
        Some(d) => Some(Cell::Num(d)),
        None => None,
    }
}

/// The cell of a number, with a `-` or without, where a primitive of a type is due: it has to be a Decimal, and is none
/// out of Decimal's range.
pub fn number_cell(to: Primitive, minus: bool, number: NumberTree) -> Option<Cell>
    ensures { result ≡ spec.number_cell to minus number }
{
    match to {
        Primitive::Decimal => decimal_cell(decimal_of(millionths(minus, number))),
        _ => None,
    }
}

fn id_of(text: &[u8]) -> Option<Id>
    ensures { result ≡ spec.id_of text.now }
{
    read_id(text)
}

fn id_cell(id: Option<Id>) -> Option<Cell>
    ensures { result ≡ spec.id_cell id }
{
    match id {
        Some(id) => Some(Cell::Id(id)),
        None => None,
    }
}

#[tactic(auto, using(crate::proofs::Texts::told, crate::proofs::Texts::none))]
fn text_of(alloc: Global, bytes: &Items<u8>) -> Result<Option<Text>, NoMemory>
    ensures { IfOk result (λ text. text ≡ spec.text_of bytes.now) }
{
    match str::from_utf8(bytes.as_slice()) {
        Ok(text) => Ok(Some(Text::from_str(alloc, text)?)),
        Err(_) => Ok(None),
    }
}

fn string_cell(text: Option<Text>) -> Option<Cell>
    ensures { result ≡ spec.string_cell text }
{
    match text {
        Some(text) => Some(Cell::Text(text)),
        None => None,
    }
}

/// The cell of a text where a primitive of a type is due: it is itself, or an Id where it reads as one.
pub fn text_cell(alloc: Global, to: Primitive, bytes: &Items<u8>) -> Result<Option<Cell>, NoMemory>
    ensures { IfOk result (λ cell. cell ≡ spec.text_cell to bytes.now) }
{
    match to {
        Primitive::String => Ok(string_cell(text_of(alloc, bytes)?)),
        Primitive::Id => Ok(id_cell(id_of(bytes.as_slice()))),
        _ => Ok(None),
    }
}

/// The cell of a date where a primitive of a type is due.
pub fn day_cell(to: Primitive, day: i32) -> Option<Cell>
    ensures { result ≡ spec.day_cell to day }
{
    match to {
        Primitive::Date => Some(Cell::Day(day)),
        _ => None,
    }
}

/// The cell of a moment where a primitive of a type is due.
pub fn moment_cell(to: Primitive, second: i64) -> Option<Cell>
    ensures { result ≡ spec.moment_cell to second }
{
    match to {
        Primitive::Datetime => Some(Cell::Moment(second)),
        _ => None,
    }
}

/// The cell of a truth value where a primitive of a type is due.
pub fn truth_cell(to: Primitive, truth: bool) -> Option<Cell>
    ensures { result ≡ spec.truth_cell to truth }
{
    match to {
        Primitive::Boolean => Some(Cell::Bool(truth)),
        _ => None,
    }
}

/// The term of a written value, which stands at this byte; `BadQuery` at it where it is no cell of the type that is due.
pub fn given(cell: Option<Cell>, at: usize) -> Result<Term, TreeFault>
    ensures { Tells (spec.given cell at) result }
{
    match cell {
        Some(cell) => Ok(Term::Given(cell)),
        None => Err(TreeFault::new(FaultWord::BadQuery, at)),
    }
}
