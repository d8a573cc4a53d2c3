// How operators go with their operands.

ghost use Rattle.std.specs.Prelude.{◌≡◌};
ghost use Rattle.static_types.specs.declared.kind.ValueType.TheViews.{out-ValueType};
ghost use Rattle.typed_operations.specs.Judgements as spec;

use crate::sort::{Sort, number_of, sort_of, sort_of_type, type_of_number, widened, wider};
use apex_syntax::BinaryOp;
use class_tables::ClassHeads;
use static_types::{Primitive, ValueType};
use typed_program::{Arithmetic, Conversion, Number, Order, TypedOp};
use typed_values::Kind;

/// An operator whose operands fit, once they are converted so.
#[derive(Clone, Copy, Drop)]
pub struct Fit {
    pub left: Conversion,
    pub op: TypedOp,
    pub right: Conversion,
    /// The type that it gives; `None` where that hangs on a type with a fault that is told elsewhere.
    pub gives: Option<Primitive>,
}

/// How an operator goes with the types of its operands.
#[derive(Clone, Copy, Drop)]
pub enum Judged {
    /// It takes no left operand of this type, whatever the right one is.
    Left,
    /// With this left operand it doesn't take the right one.
    Right,
    Fits(Fit),
}

// An operand that is a number.
#[derive(Clone, Copy, Drop)]
pub enum Measure {
    // `null`, which is of any type.
    Null,
    Faulty,
    Number(Number),
}

fn measured(number: Option<Number>) -> Option<Measure>
    ensures { result ≡ spec.measured number }
{
    match number {
        Some(n) => Some(Measure::Number(n)),
        None => None,
    }
}

fn measure_of(sort: Sort) -> Option<Measure>
    ensures { result ≡ spec.measure_of sort }
{
    match sort {
        Sort::Null => Some(Measure::Null),
        Sort::Faulty => Some(Measure::Faulty),
        Sort::Primitive(p) => measured(number_of(p)),
        Sort::Nothing | Sort::Content | Sort::Instance => None,
    }
}

fn in_numbers(op: Arithmetic, left: Conversion, n: Number, right: Conversion) -> Judged
    ensures { result ≡ spec.in_numbers op left n right }
{
    Judged::Fits(Fit {
        left,
        op: TypedOp::Arithmetic(op, n),
        right,
        gives: Some(type_of_number(n)),
    })
}

// What an operator gives where the type of an operand has a fault.
fn unknown(op: TypedOp) -> Judged
    ensures { result ≡ spec.unknown op }
{
    Judged::Fits(Fit {
        left: Conversion::Same,
        op,
        right: Conversion::Same,
        gives: None,
    })
}

fn calculated(op: Arithmetic, a: Measure, b: Measure) -> Judged
    ensures { result ≡ spec.calculated op a b }
{
    match (a, b) {
        (Measure::Faulty, _) | (_, Measure::Faulty) => unknown(TypedOp::Arithmetic(
            op,
            Number::Integer,
        )),
        (Measure::Null, Measure::Null) => {
            in_numbers(op, Conversion::Same, Number::Integer, Conversion::Same)
        }
        (Measure::Null, Measure::Number(n)) | (Measure::Number(n), Measure::Null) => {
            in_numbers(op, Conversion::Same, n, Conversion::Same)
        }
        (Measure::Number(m), Measure::Number(n)) => {
            let w = wider(m, n);
            in_numbers(op, widened(m, w), w, widened(n, w))
        }
    }
}

fn arithmetic(op: Arithmetic, left: Sort, right: Sort) -> Judged
    ensures { result ≡ spec.arithmetic op left right }
{
    match measure_of(left) {
        None => Judged::Left,
        Some(a) => match measure_of(right) {
            None => Judged::Right,
            Some(b) => calculated(op, a, b),
        },
    }
}

// An operator that takes its operands as they are.
fn plain(op: TypedOp, gives: Primitive) -> Judged
    ensures { result ≡ spec.plain op gives }
{
    Judged::Fits(Fit {
        left: Conversion::Same,
        op,
        right: Conversion::Same,
        gives: Some(gives),
    })
}

fn join() -> Judged
    ensures { result ≡ spec.join }
{
    plain(TypedOp::Join, Primitive::String)
}

// What a String may be joined with.
fn is_joined(sort: Sort) -> bool
    ensures { result ≡ spec.is_joined sort }
{
    match sort {
        Sort::Null | Sort::Faulty | Sort::Primitive(_) => true,
        Sort::Nothing | Sort::Content | Sort::Instance => false,
    }
}

fn is_text(sort: Sort) -> bool
    ensures { result ≡ spec.is_text sort }
{
    match sort {
        Sort::Primitive(Primitive::String) => true,
        _ => false,
    }
}

fn is_faulty(sort: Sort) -> bool
    ensures { result ≡ spec.is_faulty sort }
{
    match sort {
        Sort::Faulty => true,
        _ => false,
    }
}

// What `+` gives of two values, one of which is a String or may be one.
fn one_is_text(left: Sort, right: Sort) -> Judged
    ensures { result ≡ spec.one_is_text left right }
{
    if is_text(left) || is_text(right) {
        join()
    } else {
        unknown(TypedOp::Arithmetic(Arithmetic::Plus, Number::Integer))
    }
}

// A String joins on either side, and everything else adds numbers.
fn plus(left: Sort, right: Sort) -> Judged
    ensures { result ≡ spec.plus left right }
{
    let has_text = is_text(left) || is_text(right) || is_faulty(left) || is_faulty(right);
    if !has_text {
        return arithmetic(Arithmetic::Plus, left, right);
    }
    if !is_joined(left) {
        return Judged::Left;
    }
    if !is_joined(right) {
        return Judged::Right;
    }
    one_is_text(left, right)
}

// What is ordered: `Open` is of any type.
#[derive(Clone, Copy, Drop)]
pub enum Scale {
    Open,
    Number(Number),
    Date,
    Datetime,
}

fn primitive_scale(p: Primitive) -> Option<Scale>
    ensures { result ≡ spec.primitive_scale p }
{
    match p {
        Primitive::Integer => Some(Scale::Number(Number::Integer)),
        Primitive::Long => Some(Scale::Number(Number::Long)),
        Primitive::Decimal => Some(Scale::Number(Number::Decimal)),
        Primitive::Date => Some(Scale::Date),
        Primitive::Datetime => Some(Scale::Datetime),
        Primitive::Boolean | Primitive::String | Primitive::Id => None,
    }
}

fn scale_of(sort: Sort) -> Option<Scale>
    ensures { result ≡ spec.scale_of sort }
{
    match sort {
        Sort::Null | Sort::Faulty => Some(Scale::Open),
        Sort::Primitive(p) => primitive_scale(p),
        Sort::Nothing | Sort::Content | Sort::Instance => None,
    }
}

fn scaled(op: Order, a: Scale, b: Scale) -> Judged
    ensures { result ≡ spec.scaled op a b }
{
    match (a, b) {
        (Scale::Open, _)
        | (_, Scale::Open)
        | (Scale::Date, Scale::Date)
        | (Scale::Datetime, Scale::Datetime) => { plain(TypedOp::Order(op), Primitive::Boolean) }
        (Scale::Number(m), Scale::Number(n)) => {
            let w = wider(m, n);
            Judged::Fits(Fit {
                left: widened(m, w),
                op: TypedOp::Order(op),
                right: widened(n, w),
                gives: Some(Primitive::Boolean),
            })
        }
        _ => Judged::Right,
    }
}

fn ordered(op: Order, left: Sort, right: Sort) -> Judged
    ensures { result ≡ spec.ordered op left right }
{
    match scale_of(left) {
        None => Judged::Left,
        Some(a) => match scale_of(right) {
            None => Judged::Right,
            Some(b) => scaled(op, a, b),
        },
    }
}

fn is_truth(sort: Sort) -> bool
    ensures { result ≡ spec.is_truth sort }
{
    match sort {
        Sort::Null | Sort::Faulty | Sort::Primitive(Primitive::Boolean) => true,
        _ => false,
    }
}

fn logical(op: TypedOp, left: Sort, right: Sort) -> Judged
    ensures { result ≡ spec.logical op left right }
{
    if !is_truth(left) {
        return Judged::Left;
    }
    if !is_truth(right) {
        return Judged::Right;
    }
    plain(op, Primitive::Boolean)
}

fn compared(op: TypedOp, left: Conversion, right: Conversion) -> Judged
    ensures { result ≡ spec.compared op left right }
{
    Judged::Fits(Fit {
        left,
        op,
        right,
        gives: Some(Primitive::Boolean),
    })
}

fn equal_numbers(op: TypedOp, a: Option<Number>, b: Option<Number>) -> Judged
    ensures { result ≡ spec.equal_numbers op a b }
{
    match (a, b) {
        (Some(m), Some(n)) => {
            let w = wider(m, n);
            compared(op, widened(m, w), widened(n, w))
        }
        _ => Judged::Right,
    }
}

// A String beside another primitive.
fn text_with(op: TypedOp, q: Primitive) -> Judged
    ensures { result ≡ spec.text_with op q }
{
    match q {
        Primitive::Id => compared(op, Conversion::ToId, Conversion::Same),
        _ => Judged::Right,
    }
}

// An Id beside another primitive.
fn id_with(op: TypedOp, q: Primitive) -> Judged
    ensures { result ≡ spec.id_with op q }
{
    match q {
        Primitive::String => compared(op, Conversion::Same, Conversion::ToId),
        _ => Judged::Right,
    }
}

fn other_primitives(op: TypedOp, p: Primitive, q: Primitive) -> Judged
    ensures { result ≡ spec.other_primitives op p q }
{
    match p {
        Primitive::String => text_with(op, q),
        Primitive::Id => id_with(op, q),
        Primitive::Boolean
        | Primitive::Integer
        | Primitive::Long
        | Primitive::Decimal
        | Primitive::Date
        | Primitive::Datetime => equal_numbers(op, number_of(p), number_of(q)),
    }
}

fn equal_primitives(op: TypedOp, p: Primitive, q: Primitive) -> Judged
    ensures { result ≡ spec.equal_primitives op p q }
{
    if p == q {
        return compared(op, Conversion::Same, Conversion::Same);
    }
    other_primitives(op, p, q)
}

fn are_instances(a: Sort, b: Sort) -> bool
    ensures { result ≡ spec.are_instances a b }
{
    match (a, b) {
        (Sort::Instance, Sort::Instance) => true,
        _ => false,
    }
}

fn equal_instances(lines: &ClassHeads, op: TypedOp, a: &ValueType, b: &ValueType) -> Judged
    ensures { result ≡ spec.equal_instances lines.now.heads op a.now b.now }
{
    let both = are_instances(sort_of_type(a), sort_of_type(b));
    if both && (lines.fits(a, b) || lines.fits(b, a)) {
        compared(op, Conversion::Same, Conversion::Same)
    } else {
        Judged::Right
    }
}

fn equal_types(lines: &ClassHeads, op: TypedOp, a: &ValueType, b: &ValueType) -> Judged
    ensures { result ≡ spec.equal_types lines.now.heads op a.now b.now }
{
    match (a, b) {
        (ValueType::Primitive(p), ValueType::Primitive(q)) => equal_primitives(op, *p, *q),
        _ => equal_instances(lines, op, a, b),
    }
}

fn equal(lines: &ClassHeads, op: TypedOp, left: &Kind, right: &Kind) -> Judged
    ensures { result ≡ spec.equal lines.now.heads op left.now right.now }
{
    match (left, right) {
        (Kind::Nothing, _) => Judged::Left,
        (_, Kind::Nothing) => Judged::Right,
        (Kind::Is(a), Kind::Is(b)) => equal_types(lines, op, a, b),
        _ => compared(op, Conversion::Same, Conversion::Same),
    }
}

/// How a binary operator goes with the types of its operands. `+` joins a String and a primitive, and adds numbers; the
/// other operators on numbers take numbers, comparisons by order numbers, Dates or Datetimes, `&&` and `||` Booleans.
/// `==` and `!=` take two values of which one fits the other; collections, records and what the platform answers with
/// `null` alone.
pub fn judge(lines: &ClassHeads, left: &Kind, op: BinaryOp, right: &Kind) -> Judged
    ensures { result ≡ spec.judge lines.now.heads left.now op right.now }
{
    let a = sort_of(left);
    let b = sort_of(right);
    match op {
        BinaryOp::Or => logical(TypedOp::Or, a, b),
        BinaryOp::And => logical(TypedOp::And, a, b),
        BinaryOp::Equal => equal(lines, TypedOp::Equal, left, right),
        BinaryOp::Differs => equal(lines, TypedOp::Differs, left, right),
        BinaryOp::Less => ordered(Order::Less, a, b),
        BinaryOp::AtMost => ordered(Order::AtMost, a, b),
        BinaryOp::More => ordered(Order::More, a, b),
        BinaryOp::AtLeast => ordered(Order::AtLeast, a, b),
        BinaryOp::Plus => plus(a, b),
        BinaryOp::Minus => arithmetic(Arithmetic::Minus, a, b),
        BinaryOp::Times => arithmetic(Arithmetic::Times, a, b),
        BinaryOp::Over => arithmetic(Arithmetic::Over, a, b),
    }
}
