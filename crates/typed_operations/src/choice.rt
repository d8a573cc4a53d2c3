// Conditional expressions.

ghost use Rattle.type_names.specs.Walks.{Comes, Gives, Tells};
ghost use Rattle.typed_operations.specs.Choices as spec;
ghost use Rattle.typed_values.specs.Fits.{converted as converted_by};

use apex_list::Boxed;
use class_tables::ClassHeads;
use fault_words::FaultWord;
use std::alloc::Global;
use type_names::{TreeFault, WalkFault};
use typed_program::{Conversion, TypedExpr};
use typed_values::{Kind, Typed, condition, conversion, converted};

/// How two branches meet in one type.
#[derive(Clone, Copy, Drop)]
pub enum Meeting {
    /// Both have the first one's type, once the second is converted so.
    AsFirst(Conversion),
    /// Both have the second one's type, once the first is converted so.
    AsSecond(Conversion),
    /// One has a type that is at fault elsewhere.
    Unknown,
}

fn as_second(how: Option<Conversion>, at: usize) -> Result<Meeting, TreeFault>
    ensures { Tells (spec.as_second how at) result }
{
    match how {
        Some(how) => Ok(Meeting::AsSecond(how)),
        None => Err(TreeFault::new(FaultWord::WrongType, at)),
    }
}

fn meeting_at(lines: &ClassHeads, first: &Typed, second: &Typed) -> Result<Meeting, TreeFault>
    ensures { Tells (spec.meeting_at lines.now.heads first.now second.now) result }
{
    match (&first.kind, &second.kind) {
        (Kind::Nothing, _) => Err(TreeFault::new(FaultWord::WrongType, first.at)),
        (_, Kind::Nothing) => Err(TreeFault::new(FaultWord::WrongType, second.at)),
        (Kind::Faulty, _) | (_, Kind::Faulty) => Ok(Meeting::Unknown),
        (Kind::Null, _) => Ok(Meeting::AsSecond(Conversion::Same)),
        (_, Kind::Null) => Ok(Meeting::AsFirst(Conversion::Same)),
        (Kind::Is(a), Kind::Is(b)) => match conversion(lines, &second.kind, a) {
            Some(how) => Ok(Meeting::AsFirst(how)),
            None => as_second(conversion(lines, &first.kind, b), second.at),
        },
    }
}

fn as_first(
    alloc: Global,
    at: usize,
    how: Conversion,
    test: Boxed<TypedExpr>,
    first: Typed,
    second: Boxed<TypedExpr>,
) -> Result<Typed, WalkFault>
    ensures { Comes (Gives (spec.either at first.kind test first.tree (converted_by how second))) result }
{
    let second = converted(alloc, how, second)?;
    let tree = TypedExpr::Conditional(test, first.tree, second);
    Ok(Typed::plain(alloc, at, first.kind, tree)?)
}

fn as_second_is(
    alloc: Global,
    at: usize,
    how: Conversion,
    test: Boxed<TypedExpr>,
    first: Boxed<TypedExpr>,
    second: Typed,
) -> Result<Typed, WalkFault>
    ensures { Comes (Gives (spec.either at second.kind test (converted_by how first) second.tree)) result }
{
    let first = converted(alloc, how, first)?;
    let tree = TypedExpr::Conditional(test, first, second.tree);
    Ok(Typed::plain(alloc, at, second.kind, tree)?)
}

fn unknown(
    alloc: Global,
    at: usize,
    test: Boxed<TypedExpr>,
    first: Boxed<TypedExpr>,
    second: Boxed<TypedExpr>,
) -> Result<Typed, WalkFault>
    ensures { Comes (Gives (spec.either at Kind.Faulty test first second)) result }
{
    let tree = TypedExpr::Conditional(test, first, second);
    Ok(Typed::plain(alloc, at, Kind::Faulty, tree)?)
}

fn met(
    alloc: Global,
    meeting: Meeting,
    at: usize,
    test: Boxed<TypedExpr>,
    first: Typed,
    second: Typed,
) -> Result<Typed, WalkFault>
    ensures { Comes (Gives (spec.met meeting at test first second)) result }
{
    match meeting {
        Meeting::AsFirst(how) => as_first(alloc, at, how, test, first, second.tree),
        Meeting::AsSecond(how) => as_second_is(alloc, at, how, test, first.tree, second),
        Meeting::Unknown => unknown(alloc, at, test, first.tree, second.tree),
    }
}

/// `test ? first : second`. The type is the first branch's where the second fits it, and otherwise the second's, which the
/// first has to fit. `WrongType` stands at the test, or at the branch that doesn't fit: the second, where both are values.
pub fn chosen(
    alloc: Global,
    lines: &ClassHeads,
    test: Typed,
    first: Typed,
    second: Typed,
) -> Result<Typed, WalkFault>
    ensures { Comes (spec.chosen lines.now.heads test first second) result }
{
    let at = test.at;
    let test = condition(alloc, lines, test)?;
    let meeting = meeting_at(lines, &first, &second)?;
    met(alloc, meeting, at, test, first, second)
}
