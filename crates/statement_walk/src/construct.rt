// Constructors that are called by others.

ghost use Rattle.std.specs.Prelude.{◌≡◌};
ghost use Rattle.name_meanings.specs.Settings.{around};
ghost use Rattle.type_names.specs.Walks.{Comes, Gives};
ghost use Rattle.typed_program.specs.declared.unit.ParentCall.TheVariants as Call;
ghost use Rattle.statement_walk.specs.Constructions as spec;
ghost use Rattle.statement_walk.specs.declared.construct.Constructing.TheVariants as C;

use apex_list::{Boxed, Items};
use class_tables::Parent;
use fault_words::FaultWord;
use name_meanings::Setting;
use std::alloc::Global;
use type_names::{TreeFault, WalkFault};
use typed_calls::{Maker, constructor_of, instance_arguments, message};
use typed_program::{Constructor, ParentCall, TypedExpr};
use typed_values::Typed;

/// Which constructor is called.
#[derive(Clone, Copy, Drop)]
pub enum Constructing {
    /// One of its own class, which has this number.
    Own(usize, Constructor),
    /// One of the parent, which has this number.
    Parent(usize, Constructor),
    /// That of `Exception`.
    Exception,
    /// There is none for so many arguments.
    Nothing,
}

fn own_by(maker: Maker) -> Constructing
    ensures { result ≡ spec.by_maker C.Own maker }
{
    match maker {
        Maker::Instance(class, constructor) => Constructing::Own(class, constructor),
        _ => Constructing::Nothing,
    }
}

/// The constructor that `this` with so many arguments means, which stands at this byte.
pub fn own_constructor(
    alloc: Global,
    setting: &Setting,
    at: usize,
    count: usize,
) -> Result<Constructing, WalkFault>
    ensures { Comes (spec.own_constructor (around setting.now) at count) result }
{
    match setting.class {
        Some(class) => {
            let maker = constructor_of(alloc, setting, class, at, count)?;
            Ok(own_by(maker))
        }
        None => Ok(Constructing::Nothing),
    }
}

fn parent_by(maker: Maker) -> Constructing
    ensures { result ≡ spec.by_maker C.Parent maker }
{
    match maker {
        Maker::Instance(class, constructor) => Constructing::Parent(class, constructor),
        _ => Constructing::Nothing,
    }
}

fn by_parent(
    alloc: Global,
    setting: &Setting,
    parent: Parent,
    at: usize,
    count: usize,
) -> Result<Constructing, WalkFault>
    ensures { Comes (spec.by_parent (around setting.now) parent at count) result }
{
    match parent {
        Parent::Class(class) => {
            let maker = constructor_of(alloc, setting, class, at, count)?;
            Ok(parent_by(maker))
        }
        Parent::Exception => Ok(Constructing::Exception),
        Parent::None => Ok(Constructing::Nothing),
    }
}

/// The constructor that `super` with so many arguments means, which stands at this byte: one of the parent. `NotVisible`
/// at the byte where it is private.
pub fn parent_constructor(
    alloc: Global,
    setting: &Setting,
    at: usize,
    count: usize,
) -> Result<Constructing, WalkFault>
    ensures { Comes (spec.parent_constructor (around setting.now) at count) result }
{
    match setting.class {
        Some(class) => by_parent(alloc, setting, setting.lines.parent(class), at, count),
        None => Ok(Constructing::Nothing),
    }
}

fn own(
    alloc: Global,
    constructor: Constructor,
    trees: Items<TypedExpr>,
) -> Result<Boxed<ParentCall>, WalkFault>
    ensures { Comes (Gives (Call.This constructor trees)) result }
{
    Ok(Boxed::new(alloc, ParentCall::This(constructor, trees))?)
}

fn of_parent(
    alloc: Global,
    class: usize,
    constructor: Constructor,
    trees: Items<TypedExpr>,
) -> Result<Boxed<ParentCall>, WalkFault>
    ensures { Comes (Gives (Call.Super class constructor trees)) result }
{
    Ok(Boxed::new(alloc, ParentCall::Super(class, constructor, trees))?)
}

/// The call of a constructor, which begins at this byte, with its arguments. `WrongArguments` at the byte where there is
/// none for so many, or where one doesn't fit.
pub fn constructed(
    alloc: Global,
    setting: &Setting,
    how: Constructing,
    at: usize,
    args: Items<Typed>,
) -> Result<Boxed<ParentCall>, WalkFault>
    ensures { Comes (spec.constructed (around setting.now) how at args) result }
{
    match how {
        Constructing::Own(class, constructor) => {
            let trees = instance_arguments(alloc, setting, class, constructor, at, args)?;
            own(alloc, constructor, trees)
        }
        Constructing::Parent(class, constructor) => {
            let trees = instance_arguments(alloc, setting, class, constructor, at, args)?;
            of_parent(alloc, class, constructor, trees)
        }
        Constructing::Exception => {
            let trees = message(alloc, setting.lines, at, args)?;
            Ok(Boxed::new(alloc, ParentCall::Exception(trees))?)
        }
        Constructing::Nothing => Err(TreeFault::new(FaultWord::WrongArguments, at).into()),
    }
}
