// Members of classes.

ghost use Rattle.std.specs.Prelude.{◌≡◌, slice_get};
ghost use Rattle.std.specs.Option.{option_copied};
ghost use Rattle.class_tables.specs.Tables.{all_in};
ghost use Rattle.apex_types.specs.Homes.{home as home_of};
ghost use Rattle.type_names.specs.Walks.{Comes};
ghost use Rattle.apex_types.specs.OpenClasses.{Grows};
ghost use Rattle.apex_types.specs.Members as spec;

use crate::body::method_body;
use crate::constructor::constructor_body;
use crate::home::Home;
use crate::open::{add_constructor, add_field, add_method};
use apex_list::{Boxed, Items};
use apex_syntax::{Body, Expr, MemberTree, ParamTree, ResultTree, TypeTree, Word};
use apex_text::Name;
use class_tables::{FieldHead, Member, MethodHead, ResultHead};
use class_walk::{constructor_declared, field_declared, overrides_well, signature_declared};
use local_scopes::Scope;
use statement_walk::{BodyView, initial};
use static_types::ValueType;
use std::alloc::Global;
use type_names::WalkFault;
use typed_program::{TypedClass, TypedExpr, TypedStmt};

fn is_static(field: Option<&FieldHead>) -> bool
    ensures { result ≡ spec.is_static (option_copied field.entry) }
{
    match field {
        Some(field) => field.is_static,
        None => false,
    }
}

fn is_static_method(method: Option<&MethodHead>) -> bool
    ensures { result ≡ spec.is_static_method (option_copied method.entry) }
{
    match method {
        Some(method) => method.is_static,
        None => false,
    }
}

/// Whether the member at a place is named twice.
pub fn flag_at(flags: &[bool], place: usize) -> bool
    ensures { result ≡ spec.flag_at flags.now place }
{
    match flags.get(place) {
        Some(flag) => *flag,
        None => false,
    }
}

fn initial_of(
    alloc: Global,
    home: &Home,
    class: usize,
    is_static: bool,
    kind: &ValueType,
    value: &Option<Boxed<Expr>>,
) -> Result<Option<Boxed<TypedExpr>>, WalkFault>
    ensures { Comes (spec.initial_of (home_of home.now) class is_static kind.now value.now) result }
{
    let setting = home.setting(Some(class), is_static, false);
    let due = ResultHead::Void;
    let view = BodyView {
        setting: &setting,
        methods: home.methods,
        due: &due,
    };
    let scope = Scope::new(alloc);
    initial(alloc, &view, &scope, kind, value)
}

fn field(
    alloc: Global,
    home: &Home,
    class: usize,
    kind: &TypeTree,
    word: &Word,
    value: &Option<Boxed<Expr>>,
    twice: bool,
    so_far: &mut TypedClass,
) -> Result<(), WalkFault>
    ensures { Grows (spec.field_step (home_of home.now) class kind.now word.now value.now twice so_far.old) result so_far.new }
{
    let kind = field_declared(alloc, &home.names, kind, word, twice)?;
    let place = so_far.fields.len();
    let is_static = is_static(home.members.field_at(Member { class, place }));
    let tree = initial_of(alloc, home, class, is_static, &kind, value)?;
    Ok(add_field(so_far, is_static, tree)?)
}

fn body_where(
    alloc: Global,
    home: &Home,
    class: usize,
    method: &MethodHead,
    locals: Scope,
    tree: &Option<Body>,
    at: usize,
) -> Result<Option<Items<TypedStmt>>, WalkFault>
    ensures { Comes (spec.body_where (home_of home.now) class method.now locals tree.now at) result }
{
    match tree {
        None => Ok(None),
        Some(tree) => {
            let setting = home.setting(Some(class), method.is_static, false);
            let view = BodyView {
                setting: &setting,
                methods: home.methods,
                due: &method.result,
            };
            let stmts = method_body(alloc, &view, locals, tree, at)?;
            Ok(Some(stmts))
        }
    }
}

fn body_of(
    alloc: Global,
    home: &Home,
    class: usize,
    method: Option<&MethodHead>,
    locals: Scope,
    tree: &Option<Body>,
    at: usize,
) -> Result<Option<Items<TypedStmt>>, WalkFault>
    ensures { Comes (spec.body_of (home_of home.now) class (option_copied method.entry) locals tree.now at) result }
{
    match method {
        Some(method) => body_where(alloc, home, class, method, locals, tree, at),
        None => Ok(None),
    }
}

fn method(
    alloc: Global,
    home: &Home,
    class: usize,
    answer: &ResultTree,
    word: &Word,
    params: &[ParamTree],
    tree: &Option<Body>,
    twice: bool,
    so_far: &mut TypedClass,
) -> Result<(), WalkFault>
    ensures { Grows (spec.method_step (home_of home.now) class answer.now word.now params.now tree.now twice so_far.old) result so_far.new }
{
    let place = so_far.methods.len();
    let head = home.members.method_at(Member { class, place });
    let well = overrides_well(home.members, home.lines, class, head)?;
    let locals = signature_declared(alloc, &home.names, answer, word, params, twice, well)?;
    let stmts = body_of(alloc, home, class, head, locals, tree, word.span.from)?;
    Ok(add_method(so_far, word, params, is_static_method(head), stmts)?)
}

fn constructor(
    alloc: Global,
    home: &Home,
    class: usize,
    name: &Name,
    word: &Word,
    params: &[ParamTree],
    tree: &Body,
    twice: bool,
    so_far: &mut TypedClass,
) -> Result<(), WalkFault>
    ensures { Grows (spec.constructor_step (home_of home.now) class name.now word.now params.now tree.now twice so_far.old) result so_far.new }
{
    let is_exception = home.lines.is_exception(class);
    let locals = constructor_declared(alloc, &home.names, name, is_exception, word, params, twice)?;
    let setting = home.setting(Some(class), false, true);
    let due = ResultHead::Void;
    let view = BodyView {
        setting: &setting,
        methods: home.methods,
        due: &due,
    };
    let made = constructor_body(alloc, &view, class, locals, tree, word.span.from)?;
    Ok(add_constructor(so_far, made)?)
}

fn member(
    alloc: Global,
    home: &Home,
    class: usize,
    name: &Name,
    tree: &MemberTree,
    twice: bool,
    so_far: &mut TypedClass,
) -> Result<(), WalkFault>
    ensures { Grows (spec.member_step (home_of home.now) class name.now tree.now twice so_far.old) result so_far.new }
{
    match tree {
        MemberTree::Field(_, _, kind, word, value) => {
            field(alloc, home, class, kind, word, value, twice, so_far)
        }
        MemberTree::Property(_, _, kind, word) => {
            field(alloc, home, class, kind, word, &None, twice, so_far)
        }
        MemberTree::Method(_, _, answer, word, params, body) => {
            let params = params.as_slice();
            method(
                alloc, home, class, answer, word, params, body, twice, so_far,
            )
        }
        MemberTree::Constructor(_, _, word, params, body) => {
            let params = params.as_slice();
            constructor(alloc, home, class, name, word, params, body, twice, so_far)
        }
    }
}

/// The members of a class from first to last, which the class so far doesn't have yet.
pub fn members(
    alloc: Global,
    home: &Home,
    class: usize,
    name: &Name,
    flags: &[bool],
    trees: &[MemberTree],
    so_far: &mut TypedClass,
) -> Result<(), WalkFault>
    ensures { Grows (spec.members_from (home_of home.now) class name.now flags.now 0 trees.now so_far.old) result so_far.new }
{
    for i in 0..trees.len() {
        let twice = flag_at(flags, i);
        member(alloc, home, class, name, &trees[i], twice, so_far)?;
    }
    Ok(())
}
