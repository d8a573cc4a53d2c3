// How many forms are open at once in a tree.

ghost use Rattle.std.specs.Prelude.{◌≡◌, map, option_map};
ghost use Rattle.apex_syntax.specs.Depths as spec;

use crate::expr::{Expr, FieldValue, NewItem, NewPart, Operand, PostfixPart, TypeTree};
use crate::query::{
    BindTree, CondTree, CountTree, ListTree, QueryTree, SelTree, SelectTree, ValueTree,
};
use crate::stmt::{Body, Catch, Declarator, ForStart, Stmt};
use crate::unit::{MemberTree, ParamTree, ResultTree, SignatureTree, Unit};
use apex_list::Boxed;

// In a form that is opened.
fn opened(depth: usize) -> usize
    ensures { result ≡ spec.opened depth }
{
    depth.saturating_add(1)
}

#[cycle(types)]
fn types(all: &[TypeTree]) -> usize
    ensures { result ≡ spec.most (map spec.type_depth all.now) }
{
    let mut most = 0;
    for inner in all {
        most = most.max(type_depth(inner));
    }
    most
}

#[cycle(types)]
fn type_args(all: &[TypeTree]) -> usize
    ensures { result ≡ spec.args_open (map spec.type_depth all.now) }
{
    if all.is_empty() {
        0
    } else {
        opened(types(all))
    }
}

fn arrays(count: usize) -> usize
    ensures { result ≡ spec.arrays_open count }
{
    if count == 0 { 0 } else { 1 }
}

#[cycle(types)]
fn type_depth(tree: &TypeTree) -> usize
    ensures { result ≡ spec.type_depth tree.now }
{
    type_args(tree.args.as_slice()).max(arrays(tree.arrays))
}

#[cycle(exprs)]
fn exprs(all: &[Expr]) -> usize
    ensures { result ≡ spec.most (map spec.expr_depth all.now) }
{
    let mut most = 0;
    for inner in all {
        most = most.max(expr_depth(inner));
    }
    most
}

#[cycle(exprs)]
fn fields(all: &[FieldValue]) -> usize
    ensures { result ≡ spec.most (map spec.field_depth all.now) }
{
    let mut most = 0;
    for inner in all {
        most = most.max(field(inner));
    }
    most
}

#[cycle(exprs)]
fn items(all: &[NewItem]) -> usize
    ensures { result ≡ spec.most (map spec.item_depth all.now) }
{
    let mut most = 0;
    for inner in all {
        most = most.max(item(inner));
    }
    most
}

#[cycle(exprs)]
fn parts(all: &[PostfixPart]) -> usize
    ensures { result ≡ spec.most (map spec.part_depth all.now) }
{
    let mut most = 0;
    for inner in all {
        most = most.max(part(inner));
    }
    most
}

#[cycle(exprs)]
fn rights(all: &[Operand]) -> usize
    ensures { result ≡ spec.most (map spec.operand_depth all.now) }
{
    let mut most = 0;
    for inner in all {
        most = most.max(right(inner));
    }
    most
}

#[cycle(exprs)]
fn sels(all: &[SelTree]) -> usize
    ensures { result ≡ spec.most (map spec.sel_depth all.now) }
{
    let mut most = 0;
    for inner in all {
        most = most.max(sel(inner));
    }
    most
}

#[cycle(exprs)]
fn conds(all: &[CondTree]) -> usize
    ensures { result ≡ spec.most (map spec.cond_depth all.now) }
{
    let mut most = 0;
    for inner in all {
        most = most.max(cond(inner));
    }
    most
}

#[cycle(exprs)]
fn values(all: &[ValueTree]) -> usize
    ensures { result ≡ spec.most (map spec.value_depth all.now) }
{
    let mut most = 0;
    for inner in all {
        most = most.max(value(inner));
    }
    most
}

#[cycle(exprs)]
fn field(tree: &FieldValue) -> usize
    ensures { result ≡ spec.field_depth tree.now }
{
    expr_depth(tree.value.get())
}

#[cycle(exprs)]
fn item(tree: &NewItem) -> usize
    ensures { result ≡ spec.item_depth tree.now }
{
    let value = match &tree.value {
        Some(value) => expr_depth(value.get()),
        None => 0,
    };
    expr_depth(tree.item.get()).max(value)
}

#[cycle(exprs)]
fn right(tree: &Operand) -> usize
    ensures { result ≡ spec.operand_depth tree.now }
{
    expr_depth(tree.right.get())
}

#[cycle(exprs)]
fn part(tree: &PostfixPart) -> usize
    ensures { result ≡ spec.part_depth tree.now }
{
    match tree {
        PostfixPart::Call(_, _, args) => opened(exprs(args.as_slice())),
        PostfixPart::Index(_, inner) => opened(expr_depth(inner.get())),
        PostfixPart::Field(_) | PostfixPart::Step(..) => 0,
    }
}

#[cycle(exprs)]
fn new_part(tree: &NewPart) -> usize
    ensures { result ≡ spec.new_depth tree.now }
{
    match tree {
        NewPart::Args(_, args) => opened(exprs(args.as_slice())),
        NewPart::Fields(_, all) => opened(fields(all.as_slice())),
        NewPart::Items(_, all) => opened(items(all.as_slice())),
    }
}

#[cycle(exprs)]
fn bind(tree: &BindTree) -> usize
    ensures { result ≡ spec.bind_depth tree.now }
{
    match tree {
        BindTree::Tokens(_) => 0,
        BindTree::Expr(_, inner) => expr_depth(inner.get()),
    }
}

#[cycle(exprs)]
fn count(tree: &CountTree) -> usize
    ensures { result ≡ spec.count_depth tree.now }
{
    match tree {
        CountTree::Whole(..) => 0,
        CountTree::Bind(inner) => bind(inner),
    }
}

#[cycle(exprs)]
fn value(tree: &ValueTree) -> usize
    ensures { result ≡ spec.value_depth tree.now }
{
    match tree {
        ValueTree::Bind(inner) => bind(inner),
        _ => 0,
    }
}

#[cycle(exprs)]
fn list(tree: &ListTree) -> usize
    ensures { result ≡ spec.list_depth tree.now }
{
    match tree {
        ListTree::Values(_, all) => opened(values(all.as_slice())),
        ListTree::Bind(inner) => bind(inner),
    }
}

#[cycle(exprs)]
fn cond(tree: &CondTree) -> usize
    ensures { result ≡ spec.cond_depth tree.now }
{
    match tree {
        CondTree::All(_, all) => conds(all.as_slice()),
        CondTree::Any(_, all) => conds(all.as_slice()),
        CondTree::Not(_, inner) => opened(cond(inner.get())),
        CondTree::Paren(_, inner) => opened(cond(inner.get())),
        CondTree::Compare(_, _, _, right) => value(right),
        CondTree::Within(_, _, _, right) => list(right),
    }
}

#[cycle(exprs)]
fn sel(tree: &SelTree) -> usize
    ensures { result ≡ spec.sel_depth tree.now }
{
    match tree {
        SelTree::Path(_) => 0,
        SelTree::Query(_, inner) => opened(query(inner.get())),
    }
}

#[cycle(exprs)]
fn select(tree: &SelectTree) -> usize
    ensures { result ≡ spec.select_depth tree.now }
{
    match tree {
        SelectTree::Count(_) => 1,
        SelectTree::Items(all) => sels(all.as_slice()),
    }
}

#[cycle(exprs)]
fn some_count(tree: &Option<CountTree>) -> usize
    ensures { result ≡ spec.some (option_map spec.count_depth tree.now) }
{
    match tree {
        Some(inner) => count(inner),
        None => 0,
    }
}

#[cycle(exprs)]
fn some_cond(tree: &Option<Boxed<CondTree>>) -> usize
    ensures { result ≡ spec.some (option_map spec.cond_depth tree.now) }
{
    match tree {
        Some(inner) => cond(inner.get()),
        None => 0,
    }
}

#[cycle(exprs)]
fn query(tree: &QueryTree) -> usize
    ensures { result ≡ spec.query_depth tree.now }
{
    let cut = some_count(&tree.limit).max(some_count(&tree.offset));
    select(&tree.select).max(some_cond(&tree.cond).max(cut))
}

#[cycle(exprs)]
fn expr_depth(tree: &Expr) -> usize
    ensures { result ≡ spec.expr_depth tree.now }
{
    match tree {
        Expr::Call(_, _, args) => opened(exprs(args.as_slice())),
        Expr::Paren(_, inner) => opened(expr_depth(inner.get())),
        Expr::New(_, kind, inner) => type_depth(kind).max(new_part(inner)),
        Expr::Query(_, inner) => opened(query(inner.get())),
        Expr::Postfix(_, first, all) => expr_depth(first.get()).max(parts(all.as_slice())),
        Expr::Prefix(_, _, inner) => opened(expr_depth(inner.get())),
        Expr::Cast(_, kind, inner) => opened(type_depth(kind).max(expr_depth(inner.get()))),
        Expr::Chain(_, first, all) => expr_depth(first.get()).max(rights(all.as_slice())),
        Expr::Conditional(_, test, one, other) => {
            let branches = expr_depth(one.get()).max(expr_depth(other.get()));
            expr_depth(test.get()).max(opened(branches))
        }
        Expr::Assign(_, target, _, inner) => {
            expr_depth(target.get()).max(opened(expr_depth(inner.get())))
        }
        Expr::Literal(..) | Expr::This(_) | Expr::Super(_) | Expr::Name(_) => 0,
    }
}

fn some_expr(tree: &Option<Boxed<Expr>>) -> usize
    ensures { result ≡ spec.some_expr tree.now }
{
    match tree {
        Some(inner) => expr_depth(inner.get()),
        None => 0,
    }
}

fn names(all: &[Declarator]) -> usize
    ensures { result ≡ spec.most (map spec.name_depth all.now) }
{
    let mut most = 0;
    for inner in all {
        most = most.max(some_expr(&inner.value));
    }
    most
}

fn start(tree: &ForStart) -> usize
    ensures { result ≡ spec.start_depth tree.now }
{
    match tree {
        ForStart::Nothing => 0,
        ForStart::Declare(kind, all) => type_depth(kind).max(names(all.as_slice())),
        ForStart::Expr(inner) => expr_depth(inner.get()),
    }
}

#[cycle(stmts)]
fn stmts(all: &[Stmt]) -> usize
    ensures { result ≡ spec.all_nests (map spec.stmt_nest all.now) }
{
    let mut most = 0;
    for inner in all {
        most = most.max(stmt_depth(inner));
    }
    most
}

#[cycle(stmts)]
fn body(tree: &Body) -> usize
    ensures { result ≡ spec.body_depth tree.now }
{
    opened(stmts(tree.stmts.as_slice()))
}

#[cycle(stmts)]
fn some_body(tree: &Option<Body>) -> usize
    ensures { result ≡ spec.some (option_map spec.body_depth tree.now) }
{
    match tree {
        Some(inner) => body(inner),
        None => 0,
    }
}

#[cycle(stmts)]
fn catches(all: &[Catch]) -> usize
    ensures { result ≡ spec.most (map spec.catch_depth all.now) }
{
    let mut most = 0;
    for inner in all {
        most = most.max(catch(inner));
    }
    most
}

#[cycle(stmts)]
fn catch(tree: &Catch) -> usize
    ensures { result ≡ spec.catch_depth tree.now }
{
    body(&tree.body)
}

// Whether a statement is a block.
fn is_braced(tree: &Stmt) -> bool
    ensures { result ≡ (spec.stmt_nest tree.now).braced }
{
    match tree {
        Stmt::Block(_) => true,
        _ => false,
    }
}

// A statement in another one.
#[cycle(stmts)]
fn inner(tree: &Stmt) -> usize
    ensures { result ≡ spec.inner (spec.stmt_nest tree.now) }
{
    let depth = stmt_depth(tree);
    if is_braced(tree) {
        depth
    } else {
        opened(depth)
    }
}

#[cycle(stmts)]
fn some_inner(tree: &Option<Boxed<Stmt>>) -> usize
    ensures { result ≡ spec.some_inner (option_map spec.stmt_nest tree.now) }
{
    match tree {
        Some(stmt) => inner(stmt.get()),
        None => 0,
    }
}

#[cycle(stmts)]
fn stmt_depth(tree: &Stmt) -> usize
    ensures { result ≡ spec.nest_depth (spec.stmt_nest tree.now) }
{
    match tree {
        Stmt::Block(block) => body(block),
        Stmt::Declare(_, kind, all) => type_depth(kind).max(names(all.as_slice())),
        Stmt::Expr(_, value) => expr_depth(value.get()),
        Stmt::If(_, test, yes, no) => {
            opened(expr_depth(test.get())).max(inner(yes.get()).max(some_inner(no)))
        }
        Stmt::While(_, test, again) => opened(expr_depth(test.get())).max(inner(again.get())),
        Stmt::Do(_, again, test) => inner(again.get()).max(opened(expr_depth(test.get()))),
        Stmt::For(_, first, test, step, again) => {
            let head = start(first).max(some_expr(test).max(some_expr(step)));
            opened(head).max(inner(again.get()))
        }
        Stmt::ForEach(_, kind, _, list, again) => {
            let head = type_depth(kind).max(expr_depth(list.get()));
            opened(head).max(inner(again.get()))
        }
        Stmt::Return(_, value) => some_expr(value),
        Stmt::Throw(_, value) => expr_depth(value.get()),
        Stmt::Try(_, block, all, last) => {
            body(block).max(catches(all.as_slice()).max(some_body(last)))
        }
        Stmt::Dml(_, _, value) => expr_depth(value.get()),
        Stmt::This(_, args) => opened(exprs(args.as_slice())),
        Stmt::Super(_, args) => opened(exprs(args.as_slice())),
        Stmt::Empty(_) | Stmt::Break(_) | Stmt::Continue(_) => 0,
    }
}

fn method_body(tree: &Option<Body>) -> usize
    ensures { result ≡ spec.some_body tree.now }
{
    match tree {
        Some(inner) => body(inner),
        None => 0,
    }
}

fn answer(tree: &ResultTree) -> usize
    ensures { result ≡ spec.result_depth tree.now }
{
    match tree {
        ResultTree::Void(_) => 0,
        ResultTree::Type(kind) => type_depth(kind),
    }
}

fn params(all: &[ParamTree]) -> usize
    ensures { result ≡ spec.params_depth all.now }
{
    let mut most = 0;
    for inner in all {
        most = most.max(type_depth(&inner.kind));
    }
    opened(most)
}

fn member(tree: &MemberTree) -> usize
    ensures { result ≡ spec.member_depth tree.now }
{
    match tree {
        MemberTree::Field(_, _, kind, _, value) => type_depth(kind).max(some_expr(value)),
        MemberTree::Property(_, _, kind, _) => type_depth(kind).max(1),
        MemberTree::Method(_, _, kind, _, all, block) => {
            answer(kind).max(params(all.as_slice()).max(method_body(block)))
        }
        MemberTree::Constructor(_, _, _, all, block) => params(all.as_slice()).max(body(block)),
    }
}

fn members(all: &[MemberTree]) -> usize
    ensures { result ≡ spec.most (map spec.member_depth all.now) }
{
    let mut most = 0;
    for inner in all {
        most = most.max(member(inner));
    }
    most
}

fn signature(tree: &SignatureTree) -> usize
    ensures { result ≡ spec.signature_depth tree.now }
{
    answer(&tree.result).max(params(tree.params.as_slice()))
}

fn signatures(all: &[SignatureTree]) -> usize
    ensures { result ≡ spec.most (map spec.signature_depth all.now) }
{
    let mut most = 0;
    for inner in all {
        most = most.max(signature(inner));
    }
    most
}

/// How many forms are open at once in a unit, at the most. Each `(`, `[` and `{`, each `<` of a type, each prefix
/// operator, cast, assignment and `?`, and each statement without braces in another one opens a form. It is counted up
/// to 2^64 - 1.
pub fn depth(unit: &Unit) -> usize
    ensures { result ≡ spec.unit_depth unit.now }
{
    match unit {
        Unit::Class(tree) => opened(members(tree.members.as_slice())),
        Unit::Interface(tree) => opened(signatures(tree.methods.as_slice())),
        Unit::Trigger(tree) => body(&tree.body).max(1),
        Unit::Block(all) => stmts(all.as_slice()),
    }
}
