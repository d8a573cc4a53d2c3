// The instructions of queries.

ghost use Rattle.std.specs.Prelude.{◌≡◌, ◌∷◌, [], ◌++◌, OnOk};
ghost use Rattle.query_records.specs.Shapes.{queried as asked};
ghost use Rattle.stack_code.specs.Code as spec;
ghost use Rattle.stack_compiler.specs.Codes as codes;

use crate::emitted::put;
use apex_list::{Boxed, Items};
use apex_num::NoMemory;
use apex_rows::Query;
use query_records::{BindKind, queried};
use stack_code::Instr;
use std::alloc::Global;
use typed_program::TypedBind;

/// How the value of a bind is given.
pub fn kind_of(bind: &TypedBind) -> BindKind
    ensures { result ≡ codes.kind_of bind.now }
{
    match bind {
        TypedBind::One(_) => BindKind::One,
        TypedBind::Many(how, _) => BindKind::Many(*how),
    }
}

/// The instruction of a query, behind those of its binds.
pub fn put_query(
    code: &mut Vec<Instr>,
    alloc: Global,
    query: &Query,
    kinds: Items<BindKind>,
) -> Result<(), NoMemory>
    ensures { OnOk result (code.new.items ≡ code.old.items ++ Instr.Query (asked query.now) kinds ∷ []) }
{
    let queried = queried(alloc, query)?;
    put(code, Instr::Query(Boxed::new(alloc, queried)?, kinds))
}
