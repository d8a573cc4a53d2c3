// The code of one block, with its types.

ghost use Rattle.std.specs.Prelude.{◌≡◌, [], ◌∷◌, Ok, Err, IfOk, MatchResult};
ghost use Rattle.apex_types.specs.Checks.{Gives, checked};
ghost use Rattle.commands.specs.Exec as spec;
ghost use Rattle.commands.specs.Made as shown;

use apex_list::Items;
use apex_num::{NoMemory, Text};
use apex_schema::Schema;
use apex_syntax::Unit;
use apex_types::{CheckFault, check};
use schema_build::build;
use schema_plans::{SchemaFault, SchemaPlan, UserPlan};
use std::alloc::{AllocError, Global};
use std::slice;
use type_names::TreeFault;
use typed_program::{Program, TypedStmt};

// One user, and no object but the platform's own.
fn plan(alloc: Global) -> Result<SchemaPlan, NoMemory>
    ensures { IfOk result (λ plan. plan ≡ spec.plan) }
{
    let mut users = Items::new(alloc);
    users.push(UserPlan {
        name: Text::from_str(alloc, "user")?,
        role: None,
    })?;
    Ok(SchemaPlan {
        roles: Items::new(alloc),
        users,
        objects: Items::new(alloc),
    })
}

/// The schema that the block of `exec` has.
pub fn exec_schema(alloc: Global) -> Result<Schema, NoMemory>
    ensures { IfOk result (λ schema. schema ≡ spec.schema) }
{
    let plan = plan(alloc)?;
    match build(alloc, &plan) {
        Ok(schema) => Ok(schema),
        Err(SchemaFault::Wrong(_)) => unreachable!(),
        Err(SchemaFault::NoMemory) => Err(AllocError),
    }
}

/// The program of a block that stands alone.
pub fn program_of(alloc: Global, schema: &Schema, tree: &Unit) -> Result<Program, NoMemory>
    ensures { IfOk result (λ program. checked schema.now.objects [] (tree.now ∷ []) ≡ Gives program) }
{
    match check(alloc, schema, &[], slice::from_ref(tree)) {
        Ok(program) => Ok(program),
        Err(CheckFault::Wrong(_)) => unreachable!(),
        Err(CheckFault::NoMemory) => Err(AllocError),
    }
}

/// The typed code of the block in such a program, or its first fault.
pub fn block_in(program: &Program) -> Result<&[TypedStmt], &TreeFault>
    requires { shown.IsOfBlock program.now }
    ensures { MatchResult result (λ block. program.now ≡ spec.program_of (Ok block.now)) (λ fault. program.now ≡ spec.program_of (Err fault.now)) }
{
    match program.blocks.get(0) {
        Some(Ok(stmts)) => Ok(stmts.as_slice()),
        Some(Err(fault)) => Err(fault),
        None => unreachable!(),
    }
}
