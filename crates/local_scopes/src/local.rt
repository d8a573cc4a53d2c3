// Locals.

ghost use Rattle.std.specs.Prelude.{◌≡◌, ◌++◌, ◌∷◌, [], None, length, OnOk, IfOk};
ghost use Rattle.local_scopes.specs.Scopes.{slot_of};
ghost use Rattle.type_names.specs.Walks.{Tells};
ghost use Rattle.local_scopes.specs.Locals as spec;

use crate::Scope;
use apex_num::NoMemory;
use apex_syntax::Word;
use fault_words::FaultWord;
use static_types::ValueType;
use type_names::TreeFault;

/// That no local in scope has this name; `Duplicate` at the name where one has it.
pub fn fresh(scope: &Scope, word: &Word) -> Result<(), TreeFault>
    ensures told { Tells (spec.fresh scope.now word.now) result }
    ensures absent { IfOk result (λ _. slot_of scope.now word.now.name ≡ None) }
{
    match scope.slot(&word.name) {
        Some(_) => Err(TreeFault::new(FaultWord::Duplicate, word.span.from)),
        None => Ok(()),
    }
}

/// A local more, whose name is in scope nowhere yet: its slot.
pub fn declare(scope: &mut Scope, word: &Word, kind: ValueType) -> Result<usize, NoMemory>
    requires { slot_of scope.old word.now.name ≡ None }
    ensures slot { IfOk result (λ n. n ≡ length scope.old) }
    ensures scope { OnOk result (scope.new ≡ scope.old ++ spec.local word.now kind ∷ []) }
{
    let slot = scope.len();
    let name = word.name.copy()?;
    scope.declare(name, kind)?;
    Ok(slot)
}
