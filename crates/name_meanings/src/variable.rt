// The variables of triggers.

ghost use Rattle.std.specs.Prelude.{◌≡◌, IfOk};
ghost use Rattle.name_meanings.specs.Variables as spec;

use apex_list::Boxed;
use apex_num::NoMemory;
use static_types::{Primitive, ValueType};
use std::alloc::Global;
use typed_program::TriggerVariable;

/// The name of a variable, in small letters.
#[derive(Clone, Copy, Drop)]
pub struct VariableRow {
    pub word: &'static str,
    pub variable: TriggerVariable,
}

const VARIABLES: [VariableRow; 10] = [
    VariableRow {
        word: "new",
        variable: TriggerVariable::New,
    },
    VariableRow {
        word: "old",
        variable: TriggerVariable::Old,
    },
    VariableRow {
        word: "newmap",
        variable: TriggerVariable::NewMap,
    },
    VariableRow {
        word: "oldmap",
        variable: TriggerVariable::OldMap,
    },
    VariableRow {
        word: "isinsert",
        variable: TriggerVariable::IsInsert,
    },
    VariableRow {
        word: "isupdate",
        variable: TriggerVariable::IsUpdate,
    },
    VariableRow {
        word: "isdelete",
        variable: TriggerVariable::IsDelete,
    },
    VariableRow {
        word: "isbefore",
        variable: TriggerVariable::IsBefore,
    },
    VariableRow {
        word: "isafter",
        variable: TriggerVariable::IsAfter,
    },
    VariableRow {
        word: "size",
        variable: TriggerVariable::Size,
    },
];

fn variable_in(rows: &[VariableRow], name: &[u8]) -> Option<TriggerVariable>
    ensures { result ≡ spec.variable_in rows.now name.now }
{
    for row in rows {
        if row.word.as_bytes() == name {
            return Some(row.variable);
        }
    }
    None
}

/// The variable of a trigger with this name.
pub fn variable_named(name: &[u8]) -> Option<TriggerVariable>
    ensures { result ≡ spec.variable_named name.now }
{
    variable_in(&VARIABLES, name)
}

/// The type that a variable has in the triggers on an object.
pub fn variable_type(
    alloc: Global,
    variable: TriggerVariable,
    object: usize,
) -> Result<ValueType, NoMemory>
    ensures { IfOk result (λ k. k ≡ spec.variable_type variable object) }
{
    match variable {
        TriggerVariable::New | TriggerVariable::Old => {
            Ok(ValueType::List(Boxed::new(alloc, ValueType::Record(object))?))
        }
        TriggerVariable::NewMap | TriggerVariable::OldMap => {
            let record = Boxed::new(alloc, ValueType::Record(object))?;
            Ok(ValueType::Map(Primitive::Id, record))
        }
        TriggerVariable::Size => Ok(ValueType::Primitive(Primitive::Integer)),
        TriggerVariable::IsInsert
        | TriggerVariable::IsUpdate
        | TriggerVariable::IsDelete
        | TriggerVariable::IsBefore
        | TriggerVariable::IsAfter => Ok(ValueType::Primitive(Primitive::Boolean)),
    }
}
