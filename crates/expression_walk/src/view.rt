// What an expression sees.

use local_scopes::Scope;
use method_calls::MethodNames;
use name_meanings::Setting;

/// What an expression sees: where it stands, the names of all methods, and the locals that are in scope.
#[derive(Drop)]
pub struct View<'a> {
    pub setting: &'a Setting<'a>,
    pub methods: &'a MethodNames,
    pub scope: &'a Scope,
}
