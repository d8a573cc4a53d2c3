// Where statements stand.

use class_tables::ResultHead;
use method_calls::MethodNames;
use name_meanings::Setting;

/// What the statements of a body see beside its locals: where the body stands, the names of all methods, and what the
/// body answers.
#[derive(Drop)]
pub struct BodyView<'a> {
    pub setting: &'a Setting<'a>,
    pub methods: &'a MethodNames,
    pub due: &'a ResultHead,
}
