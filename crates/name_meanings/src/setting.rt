// Where code stands.

use class_tables::{ClassHeads, MemberTables};
use record_words::RecordWords;
use type_names::TypeNames;

/// Where an expression stands, its locals apart.
#[derive(Drop)]
pub struct Setting<'a> {
    pub names: TypeNames<'a>,
    pub lines: &'a ClassHeads,
    pub members: &'a MemberTables,
    pub words: &'a RecordWords<'a>,
    /// The number of the class whose code it is; `None` in a trigger and a block.
    pub class: Option<usize>,
    /// Whether there is no `this`.
    pub is_static: bool,
    /// Whether it is the body of a constructor.
    pub in_constructor: bool,
    /// The number of the object of the trigger whose code it is.
    pub trigger: Option<usize>,
}
