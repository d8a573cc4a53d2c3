// What all code of a tenant sees.

ghost use Rattle.std.specs.Prelude.{◌≡◌};
ghost use Rattle.name_meanings.specs.Settings.{around};
ghost use Rattle.apex_types.specs.Homes as spec;

use class_tables::{ClassHeads, MemberTables};
use method_calls::MethodNames;
use name_meanings::Setting;
use record_words::RecordWords;
use type_names::TypeNames;

/// What all code of a tenant sees: its types, classes, members and objects.
#[derive(Drop)]
pub struct Home<'a> {
    pub names: TypeNames<'a>,
    pub lines: &'a ClassHeads,
    pub members: &'a MemberTables,
    pub words: &'a RecordWords<'a>,
    pub methods: &'a MethodNames,
}

impl<'a> Home<'a> {
    /// Where code of a class stands, or of none.
    pub fn setting(
        &self,
        class: Option<usize>,
        is_static: bool,
        in_constructor: bool,
    ) -> Setting<'a>
        ensures { around result ≡ spec.setting (spec.home self.now) class is_static in_constructor }
    {
        Setting {
            names: TypeNames {
                objects: self.names.objects,
                classes: self.names.classes,
            },
            lines: self.lines,
            members: self.members,
            words: self.words,
            class,
            is_static,
            in_constructor,
            trigger: None,
        }
    }

    /// Where the code of a trigger on an object stands.
    pub fn trigger(&self, object: usize) -> Setting<'a>
        ensures { around result ≡ spec.trigger (spec.home self.now) object }
    {
        Setting {
            names: TypeNames {
                objects: self.names.objects,
                classes: self.names.classes,
            },
            lines: self.lines,
            members: self.members,
            words: self.words,
            class: None,
            is_static: true,
            in_constructor: false,
            trigger: Some(object),
        }
    }
}
