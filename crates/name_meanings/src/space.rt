// Names that stand before a dot and are no values.

ghost use Rattle.std.specs.Prelude.{◌≡◌};
ghost use Rattle.type_names.specs.TypeTrees.{known};
ghost use Rattle.type_names.specs.Walks.{Tells};
ghost use Rattle.name_meanings.specs.Spaces as spec;

use apex_syntax::Word;
use apex_text::Name;
use fault_words::FaultWord;
use static_types::{TypeName, type_name};
use type_names::{TreeFault, TypeHead, TypeNames};
use typed_values::Space;

/// A word of the platform, in small letters, and what it stands for.
#[derive(Clone, Copy, Drop)]
pub struct SpaceRow {
    pub word: &'static str,
    pub space: Space,
}

const BEHIND_SYSTEM: [SpaceRow; 4] = [
    SpaceRow {
        word: "math",
        space: Space::Math,
    },
    SpaceRow {
        word: "limits",
        space: Space::Limits,
    },
    SpaceRow {
        word: "userinfo",
        space: Space::UserInfo,
    },
    SpaceRow {
        word: "database",
        space: Space::Database,
    },
];

const ALONE: [SpaceRow; 2] = [
    SpaceRow {
        word: "system",
        space: Space::System,
    },
    SpaceRow {
        word: "trigger",
        space: Space::Trigger,
    },
];

fn space_in(rows: &[SpaceRow], name: &[u8]) -> Option<Space>
    ensures { result ≡ spec.space_in rows.now name.now }
{
    for row in rows {
        if row.word.as_bytes() == name {
            return Some(row.space);
        }
    }
    None
}

fn library_word(name: &Name) -> Option<Space>
    ensures { result ≡ spec.library_word name.now }
{
    space_in(&BEHIND_SYSTEM, name.bytes())
}

fn platform_word(name: &Name) -> Option<Space>
    ensures { result ≡ spec.platform_word name.now }
{
    match library_word(name) {
        Some(space) => Some(space),
        None => space_in(&ALONE, name.bytes()),
    }
}

fn type_space(named: TypeName, at: usize) -> Result<Space, TreeFault>
    ensures { Tells (spec.type_space named at) result }
{
    match named {
        TypeName::Double => Err(TreeFault::new(FaultWord::DoubleRefused, at)),
        named => Ok(Space::Named(named)),
    }
}

fn head_space(head: TypeHead, at: usize) -> Result<Space, TreeFault>
    ensures { Tells (spec.head_space head at) result }
{
    match head {
        TypeHead::Named(named) => type_space(named, at),
        TypeHead::Record(n) => Ok(Space::Record(n)),
        TypeHead::Class(n) => Ok(Space::Class(n)),
        TypeHead::Platform(_) => Err(TreeFault::new(FaultWord::UnknownName, at)),
    }
}

// Before a dot a class comes before an object.
fn before_dot(names: &TypeNames, name: &Name) -> Option<TypeHead>
    ensures { result ≡ spec.before_dot (known names.now) name.now }
{
    if let Some(named) = type_name(name) {
        return Some(TypeHead::Named(named));
    }
    if let Some(n) = names.classes.place(name) {
        return Some(TypeHead::Class(n));
    }
    match names.objects.place(name) {
        Some(n) => Some(TypeHead::Record(n)),
        None => None,
    }
}

/// What a name that is no value stands for before a dot. `UnknownName` where it stands for nothing, and `DoubleRefused`.
pub fn space_named(names: &TypeNames, word: &Word) -> Result<Space, TreeFault>
    ensures { Tells (spec.space_named (known names.now) word.now) result }
{
    if let Some(space) = platform_word(&word.name) {
        return Ok(space);
    }
    match before_dot(names, &word.name) {
        Some(head) => head_space(head, word.span.from),
        None => Err(TreeFault::new(FaultWord::UnknownName, word.span.from)),
    }
}

/// What a name behind `System.` stands for; `System` begins at this byte. `UnknownName` at the name where it stands for
/// nothing, and `DoubleRefused` at `System`.
pub fn system_member(at: usize, word: &Word) -> Result<Space, TreeFault>
    ensures { Tells (spec.system_member at word.now) result }
{
    if let Some(space) = library_word(&word.name) {
        return Ok(space);
    }
    match type_name(&word.name) {
        Some(named) => type_space(named, at),
        None => Err(TreeFault::new(FaultWord::UnknownName, word.span.from)),
    }
}
