// The names of types.

ghost use Rattle.std.specs.Prelude.{◌≡◌};
ghost use Rattle.type_names.specs.TypeTrees as spec;
ghost use Rattle.type_names.specs.Walks.{Tells};

use crate::fault::TreeFault;
use crate::names::TypeNames;
use apex_syntax::Word;
use apex_text::Name;
use fault_words::FaultWord;
use static_types::{PlatformType, TypeName, platform_type, type_name};

/// What the name of a type says, whatever stands behind it in `<` and `>`.
#[derive(Clone, Copy, Drop)]
pub enum TypeHead {
    Named(TypeName),
    Platform(PlatformType),
    /// The object with this number.
    Record(usize),
    /// The class or interface with this number.
    Class(usize),
}

/// What a name says of a type where it stands alone: it is that of a built-in type, of an object, or of a class or an
/// interface, looked for in this order.
pub fn type_head(names: &TypeNames, name: &Name) -> Option<TypeHead>
    ensures { result ≡ spec.alone (spec.known names.now) name.now }
{
    if let Some(named) = type_name(name) {
        return Some(TypeHead::Named(named));
    }
    if let Some(n) = names.objects.place(name) {
        return Some(TypeHead::Record(n));
    }
    match names.classes.place(name) {
        Some(n) => Some(TypeHead::Class(n)),
        None => None,
    }
}

// A name behind a dot.
fn member(front: &Name, name: &Name) -> Option<TypeHead>
    ensures { result ≡ spec.member front.now name.now }
{
    if front.bytes() == b"system".as_slice() {
        return match type_name(name) {
            Some(named) => Some(TypeHead::Named(named)),
            None => None,
        };
    }
    if front.bytes() == b"database".as_slice() {
        return match platform_type(name) {
            Some(kind) => Some(TypeHead::Platform(kind)),
            None => None,
        };
    }
    None
}

fn named(names: &TypeNames, name: &Name, behind: &Option<Word>) -> Option<TypeHead>
    ensures { result ≡ spec.named (spec.known names.now) name.now behind.now }
{
    match behind {
        None => type_head(names, name),
        Some(word) => member(name, &word.name),
    }
}

fn accepted(head: Option<TypeHead>, at: usize) -> Result<TypeHead, TreeFault>
    ensures { Tells (spec.accepted head at) result }
{
    match head {
        None => Err(TreeFault::new(FaultWord::UnknownType, at)),
        Some(TypeHead::Named(TypeName::Double)) => {
            Err(TreeFault::new(FaultWord::DoubleRefused, at))
        }
        Some(head) => Ok(head),
    }
}

/// What the name of a type says, or its fault at this byte.
pub fn head_of(
    names: &TypeNames,
    name: &Name,
    behind: &Option<Word>,
    at: usize,
) -> Result<TypeHead, TreeFault>
    ensures { Tells (spec.accepted (spec.named (spec.known names.now) name.now behind.now) at) result }
{
    accepted(named(names, name, behind), at)
}
