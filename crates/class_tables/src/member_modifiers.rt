// The modifiers of members.

ghost use Rattle.std.specs.Prelude.{◌≡◌};
ghost use Rattle.class_tables.specs.Modifiers as spec;

use apex_syntax::{MemberModifier, MemberWord};

/// Whether this word is among them.
pub fn has_word(modifiers: &[MemberModifier], word: MemberWord) -> bool
    ensures { result ≡ spec.has_word word modifiers.now }
{
    for modifier in modifiers {
        if modifier.word == word {
            return true;
        }
    }
    false
}

// Whether a word on access other than `private` is among them.
fn has_access(modifiers: &[MemberModifier]) -> bool
    ensures { result ≡ spec.has_access modifiers.now }
{
    has_word(modifiers, MemberWord::Public)
        || has_word(modifiers, MemberWord::Global)
        || has_word(modifiers, MemberWord::Protected)
}

/// Whether a field or a constructor is private.
pub fn is_private(modifiers: &[MemberModifier]) -> bool
    ensures { result ≡ spec.is_private modifiers.now }
{
    has_word(modifiers, MemberWord::Private) || !has_access(modifiers)
}

/// Whether a method is virtual: one without a body is.
pub fn is_virtual(modifiers: &[MemberModifier], has_body: bool) -> bool
    ensures { result ≡ spec.is_virtual modifiers.now has_body }
{
    !has_body
        || has_word(modifiers, MemberWord::Virtual)
        || has_word(modifiers, MemberWord::Abstract)
        || has_word(modifiers, MemberWord::Override)
}

/// Whether a method is private.
pub fn is_private_method(modifiers: &[MemberModifier], has_body: bool) -> bool
    ensures { result ≡ spec.is_private_method modifiers.now has_body }
{
    has_word(modifiers, MemberWord::Private)
        || (!has_access(modifiers) && !is_virtual(modifiers, has_body))
}
