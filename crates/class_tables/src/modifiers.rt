// The modifiers of classes.

ghost use Rattle.std.specs.Prelude.{◌≡◌, None};
ghost use Rattle.class_tables.specs.Heads as spec;

use apex_schema::Mode;
use apex_syntax::{ClassModifier, ClassWord};

fn says_abstract(word: ClassWord) -> bool
    ensures { result ≡ spec.is_abstract_word word }
{
    match word {
        ClassWord::Abstract => true,
        _ => false,
    }
}

/// Whether `abstract` stands there.
pub fn is_abstract(modifiers: &[ClassModifier]) -> bool
    ensures { result ≡ spec.any_word spec.is_abstract_word modifiers.now }
{
    for modifier in modifiers {
        if says_abstract(modifier.word) {
            return true;
        }
    }
    false
}

fn opens(word: ClassWord) -> bool
    ensures { result ≡ spec.is_open_word word }
{
    match word {
        ClassWord::Virtual | ClassWord::Abstract => true,
        _ => false,
    }
}

/// Whether `virtual` or `abstract` stands there.
pub fn is_open(modifiers: &[ClassModifier]) -> bool
    ensures { result ≡ spec.any_word spec.is_open_word modifiers.now }
{
    for modifier in modifiers {
        if opens(modifier.word) {
            return true;
        }
    }
    false
}

fn sharing_after(mode: Option<Mode>, word: ClassWord) -> Option<Mode>
    ensures { result ≡ spec.sharing_after mode word }
{
    match word {
        ClassWord::WithSharing => Some(Mode::Sharing),
        ClassWord::WithoutSharing => Some(Mode::Without),
        ClassWord::InheritedSharing => None,
        _ => mode,
    }
}

/// What the last word on sharing says; `None` where the mode is the caller's.
pub fn sharing(modifiers: &[ClassModifier]) -> Option<Mode>
    ensures { result ≡ spec.sharing_from None modifiers.now }
{
    let mut mode = None;
    for modifier in modifiers {
        mode = sharing_after(mode, modifier.word);
    }
    mode
}
