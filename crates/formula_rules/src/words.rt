// The words of formulas.

ghost use Rattle.std.specs.Prelude.{◌≡◌, bytes_eq};
ghost use Rattle.formula_rules.specs.Grammar as grammar;
ghost use Rattle.formula_rules.specs.Readings.{is_of_formulas};

use apex_text::Name;

/// A function of formulas.
#[derive(Clone, Copy, PartialEq, Eq, Drop)]
pub enum Function {
    And,
    Or,
    Not,
    IsBlank,
    IsChanged,
    IsNew,
    PriorValue,
    Len,
}

impl Function {
    /// Whether a call is a formula, and not a term of one.
    pub fn is_of_formulas(self) -> bool
        ensures { result ≡ is_of_formulas self }
    {
        match self {
            Function::PriorValue | Function::Len => false,
            _ => true,
        }
    }
}

// Whether a word is this one.
fn is(word: &Name, text: &str) -> bool
    ensures { result ≡ bytes_eq word.now text.now }
{
    word.bytes() == text.as_bytes()
}

/// The function that a word names.
pub fn function_of(word: &Name) -> Option<Function>
    ensures { result ≡ grammar.function_of word.now }
{
    if is(word, "and") {
        Some(Function::And)
    } else if is(word, "or") {
        Some(Function::Or)
    } else if is(word, "not") {
        Some(Function::Not)
    } else if is(word, "isblank") {
        Some(Function::IsBlank)
    } else if is(word, "ischanged") {
        Some(Function::IsChanged)
    } else if is(word, "isnew") {
        Some(Function::IsNew)
    } else if is(word, "priorvalue") {
        Some(Function::PriorValue)
    } else if is(word, "len") {
        Some(Function::Len)
    } else {
        None
    }
}

/// TRUE or FALSE.
pub fn truth_of(word: &Name) -> Option<bool>
    ensures { result ≡ grammar.truth_of word.now }
{
    if is(word, "true") {
        Some(true)
    } else if is(word, "false") {
        Some(false)
    } else {
        None
    }
}
