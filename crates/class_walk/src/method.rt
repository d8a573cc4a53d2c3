// Single methods.

ghost use Rattle.std.specs.Prelude.{◌≡◌, IfOk};
ghost use Rattle.std.specs.Option.{option_copied};
ghost use Rattle.class_tables.specs.Tables.{all_in};
ghost use Rattle.class_walk.specs.Missing as spec;

use crate::overrides::method_of;
use crate::signature::same_signature;
use apex_num::NoMemory;
use class_tables::{ClassHeads, MemberTables, MethodHead};

// Whether there is a method, and it has a body.
fn runs(method: Option<&MethodHead>) -> bool
    ensures { result ≡ spec.runs (option_copied method.entry) }
{
    match method {
        Some(method) => method.has_body,
        None => false,
    }
}

/// Whether a method has no body, and none with a body stands in its place in a class.
pub fn is_lacked(
    tables: &MemberTables,
    lines: &ClassHeads,
    class: usize,
    method: &MethodHead,
) -> Result<bool, NoMemory>
    ensures { IfOk result (λ b. b ≡ spec.is_lacked (all_in tables.now) lines.now.heads class method.now) }
{
    if method.has_body {
        return Ok(false);
    }
    let key = method.key()?;
    let nearest = tables.method(lines, class, &key);
    Ok(!runs(method_of(tables, nearest)))
}

// Whether there is a method with a body and the types of another one.
fn answers(method: Option<&MethodHead>, signature: &MethodHead) -> bool
    ensures { result ≡ spec.answers (option_copied method.entry) signature.now }
{
    match method {
        Some(method) => method.has_body && same_signature(method, signature),
        None => false,
    }
}

/// Whether no method of a class meets one of an interface.
pub fn is_unmet(
    tables: &MemberTables,
    lines: &ClassHeads,
    class: usize,
    signature: &MethodHead,
) -> Result<bool, NoMemory>
    ensures { IfOk result (λ b. b ≡ spec.is_unmet (all_in tables.now) lines.now.heads class signature.now) }
{
    let key = signature.key()?;
    let nearest = tables.method(lines, class, &key);
    Ok(!answers(method_of(tables, nearest), signature))
}
