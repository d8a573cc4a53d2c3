// The headers of units.

ghost use Rattle.std.specs.Prelude.{◌≡◌, slice_get};
ghost use Rattle.static_types.specs.declared.kind.ValueType.TheViews.{out-ValueType};
ghost use Rattle.type_names.specs.TypeTrees.{known};
ghost use Rattle.type_names.specs.Walks.{Tells};
ghost use Rattle.schema_names.specs.Names.{has};
ghost use Rattle.class_walk.specs.Headers as spec;

use apex_syntax::{ClassTree, Word};
use apex_text::Name;
use class_tables::{ClassHeads, Classes, Parent};
use fault_words::FaultWord;
use schema_names::Places;
use static_types::{ValueType, type_name};
use type_names::{TreeFault, TypeNames, named_type};

const PLATFORM_WORDS: [&str; 6] = [
    "math", "system", "database", "limits", "userinfo", "trigger",
];

// Whether one of these words is this one.
fn is_among(words: &[&str], word: &[u8]) -> bool
    ensures { result ≡ has (spec.words_in words.now) word.now }
{
    for one in words {
        if one.as_bytes() == word {
            return true;
        }
    }
    false
}

fn is_platform_word(name: &Name) -> bool
    ensures { result ≡ has spec.platform_words name.now }
{
    is_among(&PLATFORM_WORDS, name.bytes())
}

fn is_before(place: Option<usize>, n: usize) -> bool
    ensures { result ≡ spec.is_before place n }
{
    match place {
        Some(m) => m < n,
        None => false,
    }
}

fn is_taken(objects: &Places, units: &Places, n: usize, name: &Name) -> bool
    ensures { result ≡ spec.is_taken objects.now.names.items units.now.names.items n name.now }
{
    is_before(units.place(name), n)
        || objects.place(name).is_some()
        || type_name(name).is_some()
        || is_platform_word(name)
}

fn fresh(objects: &Places, units: &Places, n: usize, word: &Word) -> Result<(), TreeFault>
    ensures { Tells (spec.fresh objects.now.names.items units.now.names.items n word.now) result }
{
    if is_taken(objects, units, n, &word.name) {
        return Err(TreeFault::new(FaultWord::Duplicate, word.span.from));
    }
    Ok(())
}

fn ends_as_exception(name: &Name) -> bool
    ensures { result ≡ spec.ends_as_exception name.now }
{
    name.bytes().ends_with(b"exception")
}

fn is_extendable(lines: &ClassHeads, class: usize) -> bool
    ensures { result ≡ spec.is_open (slice_get lines.now.heads class) }
{
    match lines.heads.get(class) {
        Some(head) => head.extendable,
        None => false,
    }
}

fn has_few_ancestors(lines: &ClassHeads, class: usize) -> bool
    ensures { result ≡ spec.has_few_ancestors lines.now.heads class }
{
    lines.ends_within(32, Parent::Class(class))
}

fn has_exceptions(lines: &ClassHeads, class: usize) -> bool
    ensures { result ≡ spec.has_exceptions lines.now.heads class }
{
    lines.reaches_exception(32, Parent::Class(class))
}

fn may_extend(lines: &ClassHeads, own: &Name, class: usize) -> bool
    ensures { result ≡ spec.may_extend lines.now.heads own.now class }
{
    is_extendable(lines, class)
        && has_few_ancestors(lines, class)
        && (ends_as_exception(own) || !has_exceptions(lines, class))
}

fn parent_fits(lines: &ClassHeads, own: &Name, kind: &ValueType) -> bool
    ensures { result ≡ spec.parent_fits lines.now.heads own.now (out-ValueType kind.now) }
{
    match kind {
        ValueType::Class(c) => may_extend(lines, own, *c),
        ValueType::AnyException => ends_as_exception(own),
        _ => false,
    }
}

fn parent(
    names: &TypeNames,
    lines: &ClassHeads,
    own: &Name,
    word: &Option<Word>,
) -> Result<(), TreeFault>
    ensures { Tells (spec.parent_walk (known names.now) lines.now.heads own.now word.now) result }
{
    match word {
        None => Ok(()),
        Some(word) => {
            let kind = named_type(names, &word.name, &None, word.span.from)?;
            if parent_fits(lines, own, &kind) {
                Ok(())
            } else {
                Err(TreeFault::new(FaultWord::BadParent, word.span.from))
            }
        }
    }
}

fn is_interface(lines: &ClassHeads, class: usize) -> bool
    ensures { result ≡ spec.is_interface_head (slice_get lines.now.heads class) }
{
    match lines.heads.get(class) {
        Some(head) => head.interface,
        None => false,
    }
}

fn interface_fits(lines: &ClassHeads, kind: &ValueType) -> bool
    ensures { result ≡ spec.interface_fits lines.now.heads (out-ValueType kind.now) }
{
    match kind {
        ValueType::Class(c) => is_interface(lines, *c),
        _ => false,
    }
}

fn interface(names: &TypeNames, lines: &ClassHeads, word: &Word) -> Result<(), TreeFault>
    ensures { Tells (spec.interface_walk (known names.now) lines.now.heads word.now) result }
{
    let kind = named_type(names, &word.name, &None, word.span.from)?;
    if interface_fits(lines, &kind) {
        Ok(())
    } else {
        Err(TreeFault::new(FaultWord::BadParent, word.span.from))
    }
}

fn interfaces(names: &TypeNames, lines: &ClassHeads, words: &[Word]) -> Result<(), TreeFault>
    ensures { Tells (spec.interfaces_walk (known names.now) lines.now.heads words.now) result }
{
    for word in words {
        interface(names, lines, word)?;
    }
    Ok(())
}

/// Whether the name of the unit with this number may be its name: `Duplicate` at it where an earlier unit, an object or
/// the platform has it.
pub fn unit_name(classes: &Classes, unit: usize, word: &Word) -> Result<(), TreeFault>
    ensures { Tells (spec.unit_name_walk classes.now.objects.now.names.items classes.now.units.now unit word.now) result }
{
    fresh(classes.objects, classes.unit_places(), unit, word)
}

/// The first fault in front of the members of a class, the unit with this number: of its name, of its parent, and of its
/// interfaces in their order.
pub fn class_header(classes: &Classes, unit: usize, tree: &ClassTree) -> Result<(), TreeFault>
    ensures { Tells (spec.class_header classes.now.objects.now.names.items classes.now.units.now unit tree.now) result }
{
    unit_name(classes, unit, &tree.name)?;
    let names = classes.names();
    let lines = classes.lines();
    parent(&names, lines, &tree.name.name, &tree.parent)?;
    interfaces(&names, lines, tree.interfaces.as_slice())
}
