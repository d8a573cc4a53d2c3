// Members that are named twice.

ghost use Rattle.std.specs.Prelude.{◌≡◌, bytes_eq, IfOk, OnOk};
ghost use Rattle.indexmap.specs.IndexSet.{insert_key};
ghost use Rattle.class_walk.specs.declared.label.MemberLabel.TheVariants.{Method};
ghost use Rattle.class_walk.specs.Keys.{label_eq};
ghost use Rattle.class_walk.specs.Duplicates as spec;
ghost use Rattle.class_walk.specs.SeenMembers.{seen_of};

use crate::label::{MemberLabel, MethodLabel, labels_of, signature_labels};
use apex_list::Items;
use apex_num::NoMemory;
use apex_syntax::{MemberTree, SignatureTree};
use apex_text::Name;
use indexmap::IndexSet;
use std::alloc::{AllocError, Global};

// The names of fields and of methods that were met, and these methods.
#[derive(Drop)]
pub struct SeenMembers {
    pub fields: IndexSet<Name>,
    pub methods: IndexSet<Name>,
    pub labels: IndexSet<MethodLabel>,
}

fn is_duplicate(seen: &SeenMembers, label: &MemberLabel) -> bool
    ensures { result ≡ spec.is_duplicate (seen_of seen.now) label.now }
{
    match label {
        MemberLabel::Field(name) => seen.fields.contains(name) || seen.methods.contains(name),
        MemberLabel::Method(label) => {
            seen.fields.contains(&label.name) || seen.labels.contains(label)
        }
    }
}

fn add_name(names: &mut IndexSet<Name>, name: &Name) -> Result<(), NoMemory>
    ensures { OnOk result (names.new.keys ≡ insert_key bytes_eq names.old.keys name.now) }
{
    names.insert(name.copy()?).map_err(AllocError::from)?;
    Ok(())
}

fn add_label(labels: &mut IndexSet<MethodLabel>, label: &MethodLabel) -> Result<(), NoMemory>
    ensures { OnOk result (labels.new.keys ≡ insert_key label_eq labels.old.keys label.now) }
{
    labels.insert(label.copy()?).map_err(AllocError::from)?;
    Ok(())
}

fn add_method(seen: &mut SeenMembers, label: &MethodLabel) -> Result<(), NoMemory>
    ensures { OnOk result (seen_of seen.new ≡ spec.with_label (seen_of seen.old) (Method label.now)) }
{
    add_name(&mut seen.methods, &label.name)?;
    add_label(&mut seen.labels, label)
}

fn add(seen: &mut SeenMembers, label: &MemberLabel) -> Result<(), NoMemory>
    ensures { OnOk result (seen_of seen.new ≡ spec.with_label (seen_of seen.old) label.now) }
{
    match label {
        MemberLabel::Field(name) => add_name(&mut seen.fields, name),
        MemberLabel::Method(label) => add_method(seen, label),
    }
}

// For each label, whether one before it stands in its way.
fn flags_from(
    alloc: Global,
    seen: &mut SeenMembers,
    labels: &[MemberLabel],
) -> Result<Items<bool>, NoMemory>
    ensures { IfOk result (λ flags. flags ≡ spec.duplicates_from (seen_of seen.old) labels.now) }
{
    let mut flags = Items::new(alloc);
    for label in labels {
        flags.push(is_duplicate(seen, label))?;
        add(seen, label)?;
    }
    Ok(flags)
}

fn flags_of(alloc: Global, labels: &[MemberLabel]) -> Result<Items<bool>, NoMemory>
    ensures { IfOk result (λ flags. flags ≡ spec.duplicates_from spec.nothing_seen labels.now) }
{
    let mut seen = SeenMembers {
        fields: IndexSet::new(alloc),
        methods: IndexSet::new(alloc),
        labels: IndexSet::new(alloc),
    };
    flags_from(alloc, &mut seen, labels)
}

/// For each member of a class, in their order, whether it is named twice: a field, where a field or a method before it
/// has its name; a method, where a field before it has its name, or a method its name and as many parameters; a
/// constructor, where one before it has as many parameters. One pass with looks into hash tables.
pub fn duplicates(alloc: Global, members: &[MemberTree]) -> Result<Items<bool>, NoMemory>
    ensures { IfOk result (λ flags. flags ≡ spec.duplicates members.now) }
{
    let labels = labels_of(alloc, members)?;
    flags_of(alloc, labels.as_slice())
}

/// For each method of an interface, in their order, whether one before it has its name and as many parameters.
pub fn signature_duplicates(
    alloc: Global,
    signatures: &[SignatureTree],
) -> Result<Items<bool>, NoMemory>
    ensures { IfOk result (λ flags. flags ≡ spec.signature_duplicates signatures.now) }
{
    let labels = signature_labels(alloc, signatures)?;
    flags_of(alloc, labels.as_slice())
}
