// Labels of members.

ghost use Rattle.std.specs.Prelude.{◌≡◌, map, IfOk};
ghost use Rattle.class_walk.specs.declared.label.MemberLabel.TheVariants.{Method};
ghost use Rattle.class_walk.specs.Duplicates as spec;

use apex_list::Items;
use apex_num::NoMemory;
use apex_syntax::{MemberTree, SignatureTree};
use apex_text::Name;
use std::alloc::Global;

/// A method by its name and the number of its parameters, whether it is static or not. A constructor has no name.
#[derive(PartialEq, Eq, Hash, Drop)]
pub struct MethodLabel {
    pub name: Name,
    pub count: usize,
}

impl MethodLabel {
    /// An equal label.
    pub fn copy(&self) -> Result<MethodLabel, NoMemory>
        ensures { IfOk result (λ l. l ≡ self.now) }
    {
        Ok(MethodLabel {
            name: self.name.copy()?,
            count: self.count,
        })
    }
}

/// What a member is told by.
#[derive(Drop)]
pub enum MemberLabel {
    /// A field's name.
    Field(Name),
    Method(MethodLabel),
}

fn labeled(name: Name, count: usize) -> MemberLabel
    ensures { result ≡ Method (spec.label name count) }
{
    MemberLabel::Method(MethodLabel { name, count })
}

fn label_of(alloc: Global, member: &MemberTree) -> Result<MemberLabel, NoMemory>
    ensures { IfOk result (λ label. label ≡ spec.label_of member.now) }
{
    match member {
        MemberTree::Field(_, _, _, word, _) => Ok(MemberLabel::Field(word.name.copy()?)),
        MemberTree::Property(_, _, _, word) => Ok(MemberLabel::Field(word.name.copy()?)),
        MemberTree::Method(_, _, _, word, params, _) => {
            Ok(labeled(word.name.copy()?, params.len()))
        }
        MemberTree::Constructor(_, _, _, params, _) => {
            Ok(labeled(Name::of(alloc, b"")?, params.len()))
        }
    }
}

/// The labels of members, in their order.
pub fn labels_of(alloc: Global, members: &[MemberTree]) -> Result<Items<MemberLabel>, NoMemory>
    ensures { IfOk result (λ labels. labels ≡ map spec.label_of members.now) }
{
    let mut labels = Items::new(alloc);
    for member in members {
        labels.push(label_of(alloc, member)?)?;
    }
    Ok(labels)
}

fn signature_label(signature: &SignatureTree) -> Result<MemberLabel, NoMemory>
    ensures { IfOk result (λ label. label ≡ spec.signature_label signature.now) }
{
    Ok(labeled(signature.name.name.copy()?, signature.params.len()))
}

/// The labels of the methods of an interface, in their order.
pub fn signature_labels(
    alloc: Global,
    signatures: &[SignatureTree],
) -> Result<Items<MemberLabel>, NoMemory>
    ensures { IfOk result (λ labels. labels ≡ map spec.signature_label signatures.now) }
{
    let mut labels = Items::new(alloc);
    for signature in signatures {
        labels.push(signature_label(signature)?)?;
    }
    Ok(labels)
}
