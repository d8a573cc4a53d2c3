// Classes and their ancestors.

ghost use Rattle.std.specs.Prelude.{◌≡◌, ◌++◌, length, IfOk, OnOk};
ghost use Rattle.std.specs.Option.{option_copied};
ghost use Rattle.apex_meaning.specs.Classes as spec;
ghost use Rattle.stack_code.specs.Images.{fits_of};

use crate::emitted::sum;
use apex_list::Items;
use apex_num::NoMemory;
use std::alloc::Global;
use typed_program::{ImpliedCall, ParentClass, Program, TypedClass, TypedField, TypedMethod};

/// What the constructor of a class that declares none calls of its parent.
pub fn implied_of(program: &Program, class: usize) -> Option<ImpliedCall>
    ensures { result ≡ spec.implied_of (spec.class_at program.now class) }
{
    match program.classes.get(class) {
        Some(class) => class.implied,
        None => None,
    }
}

fn parent_of(class: &TypedClass) -> Option<usize>
    ensures { result ≡ spec.number_of class.now.parent }
{
    match class.parent {
        ParentClass::Nothing | ParentClass::Exception => None,
        ParentClass::Class(parent) => Some(parent),
    }
}

// Behind other classes, at most so many of a class and its ancestors.
#[cycle(add_chain)]
fn add_chain(
    chain: &mut Items<usize>,
    program: &Program,
    most: usize,
    class: Option<usize>,
) -> Result<(), NoMemory>
    ensures { OnOk result (chain.new ≡ chain.old ++ spec.chain_within most program.now class) }
{
    if most == 0 {
        return Ok(());
    }
    match class {
        Some(class) => add_linked(chain, program, most - 1, class),
        None => Ok(()),
    }
}

#[cycle(add_chain)]
fn add_linked(
    chain: &mut Items<usize>,
    program: &Program,
    most: usize,
    class: usize,
) -> Result<(), NoMemory>
    ensures { OnOk result (chain.new ≡ chain.old ++ spec.linked class (spec.class_at program.now class) (spec.chain_within most program.now (spec.parent_of (spec.class_at program.now class)))) }
{
    match program.classes.get(class) {
        Some(head) => {
            chain.push(class)?;
            add_chain(chain, program, most, parent_of(head))
        }
        None => Ok(()),
    }
}

/// A class and its ancestors, the nearest one first; of classes that aren't there, none.
pub fn chain_of(alloc: Global, program: &Program, class: usize) -> Result<Items<usize>, NoMemory>
    ensures { IfOk result (λ chain. chain ≡ spec.chain program.now class) }
{
    let mut chain = Items::new(alloc);
    add_chain(&mut chain, program, 33, Some(class))?;
    Ok(chain)
}

fn places_of(program: &Program, class: usize) -> usize
    ensures { result ≡ length (spec.fields_at program.now class) }
{
    match program.classes.get(class) {
        Some(class) => class.fields.len(),
        None => 0,
    }
}

/// How many fields these classes have, statics too.
pub fn width(program: &Program, chain: &[usize]) -> Result<usize, NoMemory>
    ensures { IfOk result (λ n. n ≡ spec.width program.now chain.now) }
{
    match chain {
        [] => Ok(0),
        [class, rest @ ..] => sum(places_of(program, *class), width(program, rest)?),
    }
}

fn in_instances(fields: &[TypedField]) -> Result<usize, NoMemory>
    ensures { IfOk result (λ n. n ≡ spec.in_instances fields.now) }
{
    let mut count = 0;
    for field in fields {
        if !field.is_static {
            count = sum(count, 1)?;
        }
    }
    Ok(count)
}

fn own_instances(program: &Program, class: usize) -> Result<usize, NoMemory>
    ensures { IfOk result (λ n. n ≡ spec.in_instances (spec.fields_at program.now class)) }
{
    match program.classes.get(class) {
        Some(class) => in_instances(class.fields.as_slice()),
        None => Ok(0),
    }
}

/// How many fields an instance has where these are its classes.
pub fn instance_fields(program: &Program, chain: &[usize]) -> Result<usize, NoMemory>
    ensures { IfOk result (λ n. n ≡ spec.instance_fields program.now chain.now) }
{
    match chain {
        [] => Ok(0),
        [class, rest @ ..] => sum(
            own_instances(program, *class)?,
            instance_fields(program, rest)?,
        ),
    }
}

fn add_all(all: &mut Items<usize>, more: &[usize]) -> Result<(), NoMemory>
    ensures { OnOk result (all.new ≡ all.old ++ more.now) }
{
    for one in more {
        all.push(*one)?;
    }
    Ok(())
}

fn add_interfaces(all: &mut Items<usize>, program: &Program, class: usize) -> Result<(), NoMemory>
    ensures { OnOk result (all.new ≡ all.old ++ spec.interfaces_of (spec.class_at program.now class)) }
{
    match program.classes.get(class) {
        Some(class) => add_all(all, class.interfaces.as_slice()),
        None => Ok(()),
    }
}

fn add_fits(all: &mut Items<usize>, program: &Program, chain: &[usize]) -> Result<(), NoMemory>
    ensures { OnOk result (all.new ≡ all.old ++ fits_of program.now chain.now) }
{
    match chain {
        [] => Ok(()),
        [class, rest @ ..] => {
            all.push(*class)?;
            add_interfaces(all, program, *class)?;
            add_fits(all, program, rest)
        }
    }
}

/// The classes and interfaces that instances of these classes are of.
pub fn fits(alloc: Global, program: &Program, chain: &[usize]) -> Result<Items<usize>, NoMemory>
    ensures { IfOk result (λ all. all ≡ fits_of program.now chain.now) }
{
    let mut all = Items::new(alloc);
    add_fits(&mut all, program, chain)?;
    Ok(all)
}

/// The methods of a class.
pub fn methods_of(program: &Program, class: usize) -> &[TypedMethod]
    ensures { result.now ≡ spec.methods_of (spec.class_at program.now class) }
{
    match program.classes.get(class) {
        Some(class) => class.methods.as_slice(),
        None => &[],
    }
}
