// The check of a tenant's code.

ghost use Rattle.std.specs.Prelude.{◌≡◌, map, IfOk};
ghost use Rattle.apex_types.specs.Homes.{home as home_in};
ghost use Rattle.class_tables.specs.Members.{members_among};
ghost use Rattle.class_tables.specs.Tables.{all_in, members_of};
ghost use Rattle.class_tables.specs.Heads.{known_of};
ghost use Rattle.method_calls.specs.MethodNamings.{namings, names_of_table};
ghost use Rattle.record_words.specs.Names.{object_names};
ghost use Rattle.type_names.specs.Walks.{Comes};
ghost use Rattle.apex_types.specs.Checks as spec;

use crate::code::Code;
use crate::fault::{CheckFault, TypeFault};
use crate::home::Home;
use crate::units::{block_stmts, unit};
use apex_list::Items;
use apex_num::NoMemory;
use apex_schema::Schema;
use apex_syntax::Unit;
use class_tables::{Classes, MemberTables};
use fault_words::FaultWord;
use method_calls::MethodNames;
use record_words::{RecordWords, object_places};
use std::alloc::{AllocError, Global};
use type_names::{TreeFault, WalkFault};
use typed_program::{Program, TypedStmt};

fn unit_of(
    alloc: Global,
    classes: &Classes,
    home: &Home,
    number: usize,
    tree: &Unit,
    code: &mut Code,
) -> Result<(), CheckFault>
    ensures { spec.Grows (spec.unit_of classes.now.objects.now.names.items classes.now.units.now (home_in home.now) number tree.now code.old) result code.new }
{
    match unit(alloc, classes, home, number, tree, code) {
        Ok(()) => Ok(()),
        Err(WalkFault::Wrong(fault)) => Err(CheckFault::Wrong(TypeFault {
            unit: number,
            fault,
        })),
        Err(WalkFault::NoMemory) => Err(CheckFault::NoMemory),
    }
}

fn units_of(
    alloc: Global,
    classes: &Classes,
    home: &Home,
    trees: &[Unit],
    code: &mut Code,
) -> Result<(), CheckFault>
    ensures { spec.Grows (spec.units_from classes.now.objects.now.names.items classes.now.units.now (home_in home.now) 0 trees.now code.old) result code.new }
{
    for i in 0..trees.len() {
        unit_of(alloc, classes, home, i, &trees[i], code)?;
    }
    Ok(())
}

fn walked_block(alloc: Global, home: &Home, tree: &Unit) -> Result<Items<TypedStmt>, WalkFault>
    ensures { Comes (spec.block_walk (home_in home.now) tree.now) result }
{
    match tree {
        Unit::Block(stmts) => block_stmts(alloc, home, stmts.as_slice()),
        _ => Err(WalkFault::Wrong(TreeFault::new(FaultWord::Expected, 0))),
    }
}

fn block_of(
    alloc: Global,
    home: &Home,
    tree: &Unit,
) -> Result<Result<Items<TypedStmt>, TreeFault>, NoMemory>
    ensures { IfOk result (λ b. b ≡ spec.block_of (home_in home.now) tree.now) }
{
    match walked_block(alloc, home, tree) {
        Ok(made) => Ok(Ok(made)),
        Err(WalkFault::Wrong(fault)) => Ok(Err(fault)),
        Err(WalkFault::NoMemory) => Err(AllocError),
    }
}

fn blocks_of(
    alloc: Global,
    home: &Home,
    trees: &[Unit],
) -> Result<Items<Result<Items<TypedStmt>, TreeFault>>, NoMemory>
    ensures { IfOk result (λ all. all ≡ map (spec.block_of (home_in home.now)) trees.now) }
{
    let mut all = Items::new(alloc);
    for tree in trees {
        all.push(block_of(alloc, home, tree)?)?;
    }
    Ok(all)
}

// What all code of these classes sees.
fn home_of<'a>(
    classes: &'a Classes<'a>,
    members: &'a MemberTables,
    words: &'a RecordWords<'a>,
    methods: &'a MethodNames,
) -> Home<'a>
    requires objects_are { classes.now.objects.now.names.items ≡ object_names words.now.schema.now.objects }
    requires members_are { all_in members.now ≡ members_among (known_of classes.now.objects.now.names.items classes.now.units.now) classes.now.units.now }
    requires methods_are { namings methods.now ≡ map names_of_table members.now.tables }
    ensures { home_in result ≡ spec.home_of words.now.schema.now.objects classes.now.units.now }
{
    Home {
        names: classes.names(),
        lines: classes.lines(),
        members,
        words,
        methods,
    }
}

// The code of all units, and of all blocks.
fn program_of(
    alloc: Global,
    classes: &Classes,
    members: &MemberTables,
    words: &RecordWords,
    blocks: &[Unit],
) -> Result<Program, CheckFault>
    requires objects_are { classes.now.objects.now.names.items ≡ object_names words.now.schema.now.objects }
    requires members_are { all_in members.now ≡ members_among (known_of classes.now.objects.now.names.items classes.now.units.now) classes.now.units.now }
    ensures { spec.Comes (spec.checked words.now.schema.now.objects classes.now.units.now blocks.now) result }
{
    let methods = MethodNames::of(alloc, members)?;
    let home = home_of(classes, members, words, &methods);
    let mut code = Code {
        classes: Items::new(alloc),
        triggers: Items::new(alloc),
    };
    units_of(alloc, classes, &home, classes.units, &mut code)?;
    let blocks = blocks_of(alloc, &home, blocks)?;
    Ok(Program {
        classes: code.classes,
        triggers: code.triggers,
        blocks,
    })
}

/// The typed program of a tenant's units and anonymous blocks, over its schema; otherwise the fault of the first unit
/// that has one: the first one of the walk over it. A unit among the blocks that is no block is `Expected` at byte 0. The
/// work and the memory grow with the text, but for what classes inherit, which is asked for each class.
pub fn check(
    alloc: Global,
    schema: &Schema,
    units: &[Unit],
    blocks: &[Unit],
) -> Result<Program, CheckFault>
    ensures { spec.Comes (spec.checked schema.now.objects units.now blocks.now) result }
{
    let objects = object_places(alloc, schema.objects.as_slice())?;
    let words = RecordWords::of(alloc, schema)?;
    let classes = Classes::of(alloc, &objects, units)?;
    let members = MemberTables::of(alloc, &classes)?;
    program_of(alloc, &classes, &members, &words, blocks)
}
