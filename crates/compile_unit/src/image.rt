// Images of programs.

ghost use Rattle.std.specs.Prelude.{◌≡◌, map, IfOk};
ghost use Rattle.stack_code.specs.Images as images;
ghost use Rattle.typed_program.specs.declared.unit.TypedClass.{TypedClass as TheClass};

use crate::bodies::{blocks_code, triggers_code};
use crate::classes::class_code;
use crate::firings::firings_of;
use crate::tables::MethodTables;
use apex_list::Items;
use apex_num::{NoMemory, Text};
use stack_code::{ClassCode, Image};
use stack_compiler::Layout;
use std::alloc::Global;
use typed_program::{Program, TypedClass};

fn names_of(alloc: Global, classes: &[TypedClass]) -> Result<Items<Text>, NoMemory>
    ensures { IfOk result (λ names. names ≡ map (λ (k : TheClass). k.name) classes.now) }
{
    let mut names = Items::new(alloc);
    for class in classes {
        names.push(class.name.copy()?)?;
    }
    Ok(names)
}

fn classes_code(
    alloc: Global,
    layout: &Layout,
    tables: &MethodTables,
) -> Result<Items<ClassCode>, NoMemory>
    requires { tables.now.program.now ≡ layout.now.program.now }
    ensures { IfOk result (λ codes. codes ≡ images.classes_from layout.now.program.now 0 layout.now.program.now.classes) }
{
    let mut codes = Items::new(alloc);
    let classes = layout.program.classes.as_slice();
    for class in 0..classes.len() {
        codes.push(class_code(alloc, layout, tables, class, &classes[class])?)?;
    }
    Ok(codes)
}

/// The image of a program. Want of memory is the only error.
pub fn compile(alloc: Global, program: &Program) -> Result<Image, NoMemory>
    ensures image { IfOk result (λ image. image ≡ images.image_of program.now) }
{
    let layout = Layout::of(alloc, program)?;
    let tables = MethodTables::of(alloc, program)?;
    let names = names_of(alloc, program.classes.as_slice())?;
    let classes = classes_code(alloc, &layout, &tables)?;
    let triggers = triggers_code(alloc, &layout, program.triggers.as_slice())?;
    let firings = firings_of(alloc, program)?;
    let blocks = blocks_code(alloc, &layout, program.blocks.as_slice())?;
    Ok(Image {
        names,
        classes,
        triggers,
        firings,
        blocks,
    })
}
