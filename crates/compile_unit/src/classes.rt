// The code of classes.

ghost use Rattle.std.specs.Prelude.{◌≡◌, ◌+◌, ◌*◌, length, map, IfOk};
ghost use Rattle.apex_meaning.specs.Classes as classes;
ghost use Rattle.stack_code.specs.Images as images;
ghost use Rattle.compile_unit.specs.Shapes as spec;

use crate::bodies::{fields_code, methods_code, statics_code};
use crate::parents::constructors_code;
use crate::starts::own_starts;
use crate::tables::MethodTables;
use apex_list::Items;
use apex_num::NoMemory;
use stack_code::{ClassCode, Code, Dispatch};
use stack_compiler::{Layout, chain_of, fits, instance_fields, sum, width};
use std::alloc::{AllocError, Global};
use typed_program::{Program, TypedClass};

/// What is asked of a class by its ancestors and interfaces.
#[derive(Drop)]
pub struct Shape {
    pub chain: Items<usize>,
    pub fits: Items<usize>,
    pub width: usize,
    pub units: usize,
    pub table: Items<Dispatch>,
}

/// The bodies of a class.
#[derive(Drop)]
pub struct Bodies {
    pub field_values: Code,
    pub static_values: Code,
    pub methods: Items<Code>,
    pub constructors: Items<Code>,
}

fn units_of(fields: usize) -> Result<usize, NoMemory>
    ensures { IfOk result (λ n. n ≡ 32 + 16 * fields) }
{
    sum(32, fields.checked_mul(16).ok_or(AllocError)?)
}

fn units(program: &Program, chain: &[usize]) -> Result<usize, NoMemory>
    ensures { IfOk result (λ n. n ≡ 32 + 16 * classes.instance_fields program.now chain.now) }
{
    units_of(instance_fields(program, chain)?)
}

fn class_shape(
    alloc: Global,
    layout: &Layout,
    tables: &MethodTables,
    class: usize,
) -> Result<Shape, NoMemory>
    requires { tables.now.program.now ≡ layout.now.program.now }
    ensures { IfOk result (λ shape. shape ≡ spec.shape_of layout.now.program.now class) }
{
    let chain = chain_of(alloc, layout.program, class)?;
    let fits = fits(alloc, layout.program, chain.as_slice())?;
    let table = tables.rows(alloc, fits.as_slice(), chain.as_slice())?;
    let width = width(layout.program, chain.as_slice())?;
    let units = units(layout.program, chain.as_slice())?;
    Ok(Shape {
        chain,
        fits,
        width,
        units,
        table,
    })
}

fn class_bodies(
    alloc: Global,
    layout: &Layout,
    class: usize,
    typed: &TypedClass,
) -> Result<Bodies, NoMemory>
    ensures { IfOk result (λ bodies. bodies ≡ spec.bodies_of layout.now.program.now class typed.now) }
{
    let fields = typed.fields.as_slice();
    Ok(Bodies {
        field_values: fields_code(alloc, layout, class, fields)?,
        static_values: statics_code(alloc, layout, class, fields)?,
        methods: methods_code(alloc, layout, typed.methods.as_slice())?,
        constructors: constructors_code(alloc, layout, class, typed.constructors.as_slice())?,
    })
}

/// The code of a class or an interface.
pub fn class_code(
    alloc: Global,
    layout: &Layout,
    tables: &MethodTables,
    class: usize,
    typed: &TypedClass,
) -> Result<ClassCode, NoMemory>
    requires { tables.now.program.now ≡ layout.now.program.now }
    ensures { IfOk result (λ code. code ≡ images.class_code layout.now.program.now class typed.now) }
{
    let starts = own_starts(alloc, layout.program, class)?;
    let shape = class_shape(alloc, layout, tables, class)?;
    let bodies = class_bodies(alloc, layout, class, typed)?;
    Ok(ClassCode {
        chain: shape.chain,
        fits: shape.fits,
        sharing: typed.sharing,
        width: shape.width,
        units: shape.units,
        statics: typed.fields.len(),
        starts,
        table: shape.table,
        field_values: bodies.field_values,
        static_values: bodies.static_values,
        methods: bodies.methods,
        constructors: bodies.constructors,
    })
}
