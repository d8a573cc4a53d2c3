// The chunks of a statement.

ghost use Rattle.std.specs.Prelude.{◌≡◌, ◌<◌, ◌-◌, ◌*◌, ◌/◌, ◌++◌, ◌∷◌, [], IfOk, OnOk};
ghost use Rattle.apex_requests.specs.declared.request.Op.TheVariants as TheOp;
ghost use Rattle.save_statements.specs.Statements as spec;
ghost use Rattle.save_chunks.specs.Parts.{with_id, without_id};

use apex_list::{Items, Stack};
use apex_num::NoMemory;
use apex_requests::{Op, SaveRow};
use save_statements::{Act, Chunk, Placed};
use std::alloc::Global;

// The most records of a chunk.
const MOST: usize = 200;

// Each record with its place in the list.
fn placed(alloc: Global, rows: Items<SaveRow>) -> Result<Items<Placed>, NoMemory>
    ensures { IfOk result (λ ps. ps ≡ spec.placed 0 rows) }
{
    let mut all = Items::new(alloc);
    let mut place = 0;
    for row in rows.into_vec() {
        all.push(Placed { place, row })?;
        place += 1;
    }
    Ok(all)
}

// A record more, behind those without an Id or behind those with one.
fn add_part(
    fresh: &mut Items<Placed>,
    others: &mut Items<Placed>,
    one: Placed,
) -> Result<(), NoMemory>
    ensures fresh { OnOk result (fresh.new ≡ fresh.old ++ without_id (one ∷ [])) }
    ensures others { OnOk result (others.new ≡ others.old ++ with_id (one ∷ [])) }
{
    match one.row.id {
        None => fresh.push(one)?,
        Some(_) => others.push(one)?,
    }
    Ok(())
}

// The records without an Id, and those with one.
fn parted(alloc: Global, rows: Items<Placed>) -> Result<(Items<Placed>, Items<Placed>), NoMemory>
    ensures { IfOk result (λ parts. (parts.0 ≡ without_id rows) × (parts.1 ≡ with_id rows)) }
{
    let mut fresh = Items::new(alloc);
    let mut others = Items::new(alloc);
    for one in rows.into_vec() {
        add_part(&mut fresh, &mut others, one)?;
    }
    Ok((fresh, others))
}

// Where the last chunk of so many records begins.
fn last_start(len: usize) -> usize
    requires { 0 < len }
    ensures start { result ≡ (len - 1) / 200 * 200 }
    ensures below { result < len }
{
    (len - 1) / MOST * MOST
}

// The chunks of some records, above those that are there; the last one is cut off first.
fn cut_onto(chunks: &mut Stack<Chunk>, act: Act, rows: Items<Placed>) -> Result<(), NoMemory>
    ensures { OnOk result (chunks.new ≡ spec.all_cut act rows ++ chunks.old) }
{
    let mut rows = rows.into_vec();
    'back: while !rows.is_empty() {
        let last = rows.split_off(last_start(rows.len()))?;
        chunks.push(Chunk {
            act,
            rows: Items::of(last),
        })?;
    }
    Ok(())
}

// The chunks of one act.
fn all_cut(alloc: Global, act: Act, rows: Items<Placed>) -> Result<Stack<Chunk>, NoMemory>
    ensures { IfOk result (λ chunks. chunks ≡ spec.all_cut act rows) }
{
    let mut chunks = Stack::new(alloc);
    cut_onto(&mut chunks, act, rows)?;
    Ok(chunks)
}

// The chunks of an upsert: first those of the records that are inserted.
fn upsert_cut(alloc: Global, rows: Items<Placed>) -> Result<Stack<Chunk>, NoMemory>
    ensures { IfOk result (λ chunks. chunks ≡ spec.chunks TheOp.Upsert rows) }
{
    let (fresh, others) = parted(alloc, rows)?;
    let mut chunks = Stack::new(alloc);
    cut_onto(&mut chunks, Act::Updating, others)?;
    cut_onto(&mut chunks, Act::Inserting, fresh)?;
    Ok(chunks)
}

/// The chunks of the records of a statement, the first one on top; each record has its place in the list, counted from 0.
pub fn cut_up(alloc: Global, op: Op, rows: Items<SaveRow>) -> Result<Stack<Chunk>, NoMemory>
    ensures { IfOk result (λ chunks. chunks ≡ spec.chunks op (spec.placed 0 rows)) }
{
    let rows = placed(alloc, rows)?;
    match op {
        Op::Insert => all_cut(alloc, Act::Inserting, rows),
        Op::Update => all_cut(alloc, Act::Updating, rows),
        Op::Delete => all_cut(alloc, Act::Deleting, rows),
        Op::Upsert => upsert_cut(alloc, rows),
    }
}
