// Records that stand twice in a list.

ghost use Rattle.std.specs.Prelude.{◌≡◌, ◌||◌, [], ℕ, List, eqb, bytes_eq, IfOk, OnOk};
ghost use Rattle.indexmap.specs.IndexSet.{contains};
ghost use Rattle.save_meaning.specs.Inserts.{is_double, first_again};
ghost use Rattle.save_chunks.specs.Keys.{keys_of, ids_given};

use apex_num::{Id, NoMemory};
use apex_requests::SaveRow;
use indexmap::IndexSet;
use std::alloc::{AllocError, Global};

fn add_key(keys: &mut IndexSet<usize>, key: usize) -> Result<(), NoMemory>
    ensures { OnOk result ((n : ℕ) → contains eqb keys.new n ≡ (eqb n key || contains eqb keys.old n)) }
{
    keys.insert(key).map_err(AllocError::from)?;
    Ok(())
}

/// Whether a record object stands twice in a list. It looks each one up in a hash table.
pub fn has_double(alloc: Global, rows: &[SaveRow]) -> Result<bool, NoMemory>
    ensures { IfOk result (λ b. b ≡ is_double (keys_of rows.now)) }
{
    let mut keys = IndexSet::new(alloc);
    let mut i = rows.len();
    'back: while i > 0 {
        i -= 1;
        let key = rows[i].key;
        if keys.contains(&key) {
            return Ok(true);
        }
        add_key(&mut keys, key)?;
    }
    Ok(false)
}

fn add_id(seen: &mut IndexSet<[u8; 15]>, id: &Id) -> Result<(), NoMemory>
    ensures { OnOk result ((other : List ℕ) → contains bytes_eq seen.new other ≡ (bytes_eq id.now other || contains bytes_eq seen.old other)) }
{
    seen.insert(id.bytes()).map_err(AllocError::from)?;
    Ok(())
}

/// The first Id that stands in a list and did before. It looks each one up in a hash table.
pub fn first_double_id(alloc: Global, rows: &[SaveRow]) -> Result<Option<Id>, NoMemory>
    ensures { IfOk result (λ id. id ≡ first_again [] (ids_given rows.now)) }
{
    let mut seen = IndexSet::new(alloc);
    for row in rows {
        if let Some(id) = &row.id {
            if seen.contains(&id.bytes()) {
                return Ok(Some(*id));
            }
            add_id(&mut seen, id)?;
        }
    }
    Ok(None)
}
