// The fields of a new record so far.

ghost use Rattle.std.specs.Prelude.{◌≡◌, ◌++◌, ◌∷◌, [], ℕ, eqb, IfOk};
ghost use Rattle.indexmap.specs.IndexSet.{contains};
ghost use Rattle.new_values.specs.Fields as spec;

use apex_list::{Boxed, Items};
use apex_num::NoMemory;
use indexmap::IndexSet;
use std::alloc::{AllocError, Global};
use typed_program::{TypedExpr, TypedPair};

/// The fields that a new record is given, with their values.
#[derive(Drop)]
pub struct OpenRecord {
    pub pairs: Items<TypedPair>,
    fields: IndexSet<usize>,
    ghost agrees: { (n : ℕ) → contains eqb fields n ≡ spec.has pairs n },
}

impl OpenRecord {
    /// Without fields; takes no memory.
    pub fn new(alloc: Global) -> OpenRecord
        ensures { result.pairs ≡ [] }
    {
        OpenRecord {
            pairs: Items::new(alloc),
            fields: IndexSet::new(alloc),
        }
    }

    /// Whether a field was given, found by one look into a hash table.
    pub fn has(&self, field: usize) -> bool
        ensures { result ≡ spec.has self.now.pairs field }
    {
        self.fields.contains(&field)
    }

    /// With one field more.
    pub fn with(self, field: usize, value: Boxed<TypedExpr>) -> Result<OpenRecord, NoMemory>
        ensures { IfOk result (λ r. r.pairs ≡ self.pairs ++ spec.pair field value ∷ []) }
    {
        let OpenRecord {
            mut pairs,
            mut fields,
        } = self;
        pairs.push(TypedPair { field, value })?;
        fields.insert(field).map_err(AllocError::from)?;
        Ok(OpenRecord { pairs, fields })
    }
}
