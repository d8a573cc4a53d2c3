// The words of a schema in a hash table.

ghost use Rattle.std.specs.Prelude.{◌≡◌, IfOk, OnOk, cond, Some};
ghost use Rattle.indexmap.specs.IndexMap.{get};
ghost use Rattle.record_words.specs.declared.entries.RecordKey.{RecordKey as TheKey};
ghost use Rattle.record_words.specs.Words.{key_eq, word_in, word_of};

use crate::entries::{RecordKey, RecordWord, WordEntry, all_words};
use apex_num::NoMemory;
use apex_schema::Schema;
use indexmap::IndexMap;
use std::alloc::{AllocError, Global};

/// A schema, with the words of the records of its objects, each found by one look into a hash table.
#[derive(Drop)]
pub struct RecordWords<'a> {
    pub schema: &'a Schema,
    map: IndexMap<RecordKey, RecordWord>,
    ghost found: { (k : TheKey) → get key_eq map k ≡ word_of schema.now.objects k },
}

fn put(map: &mut IndexMap<RecordKey, RecordWord>, entry: &WordEntry) -> Result<(), NoMemory>
    ensures { OnOk result ((k : TheKey) → get key_eq map.new k ≡ cond (key_eq entry.now.key k) (Some entry.now.word) (get key_eq map.old k)) }
{
    map.insert(entry.key.copy()?, entry.word)
        .map_err(AllocError::from)?;
    Ok(())
}

// From the last to the first, so that of two equal keys the first one counts.
fn map_of(alloc: Global, entries: &[WordEntry]) -> Result<IndexMap<RecordKey, RecordWord>, NoMemory>
    ensures { IfOk result (λ m. (k : TheKey) → get key_eq m k ≡ word_in entries.now k) }
{
    let mut map = IndexMap::new(alloc);
    let mut i = entries.len();
    'back: while i > 0 {
        i -= 1;
        put(&mut map, &entries[i])?;
    }
    Ok(map)
}

impl<'a> RecordWords<'a> {
    /// The words of the records of a schema's objects.
    pub fn of(alloc: Global, schema: &'a Schema) -> Result<RecordWords<'a>, NoMemory>
        ensures { IfOk result (λ words. words.schema.now ≡ schema.now) }
    {
        let entries = all_words(alloc, schema.objects.as_slice())?;
        let map = map_of(alloc, &entries)?;
        Ok(RecordWords { schema, map })
    }

    /// What a word of a record means, or `None` where it means nothing.
    pub fn word(&self, key: &RecordKey) -> Option<RecordWord>
        ensures { result ≡ word_of self.now.schema.now.objects key.now }
    {
        self.map.get(key).copied()
    }
}
