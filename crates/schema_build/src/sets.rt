// Sets of words, which grow.

ghost use Rattle.std.specs.Prelude.{◌≡◌, ◌++◌, ◌∷◌, [], ℕ, List, IfOk, bytes_eq, eqb};
ghost use Rattle.indexmap.specs.IndexSet.{contains};
ghost use Rattle.schema_plans.specs.declared.child.ChildWord.{ChildWord as TheChild};
ghost use Rattle.schema_plans.specs.Children.{child_eq};
ghost use Rattle.schema_names.specs.Names.{has};
ghost use Rattle.schema_plans.specs.Plans.{has_child, is_among};

use apex_num::NoMemory;
use apex_text::Name;
use indexmap::IndexSet;
use schema_plans::ChildWord;
use std::alloc::{AllocError, Global};

/// Words in the order in which they came.
#[derive(Drop)]
pub struct Words {
    pub list: Vec<Name>,
    set: IndexSet<Name>,
    ghost agrees: { (n : List ℕ) → contains bytes_eq set n ≡ has list.items n },
}

impl Words {
    pub fn new(alloc: Global) -> Words
        ensures { result.list.items ≡ [] }
    {
        Words {
            list: Vec::new(alloc),
            set: IndexSet::new(alloc),
        }
    }

    /// With one word more.
    pub fn with(self, word: Name) -> Result<Words, NoMemory>
        ensures { IfOk result (λ words. words.list.items ≡ self.list.items ++ word ∷ []) }
    {
        let Words { mut list, mut set } = self;
        list.push(word.copy()?)?;
        set.insert(word).map_err(AllocError::from)?;
        Ok(Words { list, set })
    }

    pub fn has(&self, word: &Name) -> bool
        ensures { result ≡ has self.now.list.items word.now }
    {
        self.set.contains(word)
    }
}

/// Children words in the order in which they came.
#[derive(Drop)]
pub struct Children {
    pub list: Vec<ChildWord>,
    set: IndexSet<ChildWord>,
    ghost agrees: { (w : TheChild) → contains child_eq set w ≡ has_child list.items w },
}

impl Children {
    pub fn new(alloc: Global) -> Children
        ensures { result.list.items ≡ [] }
    {
        Children {
            list: Vec::new(alloc),
            set: IndexSet::new(alloc),
        }
    }

    /// With one word more.
    pub fn with(self, child: ChildWord) -> Result<Children, NoMemory>
        ensures { IfOk result (λ all. all.list.items ≡ self.list.items ++ child ∷ []) }
    {
        let Children { mut list, mut set } = self;
        let same = ChildWord {
            to: child.to,
            word: child.word.copy()?,
        };
        list.push(same)?;
        set.insert(child).map_err(AllocError::from)?;
        Ok(Children { list, set })
    }

    pub fn has(&self, child: &ChildWord) -> bool
        ensures { result ≡ has_child self.now.list.items child.now }
    {
        self.set.contains(child)
    }
}

/// Numbers of objects in the order in which they came.
#[derive(Drop)]
pub struct Masters {
    pub list: Vec<usize>,
    set: IndexSet<usize>,
    ghost agrees: { (n : ℕ) → contains eqb set n ≡ is_among list.items n },
}

impl Masters {
    pub fn new(alloc: Global) -> Masters
        ensures { result.list.items ≡ [] }
    {
        Masters {
            list: Vec::new(alloc),
            set: IndexSet::new(alloc),
        }
    }

    /// With one number more.
    pub fn with(self, object: usize) -> Result<Masters, NoMemory>
        ensures { IfOk result (λ all. all.list.items ≡ self.list.items ++ object ∷ []) }
    {
        let Masters { mut list, mut set } = self;
        list.push(object)?;
        set.insert(object).map_err(AllocError::from)?;
        Ok(Masters { list, set })
    }

    pub fn has(&self, object: usize) -> bool
        ensures { result ≡ is_among self.now.list.items object }
    {
        self.set.contains(&object)
    }
}
