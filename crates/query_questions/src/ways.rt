// Paths as keys of a hash table.

ghost use Rattle.std.specs.Prelude.{◌++◌};
ghost use Rattle.std.specs.Cmp.{partial_equiv_from_equiv};
ghost use Rattle.std.specs.Hash as fed;
ghost use Rattle.query_meaning.specs.Parents.{same_path};
ghost use Rattle.query_questions.specs.Ways.{same_path_equiv, path_alike};

use apex_rows::Path;
use std::hash::{Hash, Hasher};
use std::marker::Model;

/// A path as a key, which contracts see as the path.
#[derive(Drop)]
pub struct Way {
    pub path: Path,
}

impl Model for Way {
    ghost use Rattle.apex_rows.specs.declared.query.Path.{Path as ThePath};

    ghost Value = { ThePath };

    ghost view = { λ w. w.path };
}

impl PartialEq for Way {
    ghost eq = { same_path };

    ghost laws = { partial_equiv_from_equiv same_path_equiv };

    fn eq(&self, other: &Way) -> bool {
        self.path.parents.as_slice() == other.path.parents.as_slice()
            && self.path.field == other.path.field
    }
}

impl Eq for Way {
    ghost laws = { same_path_equiv };
}

impl Hash for Way {
    ghost hash_input = { λ p. fed.slice fed.usize p.parents ++ fed.usize p.field };

    ghost respects_eq = { path_alike.fed };

    fn hash<H: Hasher>(&self, state: &mut H) {
        self.path.parents.as_slice().hash(state);
        self.path.field.hash(state);
    }
}
