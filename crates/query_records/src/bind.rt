// How binds are given.

use typed_program::Conversion;

/// How the value of a bind is given: as it is, or as the items of a list or a set, each converted so.
#[derive(Clone, Copy, PartialEq, Eq, Drop)]
pub enum BindKind {
    One,
    Many(Conversion),
}
