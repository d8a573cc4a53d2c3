// Parts of trees of statements.

ghost use Rattle.std.specs.Prelude.{◌≡◌};

use apex_list::Boxed;
use typed_program::TypedExpr;

/// What a box has, where there is one.
pub fn bare(tree: Option<Boxed<TypedExpr>>) -> Option<TypedExpr>
    ensures { result ≡ tree }
{
    match tree {
        Some(tree) => Some(tree.into_value()),
        None => None,
    }
}
