// The rule of a bind.

ghost use Rattle.std.specs.Prelude.{ℕ};
ghost use Rattle.apex_syntax.specs.declared.query.BindTree.{BindTree};
ghost use Rattle.token_grammar.specs.Notation.{Rule};

/// What says by which rule binds are read.
pub trait BindRule {
    /// The rule of a bind inside of which so many forms may be open.
    ghost rule: { Self → ℕ → Rule BindTree };
}
