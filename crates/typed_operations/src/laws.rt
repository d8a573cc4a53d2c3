// What the definitions of operators say together.

ghost use Rattle.typed_operations.specs.Laws.{NullSides};

/// Whether an operator takes `null` beside a value doesn't hang on the side on which it stands.
pub fn laws_of_null()
    ensures { NullSides }
{}
