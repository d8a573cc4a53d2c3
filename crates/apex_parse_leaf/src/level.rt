// The precedences of binary operators.

/// The binary operators of one precedence, the loosest first.
#[derive(Clone, Copy, Drop)]
pub enum Level {
    /// `||`
    Or,
    /// `&&`
    And,
    /// `==` and `!=`
    Equal,
    /// `<`, `<=`, `>`, `>=`
    Order,
    /// `+` and `-`
    Sum,
    /// `*` and `/`
    Product,
}
