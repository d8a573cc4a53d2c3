// What a transaction is limited in.

/// What a transaction is limited in, after the chapter Execution Governors and Limits of the Apex Developer
/// Guide; steps, allocation units and open calls are this project's own.
#[derive(Clone, Copy, Debug, PartialEq, Eq, Hash, Drop)]
pub enum LimitKind {
    /// Queries; subqueries aren't counted.
    Queries,
    /// Rows that queries answered.
    Rows,
    /// DML statements, savepoints and rollbacks.
    Dml,
    /// Records of DML statements.
    Saved,
    /// Trigger firings that are open.
    Depth,
    /// Steps.
    Steps,
    /// Allocation units.
    Alloc,
    /// Calls of declared methods and constructors that are open.
    Calls,
}
