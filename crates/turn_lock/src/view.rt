// What a pass knows.

use std::collections::LinkedList;

/// What a pass knows. No value of it is ever made. The view of a pass that was taken in has no opening value.
pub struct View<T, E> {
    /// How many passes the lock was opened with.
    pub passes: u64,
    /// The value that the lock was opened with.
    pub opened: Option<T>,
    /// The pass's own numbers.
    pub numbers: LinkedList<u64>,
    /// The entries that the pass has seen.
    pub seen: LinkedList<E>,
    /// Those that the pass which it took in last had seen, or else those that it had seen itself: the fewer.
    pub also: LinkedList<E>,
    /// The entries when the turn began, while the pass has it.
    pub turn: Option<LinkedList<E>>,
}
