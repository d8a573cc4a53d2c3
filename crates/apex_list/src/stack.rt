// A stack, its top in front.

ghost use Rattle.std.specs.Prelude.{◌≡◌, [], ◌∷◌, length, OnOk, OnErr, MatchOption};

use std::alloc::{AllocError, Global};
use std::marker::Model;

/// A stack, which contracts see as the list of its values with the top in front.
#[derive(Drop)]
pub struct Stack<T> {
    inner: Vec<T>,
}

impl<T> Model for Stack<T> {
    ghost use Rattle.std.specs.Prelude.{List, reverse};

    ghost Value = { List T };

    ghost view = { λ s. reverse s.inner.items };
}

impl<T: Drop> Stack<T> {
    /// The empty stack, which takes no memory.
    pub fn new(alloc: Global) -> Stack<T>
        ensures { result ≡ [] }
    {
        Stack {
            inner: Vec::new(alloc),
        }
    }

    /// The number of values.
    pub fn len(&self) -> usize
        ensures { result ≡ length self.now }
    {
        self.inner.len()
    }

    /// Puts a value on top. Want of memory is the only error: it drops the value and leaves the stack.
    pub fn push(&mut self, value: T) -> Result<(), AllocError>
        ensures ok { OnOk result (self.new ≡ value ∷ self.old) }
        ensures err { OnErr result (self.new ≡ self.old) }
    {
        self.inner.push(value)?;
        Ok(())
    }

    /// Takes the top, or answers `None` where the stack is empty.
    pub fn pop(&mut self) -> Option<T>
        ensures { MatchOption result ((self.old ≡ []) × (self.new ≡ [])) (λ top. self.old ≡ top ∷ self.new) }
    {
        self.inner.pop()
    }
}
