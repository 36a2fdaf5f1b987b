//! Lists that grow and shrink at one end.

ghost use Rattle.std.specs.Prelude.{◌≡◌, [], ◌∷◌, OnOk, MatchOption};

use kt_base::NoMemory;
use std::alloc::Global;
use std::marker::Model;

/// A stack, which contracts see as a list with its top first.
#[derive(Drop)]
pub struct Stack<T> {
    items: Vec<T>,
}

impl<T> Model for Stack<T> {
    ghost use Rattle.std.specs.Prelude.{List, reverse};

    ghost Value = { List T };

    ghost view = { λ s. reverse s.items.items };
}

impl<T: Drop> Stack<T> {
    /// An empty one.
    pub fn new(alloc: Global) -> Stack<T>
        ensures { result ≡ [] }
    {
        Stack {
            items: Vec::new(alloc),
        }
    }

    /// Puts one more on top.
    pub fn push(&mut self, next: T) -> Result<(), NoMemory>
        ensures { OnOk result (self.new ≡ next ∷ self.old) }
    {
        self.items.push(next)?;
        Ok(())
    }

    /// Takes the top; none where it is empty.
    pub fn pop(&mut self) -> Option<T>
        ensures { MatchOption result ((self.old ≡ []) × (self.new ≡ [])) (λ top. self.old ≡ top ∷ self.new) }
    {
        self.items.pop()
    }
}
