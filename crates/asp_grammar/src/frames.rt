ghost use Rattle.std.specs.Prelude.{◌≡◌, [], ◌∷◌, IfOk, MatchOption};

use alpha_outside::OutOfMemory;
use std::alloc::Global;
use std::marker::Model;

/// Things on one another. A contract sees them as a list, the topmost first.
#[derive(Drop)]
pub struct Stack<T> {
    items: Vec<T>,
}

impl<T> Model for Stack<T> {
    ghost use Rattle.std.specs.Prelude.{List, reverse};
    ghost use Rattle.std.specs.Coded.{coded_list};

    ghost Value = { List T };

    ghost coded = { coded_list T.code };

    ghost view = { λ s. reverse s.items.items };
}

impl<T: Drop> Stack<T> {
    /// Nothing on it.
    pub fn new(alloc: Global) -> Stack<T>
        ensures { result ≡ [] }
    {
        Stack {
            items: Vec::new(alloc),
        }
    }

    /// With the item on top. It is taken by value, so that what has moved into it can be moved out again.
    pub fn push(self, item: T) -> Result<Stack<T>, OutOfMemory>
        ensures { IfOk result (λ s. s ≡ item ∷ self) }
    {
        let Stack { mut items } = self;
        items.push(item)?;
        Ok(Stack { items })
    }

    /// The topmost is taken off and given, if there is one.
    pub fn pop(&mut self) -> Option<T>
        ensures { MatchOption result ((self.old ≡ []) × (self.new ≡ [])) (λ item. self.old ≡ item ∷ self.new) }
    {
        self.items.pop()
    }
}
