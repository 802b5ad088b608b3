// A stack of at most N items, in an array of its own. Contracts see it as the list of its items, the last that was laid on it first.
ghost use Rattle.std.specs.Prelude.{◌≡◌, [], ◌∷◌, ◌<◌, length, MatchOption};

use std::marker::Model;

#[derive(Drop)]
pub struct Stack<T: Copy, const N: usize> {
    items: [T; N],
    height: usize,
}

impl<T: Copy, const N: usize> Model for Stack<T, N> {
    ghost use Rattle.std.specs.Prelude.{◌≡◌, List, ◌≤◌, length, reverse, take};

    ghost Value = { List T };

    ghost view = { λ s. reverse (take s.height s.items) };

    ghost invariant = { λ s. (length s.items ≡ N) × (s.height ≤ N) };
}

impl<T: Copy, const N: usize> Stack<T, N> {
    // An empty one, whose places hold any item.
    pub fn new(any: T) -> Self
        ensures { result ≡ [] }
    {
        Stack {
            items: [any; N],
            height: 0,
        }
    }

    pub fn clear(&mut self)
        ensures { self.new ≡ [] }
    {
        self.height = 0;
    }

    #[tactic(auto, using(crate::proofs::Stacks::pushed))]
    pub fn push(&mut self, item: T)
        requires { length self.old < N }
        ensures { self.new ≡ item ∷ self.old }
    {
        self.items[self.height] = item;
        self.height += 1;
    }

    pub fn pop(&mut self) -> Option<T>
        ensures { MatchOption result ((self.old ≡ []) × (self.new ≡ [])) (λ e. self.old ≡ e ∷ self.new) }
    {
        self.height = self.height.checked_sub(1)?;
        Some(self.items[self.height])
    }
}
