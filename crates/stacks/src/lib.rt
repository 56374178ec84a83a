//! A stack in a vector, whose topmost item is the last one.
//!
//! A contract sees the list of its items, the topmost one first. Pushing alone may want memory.
#![tactic(auto)]

ghost use Rattle.std.specs.Prelude.{◌≡◌, ◌-◌, List, [], ◌∷◌, ◌≤◌, length, drop, take, reverse, slice_get, OnOk};
ghost use Rattle.stacks.specs.Tops.{first_set, head_of, tail_of};

use std::alloc::{AllocFailed, Global};
use std::marker::Model;

#[derive(Drop)]
pub struct Stack<T> {
    items: Vec<T>,
}

impl<T> Model for Stack<T> {
    ghost use Rattle.std.specs.Prelude.{List, reverse};

    ghost Value = { List T };

    ghost view = { λ s. reverse s.items.items };
}

impl<T> Stack<T> {
    pub fn new(alloc: Global) -> Stack<T>
        ensures { result ≡ [] }
    {
        Stack {
            items: Vec::new(alloc),
        }
    }

    pub fn len(&self) -> usize
        ensures { result ≡ length self.now }
    {
        self.items.len()
    }

    pub fn push(&mut self, item: T) -> Result<(), AllocFailed<T>>
        ensures { OnOk result (self.new ≡ item ∷ self.old) }
    {
        self.items.push(item)
    }

    pub fn pop(&mut self) -> Option<T>
        ensures top { result ≡ head_of self.old }
        ensures rest { self.new ≡ tail_of self.old }
    {
        self.items.pop()
    }
}

impl<T> Stack<T> {
    /// So many items from the top, the topmost one last.
    #[tactic(auto, using(crate::proofs::Stacks::topmost))]
    pub fn top(&self, count: usize) -> &[T]
        requires { count ≤ length self.now }
        ensures { result.now ≡ reverse (take count self.now) }
    {
        let len = self.items.len();
        self.items.as_slice().split_at(len - count).1
    }
}

impl<T: Copy> Stack<T> {
    /// Writes over the topmost item.
    #[tactic(auto, using(crate::proofs::Stacks::over_last))]
    pub fn set_top(&mut self, item: T)
        ensures { self.new ≡ first_set item self.old }
    {
        let len = self.items.len();
        if 0 < len {
            self.items[len - 1] = item;
        }
    }
}

impl<T: Drop> Stack<T> {
    /// Drops so many from the top.
    #[tactic(auto, using(crate::proofs::Stacks::lowered))]
    pub fn lower(&mut self, count: usize)
        ensures { self.new ≡ drop count self.old }
    {
        let left = self.items.len().saturating_sub(count);
        self.items.truncate(left);
    }

    pub fn clear(&mut self)
        ensures { self.new ≡ [] }
    {
        self.items.clear();
    }
}

impl<T: Copy> Stack<T> {
    /// The item so far below the topmost one.
    #[tactic(auto, using(crate::proofs::Stacks::at_depth))]
    pub fn get(&self, depth: usize) -> Option<T>
        ensures { result ≡ slice_get self.now depth }
    {
        let len = self.items.len();
        if depth < len {
            Some(self.items[len - 1 - depth])
        } else {
            None
        }
    }
}
