//! The stacks of the check (section 7.3).

ghost use Rattle.std.specs.Prelude.{◌≡◌, List, [], ◌∷◌, length, slice_get, OnOk};
ghost use Rattle.std.specs.Option.{option_copied};
ghost use Rattle.wasm_validate.specs.Lists.{head_of, tail_of, is_nil};

use std::alloc::{AllocFailed, Global};
use std::collections::VecDeque;
use std::marker::Model;

/// A stack. Contracts see the list of its items, the topmost one first.
#[derive(Drop)]
pub struct Stack<T> {
    items: VecDeque<T>,
}

impl<T> Model for Stack<T> {
    ghost Value = { List T };

    ghost view = { λ s. s.items.items };
}

impl<T> Stack<T> {
    pub fn new(alloc: Global) -> Stack<T>
        ensures { result ≡ [] }
    {
        Stack {
            items: VecDeque::new(alloc),
        }
    }

    pub fn len(&self) -> usize
        ensures { result ≡ length self.now }
    {
        self.items.len()
    }

    pub fn is_empty(&self) -> bool
        ensures { result ≡ is_nil self.now }
    {
        self.items.is_empty()
    }

    pub fn push(&mut self, item: T) -> Result<(), AllocFailed<T>>
        ensures { OnOk result (self.new ≡ item ∷ self.old) }
    {
        self.items.push_front(item)
    }

    pub fn pop(&mut self) -> Option<T>
        ensures top { result ≡ head_of self.old }
        ensures rest { self.new ≡ tail_of self.old }
    {
        self.items.pop_front()
    }
}

impl<T: Copy> Stack<T> {
    /// The item so far below the topmost one.
    pub fn get(&self, index: usize) -> Option<T>
        ensures { result ≡ slice_get self.now index }
    {
        self.items.get(index).copied()
    }
}

impl<T: Drop> Stack<T> {
    pub fn clear(&mut self)
        ensures { self.new ≡ [] }
    {
        self.items.clear();
    }
}
