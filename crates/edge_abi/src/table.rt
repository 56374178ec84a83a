//! Tables of handles.
ghost use Rattle.std.specs.Borrow.{sem};
ghost use Rattle.std.specs.Option.{option_copied_mut};
ghost use Rattle.std.specs.Prelude.{◌≡◌, ◌+◌, ◌++◌, ◌∷◌, [], false, true, length, IfOk, OnOk, OnErr, IfErr, Some, option_copied, is_some};
ghost use Rattle.edge_abi.specs.Tables.{held, taken, is_full, IsAddFault};

use std::alloc::Global;
use std::marker::Model;

/// The most handles of one kind that a guest is ever given.
const MOST_HANDLES: usize = 65_536;

/// Values that a guest names by numbers, which begin at 1 and are never given twice.
#[derive(Drop)]
pub struct Table<T> {
    places: Vec<Option<T>>,
}

impl<T> Model for Table<T> {
    ghost use Rattle.std.specs.Prelude.{List, Option, length, ◌≤◌};

    ghost Value = { List (Option T) };

    ghost view = { λ table. table.places.items };

    ghost invariant = { λ table. length table.places.items ≤ 65536 };
}

/// Why a value wasn't added. It comes back.
#[derive(Drop)]
pub enum AddFault<T> {
    Full(T),
    OutOfMemory(T),
}

impl<T: Drop> Table<T> {
    ghost use Rattle.edge_abi.specs.Lends.{lends_get, lends_value};

    /// A table that gave no number yet.
    pub fn new(alloc: Global) -> Table<T>
        ensures { result ≡ [] }
    {
        Table {
            places: Vec::new(alloc),
        }
    }

    /// All numbers were given.
    pub fn is_full(&self) -> bool
        ensures { result ≡ is_full self.now }
    {
        self.places.len() == MOST_HANDLES
    }

    /// The next number names this value from now on.
    pub fn add(&mut self, value: T) -> Result<u32, AddFault<T>>
        ensures number { IfOk result (λ number. number ≡ length self.old + 1) }
        ensures added { OnOk result (self.new ≡ self.old ++ Some value ∷ []) }
        ensures room { OnOk result (is_full self.old ≡ false) }
        ensures unchanged { OnErr result (self.new ≡ self.old) }
        ensures fault { IfErr result (λ fault. IsAddFault self.old value fault) }
    {
        if self.places.len() == MOST_HANDLES {
            return Err(AddFault::Full(value));
        }
        let number = self.places.len() as u32 + 1;
        match self.places.push(Some(value)) {
            Ok(()) => Ok(number),
            Err(failed) => match failed.value {
                Some(value) => Err(AddFault::OutOfMemory(value)),
                None => unreachable!(),
            },
        }
    }

    /// What a number names.
    pub fn get(&self, number: u32) -> Option<&T>
        ensures { option_copied result ≡ held self.now number }
    {
        if number == 0 {
            return None;
        }
        match self.places.get(number as usize - 1) {
            Some(Some(value)) => Some(value),
            _ => None,
        }
    }

    /// What a number names, for writing.
    pub fn get_mut(&mut self, number: u32) -> Option<&mut T>
        ensures* writes_back { sem 𝓛 (lends_get T.row self.entry number result) }
        ensures value { option_copied_mut result ≡ held self.old number }
    {
        if self.get(number).is_some() {
            Some(self.value_mut(number))
        } else {
            None
        }
    }

    fn value_mut(&mut self, number: u32) -> &mut T
        requires { is_some (held self.old number) ≡ true }
        ensures* writes_back { sem 𝓛 (lends_value T.row self.entry number result) }
        ensures value { held self.old number ≡ Some result.now }
    {
        match &mut self.places[number as usize - 1] {
            Some(value) => value,
            None => unreachable!(),
        }
    }

    /// Takes out what a number names; it names nothing from then on.
    pub fn take(&mut self, number: u32) -> Option<T>
        ensures value { result ≡ held self.old number }
        ensures taken { self.new ≡ taken self.old number }
    {
        if number == 0 || self.places.len() < number as usize {
            return None;
        }
        self.places[number as usize - 1].take()
    }
}
