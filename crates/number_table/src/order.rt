// Numbers in an order.
ghost use Rattle.std.specs.Prelude.{◌≡◌, ◌≢◌, ◌+◌, ◌^◌, ◌<◌, ℕ, [], ◌∷◌, ◌++◌, length, swap, slice_index, IfSome, IfNone, OnOk, OnErr};
ghost use Rattle.number_table.specs.Orders.{IsPermuted};

use mx_base::OutOfMemory;
use std::alloc::Global;
use std::marker::Model;

/// The numbers below how many there are, each once, in an order. A contract sees them as a list.
#[derive(Drop)]
pub(crate) struct NumberOrder {
    numbers: Vec<u32>,
    // Of each number where it stands.
    places: Vec<u32>,
}

impl Model for NumberOrder {
    ghost use Rattle.std.specs.Prelude.{List, ℕ};
    ghost use Rattle.number_table.specs.Orders.{AreInverse};

    ghost Value = { List ℕ };

    ghost view = { λ o. o.numbers.items };

    ghost invariant = { λ o. AreInverse o.numbers.items o.places.items };
}

impl NumberOrder {
    /// No numbers yet. Takes no memory.
    pub(crate) fn new(alloc: Global) -> Self
        ensures { result ≡ [] }
    {
        NumberOrder {
            numbers: Vec::new(alloc),
            places: Vec::new(alloc),
        }
    }

    /// How many there are.
    pub(crate) fn len(&self) -> usize
        ensures { result ≡ length self.now }
    {
        self.numbers.len()
    }

    /// The number at a place.
    pub(crate) fn number(&self, place: usize) -> u32
        requires { place < length self.now }
        ensures is { result ≡ slice_index self.now place }
        ensures within { result < length self.now }
    {
        self.numbers[place]
    }

    /// The place of a number, None where there is no such number.
    pub(crate) fn place(&self, number: u32) -> Option<usize>
        ensures is { IfSome result (λ place. slice_index self.now place ≡ number) }
        ensures within { IfSome result (λ place. place < length self.now) }
        ensures alone { IfSome result (λ found. (place : ℕ) → place < length self.now → slice_index self.now place ≡ number → place ≡ found) }
        ensures none { IfNone result ((place : ℕ) → place < length self.now → slice_index self.now place ≢ number) }
    {
        let place = *self.places.get(number as usize)?;
        Some(place as usize)
    }

    /// Each number stands at one place.
    pub(crate) fn permuted(&self)
        ensures { IsPermuted self.now }
    {
        let _ = &self.numbers;
    }

    /// One number more, the next, at the end.
    pub(crate) fn grow(&mut self) -> Result<(), OutOfMemory>
        requires { length self.old + 1 < 2 ^ 32 }
        ensures ok { OnOk result (self.new ≡ self.old ++ length self.old ∷ []) }
        ensures err { OnErr result (self.new ≡ self.old) }
    {
        let next = self.numbers.len() as u32;
        self.numbers.reserve(1)?;
        self.places.push(next)?;
        self.numbers.push(next)?;
        Ok(())
    }

    /// Two numbers change their places.
    pub(crate) fn swap(&mut self, a: usize, b: usize)
        requires a { a < length self.old }
        requires b { b < length self.old }
        ensures { self.new ≡ swap self.old a b }
    {
        let (first, second) = (self.numbers[a], self.numbers[b]);
        self.numbers.swap(a, b);
        self.places[first as usize] = b as u32;
        self.places[second as usize] = a as u32;
    }
}
