// The table of numbers.
ghost use Rattle.std.specs.Prelude.{◌≡◌, ◌+◌, ◌<◌, ◌≤◌, ℕ, true, [], None, Some, length, max, slice_index, IfOk, IfErr, IfSome, IfNone, OnOk, OnErr};
ghost use Rattle.std.specs.Option.{option_and_then};
ghost use Rattle.indexmap.specs.IndexMap.{IsUnique, Updates, insert_entry};
ghost use Rattle.number_table.specs.Numbers.{AreNumbered, Changes, IsFree, held_at, is_full, number_at, one_less, one_more};
ghost use Rattle.number_table.specs.Orders.{IsPermuted, grown};
ghost use Rattle.number_table.specs.declared.fault.TakeFault.TheVariants as faults;

use crate::fault::TakeFault;
use crate::held::Held;
use crate::order::NumberOrder;
use indexmap::IndexMap;
use std::alloc::Global;
use std::hash::Hash;
use std::marker::Model;

/// Keys that are held, each with a number. Each call takes one step. There are as many numbers as the most keys that were held at a time.
#[derive(Drop)]
pub struct NumberTable<K: Eq + Hash + Drop> {
    held: IndexMap<K, Held>,
    // The numbers of the keys in the map's order, and behind them those that nobody has.
    order: NumberOrder,
    most: u32,
}

impl<K: Eq + Hash + Drop> Model for NumberTable<K> {
    ghost use Rattle.number_table.specs.Numbers.{IsTable, Numbered};

    ghost Value = { Numbered K };

    ghost use Rattle.std.specs.Prelude.{length};

    ghost view = { λ t. record { entries = t.held.entries; slots = length t.order; most = t.most } };

    ghost invariant = { λ t. IsTable K.eq t.held.entries t.order t.most };
}

impl<K: Eq + Hash + Drop> NumberTable<K> {
    /// No key yet, of so many at most. Takes no memory.
    pub fn new(alloc: Global, most: u32) -> Self
        ensures none { result.entries ≡ [] }
        ensures slots { result.slots ≡ 0 }
        ensures most { result.most ≡ most }
    {
        NumberTable {
            held: IndexMap::new(alloc),
            order: NumberOrder::new(alloc),
            most,
        }
    }

    /// How many keys are held.
    pub fn len(&self) -> usize
        ensures { result ≡ length self.now.entries }
    {
        self.held.len()
    }

    /// Equal keys have one number, and two keys with one number are equal.
    pub fn numbered(&self)
        ensures { AreNumbered K.eq self.now }
    {
        self.order.permuted();
        let _count = self.held.len();
    }

    /// The number of a key that is held.
    pub fn find(&self, key: &K) -> Option<u32>
        ensures { result ≡ number_at K.eq self.now key.now }
    {
        match self.held.get(key) {
            Some(held) => Some(held.number),
            None => None,
        }
    }

    /// The key of a number that somebody has.
    pub fn key(&self, number: u32) -> Option<&K>
        ensures key { IfSome result (λ key. number_at K.eq self.now key.now ≡ Some number) }
        ensures free { IfNone result (IsFree K.eq self.now number) }
    {
        let place = self.order.place(number)?;
        let (key, _) = self.held.get_index(place)?;
        Some(key)
    }

    /// One holds a key more. What isn't held yet gets a number that nobody has.
    pub fn take(&mut self, key: K) -> Result<u32, TakeFault>
        ensures number { IfOk result (λ number. number_at K.eq self.new key ≡ Some number) }
        ensures taken { IfOk result (λ number. Changes K.eq self.old self.new key (Some (one_more number (held_at K.eq self.old key)))) }
        ensures free { IfOk result (λ number. held_at K.eq self.old key ≡ None → IsFree K.eq self.old number) }
        ensures err { OnErr result (self.new.entries ≡ self.old.entries) }
        ensures full { IfErr result (λ fault. fault ≡ faults.Full → is_full K.eq self.old key ≡ true) }
        ensures few { self.new.slots ≤ max self.old.slots (length self.old.entries + 1) }
        ensures most { self.new.most ≡ self.old.most }
    {
        match self.held.get(&key) {
            Some(held) => {
                let held = one_more(held)?;
                put(&mut self.held, key, held)
            }
            None => {
                let number = next_number(&mut self.order, self.held.len(), self.most)?;
                put(&mut self.held, key, Held { number, others: 0 })
            }
        }
    }

    /// One holds a number's key less. The last who does takes the key out.
    pub fn leave(&mut self, number: u32)
        ensures left { (key : K) → number_at K.eq self.old key ≡ Some number
            → Changes K.eq self.old self.new key (option_and_then one_less (held_at K.eq self.old key)) }
        ensures free { IsFree K.eq self.old number → self.new ≡ self.old }
        ensures slots { self.new.slots ≡ self.old.slots }
        ensures most { self.new.most ≡ self.old.most }
    {
        let Some(place) = self.order.place(number) else {
            return;
        };
        let Some((_, held)) = self.held.get_index(place) else {
            return;
        };
        let others = held.others;
        if others > 0 {
            self.held[place] = Held {
                number,
                others: others - 1,
            };
            return;
        }
        let last = self.held.len() - 1;
        self.held.swap_remove_index(place);
        self.order.swap(place, last);
    }
}

// Keeps what is held of a key.
fn put<K: Eq + Hash + Drop>(
    map: &mut IndexMap<K, Held>,
    key: K,
    held: Held,
) -> Result<u32, TakeFault>
    ensures number { IfOk result (λ number. number ≡ held.number) }
    ensures updates { OnOk result (Updates K.eq map.old map.new key (Some held)) }
    ensures entries { OnOk result (map.new.entries ≡ insert_entry K.eq map.old.entries key held) }
    ensures unique { IsUnique K.eq map.new }
    ensures err { OnErr result (map.new.entries ≡ map.old.entries) }
    ensures fault { IfErr result (λ fault. fault ≡ faults.OutOfMemory) }
{
    match map.insert(key, held) {
        Ok(_) => Ok(held.number),
        Err(_) => Err(TakeFault::OutOfMemory),
    }
}

// One holds it more.
fn one_more(held: &Held) -> Result<Held, TakeFault>
    ensures ok { IfOk result (λ more. more ≡ one_more held.now.number (Some held.now)) }
    ensures full { IfErr result (λ fault. fault ≡ faults.Full) }
    ensures most { OnErr result (held.now.others ≡ 4294967295) }
{
    match held.others.checked_add(1) {
        Some(others) => Ok(Held {
            number: held.number,
            others,
        }),
        None => Err(TakeFault::Full),
    }
}

// A number for one key more, where so many have the first numbers.
fn next_number(order: &mut NumberOrder, held: usize, most: u32) -> Result<u32, TakeFault>
    requires room { held ≤ length order.old }
    ensures order { OnOk result (order.new ≡ grown order.old held) }
    ensures number { IfOk result (λ number. number ≡ slice_index order.new held) }
    ensures within { OnOk result (held < length order.new) }
    ensures alone { OnOk result (IsPermuted order.new) }
    ensures few { OnOk result (length order.old ≤ most → length order.new ≤ most) }
    ensures err { OnErr result (order.new ≡ order.old) }
    ensures full { IfErr result (λ fault. fault ≡ faults.Full → most ≤ held) }
{
    if held >= order.len() {
        if held >= most as usize {
            return Err(TakeFault::Full);
        }
        order.grow()?;
    }
    order.permuted();
    Ok(order.number(held))
}
