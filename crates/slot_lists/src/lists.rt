// Lists of slots.
ghost use Rattle.std.specs.Prelude.{◌≡◌, ◌+◌, ◌^◌, ◌<◌, ℕ, true, List, [], length, All, IfOk, IfSome, Some, replicate, slice_get, slice_index, slice_set};
ghost use Rattle.slot_lists.specs.Orders.{IsApart, before, has, last, members, placed, stop_of, without};
ghost use Rattle.slot_lists.specs.Chains.{Spells, slot_at};

use mx_base::OutOfMemory;
use std::alloc::Global;
use std::marker::Model;

/// Lists of slots in one piece of memory, which is taken once. A slot stands in one list at most, and each list is in the order of
/// moments that its owner keeps, the newest first; of equal moments the slot that came last. A slot that is as new as the newest is put
/// in in one step, and each is taken out in one.
#[derive(Drop)]
pub struct SlotLists {
    // Of each node the next and the one before: first the nodes of the slots, then one for each list, at which its ring is closed.
    next: Vec<u32>,
    previous: Vec<u32>,
    list_of: Vec<u32>,
    slots: u32,
    lists: u32,
}

impl Model for SlotLists {
    ghost use Rattle.slot_lists.specs.Chains.{Chains, IsLinked};

    ghost Value = { Chains };

    ghost view = { λ s. record {
      next = s.next.items;
      previous = s.previous.items;
      list_of = s.list_of.items;
      slots = s.slots;
      lists = s.lists;
    } };

    ghost invariant = { λ s. IsLinked (record {
      next = s.next.items;
      previous = s.previous.items;
      list_of = s.list_of.items;
      slots = s.slots;
      lists = s.lists;
    }) };
}

impl SlotLists {
    /// So many lists without a slot, for slots below a number.
    pub fn new(alloc: Global, slots: u32, lists: u32) -> Result<Self, OutOfMemory>
        requires few { slots + lists < 2 ^ 32 }
        ensures slots { IfOk result (λ all. all.slots ≡ slots) }
        ensures lists { IfOk result (λ all. all.lists ≡ lists) }
        ensures first { IfOk result (λ all. all.list_of ≡ replicate slots 0) }
        ensures empty { IfOk result (λ all. (moments : List ℕ) → Spells all moments []) }
    {
        Ok(SlotLists {
            next: alone(alloc, slots + lists)?,
            previous: alone(alloc, slots + lists)?,
            list_of: vec![in alloc; 0; slots as usize]?,
            slots,
            lists,
        })
    }

    /// The list in which a slot stands or stood last.
    pub fn list(&self, slot: u32) -> u32
        requires { slot < self.now.slots }
        ensures { result ≡ slice_index self.now.list_of slot }
    {
        self.list_of[slot as usize]
    }

    /// The newest slot of a list.
    pub fn newest(&self, list: u32) -> Option<u32>
        requires { list < self.now.lists }
        ensures is { (moments order : List ℕ) → Spells self.now moments order
            → result ≡ slice_get (members self.now.list_of list order) 0 }
        ensures within { IfSome result (λ slot. slot < self.now.slots) }
    {
        self.slot(self.next[(self.slots + list) as usize])
    }

    /// The oldest slot of a list.
    pub fn oldest(&self, list: u32) -> Option<u32>
        requires { list < self.now.lists }
        ensures is { (moments order : List ℕ) → Spells self.now moments order → result ≡ last (members self.now.list_of list order) }
        ensures within { IfSome result (λ slot. slot < self.now.slots) }
    {
        self.slot(self.previous[(self.slots + list) as usize])
    }

    /// The slot behind another in its list: the newest of those that are older.
    pub fn older(&self, slot: u32) -> Option<u32>
        requires { slot < self.now.slots }
        ensures is { (moments order : List ℕ) (list at : ℕ) → Spells self.now moments order → list < self.now.lists
            → slice_get (members self.now.list_of list order) at ≡ Some slot
            → result ≡ slice_get (members self.now.list_of list order) (at + 1) }
        ensures within { IfSome result (λ slot. slot < self.now.slots) }
    {
        self.slot(self.next[slot as usize])
    }

    /// The slot before another in its list: the oldest of those that are newer.
    pub fn newer(&self, slot: u32) -> Option<u32>
        requires { slot < self.now.slots }
        ensures is { (moments order : List ℕ) (list at : ℕ) → Spells self.now moments order → list < self.now.lists
            → slice_get (members self.now.list_of list order) at ≡ Some slot
            → result ≡ before (members self.now.list_of list order) at }
        ensures within { IfSome result (λ slot. slot < self.now.slots) }
    {
        self.slot(self.previous[slot as usize])
    }

    /// Puts a slot into a list, by its moment.
    pub fn insert(&mut self, list: u32, slot: u32, moments: &[u64])
        requires list { list < self.old.lists }
        requires slot { slot < self.old.slots }
        requires moments { length moments.now ≡ self.old.slots }
        ensures slots { self.new.slots ≡ self.old.slots }
        ensures lists { self.new.lists ≡ self.old.lists }
        ensures list { slice_index self.new.list_of slot ≡ list }
        ensures others { self.new.list_of ≡ slice_set self.old.list_of slot list }
        ensures placed { (order : List ℕ) → Spells self.old moments.now order → IsApart slot order → length order < self.old.slots
            → Spells self.new moments.now (placed moments.now slot order) }
    {
        let at = self.place(list, moments[slot as usize], moments);
        let before = self.previous[at as usize];
        self.next[before as usize] = slot;
        self.next[slot as usize] = at;
        self.previous[at as usize] = slot;
        self.previous[slot as usize] = before;
        self.list_of[slot as usize] = list;
    }

    /// Takes a slot out of its list.
    pub fn remove(&mut self, slot: u32)
        requires slot { slot < self.old.slots }
        ensures slots { self.new.slots ≡ self.old.slots }
        ensures lists { self.new.lists ≡ self.old.lists }
        ensures list { self.new.list_of ≡ self.old.list_of }
        ensures without { (moments order : List ℕ) → Spells self.old moments order → has slot order ≡ true
            → Spells self.new moments (without slot order) }
    {
        let before = self.previous[slot as usize];
        let after = self.next[slot as usize];
        self.next[before as usize] = after;
        self.previous[after as usize] = before;
    }

    // The node before which a slot of this moment stands.
    fn place(&self, list: u32, moment: u64, moments: &[u64]) -> u32
        requires list { list < self.now.lists }
        requires moments { length moments.now ≡ self.now.slots }
        ensures within { result < self.now.slots + self.now.lists }
        ensures stop { (order : List ℕ) → Spells self.now moments.now order
            → result ≡ stop_of moments.now moment (self.now.slots + list) (members self.now.list_of list order) }
    {
        let mut at = self.next[(self.slots + list) as usize];
        for _ in 0..self.slots {
            if at >= self.slots || moments[at as usize] <= moment {
                return at;
            }
            at = self.next[at as usize];
        }
        at
    }

    // The slot of a node, None for that of a list.
    fn slot(&self, node: u32) -> Option<u32>
        ensures is { result ≡ slot_at self.now.slots node }
        ensures within { IfSome result (λ slot. slot < self.now.slots) }
    {
        if node < self.slots { Some(node) } else { None }
    }
}

// So many nodes, each of which is the next to itself.
fn alone(alloc: Global, nodes: u32) -> Result<Vec<u32>, OutOfMemory>
    ensures length { IfOk result (λ all. length all.items ≡ nodes) }
    ensures alone { IfOk result (λ all. (node : ℕ) → node < nodes → slice_index all.items node ≡ node) }
    ensures within { IfOk result (λ all. All (λ node. node < nodes) all.items) }
{
    let mut all = Vec::with_capacity(alloc, nodes as usize)?;
    for node in 0..nodes {
        all.push(node)?;
    }
    Ok(all)
}
