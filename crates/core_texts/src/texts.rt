// The texts that clients prepared.
ghost use Rattle.std.specs.Prelude.{◌≡◌, ◌+◌, ◌<◌, ◌≤◌, ◌^◌, ℕ, All, false, true, nat_eq, nat_le, if◌then◌else◌, IfOk, IfSome, None, OnOk, Some};
ghost use Rattle.std.specs.HashMap.{get, hash_map_len};
ghost use Rattle.std.specs.HashSet.{contains};
ghost use Rattle.std.specs.Option.{option_copied};
ghost use Rattle.mx_base.specs.declared.names.ClientNo.{ClientNo};
ghost use Rattle.pin_classifier.specs.Classes.{class_of};
ghost use Rattle.private_model.specs.Story.{Key};

use crate::kept::Kept;
use crate::noted::Noted;
use mx_base::{Bytes, ClientNo, OutOfMemory};
use pin_classifier::Class;
use place_keys::{place_key, places_apart};
use session_state::Place;
use session_vars::Slot;
use std::alloc::Global;
use std::collections::{HashMap, HashSet};

/// So many texts stay, whether anybody needs them or not.
const AT_LEAST: usize = 10_000;

/// Once something is noted of so many clients it is dropped of those that are no more.
const MOST_NOTED: usize = 32_768;

/// Texts by their numbers, of which none is greater than the last, and their numbers by what they are. Those up to `since` were given before
/// what goes on now began. Once there are so many (`most`), those are to be forgotten that nobody needs. By when what clients have in work had been
/// taken up is noted.
#[derive(Drop)]
pub struct Texts {
    alloc: Global,
    pub last: u64,
    pub since: u64,
    pub kept: HashMap<u64, Kept>,
    pub noted: HashMap<u64, Noted>,
    numbers: HashMap<Bytes, u64>,
    most: usize,
    pub ghost begun: { since ≤ last },
    pub ghost counted: { (number : ℕ) (key : Key) → get nat_eq kept number ≡ Some key → number ≤ last },
}

fn copy_of(alloc: Global, place: &Place) -> Result<Place, OutOfMemory>
    ensures { IfOk result (λ copy. copy ≡ place.now) }
{
    Ok(Place {
        schema: Bytes::from_slice(alloc, place.schema.as_slice())?,
        settings: place.settings.copy()?,
    })
}

// The bytes that a text goes by: those of its place, and itself.
fn statement_key(alloc: Global, place: &Place, text: &[u8]) -> Result<Bytes, OutOfMemory> {
    let place = place_key(alloc, place.schema.as_slice(), &place.settings)?;
    let mut key = Vec::from_slice(alloc, place.as_slice())?;
    key.extend_from_slice(text)?;
    Ok(Bytes::from_vec(key))
}

// The same place.
fn is_place(alloc: Global, a: &Place, b: &Place) -> Result<bool, OutOfMemory>
    ensures { IfOk result (λ same. same ≡ true → a.now ≡ b.now) }
{
    places_apart();
    let _first = a.settings.value(Slot::Names);
    let _other = b.settings.value(Slot::Names);
    let one = place_key(alloc, a.schema.as_slice(), &a.settings)?;
    let other = place_key(alloc, b.schema.as_slice(), &b.settings)?;
    Ok(one.as_slice() == other.as_slice())
}

impl Kept {
    // It is this text, of this place.
    fn is(&self, alloc: Global, place: &Place, text: &[u8]) -> Result<bool, OutOfMemory>
        ensures { IfOk result (λ is. is ≡ true → self.now ≡ record { text = text.now; place = place.now }) }
    {
        if self.text() == text {
            is_place(alloc, self.place(), place)
        } else {
            Ok(false)
        }
    }
}

impl Texts {
    ghost use Rattle.core_texts.specs.Texts.{AreLess, AreMore, HasBegun, key_at, noted_at};

    /// None yet. Takes no memory.
    pub fn new(alloc: Global) -> Self
        ensures last { result.last ≡ 0 }
        ensures none { (number : ℕ) → key_at result number ≡ None }
        ensures unnoted { (c : ClientNo) → noted_at result c ≡ None }
    {
        Texts {
            alloc,
            last: 0,
            since: 0,
            kept: HashMap::new(alloc),
            noted: HashMap::new(alloc),
            numbers: HashMap::new(alloc),
            most: AT_LEAST,
        }
    }

    /// Something begins: all that have numbers by now were given them before. Takes no memory.
    pub fn begin(&mut self)
        ensures begun { HasBegun self.new }
        ensures last { self.new.last ≡ self.old.last }
        ensures same { (number : ℕ) → key_at self.new number ≡ key_at self.old number }
        ensures noted { (c : ClientNo) → noted_at self.new c ≡ noted_at self.old c }
    {
        self.since = self.last;
    }

    /// By when a client's message had been taken up is noted, in place of what was noted of it.
    pub fn note(&mut self, client: ClientNo, one: Noted) -> Result<(), OutOfMemory>
        ensures last { OnOk result (self.new.last ≡ self.old.last) }
        ensures since { OnOk result (self.new.since ≡ self.old.since) }
        ensures same { OnOk result ((number : ℕ) → key_at self.new number ≡ key_at self.old number) }
        ensures noted { OnOk result ((c : ClientNo) → noted_at self.new c ≡ (if nat_eq client.0 c.0 then Some one else noted_at self.old c)) }
    {
        self.noted.insert(client.0, one)?;
        Ok(())
    }

    /// What is noted of a client.
    pub fn noted_of(&self, client: ClientNo) -> Option<Noted>
        ensures { result ≡ noted_at self.now client }
    {
        self.noted.get(&client.0).copied()
    }

    /// Whether what is noted is to be dropped of clients that are no more. Takes no memory.
    pub fn is_littered(&self) -> bool
        ensures { result ≡ nat_le 32768 (hash_map_len self.now.noted) }
    {
        self.noted.len() >= MOST_NOTED
    }

    // Those of whom something is noted, but these.
    fn noted_but(&self, there: &HashSet<u64>) -> Result<Vec<u64>, OutOfMemory> {
        let mut clients = Vec::new(self.alloc);
        for client in self.noted.keys() {
            if !there.contains(client) {
                clients.push(*client)?;
            }
        }
        Ok(clients)
    }

    // Nothing is noted of it any more.
    #[tactic(auto, using(crate::proofs::Keeping::dropped_less))]
    fn drop_noted(&mut self, client: u64)
        ensures less { AreLess self.old self.new }
        ensures same { (number : ℕ) → key_at self.new number ≡ key_at self.old number }
    {
        let _ = self.noted.remove(&client);
    }

    /// What is noted is dropped, but of these clients.
    #[tactic(auto, using(crate::proofs::Keeping::itself_less, crate::proofs::Keeping::less_on))]
    pub fn keep_noted(&mut self, there: &HashSet<u64>) -> Result<(), OutOfMemory>
        ensures less { OnOk result (AreLess self.old self.new) }
        ensures same { OnOk result ((number : ℕ) → key_at self.new number ≡ key_at self.old number) }
    {
        let gone = self.noted_but(there)?;
        for client in gone.iter() {
            self.drop_noted(*client);
        }
        Ok(())
    }

    /// What stands under a number.
    pub fn find(&self, number: u64) -> Option<&Kept>
        ensures { option_copied result ≡ key_at self.now number }
    {
        self.kept.get(&number)
    }

    // Under a number stands this text, of this place.
    fn is_there(&self, number: u64, place: &Place, text: &[u8]) -> Result<bool, OutOfMemory>
        ensures { IfOk result (λ is. is ≡ true → key_at self.now number ≡ Some (record { text = text.now; place = place.now })) }
    {
        match self.kept.get(&number) {
            Some(kept) => kept.is(self.alloc, place, text),
            None => Ok(false),
        }
    }

    // The number of a text that is there already.
    fn number_of(
        &self,
        bytes: &Bytes,
        place: &Place,
        text: &[u8],
    ) -> Result<Option<u64>, OutOfMemory>
        ensures { IfOk result (λ found. IfSome found (λ number. key_at self.now number ≡ Some (record { text = text.now; place = place.now }))) }
    {
        let Some(number) = self.numbers.get(bytes).copied() else {
            return Ok(None);
        };
        if self.is_there(number, place, text)? {
            Ok(Some(number))
        } else {
            Ok(None)
        }
    }

    // The next number is given to a text.
    fn add(
        &mut self,
        bytes: Bytes,
        place: &Place,
        text: &[u8],
        class: Class,
    ) -> Result<u64, OutOfMemory>
        requires class { class ≡ class_of text.now }
        requires room { self.old.last + 1 < 2 ^ 64 }
        ensures there { IfOk result (λ number. key_at self.new number ≡ Some (record { text = text.now; place = place.now })) }
        ensures number { IfOk result (λ number. number ≡ self.old.last + 1) }
        ensures last { IfOk result (λ number. self.new.last ≡ number) }
        ensures since { OnOk result (self.new.since ≡ self.old.since) }
        ensures noted { OnOk result ((c : ClientNo) → noted_at self.new c ≡ noted_at self.old c) }
        ensures others { IfOk result (λ number. (other : ℕ) → nat_eq number other ≡ false → key_at self.new other ≡ key_at self.old other) }
    {
        let number = self.last + 1;
        let text = Bytes::from_slice(self.alloc, text)?;
        let kept = Kept::new(text, copy_of(self.alloc, place)?, class);
        self.last = number;
        self.numbers.insert(bytes, number)?;
        self.kept.insert(number, kept)?;
        Ok(number)
    }

    /// The number of a text that was prepared at this place and has this class. One that isn't there gets the next number. Numbers of 64 bits
    /// don't run out in a life.
    #[tactic(auto, using(crate::proofs::Keeping::same_more, crate::proofs::Keeping::added_more))]
    pub fn take(&mut self, place: &Place, text: &[u8], class: Class) -> Result<u64, OutOfMemory>
        requires class { class ≡ class_of text.now }
        ensures there { IfOk result (λ number. key_at self.new number ≡ Some (record { text = text.now; place = place.now })) }
        ensures more { OnOk result (AreMore self.old self.new) }
    {
        let bytes = statement_key(self.alloc, place, text)?;
        if let Some(number) = self.number_of(&bytes, place, text)? {
            return Ok(number);
        }
        if self.last == u64::MAX {
            return Err(OutOfMemory);
        }
        self.add(bytes, place, text, class)
    }

    // It is forgotten.
    #[tactic(auto, using(crate::proofs::Keeping::gone_less, crate::proofs::Keeping::itself_less))]
    fn forget(&mut self, number: u64) -> Result<(), OutOfMemory>
        ensures less { OnOk result (AreLess self.old self.new) }
        ensures others { OnOk result ((other : ℕ) → nat_eq number other ≡ false → key_at self.new other ≡ key_at self.old other) }
    {
        let Some(kept) = self.kept.get(&number) else {
            return Ok(());
        };
        let bytes = statement_key(self.alloc, kept.place(), kept.text())?;
        let _ = self.numbers.remove(&bytes);
        let _ = self.kept.remove(&number);
        Ok(())
    }

    /// Whether those are to be forgotten that nobody needs. Takes no memory.
    pub fn is_crowded(&self) -> bool
        ensures { result ≡ nat_le self.now.most (hash_map_len self.now.kept) }
    {
        self.kept.len() >= self.most
    }

    // The numbers that nobody needs.
    fn needless(&self, needed: &HashSet<u64>) -> Result<Vec<u64>, OutOfMemory>
        ensures { IfOk result (λ numbers. All (λ number. contains nat_eq needed.now number ≡ false) numbers.items) }
    {
        let mut needless = Vec::new(self.alloc);
        for number in self.kept.keys() {
            if !needed.contains(number) {
                needless.push(*number)?;
            }
        }
        Ok(needless)
    }

    /// Texts are forgotten but those of these numbers. Twice as many may come before others are.
    #[tactic(auto, using(crate::proofs::Keeping::itself_less, crate::proofs::Keeping::less_on, crate::proofs::Keeping::needed_kept))]
    pub fn keep_only(&mut self, needed: &HashSet<u64>) -> Result<(), OutOfMemory>
        ensures less { OnOk result (AreLess self.old self.new) }
        ensures kept { OnOk result ((number : ℕ) → contains nat_eq needed.now number ≡ true → key_at self.new number ≡ key_at self.old number) }
    {
        let needless = self.needless(needed)?;
        for number in needless.iter() {
            self.forget(*number)?;
        }
        self.most = AT_LEAST.max(self.kept.len().saturating_mul(2));
        Ok(())
    }
}
