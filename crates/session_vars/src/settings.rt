// The settings of a session.
ghost use Rattle.std.specs.Prelude.{◌≡◌, ◌<◌, ◌≤◌, false, length, slice_index_or, IfOk, OnOk, OnErr};
ghost use Rattle.session_vars.specs.Settings.{AreSettings, value_at, changed, applied, defaults, collation_settings, padded};

use crate::collation::collation_names;
use crate::{Change, Slot, SlotValue};
use mx_base::{Bytes, OutOfMemory};
use std::alloc::Global;
use std::marker::Model;

/// The settings of a session, one value for each slot. A contract sees the list of the values, in the order of the
/// slots. The first slots are those that are mostly set: the values of the last ones are left out while these are the default, which stands beside
/// them, so that a copy takes little memory.
#[derive(Drop)]
pub struct Settings {
    values: Vec<SlotValue>,
    otherwise: SlotValue,
}

impl Model for Settings {
    ghost use Rattle.std.specs.Prelude.{List};
    ghost use Rattle.session_vars.specs.Settings.{AreKept, padded};
    ghost use Rattle.session_vars.specs.declared.change.SlotValue.{SlotValue};

    ghost Value = { List SlotValue };

    ghost view = { λ s. padded s.values.items };

    ghost invariant = { λ s. AreKept s.values.items s.otherwise };
}

// The value at a place, which is this one behind the last.
#[tactic(auto, using(crate::proofs::Padded::beyond))]
fn value_in<'a>(values: &'a [SlotValue], place: usize, otherwise: &'a SlotValue) -> &'a SlotValue
    ensures { result.now ≡ slice_index_or values.now place otherwise.now }
{
    if place < values.len() {
        &values[place]
    } else {
        otherwise
    }
}

// Values are there up to this place.
#[tactic(auto, using(crate::proofs::Padded::padded_more))]
fn reach(values: &mut Vec<SlotValue>, place: usize) -> Result<(), OutOfMemory>
    requires place { place < 67 }
    requires few { length values.old.items ≤ 67 }
    ensures same { padded values.new.items ≡ padded values.old.items }
    ensures few { length values.new.items ≤ 67 }
    ensures there { OnOk result (place < length values.new.items) }
{
    for _i in values.len()..place + 1 {
        values.push(SlotValue::Default)?;
    }
    Ok(())
}

impl Settings {
    /// The settings of a session that set nothing, as of a server's fresh link.
    pub fn defaults(alloc: Global) -> Result<Self, OutOfMemory>
        ensures { IfOk result (λ settings. settings ≡ defaults) }
    {
        Ok(Settings {
            values: Vec::new(alloc),
            otherwise: SlotValue::Default,
        })
    }

    /// The settings of a client that logged in with the collation of this number (client/server protocol, "Character
    /// Set"; MySQL Reference Manual, "Supported Character Sets and Collations"): what SET NAMES would make of it, all
    /// else as default. A collation that isn't served is as utf8mb4_general_ci, 45 (`is_served_collation`).
    pub fn for_collation(alloc: Global, number: u8) -> Result<Self, OutOfMemory>
        ensures { IfOk result (λ settings. settings ≡ collation_settings number) }
    {
        let mut settings = Settings::defaults(alloc)?;
        let names = Bytes::from_slice(alloc, collation_names(number))?;
        settings.set(Slot::Names, SlotValue::Text(names))?;
        Ok(settings)
    }

    /// The value of a setting. Takes no memory.
    #[tactic(auto, using(crate::proofs::Padded::padded_value, crate::proofs::Padded::padded_length))]
    pub fn value(&self, slot: Slot) -> &SlotValue
        ensures value { result.now ≡ value_at self.now slot }
        ensures settings { AreSettings self.now }
    {
        value_in(self.values.as_slice(), slot.place(), &self.otherwise)
    }

    // The values that are kept.
    pub(crate) fn kept(&self) -> &[SlotValue]
        ensures { padded result.now ≡ self.now }
    {
        self.values.as_slice()
    }

    /// A copy.
    #[tactic(auto, using(crate::proofs::Padded::padded_length))]
    pub fn copy(&self) -> Result<Self, OutOfMemory>
        ensures copy { IfOk result (λ settings. settings ≡ self.now) }
        ensures settings { AreSettings self.now }
    {
        let alloc = *self.values.allocator();
        let mut values = Vec::with_capacity(alloc, self.values.len())?;
        for value in &self.values {
            values.push(value.copy(alloc)?)?;
        }
        Ok(Settings {
            values,
            otherwise: SlotValue::Default,
        })
    }

    /// Makes the changes, in order. OutOfMemory changes nothing.
    pub fn apply(&mut self, changes: &[Change]) -> Result<(), OutOfMemory>
        ensures ok { OnOk result (self.new ≡ applied self.old changes.now) }
        ensures err { OnErr result (self.new ≡ self.old) }
        ensures settings { AreSettings self.new }
    {
        let alloc = *self.values.allocator();
        let mut next = self.copy()?;
        for change in changes {
            let value = change.after(alloc, next.value(change.slot))?;
            next.set(change.slot, value)?;
        }
        *self = next;
        Ok(())
    }

    // Gives a setting a value.
    #[tactic(auto, using(crate::proofs::Padded::padded_set, crate::proofs::Padded::padded_length))]
    fn set(&mut self, slot: Slot, value: SlotValue) -> Result<(), OutOfMemory>
        ensures value { OnOk result (self.new ≡ changed self.old (record { slot = slot; value = value; adds = false })) }
        ensures settings { AreSettings self.new }
    {
        let place = slot.place();
        reach(&mut self.values, place)?;
        self.values[place] = value;
        Ok(())
    }
}
