// Changes of settings.
ghost use Rattle.std.specs.Prelude.{◌≡◌, [], ◌∷◌, ◌++◌, OnOk, OnErr, IfOk};
ghost use Rattle.session_vars.specs.Settings.{is_text, value_after};

use crate::Slot;
use crate::modes::added_to;
use mx_base::{Bytes, OutOfMemory};
use std::alloc::Global;
use std::marker::Model;

/// The value of a setting.
#[derive(Drop)]
pub enum SlotValue {
    /// What the server gives a session that sets nothing; of `CharacterSetResults` and `CollationConnection` what SET NAMES leaves.
    Default,
    /// A value as it is written in a statement.
    Text(Bytes),
}

impl SlotValue {
    /// Whether it is a text. Takes no memory.
    pub fn is_text(&self) -> bool
        ensures { result ≡ is_text self.now }
    {
        match self {
            SlotValue::Default => false,
            SlotValue::Text(_) => true,
        }
    }

    /// A copy.
    pub fn copy(&self, alloc: Global) -> Result<Self, OutOfMemory>
        ensures { IfOk result (λ value. value ≡ self.now) }
    {
        match self {
            SlotValue::Default => Ok(SlotValue::Default),
            SlotValue::Text(text) => Ok(SlotValue::Text(Bytes::from_slice(
                alloc,
                text.as_slice(),
            )?)),
        }
    }
}

/// A setting and the value that it gets.
#[derive(Drop)]
pub struct Change {
    pub slot: Slot,
    pub value: SlotValue,
    /// Whether the value is an expression over the setting's value before it, of which `CONCAT(@@sql_mode` stands in it.
    pub adds: bool,
}

impl Change {
    // A copy.
    pub(crate) fn copy(&self, alloc: Global) -> Result<Self, OutOfMemory>
        ensures { IfOk result (λ change. change ≡ self.now) }
    {
        Ok(Change {
            slot: self.slot,
            value: self.value.copy(alloc)?,
            adds: self.adds,
        })
    }

    // What it makes of its setting's value.
    pub(crate) fn after(&self, alloc: Global, old: &SlotValue) -> Result<SlotValue, OutOfMemory>
        ensures { IfOk result (λ value. value ≡ value_after old.now self.now) }
    {
        if self.adds {
            added_to(alloc, old, &self.value)
        } else {
            self.value.copy(alloc)
        }
    }
}

/// Changes in order, which a contract sees as a list.
#[derive(Drop)]
pub struct Changes {
    items: Vec<Change>,
}

impl Model for Changes {
    ghost use Rattle.std.specs.Prelude.{List};
    ghost use Rattle.session_vars.specs.declared.change.Change.{Change};

    ghost Value = { List Change };

    ghost view = { λ c. c.items.items };
}

impl Changes {
    /// No changes. Takes no memory.
    pub fn new(alloc: Global) -> Self
        ensures { result ≡ [] }
    {
        Changes {
            items: Vec::new(alloc),
        }
    }

    /// Appends a change.
    pub fn push(&mut self, change: Change) -> Result<(), OutOfMemory>
        ensures ok { OnOk result (self.new ≡ self.old ++ change ∷ []) }
        ensures err { OnErr result (self.new ≡ self.old) }
    {
        self.items.push(change)?;
        Ok(())
    }

    /// The changes. Takes no memory.
    pub fn as_slice(&self) -> &[Change]
        ensures { result.now ≡ self.now }
    {
        &self.items
    }
}
