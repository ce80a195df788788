// Why a configuration is refused.
ghost use Rattle.std.specs.Prelude.{◌≡◌, Some};
ghost use Rattle.mx_config.specs.Faults.{kind_number, table_number, fault_at, Refuses};

use mx_base::{Bytes, OutOfMemory};
use std::alloc::Global;

/// What is wrong.
#[derive(Clone, Copy)]
pub(crate) enum Kind {
    /// The bytes are no TOML document.
    NotToml,
    /// No such table, or no such key in the table.
    UnknownKey,
    /// A key without a default isn't there.
    MissingKey,
    /// The value has another type.
    WrongType,
    /// The value is none that may stand there, or there are too many or too few rows.
    OutOfRange,
    /// An earlier row has the name.
    DuplicateUser,
    /// An earlier row has the hostgroup, host and port.
    DuplicateServer,
    /// An earlier row has the id.
    DuplicateRule,
    /// The text is no pattern.
    BadPattern,
    /// There is a template, but no match that it could take the place of.
    ReplaceWithoutPattern,
    /// The text is no address of the form asked for.
    BadAddress,
}

/// The tables of the file, and the file itself.
#[derive(Clone, Copy)]
pub(crate) enum TableName {
    File,
    Proxy,
    Users,
    Servers,
    Rules,
    Whitelist,
}

/// Where a fault stands: the table, and its row, counted from 1; 0 is the table as a whole.
#[derive(Clone, Copy)]
pub(crate) struct Place {
    pub table: TableName,
    pub row: u32,
}

/// The first fault of a configuration.
///
/// | Kind | What is wrong |
/// |---|---|
/// | 1 | the bytes are no TOML document |
/// | 2 | an unknown table or key |
/// | 3 | a missing key |
/// | 4 | a value of the wrong type |
/// | 5 | a value out of range, or too many or too few rows |
/// | 6 | a user whose name an earlier row has |
/// | 7 | a server whose hostgroup, host and port an earlier row has |
/// | 8 | a rule whose id an earlier row has |
/// | 9 | a text that is no pattern |
/// | 10 | a template without a pattern, or with one that has to find nothing |
/// | 11 | a text that is no address |
///
/// The table is 0 for the file, 1 for `proxy`, 2 for `users`, 3 for `servers`, 4 for `rules` and 5 for `whitelist`. The row counts from
/// 1, and is 0 for the table as a whole, and for `proxy`. The key is empty where the fault is no key's.
#[derive(Debug, Drop)]
pub struct ConfigFault {
    pub kind: u8,
    pub table: u8,
    pub row: u32,
    pub key: Bytes,
}

/// Why `read_config` gives no configuration.
#[derive(Debug, Drop)]
pub enum ConfigRefusal {
    Fault(ConfigFault),
    OutOfMemory,
}

impl From<OutOfMemory> for ConfigRefusal {
    ghost use Rattle.mx_config.specs.declared.fault.ConfigRefusal.TheVariants as refusals;

    ghost from_gives = { λ _ refusal. refusal ≡ refusals.OutOfMemory };

    fn from(_: OutOfMemory) -> Self {
        ConfigRefusal::OutOfMemory
    }
}

impl Kind {
    fn number(self) -> u8
        ensures { result ≡ kind_number self }
    {
        match self {
            Kind::NotToml => 1,
            Kind::UnknownKey => 2,
            Kind::MissingKey => 3,
            Kind::WrongType => 4,
            Kind::OutOfRange => 5,
            Kind::DuplicateUser => 6,
            Kind::DuplicateServer => 7,
            Kind::DuplicateRule => 8,
            Kind::BadPattern => 9,
            Kind::ReplaceWithoutPattern => 10,
            Kind::BadAddress => 11,
        }
    }
}

impl TableName {
    fn number(self) -> u8
        ensures { result ≡ table_number self }
    {
        match self {
            TableName::File => 0,
            TableName::Proxy => 1,
            TableName::Users => 2,
            TableName::Servers => 3,
            TableName::Rules => 4,
            TableName::Whitelist => 5,
        }
    }
}

/// The refusal for a fault of a key; the key is copied, which takes memory.
#[tactic(auto, unfolding(crate::specs::Faults::fault_at))]
pub(crate) fn refusal(alloc: Global, place: Place, kind: Kind, key: &str) -> ConfigRefusal
    ensures { Refuses result (Some (fault_at place kind key.now)) }
{
    match Bytes::from_slice(alloc, key.as_bytes()) {
        Ok(key) => ConfigRefusal::Fault(ConfigFault {
            kind: kind.number(),
            table: place.table.number(),
            row: place.row,
            key,
        }),
        Err(refusal) => ConfigRefusal::from(refusal),
    }
}
