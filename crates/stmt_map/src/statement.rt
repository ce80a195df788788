// A client's prepared statement.
use crate::long::LongData;
use mx_base::{Bytes, Hostgroup, OutOfMemory};

/// What was prepared: a number for its text with the schema and the settings of its preparation, where it was routed, what the rules
/// said there of sharing the link, and how many parameters it has.
#[derive(Clone, Copy)]
pub struct Prepared {
    pub key: u64,
    pub hostgroup: Hostgroup,
    pub multiplex: Option<bool>,
    pub params: u16,
}

/// A client's statement: the types that it bound last, and the long data that came since the last execute.
#[derive(Drop)]
pub struct Statement {
    pub prepared: Prepared,
    pub types: Option<Bytes>,
    pub long: LongData,
}

/// Why a statement gets no number.
#[derive(Debug, Drop)]
pub enum AddFault {
    /// The client has 65,535 statements, or all numbers were given.
    Full,
    OutOfMemory,
}

impl From<OutOfMemory> for AddFault {
    ghost use Rattle.std.specs.Prelude.{◌≡◌};
    ghost use Rattle.stmt_map.specs.declared.statement.AddFault.TheVariants as faults;

    ghost from_gives = { λ _ fault. fault ≡ faults.OutOfMemory };

    fn from(_error: OutOfMemory) -> Self {
        AddFault::OutOfMemory
    }
}
