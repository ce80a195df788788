// Commands and replies.
ghost use Rattle.std.specs.Prelude.{◌≡◌, [], ◌∷◌, ◌++◌, OnOk, OnErr};

use mx_base::{Bytes, OutOfMemory};
use session_vars::{LongPart, Settings};
use std::alloc::Global;
use std::marker::Model;

/// The long data of a prepared statement, which a contract sees as a list.
#[derive(Drop)]
pub struct LongParts {
    items: Vec<LongPart>,
}

impl Model for LongParts {
    ghost use Rattle.std.specs.Prelude.{List};
    ghost use Rattle.session_vars.specs.declared.long_part.LongPart.{LongPart};

    ghost Value = { List LongPart };

    ghost view = { λ p. p.items.items };
}

impl LongParts {
    /// No long data. Takes no memory.
    pub fn new(alloc: Global) -> Self
        ensures { result ≡ [] }
    {
        LongParts {
            items: Vec::new(alloc),
        }
    }

    /// Appends a part.
    pub fn push(&mut self, part: LongPart) -> Result<(), OutOfMemory>
        ensures ok { OnOk result (self.new ≡ self.old ++ part ∷ []) }
        ensures err { OnErr result (self.new ≡ self.old) }
    {
        self.items.push(part)?;
        Ok(())
    }

    /// The parts. Takes no memory.
    pub fn as_slice(&self) -> &[LongPart]
        ensures { result.now ≡ self.now }
    {
        &self.items
    }
}

/// A command that a server runs (client/server protocol, "Command Phase").
#[derive(Drop)]
pub enum Cmd {
    /// COM_QUERY.
    Query {
        text: Bytes,
    },
    /// COM_INIT_DB.
    InitDb {
        schema: Bytes,
    },
    /// COM_FIELD_LIST, with what stands behind its first byte.
    FieldList {
        rest: Bytes,
    },
    /// COM_STMT_PREPARE.
    Prepare {
        text: Bytes,
    },
    /// COM_STMT_EXECUTE of a text, with the schema and the settings that its session had as it was prepared, the types
    /// last bound, and the long data that was sent for it.
    Run {
        text: Bytes,
        schema: Bytes,
        settings: Settings,
        types: Option<Bytes>,
        nulls: Bytes,
        values: Bytes,
        long: LongParts,
    },
    /// COM_RESET_CONNECTION.
    Reset,
    /// The end of the connection: COM_QUIT, or the server ends it by itself.
    Close,
}

/// The payloads of a reply, which a contract sees as a list of byte lists.
#[derive(Drop)]
pub struct ReplyList {
    payloads: Vec<Bytes>,
}

impl Model for ReplyList {
    ghost use Rattle.std.specs.Prelude.{List, ℕ};

    ghost Value = { List (List ℕ) };

    ghost view = { λ r. r.payloads.items };
}

impl ReplyList {
    /// No payloads. Takes no memory.
    pub fn new(alloc: Global) -> Self
        ensures { result ≡ [] }
    {
        ReplyList {
            payloads: Vec::new(alloc),
        }
    }

    /// Appends a payload.
    pub fn push(&mut self, payload: Bytes) -> Result<(), OutOfMemory>
        ensures ok { OnOk result (self.new ≡ self.old ++ payload ∷ []) }
        ensures err { OnErr result (self.new ≡ self.old) }
    {
        self.payloads.push(payload)?;
        Ok(())
    }

    /// The payloads. Takes no memory.
    pub fn as_slice(&self) -> &[Bytes]
        ensures { result.now ≡ self.now }
    {
        &self.payloads
    }
}

/// A reply, and whether it answers a STMT_PREPARE, which has a form of its own (client/server protocol,
/// "COM_STMT_PREPARE Response").
#[derive(Drop)]
pub struct Reply {
    pub to_prepare: bool,
    pub payloads: ReplyList,
}
