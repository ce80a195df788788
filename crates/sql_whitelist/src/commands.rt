// Commands of clients that are held to a list.
ghost use Rattle.std.specs.Prelude.{◌≡◌, IfOk};
ghost use Rattle.command_parse.specs.Meaning.{meaning_of};
ghost use Rattle.query_digest.specs.Digest.{digest_of};
ghost use Rattle.query_digest.specs.Hash.{hash_of};
ghost use Rattle.sql_whitelist.specs.Commands.{is_refused};
ghost use Rattle.sql_whitelist.specs.Held.{holds};

use crate::Whitelist;
use command_parse::Command;
use mx_base::OutOfMemory;
use query_digest::{digest, digest_hash};
use std::alloc::Global;

impl Whitelist {
    // Whether a row of this user and this schema has the text.
    fn has_text(
        &self,
        alloc: Global,
        user: &[u8],
        schema: &[u8],
        text: &[u8],
    ) -> Result<bool, OutOfMemory>
        ensures { IfOk result (λ has. has ≡ holds self.now user.now schema.now (hash_of (digest_of text.now))) }
    {
        let digest = digest(alloc, text)?;
        Ok(self.allows(user, schema, digest_hash(digest.as_slice())))
    }

    /// Whether a command is refused of a client of this user that stands in this schema and is held to the list: where it runs
    /// or prepares a text that isn't listed, and where it asks for a table's columns. The only error is want of memory.
    pub fn refuses(
        &self,
        alloc: Global,
        user: &[u8],
        schema: &[u8],
        command: &Command<'_>,
    ) -> Result<bool, OutOfMemory>
        ensures { IfOk result (λ refuses. refuses ≡ is_refused (holds self.now user.now schema.now) (meaning_of command.now)) }
    {
        match command {
            Command::Query { text } | Command::Prepare { text } => {
                Ok(!self.has_text(alloc, user, schema, text)?)
            }
            Command::FieldList { .. } => Ok(true),
            _ => Ok(false),
        }
    }
}
