// What a payload asks of a server.
ghost use Rattle.std.specs.Prelude.{◌≡◌, IfOk};
ghost use Rattle.scripted_wire.specs.Asked.{asks};

use command_parse::{Command, parse};
use mx_base::{Bytes, OutOfMemory};
use server_rule::Cmd;
use std::alloc::Global;

/// COM_RESET_CONNECTION (client/server protocol, "COM_RESET_CONNECTION").
const COM_RESET_CONNECTION: u8 = 0x1F;

/// What a payload asks of a server.
#[derive(Drop)]
pub(crate) enum Asked {
    /// To run a command and to answer it.
    Run(Cmd),
    /// To end the session and the link, without an answer (client/server protocol, "COM_QUIT").
    Quit,
    /// Something that no server in code has.
    Unknown,
}

/// What a payload asks of a server (client/server protocol, "Command Phase").
pub(crate) fn read_asked(alloc: Global, payload: &[u8]) -> Result<Asked, OutOfMemory>
    ensures { IfOk result (λ it. it ≡ asks payload.now) }
{
    let Ok(command) = parse(payload, None) else {
        return Ok(Asked::Unknown);
    };
    Ok(match command {
        Command::Quit => Asked::Quit,
        Command::InitDb { schema } => Asked::Run(Cmd::InitDb {
            schema: Bytes::from_slice(alloc, schema)?,
        }),
        Command::Query { text } => Asked::Run(Cmd::Query {
            text: Bytes::from_slice(alloc, text)?,
        }),
        Command::FieldList { rest } => Asked::Run(Cmd::FieldList {
            rest: Bytes::from_slice(alloc, rest)?,
        }),
        Command::ResetConnection => Asked::Run(Cmd::Reset),
        Command::Refused(byte) if byte == COM_RESET_CONNECTION => Asked::Run(Cmd::Reset),
        _ => Asked::Unknown,
    })
}
