// Commands out of payloads.
ghost use Rattle.std.specs.Prelude.{◌≡◌, Ok, Err, MatchResult};
ghost use Rattle.command_parse.specs.Meaning.{meaning_of, parsed};

use crate::command::Command;
use crate::command_byte::{COM_FIELD_LIST, COM_INIT_DB, COM_PING, COM_QUERY, COM_QUIT};
use crate::fault::CommandFault;
use crate::statement::Known;

/// The command of a payload (client/server protocol, "Command Phase"): its first byte says which one it is, and Empty
/// is answered exactly where there is none. A command but a QUIT, an INIT_DB, a QUERY,
/// a FIELD_LIST or a PING is Refused. What is known of the
/// statement that the payload names is asked by no command so far. Takes no memory.
pub fn parse<'a>(payload: &'a [u8], _known: Option<Known>) -> Result<Command<'a>, CommandFault>
    ensures { MatchResult result (λ command. parsed payload.now ≡ Ok (meaning_of command)) (λ fault. parsed payload.now ≡ Err fault) }
{
    let [byte, rest @ ..] = payload else {
        return Err(CommandFault::Empty);
    };
    let command = match *byte {
        COM_QUIT => Command::Quit,
        COM_INIT_DB => Command::InitDb { schema: rest },
        COM_QUERY => Command::Query { text: rest },
        COM_FIELD_LIST => Command::FieldList { rest },
        COM_PING => Command::Ping,
        other => Command::Refused(other),
    };
    Ok(command)
}
