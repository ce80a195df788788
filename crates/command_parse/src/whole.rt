// All commands out of payloads.
ghost use Rattle.std.specs.Prelude.{◌≡◌, ◌≤◌, Ok, Err, length, MatchResult};
ghost use Rattle.command_parse.specs.Meaning.{meaning_of};
ghost use Rattle.command_parse.specs.Whole.{close_of, execute_of, executed, long_data_of, fetch_of, reset_of, whole_parsed};

use crate::command::Command;
use crate::command_byte::{
    COM_FIELD_LIST, COM_INIT_DB, COM_PING, COM_QUERY, COM_QUIT, COM_RESET_CONNECTION,
    COM_STMT_CLOSE, COM_STMT_EXECUTE, COM_STMT_FETCH, COM_STMT_PREPARE, COM_STMT_RESET,
    COM_STMT_SEND_LONG_DATA,
};
use crate::fault::CommandFault;
use crate::statement::Known;
use mx_base::{get_u16, get_u32};

/// The command of a payload (client/server protocol, "Command Phase"), where this is known of the prepared statement that it names.
/// A byte that begins none of the twelve commands is Refused. Faults: there is no byte; a field runs past the end, the first that does;
/// an execute or a reset of a statement names one that isn't known, however short it is behind the number; an execute has parameters
/// whose types neither it nor an earlier one told. Bytes behind an execute without parameters, and behind the number of a close, a
/// reset or a fetch, say nothing. Takes no memory.
pub fn parse_whole<'a>(payload: &'a [u8], known: Option<Known>) -> Result<Command<'a>, CommandFault>
    ensures { MatchResult result (λ command. whole_parsed known payload.now ≡ Ok (meaning_of command))
        (λ fault. whole_parsed known payload.now ≡ Err fault) }
{
    let [byte, rest @ ..] = payload else {
        return Err(CommandFault::Empty);
    };
    match *byte {
        COM_QUIT => Ok(Command::Quit),
        COM_INIT_DB => Ok(Command::InitDb { schema: rest }),
        COM_QUERY => Ok(Command::Query { text: rest }),
        COM_FIELD_LIST => Ok(Command::FieldList { rest }),
        COM_PING => Ok(Command::Ping),
        COM_STMT_PREPARE => Ok(Command::Prepare { text: rest }),
        COM_STMT_EXECUTE => execute(payload, known),
        COM_STMT_SEND_LONG_DATA => long_data(payload),
        COM_STMT_CLOSE => close(payload),
        COM_STMT_RESET => reset(payload, known),
        COM_STMT_FETCH => fetch(payload),
        COM_RESET_CONNECTION => Ok(Command::ResetConnection),
        other => Ok(Command::Refused(other)),
    }
}

// An execute ("COM_STMT_EXECUTE").
fn execute<'a>(payload: &'a [u8], known: Option<Known>) -> Result<Command<'a>, CommandFault>
    ensures { MatchResult result (λ command. execute_of known payload.now ≡ Ok (meaning_of command))
        (λ fault. execute_of known payload.now ≡ Err fault) }
{
    let Some(id) = get_u32(payload, 1) else {
        return Err(CommandFault::Short { at: 1 });
    };
    let Some(known) = known else {
        return Err(CommandFault::UnknownStatement { id });
    };
    if payload.len() < 6 {
        return Err(CommandFault::Short { at: 5 });
    }
    if payload.len() < 10 {
        return Err(CommandFault::Short { at: 6 });
    }
    if known.params == 0 {
        let none = &payload[..0];
        return Ok(Command::Execute {
            id,
            types: None,
            nulls: none,
            values: none,
        });
    }
    parameters(payload, id, known)
}

// The parameters of an execute, which has some.
fn parameters<'a>(payload: &'a [u8], id: u32, known: Known) -> Result<Command<'a>, CommandFault>
    requires { 10 ≤ length payload.now }
    ensures { MatchResult result (λ command. executed id known payload.now ≡ Ok (meaning_of command))
        (λ fault. executed id known payload.now ≡ Err fault) }
{
    let nulls_end = 10 + (known.params as usize + 7) / 8;
    if payload.len() < nulls_end {
        return Err(CommandFault::Short { at: 10 });
    }
    if payload.len() == nulls_end {
        return Err(CommandFault::Short { at: nulls_end });
    }
    let nulls = &payload[10..nulls_end];
    if payload[nulls_end] != 1 {
        if !known.bound {
            return Err(CommandFault::TypesMissing);
        }
        return Ok(Command::Execute {
            id,
            types: None,
            nulls,
            values: &payload[nulls_end + 1..],
        });
    }
    let types_end = nulls_end + 1 + 2 * known.params as usize;
    if payload.len() < types_end {
        return Err(CommandFault::Short { at: nulls_end + 1 });
    }
    Ok(Command::Execute {
        id,
        types: Some(&payload[nulls_end + 1..types_end]),
        nulls,
        values: &payload[types_end..],
    })
}

// A part of a parameter ("COM_STMT_SEND_LONG_DATA").
fn long_data<'a>(payload: &'a [u8]) -> Result<Command<'a>, CommandFault>
    ensures { MatchResult result (λ command. long_data_of payload.now ≡ Ok (meaning_of command))
        (λ fault. long_data_of payload.now ≡ Err fault) }
{
    let Some(id) = get_u32(payload, 1) else {
        return Err(CommandFault::Short { at: 1 });
    };
    if payload.len() < 7 {
        return Err(CommandFault::Short { at: 5 });
    }
    let Some(parameter) = get_u16(payload, 5) else {
        return Err(CommandFault::Short { at: 5 });
    };
    Ok(Command::LongData {
        id,
        parameter,
        bytes: &payload[7..],
    })
}

// A close of a statement ("COM_STMT_CLOSE").
fn close<'a>(payload: &'a [u8]) -> Result<Command<'a>, CommandFault>
    ensures { MatchResult result (λ command. close_of payload.now ≡ Ok (meaning_of command)) (λ fault. close_of payload.now ≡ Err fault) }
{
    match get_u32(payload, 1) {
        Some(id) => Ok(Command::Close { id }),
        None => Err(CommandFault::Short { at: 1 }),
    }
}

// A reset of a statement ("COM_STMT_RESET").
fn reset<'a>(payload: &'a [u8], known: Option<Known>) -> Result<Command<'a>, CommandFault>
    ensures { MatchResult result (λ command. reset_of known payload.now ≡ Ok (meaning_of command))
        (λ fault. reset_of known payload.now ≡ Err fault) }
{
    let Some(id) = get_u32(payload, 1) else {
        return Err(CommandFault::Short { at: 1 });
    };
    match known {
        Some(_) => Ok(Command::ResetStmt { id }),
        None => Err(CommandFault::UnknownStatement { id }),
    }
}

// A fetch of a statement's rows ("COM_STMT_FETCH").
fn fetch<'a>(payload: &'a [u8]) -> Result<Command<'a>, CommandFault>
    ensures { MatchResult result (λ command. fetch_of payload.now ≡ Ok (meaning_of command)) (λ fault. fetch_of payload.now ≡ Err fault) }
{
    match get_u32(payload, 1) {
        Some(id) => Ok(Command::Fetch { id }),
        None => Err(CommandFault::Short { at: 1 }),
    }
}
