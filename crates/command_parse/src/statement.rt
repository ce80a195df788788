// The statement that a command names.
ghost use Rattle.std.specs.Prelude.{◌≡◌};
ghost use Rattle.command_parse.specs.Meaning.{has_no_reply, names_statement, statement_of};

use crate::command_byte::{
    COM_STMT_CLOSE, COM_STMT_EXECUTE, COM_STMT_FETCH, COM_STMT_RESET, COM_STMT_SEND_LONG_DATA,
};
use mx_base::get_u32;

/// What is known of a prepared statement: how many parameters it has, and whether an execute told their types.
#[derive(Clone, Copy)]
pub struct Known {
    pub params: u16,
    pub bound: bool,
}

/// The number of the prepared statement that a payload names (client/server protocol, "Prepared Statements"): the 4
/// bytes behind the command byte of an execute, a close, a reset, a fetch or a part of a parameter. None exactly where
/// the command is another one or the number isn't whole. Takes no memory.
pub fn statement_of(payload: &[u8]) -> Option<u32>
    ensures { result ≡ statement_of payload.now }
{
    let [byte, ..] = payload else {
        return None;
    };
    if names_statement(*byte) {
        get_u32(payload, 1)
    } else {
        None
    }
}

/// Whether nothing answers a command of this byte, be it whole or too short: a part of a parameter and the close of a prepared
/// statement (client/server protocol, "COM_STMT_SEND_LONG_DATA" and "COM_STMT_CLOSE").
pub fn has_no_reply(byte: u8) -> bool
    ensures { result ≡ has_no_reply byte }
{
    matches!(byte, COM_STMT_SEND_LONG_DATA | COM_STMT_CLOSE)
}

// Whether a command of this byte is for a prepared statement.
fn names_statement(byte: u8) -> bool
    ensures { result ≡ names_statement byte }
{
    matches!(
        byte,
        COM_STMT_EXECUTE
            | COM_STMT_SEND_LONG_DATA
            | COM_STMT_CLOSE
            | COM_STMT_RESET
            | COM_STMT_FETCH
    )
}
