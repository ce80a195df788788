// The table of commands.
ghost use Rattle.std.specs.Prelude.{◌≡◌};
ghost use Rattle.command_parse.specs.Table.{kind_of, row_of};

use crate::command_byte::{
    COM_FIELD_LIST, COM_INIT_DB, COM_PING, COM_QUERY, COM_QUIT, COM_RESET_CONNECTION,
    COM_STMT_CLOSE, COM_STMT_EXECUTE, COM_STMT_FETCH, COM_STMT_PREPARE, COM_STMT_RESET,
    COM_STMT_SEND_LONG_DATA,
};

/// A command that a client may send (client/server protocol, "Command Phase").
#[derive(Clone, Copy)]
pub enum CommandKind {
    Quit,
    InitDb,
    Query,
    FieldList,
    Ping,
    Prepare,
    Execute,
    LongData,
    Close,
    ResetStmt,
    Fetch,
    ResetConnection,
}

/// How the reply of a server is read (client/server protocol, "COM_QUERY Response", "COM_STMT_PREPARE Response",
/// "COM_FIELD_LIST Response").
#[derive(Clone, Copy)]
pub enum Replied {
    /// An OK, an ERR, or a table, one after another.
    Results,
    /// An ERR, or the number of a statement, with what it takes and gives.
    Prepared,
    /// An ERR, or columns.
    Fields,
}

/// A row of the table of commands.
#[derive(Clone, Copy)]
pub struct CommandRow {
    /// The first byte of the payload.
    pub byte: u8,
    /// Whether the command of a client is handed on to a server; the router answers the others itself, or has nothing to answer.
    pub to_server: bool,
    /// How the reply of a server to it is read, None where a server sends none, or is never asked.
    pub reply: Option<Replied>,
    /// Whether the client gets an answer.
    pub is_answered: bool,
}

impl CommandKind {
    /// The command that a byte begins, None exactly where it begins none that the router knows.
    pub fn of(byte: u8) -> Option<CommandKind>
        ensures { result ≡ kind_of byte }
    {
        let kind = match byte {
            COM_QUIT => CommandKind::Quit,
            COM_INIT_DB => CommandKind::InitDb,
            COM_QUERY => CommandKind::Query,
            COM_FIELD_LIST => CommandKind::FieldList,
            COM_PING => CommandKind::Ping,
            COM_STMT_PREPARE => CommandKind::Prepare,
            COM_STMT_EXECUTE => CommandKind::Execute,
            COM_STMT_SEND_LONG_DATA => CommandKind::LongData,
            COM_STMT_CLOSE => CommandKind::Close,
            COM_STMT_RESET => CommandKind::ResetStmt,
            COM_STMT_FETCH => CommandKind::Fetch,
            COM_RESET_CONNECTION => CommandKind::ResetConnection,
            _ => return None,
        };
        Some(kind)
    }

    /// The row of a command: which byte begins it, whether it goes to a server, how its reply is read, and whether it has an answer.
    pub fn row(self) -> CommandRow
        ensures { result ≡ row_of self }
    {
        match self {
            CommandKind::Quit => row(COM_QUIT, false, None, false),
            CommandKind::InitDb => row(COM_INIT_DB, true, Some(Replied::Results), true),
            CommandKind::Query => row(COM_QUERY, true, Some(Replied::Results), true),
            CommandKind::FieldList => row(COM_FIELD_LIST, true, Some(Replied::Fields), true),
            CommandKind::Ping => row(COM_PING, false, Some(Replied::Results), true),
            CommandKind::Prepare => row(COM_STMT_PREPARE, true, Some(Replied::Prepared), true),
            CommandKind::Execute => row(COM_STMT_EXECUTE, true, Some(Replied::Results), true),
            CommandKind::LongData => row(COM_STMT_SEND_LONG_DATA, false, None, false),
            CommandKind::Close => row(COM_STMT_CLOSE, false, None, false),
            CommandKind::ResetStmt => row(COM_STMT_RESET, false, Some(Replied::Results), true),
            CommandKind::Fetch => row(COM_STMT_FETCH, false, None, true),
            CommandKind::ResetConnection => row(
                COM_RESET_CONNECTION,
                false,
                Some(Replied::Results),
                true,
            ),
        }
    }
}

fn row(byte: u8, to_server: bool, reply: Option<Replied>, is_answered: bool) -> CommandRow
    ensures { result ≡ record { byte = byte; to_server = to_server; reply = reply; is_answered = is_answered } }
{
    CommandRow {
        byte,
        to_server,
        reply,
        is_answered,
    }
}
