// A command of a client.

/// A command of a client, whose texts lie in its payload (client/server protocol, "Command Phase"). A statement's
/// number is the one that the router told the client.
#[derive(Clone, Copy)]
pub enum Command<'a> {
    /// Ends the session ("COM_QUIT").
    Quit,
    /// Changes the schema ("COM_INIT_DB").
    InitDb {
        schema: &'a [u8],
    },
    /// Runs a statement ("COM_QUERY").
    Query {
        text: &'a [u8],
    },
    /// Asks for a table's columns; the table's name, a NUL and a pattern ("COM_FIELD_LIST").
    FieldList {
        rest: &'a [u8],
    },
    /// Asks whether the server is alive ("COM_PING").
    Ping,
    /// Prepares a statement ("COM_STMT_PREPARE").
    Prepare {
        text: &'a [u8],
    },
    /// Runs a prepared statement ("COM_STMT_EXECUTE"): the types of its parameters, of two bytes each, where the client
    /// sends them anew; a bit for each parameter that is NULL; and the values of the others.
    Execute {
        id: u32,
        types: Option<&'a [u8]>,
        nulls: &'a [u8],
        values: &'a [u8],
    },
    /// Sends a part of a parameter, counted from 0 ("COM_STMT_SEND_LONG_DATA").
    LongData {
        id: u32,
        parameter: u16,
        bytes: &'a [u8],
    },
    /// Gives a prepared statement up ("COM_STMT_CLOSE").
    Close {
        id: u32,
    },
    /// Forgets what was sent of a statement's parameters ("COM_STMT_RESET").
    ResetStmt {
        id: u32,
    },
    /// Fetches rows of a statement's cursor ("COM_STMT_FETCH").
    Fetch {
        id: u32,
    },
    /// Begins the session anew ("COM_RESET_CONNECTION").
    ResetConnection,
    /// A command of this byte, which the router doesn't take.
    Refused(u8),
}
