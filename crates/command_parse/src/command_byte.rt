// The first byte of a command (client/server protocol, "Command Phase").

/// Ends the session (client/server protocol, "COM_QUIT").
pub const COM_QUIT: u8 = 0x01;
/// Changes the schema (client/server protocol, "COM_INIT_DB").
pub const COM_INIT_DB: u8 = 0x02;
/// Runs a statement that is given as text (client/server protocol, "COM_QUERY").
pub const COM_QUERY: u8 = 0x03;
/// Asks for a table's columns (client/server protocol, "COM_FIELD_LIST").
pub const COM_FIELD_LIST: u8 = 0x04;
/// Asks whether the server is alive (client/server protocol, "COM_PING").
pub const COM_PING: u8 = 0x0E;
/// Prepares a statement (client/server protocol, "COM_STMT_PREPARE").
pub const COM_STMT_PREPARE: u8 = 0x16;
/// Runs a prepared statement (client/server protocol, "COM_STMT_EXECUTE").
pub const COM_STMT_EXECUTE: u8 = 0x17;
/// Sends a part of a parameter (client/server protocol, "COM_STMT_SEND_LONG_DATA").
pub const COM_STMT_SEND_LONG_DATA: u8 = 0x18;
/// Gives a prepared statement up (client/server protocol, "COM_STMT_CLOSE").
pub const COM_STMT_CLOSE: u8 = 0x19;
/// Forgets what was sent of a statement's parameters (client/server protocol, "COM_STMT_RESET").
pub const COM_STMT_RESET: u8 = 0x1A;
/// Fetches rows of a statement's cursor (client/server protocol, "COM_STMT_FETCH").
pub const COM_STMT_FETCH: u8 = 0x1C;
/// Begins the session anew (client/server protocol, "COM_RESET_CONNECTION").
pub const COM_RESET_CONNECTION: u8 = 0x1F;
