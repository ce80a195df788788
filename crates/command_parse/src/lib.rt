//! The commands of a client.
#![tactic(auto)]

mod command;
mod command_byte;
mod fault;
mod kind;
mod parsing;
mod statement;
mod whole;

pub use command::Command;
pub use command_byte::{
    COM_FIELD_LIST, COM_INIT_DB, COM_PING, COM_QUERY, COM_QUIT, COM_RESET_CONNECTION,
    COM_STMT_CLOSE, COM_STMT_EXECUTE, COM_STMT_FETCH, COM_STMT_PREPARE, COM_STMT_RESET,
    COM_STMT_SEND_LONG_DATA,
};
pub use fault::CommandFault;
pub use kind::{CommandKind, CommandRow, Replied};
pub use parsing::parse;
pub use statement::{Known, has_no_reply, statement_of};
pub use whole::parse_whole;
