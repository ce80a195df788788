// The commands of an administrator.
ghost use Rattle.admin_port.specs.Commands.{IsCommand};

/// QUIT, QUERY and PING (client/server protocol, "Command Phase").
const QUIT: u8 = 1;

const QUERY: u8 = 3;

const PING: u8 = 14;

/// What a message of an administrator is.
#[derive(Clone, Copy)]
pub enum AdminCommand<'a> {
    /// A statement.
    Query(&'a [u8]),
    /// It is answered OK.
    Ping,
    /// It isn't answered, and ends the connection.
    Quit,
    /// An empty message: 9109.
    Malformed,
    /// Any other: 1047.
    Unknown,
}

/// What the payload of a message is.
pub fn read_command(payload: &[u8]) -> AdminCommand<'_>
    ensures { IsCommand payload.now result }
{
    let [command, rest @ ..] = payload else {
        return AdminCommand::Malformed;
    };
    if *command == QUERY {
        AdminCommand::Query(rest)
    } else if *command == PING {
        AdminCommand::Ping
    } else if *command == QUIT {
        AdminCommand::Quit
    } else {
        AdminCommand::Unknown
    }
}
