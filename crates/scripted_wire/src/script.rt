// What a client does.
use mx_base::Bytes;

/// What a client does: it logs in by mysql_native_password (client/server protocol, "Native Authentication") as this user with this
/// password, and then sends its commands, each once the reply to the last is whole. A command is a payload: the byte of the
/// command and what follows it (client/server protocol, "Command Phase").
#[derive(Drop)]
pub struct Script {
    pub user: Bytes,
    pub password: Bytes,
    pub commands: Vec<Bytes>,
}
