//! The payloads by which a client logs in to a server: the server's greeting, the client's response, and the server's
//! request to switch the login method.
#![tactic(auto)]

mod capability;
mod cursor;
mod fault;
mod greeting;
mod laws;
mod put;
mod response;
mod switch;

pub use capability::{
    CONNECT_ATTRS, CONNECT_WITH_DB, PLUGIN_AUTH, PLUGIN_AUTH_LENENC_CLIENT_DATA, PROTOCOL_41,
    SECURE_CONNECTION,
};
pub use fault::HandFault;
pub use greeting::{Greeting, read_greeting, write_greeting};
pub use laws::{one_grammar, written_again};
pub use response::{Response, read_response, write_response};
pub use switch::{Switch, read_switch, write_switch};
