// How far a client's login is.
use handshake::{HandFault, Response};

/// How far a client's login is (client/server protocol, "Connection Phase").
#[derive(Drop)]
pub enum Stage {
    /// The response to the greeting is due.
    Response,
    /// The response named another login method than mysql_native_password, and the bare answer of this one is due.
    Answer(Response),
    /// The client says who it is, and the answer to that begins with the packet of this id.
    Login { response: Response, first: u8 },
    /// The response can't be read, and the answer to that begins with the packet of this id.
    Refused { first: u8, fault: HandFault },
    /// The client is logged in, and commands come.
    Commands,
}
