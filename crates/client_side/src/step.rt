// What a client says next.
use handshake::HandFault;
use packet_frame::FrameFault;

/// Why the bytes of a client are none that may come.
#[derive(Clone, Copy, Debug)]
pub enum ClientFault {
    /// The response can't be read.
    Hand(HandFault),
    /// A packet can't be a part of the message that is due.
    Frame(FrameFault),
}

/// What a client says next. `first` is the sequence id of the first packet of the answer to it.
#[derive(Clone, Copy, Debug)]
pub enum ClientStep {
    /// Nothing that is whole.
    Nothing,
    /// Who it is.
    Login { first: u8 },
    /// A command. The ordinal counts the client's commands from 1.
    Message { ordinal: u64, first: u8 },
    /// Nothing that may come, and no more is heard of it.
    Refused { first: u8, fault: ClientFault },
}
