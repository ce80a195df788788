// What a machine is told of a read.
ghost use Rattle.std.specs.Prelude.{◌≡◌};
ghost use Rattle.ready_loop.specs.Heard.{heard_of};
ghost use Rattle.mx_base.specs.Fields.{AreBytes};

use crate::Event;
use mx_base::LinkId;
use mx_wire::Got;

/// An event, and how many of the bytes that were read stand beside it.
#[derive(Clone, Copy)]
pub struct Heard {
    pub event: Event,
    pub length: usize,
}

/// What a machine is told of what a read answered: nothing, where nothing was there.
pub fn hear(link: LinkId, got: Got) -> Option<Heard>
    ensures { result ≡ heard_of link got }
{
    match got {
        Got::Got { n } => Some(Heard {
            event: Event::Got { link },
            length: n,
        }),
        Got::NotReady => None,
        Got::End => Some(Heard {
            event: Event::Ended { link },
            length: 0,
        }),
        Got::Failed => Some(Heard {
            event: Event::Failed { link },
            length: 0,
        }),
    }
}

/// Each item is a byte. Does nothing.
pub fn are_bytes(bytes: &[u8])
    ensures { AreBytes bytes.now }
{
    let _size = bytes.len();
}
