// What is done next to the tables.

use link_state::{Purpose, Wish};
use mx_base::{ClientNo, LinkId};
use session_state::SessionName;

/// One thing that is done to the tables by choice alone: nobody is told anything by it.
#[derive(Drop)]
pub enum Deed {
    /// A link is readied for a client.
    Ready {
        link: LinkId,
        client: ClientNo,
    },
    /// It is readied for this client no more.
    Unready {
        link: LinkId,
        client: ClientNo,
    },
    /// What stands next on a link is taken back.
    TakeBack {
        link: LinkId,
    },
    /// The statement of this session is to be written there next.
    BeginText {
        link: LinkId,
        name: SessionName,
    },
    /// The execute of this session is.
    BeginRun {
        link: LinkId,
        name: SessionName,
    },
    /// The preparation of its text is.
    BeginPrep {
        link: LinkId,
        name: SessionName,
    },
    /// A step is.
    BeginStep {
        link: LinkId,
        purpose: Purpose,
        wish: Wish,
    },
    /// The question for the insert id of this session is.
    BeginCapture {
        link: LinkId,
        name: SessionName,
    },
    /// The end of this session is.
    BeginEnd {
        link: LinkId,
        name: SessionName,
    },
    /// A QUIT is.
    BeginQuit {
        link: LinkId,
    },
}
