// What bytes on a link tell.
use link_state::Asking;
use session_state::{ReplyEnd, SessionName};

/// What bytes that were read on a link tell.
#[derive(Drop)]
pub enum News {
    /// Nothing that anyone waits for: a login goes on, or the answer to what the router asked for itself.
    Nothing,
    /// The router is logged in.
    LoggedIn,
    /// The login failed. A server that sent no login is shunned.
    LoginFailed {
        shuns: bool,
    },
    /// The whole piece is of the answer to the statement of this session.
    Part {
        name: SessionName,
    },
    /// The first `used` bytes of the piece end the answer to what was asked, which ended so, with this one number where the router asked
    /// for one.
    Whole {
        asking: Asking,
        end: ReplyEnd,
        number: Option<u64>,
        used: usize,
    },
    /// A STMT_RESET is answered.
    ResetDone,
    /// From this place of the answer on no reply goes on; 0 where nobody asked for anything.
    Bad {
        place: u64,
    },
}
