// What is told of bytes that were read.

use link_state::Purpose;
use session_state::ReplyEnd;

/// What bytes on a link to a server tell whoever goes on behind them.
#[derive(Clone, Copy)]
pub enum Said {
    /// Nothing that asks for more.
    Nothing,
    /// The router is logged in.
    LoggedIn,
    /// The login failed. A server that sent no login is shunned.
    LoginFailed {
        shuns: bool,
    },
    /// What was asked for this purpose is answered, and the answer ended so; `behind` says that bytes stand behind it.
    Answered {
        purpose: Purpose,
        end: ReplyEnd,
        behind: bool,
    },
    /// From this place of the answer on no reply goes on; 0 where nobody asked for anything.
    Bad {
        place: u64,
    },
}
