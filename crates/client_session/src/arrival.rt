// How long a client may take for its login.
ghost use Rattle.std.specs.Prelude.{◌≡◌};
ghost use Rattle.client_session.specs.Arrivals.{login_end};

/// How long a client may take for its login, in milliseconds.
const LOGIN_MS: u64 = 10_000;

/// The moment, in milliseconds, at which a client that came at this one has no more time for its login: ten seconds later, but the last
/// moment there is where that would be past it.
pub fn login_end(at: u64) -> u64
    ensures { result ≡ login_end at }
{
    if at < u64::MAX - LOGIN_MS {
        at + LOGIN_MS
    } else {
        u64::MAX
    }
}
