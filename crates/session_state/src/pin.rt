// What a session has that no other client may meet.
ghost use Rattle.std.specs.Prelude.{◌≡◌};
ghost use Rattle.session_state.specs.Classes.{changes_place, frees_locks, leaves_diag, leaves_found, takes_locks};
ghost use Rattle.session_state.specs.Pins.{deep_after, diag_after, is_pinned, locks_after, needs_reset, next_after, own_after, pin_after, pin_prepared, reads_own, rule_after, shows_none, uncommitted_after};
ghost use Rattle.session_state.specs.Endings.{shows_transaction, warns};

use crate::{EndKind, ReplyEnd};
use pin_classifier::{Class, Locking, Shape};
use session_vars::SetShape;

/// The reasons for which a session keeps its link. None stands at first.
#[derive(Clone, Copy)]
pub struct Pin {
    /// It may have state that isn't tracked.
    pub deep: bool,
    /// It may hold table locks.
    pub locks: bool,
    /// The characteristics of the next transaction are set.
    pub next_tx: bool,
    /// The last reply that has status flags showed a transaction.
    pub tx: bool,
    /// The last reply that counts was an ERR, so that nobody knows whether a transaction is open.
    pub after_err: bool,
    /// Autocommit is off, and a statement ran that may have taken metadata locks.
    pub uncommitted: bool,
    /// There are diagnostics to read.
    pub diag: bool,
    /// What warnings and counts of changed rows its link has are of this session's statements.
    pub own_diag: bool,
    /// What FOUND_ROWS() answers on its link is of this session's statements.
    pub own_found: bool,
    /// A rule forbids that the link is shared: it may have state that no text shows.
    pub rule: bool,
}

fn takes_locks(class: &Class, end: &ReplyEnd) -> bool
    ensures { result ≡ takes_locks class.now end.now }
{
    class.locks == Locking::Takes && !end.is_err()
}

fn frees_locks(class: &Class, end: &ReplyEnd) -> bool
    ensures { result ≡ frees_locks class.now end.now }
{
    class.locks == Locking::Frees && end.is_ok()
}

fn locks_after(locks: bool, class: &Class, end: &ReplyEnd) -> bool
    ensures { result ≡ locks_after class.now end.now locks }
{
    takes_locks(class, end) || (!frees_locks(class, end) && locks)
}

fn shows_none(end: &ReplyEnd) -> bool
    ensures { result ≡ shows_none (shows_transaction end.now) }
{
    match end.shows_transaction() {
        None => false,
        Some(shown) => !shown,
    }
}

fn next_after(pin: Pin, class: &Class, end: &ReplyEnd) -> bool
    ensures { result ≡ next_after class.now end.now pin }
{
    if class.next_tx && end.is_ok() {
        return true;
    }
    let over = pin.tx && shows_none(end) && !class.next_tx;
    !over && pin.next_tx
}

fn deep_after(pin: Pin, class: &Class, end: &ReplyEnd) -> bool
    ensures { result ≡ deep_after class.now end.now pin }
{
    pin.deep || class.deep || (class.savepoint && end.shows_neither())
}

fn changes_place(class: &Class) -> bool
    ensures { result ≡ changes_place class.now }
{
    match &class.shape {
        Shape::Use(_) => true,
        Shape::Set(SetShape::Tracked(_)) => true,
        _ => false,
    }
}

fn uncommitted_after(pin: Pin, class: &Class, end: &ReplyEnd) -> bool
    ensures { result ≡ uncommitted_after class.now end.now pin }
{
    let Some(on) = end.shows_autocommit() else {
        return pin.uncommitted;
    };
    if on || (class.ends_tx && end.is_ok()) {
        return false;
    }
    !changes_place(class) || pin.uncommitted || pin.after_err
}

fn diag_after(pin: Pin, class: &Class, end: &ReplyEnd) -> bool
    ensures { result ≡ diag_after class.now end.now pin }
{
    end.warns() || class.calc_rows || (class.reads_diag && pin.diag)
}

fn leaves_diag(class: &Class, end: &ReplyEnd) -> bool
    ensures { result ≡ leaves_diag class.now end.now }
{
    !class.keeps_diag || (!class.reads_diag && end.warns())
}

fn leaves_found(class: &Class, end: &ReplyEnd) -> bool
    ensures { result ≡ leaves_found class.now end.now }
{
    !class.keeps_found && !end.is_err()
}

fn own_after(leaves: bool, own: bool, pin: Pin) -> bool
    ensures { result ≡ own_after leaves own pin }
{
    leaves || (is_pinned(pin) && own)
}

fn pin_prepared(pin: Pin, class: &Class, end: &ReplyEnd) -> Pin
    ensures { result ≡ pin_prepared class.now end.now pin }
{
    Pin {
        diag: diag_after(pin, class, end),
        own_diag: own_after(end.warns(), pin.own_diag, pin),
        own_found: own_after(false, pin.own_found, pin),
        ..pin
    }
}

fn rule_after(rule: bool, multiplex: Option<bool>) -> bool
    ensures { result ≡ rule_after multiplex rule }
{
    match multiplex {
        None => rule,
        Some(shared) => !shared,
    }
}

/// The reasons after a reply to a statement of this class. `multiplex` is the word of the rules on sharing the link,
/// where they have one. An answer to a STMT_PREPARE, of the class of its text, brings and takes nothing but
/// diagnostics, unless it is an ERR. Takes no memory.
pub fn pin_after(pin: Pin, class: &Class, multiplex: Option<bool>, end: &ReplyEnd) -> Pin
    ensures { result ≡ pin_after class.now multiplex end.now pin }
{
    if end.kind == EndKind::Prepared {
        return pin_prepared(pin, class, end);
    }
    Pin {
        deep: deep_after(pin, class, end),
        locks: locks_after(pin.locks, class, end),
        next_tx: next_after(pin, class, end),
        tx: end.shows_transaction().unwrap_or(pin.tx),
        after_err: end.is_err(),
        uncommitted: uncommitted_after(pin, class, end),
        diag: diag_after(pin, class, end),
        own_diag: own_after(leaves_diag(class, end), pin.own_diag, pin),
        own_found: own_after(leaves_found(class, end), pin.own_found, pin),
        rule: rule_after(pin.rule, multiplex),
    }
}

/// Whether only a reset makes the session another client's. Takes no memory.
pub fn needs_reset(pin: Pin) -> bool
    ensures { result ≡ needs_reset pin }
{
    pin.tx || pin.after_err || pin.locks || pin.next_tx || pin.deep || pin.uncommitted || pin.rule
}

/// Whether a reason stands. Takes no memory.
pub fn is_pinned(pin: Pin) -> bool
    ensures { result ≡ is_pinned pin }
{
    needs_reset(pin) || pin.diag
}

/// Whether what a statement of this class reads of earlier ones, by SHOW WARNINGS, ROW_COUNT(), FOUND_ROWS() and their
/// like, was left by its own session on the link that it keeps. Else it would read another client's, and is refused.
/// Takes no memory.
pub fn reads_own(pin: Pin, class: &Class) -> bool
    ensures { result ≡ reads_own class.now pin }
{
    let pinned = is_pinned(pin);
    (!class.reads_diag || (pinned && pin.own_diag))
        && (!class.reads_found || (pinned && pin.own_found))
}
