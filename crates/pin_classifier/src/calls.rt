// The functions that a statement calls.
ghost use Rattle.std.specs.Prelude.{◌≡◌, [], option_copied};
ghost use Rattle.pin_classifier.specs.Functions.{begins_with, is_session_function, names_session_function};
ghost use Rattle.pin_classifier.specs.Passing.{with_call, calls_of};

use crate::word_list::{WordList, is_any};
use sql_tokens::{front, is_word, same_text};

fn begins_with(name: &[u8], prefix: &[u8]) -> bool
    ensures { result ≡ begins_with name.now prefix.now }
{
    same_text(front(name, prefix.len()), prefix)
}

// Locks of a session and of plugins (MySQL Reference Manual, "Locking Functions", "The Locking Service", "Version
// Tokens").
pub(crate) fn is_session_function(name: &[u8]) -> bool
    ensures { result ≡ is_session_function name.now }
{
    same_text(name, b"GET_LOCK")
        || begins_with(name, b"service_get_")
        || begins_with(name, b"version_tokens_lock_")
}

fn names_session_function(name: Option<&[u8]>) -> bool
    ensures { result ≡ names_session_function (option_copied name.entry) }
{
    match name {
        Some(name) => is_session_function(name),
        None => false,
    }
}

// Which of these functions are called.
#[derive(Clone, Copy)]
pub(crate) struct Calls {
    pub session_function: bool,
    pub thread_function: bool,
    pub last_function: bool,
    pub from_function: bool,
    pub connection_id: bool,
    pub last_insert_id: bool,
    pub row_count: bool,
    pub found_rows: bool,
}

impl Calls {
    pub(crate) fn new() -> Self
        ensures { result ≡ calls_of [] [] }
    {
        Calls {
            session_function: false,
            thread_function: false,
            last_function: false,
            from_function: false,
            connection_id: false,
            last_insert_id: false,
            row_count: false,
            found_rows: false,
        }
    }

    // Takes the name of a function that is called, where there is one.
    pub(crate) fn take(&mut self, name: Option<&[u8]>)
        ensures { self.new ≡ with_call self.old (option_copied name.entry) }
    {
        self.session_function |= names_session_function(name);
        self.thread_function |= is_any(WordList::ThreadFunctions, name);
        self.last_function |= is_any(WordList::LastFunctions, name);
        self.from_function |= is_any(WordList::FromFunctions, name);
        self.connection_id |= is_word(name, b"CONNECTION_ID");
        self.last_insert_id |= is_word(name, b"LAST_INSERT_ID");
        self.row_count |= is_word(name, b"ROW_COUNT");
        self.found_rows |= is_word(name, b"FOUND_ROWS");
    }
}
