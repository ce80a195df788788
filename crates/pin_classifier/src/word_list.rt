// Lists of words that matter.
ghost use Rattle.std.specs.Prelude.{◌≡◌, option_copied};
ghost use Rattle.std.specs.List.{list_any};
ghost use Rattle.sql_tokens.specs.Words.{same_text};
ghost use Rattle.pin_classifier.specs.WordLists.{is_any, words_of};

use sql_tokens::is_one_of;

#[derive(Clone, Copy)]
pub(crate) enum WordList {
    // Functions that name the session's thread.
    ThreadFunctions,
    // Functions that read what an earlier statement left that no text needs to show.
    LastFunctions,
    // Functions whose arguments may have FROM.
    FromFunctions,
    // Functions that read the session's number, its insert id and what the last statement left.
    OwnFunctions,
    // Words by which a statement may read diagnostics.
    Diagnostics,
    // And by which it may read such a last value.
    LastValues,
    // What a SET statement may set that no reset takes back, or that changes how statements are read.
    Lasting,
    // Variables by which SET STATEMENT limits a statement, and does nothing else.
    Limits,
    // Words behind CREATE and ALTER with which only views and stored programs begin.
    Stored,
}

// MySQL Reference Manual, "Performance Schema Functions".
static THREAD_FUNCTIONS: [&[u8]; 2] = [b"PS_CURRENT_THREAD_ID", b"PS_THREAD_ID"];

// MariaDB, "LASTVAL", "WSREP_LAST_WRITTEN_GTID", "WSREP_LAST_SEEN_GTID".
static LAST_FUNCTIONS: [&[u8]; 3] = [
    b"LASTVAL",
    b"WSREP_LAST_WRITTEN_GTID",
    b"WSREP_LAST_SEEN_GTID",
];

// MySQL Reference Manual, "String Functions and Operators", "Date and Time Functions", "Window Function Descriptions".
static FROM_FUNCTIONS: [&[u8]; 6] = [
    b"EXTRACT",
    b"TRIM",
    b"SUBSTRING",
    b"SUBSTR",
    b"MID",
    b"NTH_VALUE",
];

// MySQL Reference Manual, "Information Functions".
static OWN_FUNCTIONS: [&[u8]; 4] = [
    b"CONNECTION_ID",
    b"LAST_INSERT_ID",
    b"ROW_COUNT",
    b"FOUND_ROWS",
];

// MySQL Reference Manual, "Information Functions", "SHOW WARNINGS Statement", "GET DIAGNOSTICS Statement".
static DIAGNOSTICS: [&[u8]; 7] = [
    b"ROW_COUNT",
    b"FOUND_ROWS",
    b"WARNINGS",
    b"ERRORS",
    b"DIAGNOSTICS",
    b"WARNING_COUNT",
    b"ERROR_COUNT",
];

// MariaDB, "LASTVAL", "PREVIOUS VALUE FOR", "last_gtid", "WSREP_LAST_WRITTEN_GTID", "WSREP_LAST_SEEN_GTID".
static LAST_VALUES: [&[u8]; 5] = [
    b"LASTVAL",
    b"PREVIOUS",
    b"last_gtid",
    b"WSREP_LAST_WRITTEN_GTID",
    b"WSREP_LAST_SEEN_GTID",
];

// A role, a resource group, an account, what SHOW PROFILES shows, and how statements are read (MySQL Reference Manual, "SET ROLE
// Statement", "SET RESOURCE GROUP Statement", "SHOW PROFILE Statement", "SET NAMES Statement", "SET CHARACTER SET Statement",
// "Server SQL Modes"; MariaDB, "SET SESSION AUTHORIZATION", "SET STATEMENT").
static LASTING: [&[u8]; 10] = [
    b"ROLE",
    b"RESOURCE",
    b"AUTHORIZATION",
    b"profiling",
    b"STATEMENT",
    b"NAMES",
    b"CHARACTER",
    b"CHARSET",
    b"sql_mode",
    b"character_set_client",
];

// MariaDB, "Server System Variables", "InnoDB System Variables".
static LIMITS: [&[u8]; 3] = [
    b"max_statement_time",
    b"lock_wait_timeout",
    b"innodb_lock_wait_timeout",
];

// MySQL Reference Manual, "CREATE PROCEDURE and CREATE FUNCTION Statements", "CREATE TRIGGER Statement", "CREATE VIEW Statement".
static STORED: [&[u8]; 8] = [
    b"VIEW",
    b"PROCEDURE",
    b"FUNCTION",
    b"AGGREGATE",
    b"TRIGGER",
    b"DEFINER",
    b"ALGORITHM",
    b"SQL",
];

// Whether a word is in a list, in any ASCII case.
pub(crate) fn lists(words: WordList, word: &[u8]) -> bool
    ensures { result ≡ list_any (same_text word.now) (words_of words) }
{
    match words {
        WordList::ThreadFunctions => is_one_of(word, &THREAD_FUNCTIONS),
        WordList::LastFunctions => is_one_of(word, &LAST_FUNCTIONS),
        WordList::FromFunctions => is_one_of(word, &FROM_FUNCTIONS),
        WordList::OwnFunctions => is_one_of(word, &OWN_FUNCTIONS),
        WordList::Diagnostics => is_one_of(word, &DIAGNOSTICS),
        WordList::LastValues => is_one_of(word, &LAST_VALUES),
        WordList::Lasting => is_one_of(word, &LASTING),
        WordList::Limits => is_one_of(word, &LIMITS),
        WordList::Stored => is_one_of(word, &STORED),
    }
}

// Whether a word that is there is in a list.
pub(crate) fn is_any(words: WordList, word: Option<&[u8]>) -> bool
    ensures { result ≡ is_any words (option_copied word.entry) }
{
    match word {
        Some(word) => lists(words, word),
        None => false,
    }
}
