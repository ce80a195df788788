// How statements begin.
ghost use Rattle.std.specs.Prelude.{◌≡◌, option_copied};
ghost use Rattle.pin_classifier.specs.Starts.{is_known, begins_unknown, analyzes_other, changes_schema, explains, flushes_other, gives_rows, goes_back, names_schema, returns_rows, shows_connection, starts_other, writes_tables, names_accounts, names_tables, defines, stores, subject, locks_tables, unlocks_tables, locks_other, ends_transaction, is_savepoint, makes_id, shows_diagnostics};

use crate::word_list::{WordList, is_any};
use crate::words::opening_word;
use sql_tokens::{Token, is_one_of, is_word};

// The words that begin the statements whose effect on a session is known, mostly the likelier ones first.
static KNOWN_WORDS: [&[u8]; 40] = [
    // MySQL Reference Manual, "Data Manipulation Statements".
    b"SELECT",
    b"INSERT",
    b"REPLACE",
    b"UPDATE",
    b"DELETE",
    b"WITH",
    b"VALUES",
    b"TABLE",
    b"DO",
    // "Transactional and Locking Statements".
    b"BEGIN",
    b"START",
    b"COMMIT",
    b"ROLLBACK",
    b"SAVEPOINT",
    b"RELEASE",
    b"LOCK",
    b"UNLOCK",
    // "SET Statements", "SHOW Statements", "Utility Statements", "GET DIAGNOSTICS Statement" and "KILL Statement".
    b"SET",
    b"SHOW",
    b"DESCRIBE",
    b"DESC",
    b"EXPLAIN",
    b"USE",
    b"GET",
    b"KILL",
    // "Data Definition Statements".
    b"CREATE",
    b"ALTER",
    b"DROP",
    b"TRUNCATE",
    b"RENAME",
    // "Table Maintenance Statements" and "Account Management Statements".
    b"ANALYZE",
    b"OPTIMIZE",
    b"CHECK",
    b"REPAIR",
    b"GRANT",
    b"REVOKE",
    // "FLUSH Statement", "CHECKSUM TABLE Statement", "HELP Statement" and "SIGNAL Statement".
    b"FLUSH",
    b"CHECKSUM",
    b"HELP",
    b"SIGNAL",
];

fn is_known(word: Option<&[u8]>) -> bool
    ensures { result ≡ is_known (option_copied word.entry) }
{
    match word {
        Some(word) => is_one_of(word, &KNOWN_WORDS),
        None => false,
    }
}

// Whether the first token of a statement begins none of which the effect on a session is known.
pub(crate) fn begins_unknown(text: &[u8], first: Option<Token>) -> bool
    ensures { result ≡ begins_unknown text.now first }
{
    match first {
        Some(token) => !is_known(opening_word(text, &token)),
        None => false,
    }
}

#[tactic(auto, unfolding(crate::specs::Starts::names_schema))]
fn names_schema(word: Option<&[u8]>) -> bool
    ensures { result ≡ names_schema (option_copied word.entry) }
{
    is_word(word, b"DATABASE") || is_word(word, b"SCHEMA")
}

// DROP, ALTER or CREATE OR REPLACE with DATABASE or SCHEMA.
#[tactic(auto, unfolding(crate::specs::Starts::changes_schema))]
pub(crate) fn changes_schema(
    first: Option<&[u8]>,
    second: Option<&[u8]>,
    third: Option<&[u8]>,
    fourth: Option<&[u8]>,
) -> bool
    ensures { result ≡ changes_schema (option_copied first.entry) (option_copied second.entry) (option_copied third.entry) (option_copied fourth.entry) }
{
    ((is_word(first, b"DROP") || is_word(first, b"ALTER")) && names_schema(second))
        || (is_word(first, b"CREATE")
            && is_word(second, b"OR")
            && is_word(third, b"REPLACE")
            && names_schema(fourth))
}

// ANALYZE but for ANALYZE TABLE, with NO_WRITE_TO_BINLOG or LOCAL between them or without.
#[tactic(auto, unfolding(crate::specs::Starts::analyzes_other))]
pub(crate) fn analyzes_other(
    first: Option<&[u8]>,
    second: Option<&[u8]>,
    third: Option<&[u8]>,
) -> bool
    ensures { result ≡ analyzes_other (option_copied first.entry) (option_copied second.entry) (option_copied third.entry) }
{
    is_word(first, b"ANALYZE")
        && !(names_tables(second)
            || ((is_word(second, b"NO_WRITE_TO_BINLOG") || is_word(second, b"LOCAL"))
                && names_tables(third)))
}

// FLUSH but for FLUSH PRIVILEGES.
#[tactic(auto, unfolding(crate::specs::Starts::flushes_other))]
pub(crate) fn flushes_other(first: Option<&[u8]>, second: Option<&[u8]>) -> bool
    ensures { result ≡ flushes_other (option_copied first.entry) (option_copied second.entry) }
{
    is_word(first, b"FLUSH") && !is_word(second, b"PRIVILEGES")
}

// EXPLAIN, DESCRIBE, DESC.
#[tactic(auto, unfolding(crate::specs::Starts::explains))]
pub(crate) fn explains(first: Option<&[u8]>) -> bool
    ensures { result ≡ explains (option_copied first.entry) }
{
    is_word(first, b"EXPLAIN") || is_word(first, b"DESCRIBE") || is_word(first, b"DESC")
}

// Statements that may give the insert id by LAST_INSERT_ID with an argument and go on sharing.
#[tactic(auto, unfolding(crate::specs::Starts::gives_rows))]
pub(crate) fn gives_rows(first: Option<&[u8]>) -> bool
    ensures { result ≡ gives_rows (option_copied first.entry) }
{
    is_word(first, b"INSERT") || is_word(first, b"REPLACE") || is_word(first, b"UPDATE")
}

// Those that may end in RETURNING and so show no insert id.
#[tactic(auto, unfolding(crate::specs::Starts::returns_rows))]
pub(crate) fn returns_rows(first: Option<&[u8]>) -> bool
    ensures { result ≡ returns_rows (option_copied first.entry) }
{
    is_word(first, b"INSERT") || is_word(first, b"REPLACE")
}

// Statements that use a table by how they begin.
#[tactic(auto, unfolding(crate::specs::Starts::writes_tables))]
pub(crate) fn writes_tables(first: Option<&[u8]>, second: Option<&[u8]>) -> bool
    ensures { result ≡ writes_tables (option_copied first.entry) (option_copied second.entry) }
{
    is_word(first, b"INSERT")
        || is_word(first, b"UPDATE")
        || is_word(first, b"DELETE")
        || is_word(first, b"REPLACE")
        || is_word(first, b"TRUNCATE")
        || (is_word(second, b"TABLE")
            && (is_word(first, b"CREATE") || is_word(first, b"ALTER") || is_word(first, b"DROP")))
}

// SHOW EXPLAIN and SHOW ANALYZE.
#[tactic(auto, unfolding(crate::specs::Starts::shows_connection))]
pub(crate) fn shows_connection(first: Option<&[u8]>, second: Option<&[u8]>) -> bool
    ensures { result ≡ shows_connection (option_copied first.entry) (option_copied second.entry) }
{
    is_word(first, b"SHOW") && (is_word(second, b"EXPLAIN") || is_word(second, b"ANALYZE"))
}

// ROLLBACK TO, and ROLLBACK WORK TO.
#[tactic(auto, unfolding(crate::specs::Starts::goes_back))]
pub(crate) fn goes_back(second: Option<&[u8]>, third: Option<&[u8]>) -> bool
    ensures { result ≡ goes_back (option_copied second.entry) (option_copied third.entry) }
{
    is_word(second, b"TO") || is_word(third, b"TO")
}

// START but for START TRANSACTION.
#[tactic(auto, unfolding(crate::specs::Starts::starts_other))]
pub(crate) fn starts_other(first: Option<&[u8]>, second: Option<&[u8]>) -> bool
    ensures { result ≡ starts_other (option_copied first.entry) (option_copied second.entry) }
{
    is_word(first, b"START") && !is_word(second, b"TRANSACTION")
}

#[tactic(auto, unfolding(crate::specs::Starts::names_tables))]
fn names_tables(second: Option<&[u8]>) -> bool
    ensures { result ≡ names_tables (option_copied second.entry) }
{
    is_word(second, b"TABLE") || is_word(second, b"TABLES")
}

// LOCK TABLES, LOCK TABLE.
#[tactic(auto, unfolding(crate::specs::Starts::locks_tables))]
pub(crate) fn locks_tables(first: Option<&[u8]>, second: Option<&[u8]>) -> bool
    ensures { result ≡ locks_tables (option_copied first.entry) (option_copied second.entry) }
{
    is_word(first, b"LOCK") && names_tables(second)
}

// UNLOCK TABLES, UNLOCK TABLE.
#[tactic(auto, unfolding(crate::specs::Starts::unlocks_tables))]
pub(crate) fn unlocks_tables(first: Option<&[u8]>, second: Option<&[u8]>) -> bool
    ensures { result ≡ unlocks_tables (option_copied first.entry) (option_copied second.entry) }
{
    is_word(first, b"UNLOCK") && names_tables(second)
}

// LOCK and UNLOCK but for TABLE and TABLES.
#[tactic(auto, unfolding(crate::specs::Starts::locks_other))]
pub(crate) fn locks_other(first: Option<&[u8]>, second: Option<&[u8]>) -> bool
    ensures { result ≡ locks_other (option_copied first.entry) (option_copied second.entry) }
{
    (is_word(first, b"LOCK") || is_word(first, b"UNLOCK")) && !names_tables(second)
}

// COMMIT, ROLLBACK.
#[tactic(auto, unfolding(crate::specs::Starts::ends_transaction))]
pub(crate) fn ends_transaction(first: Option<&[u8]>) -> bool
    ensures { result ≡ ends_transaction (option_copied first.entry) }
{
    is_word(first, b"COMMIT") || is_word(first, b"ROLLBACK")
}

// SAVEPOINT, RELEASE SAVEPOINT.
#[tactic(auto, unfolding(crate::specs::Starts::is_savepoint))]
pub(crate) fn is_savepoint(first: Option<&[u8]>) -> bool
    ensures { result ≡ is_savepoint (option_copied first.entry) }
{
    is_word(first, b"SAVEPOINT") || is_word(first, b"RELEASE")
}

// Statements that may generate an insert id.
#[tactic(auto, unfolding(crate::specs::Starts::makes_id))]
pub(crate) fn makes_id(first: Option<&[u8]>) -> bool
    ensures { result ≡ makes_id (option_copied first.entry) }
{
    is_word(first, b"INSERT") || is_word(first, b"REPLACE") || is_word(first, b"CREATE")
}

// SHOW WARNINGS, SHOW ERRORS, SHOW COUNT, GET DIAGNOSTICS, GET CURRENT.
#[tactic(auto, unfolding(crate::specs::Starts::shows_diagnostics))]
pub(crate) fn shows_diagnostics(first: Option<&[u8]>, second: Option<&[u8]>) -> bool
    ensures { result ≡ shows_diagnostics (option_copied first.entry) (option_copied second.entry) }
{
    (is_word(first, b"SHOW")
        && (is_word(second, b"WARNINGS")
            || is_word(second, b"ERRORS")
            || is_word(second, b"COUNT")))
        || (is_word(first, b"GET")
            && (is_word(second, b"DIAGNOSTICS") || is_word(second, b"CURRENT")))
}

// What CREATE, ALTER, DROP, RENAME and SHOW are about: the word behind them, or behind OR REPLACE.
pub(crate) fn subject<'a>(
    second: Option<&'a [u8]>,
    third: Option<&'a [u8]>,
    fourth: Option<&'a [u8]>,
) -> Option<&'a [u8]>
    ensures { option_copied result ≡ subject (option_copied second.entry) (option_copied third.entry) (option_copied fourth.entry) }
{
    if is_word(second, b"OR") && is_word(third, b"REPLACE") {
        fourth
    } else {
        second
    }
}

// CREATE, ALTER, DROP, RENAME.
#[tactic(auto, unfolding(crate::specs::Starts::defines))]
fn defines(first: Option<&[u8]>) -> bool
    ensures { result ≡ defines (option_copied first.entry) }
{
    is_word(first, b"CREATE")
        || is_word(first, b"ALTER")
        || is_word(first, b"DROP")
        || is_word(first, b"RENAME")
}

// Statements of accounts and rights.
#[tactic(auto, unfolding(crate::specs::Starts::names_accounts))]
pub(crate) fn names_accounts(first: Option<&[u8]>, about: Option<&[u8]>) -> bool
    ensures { result ≡ names_accounts (option_copied first.entry) (option_copied about.entry) }
{
    is_word(first, b"GRANT")
        || is_word(first, b"REVOKE")
        || (defines(first) && (is_word(about, b"USER") || is_word(about, b"ROLE")))
        || (is_word(first, b"SHOW") && (is_word(about, b"GRANTS") || is_word(about, b"CREATE")))
}

// Those that define a view or a stored program.
#[tactic(auto, unfolding(crate::specs::Starts::stores))]
pub(crate) fn stores(first: Option<&[u8]>, about: Option<&[u8]>) -> bool
    ensures { result ≡ stores (option_copied first.entry) (option_copied about.entry) }
{
    defines(first) && is_any(WordList::Stored, about)
}
