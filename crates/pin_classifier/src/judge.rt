// The class of a statement, whose first word is called its verb.
ghost use Rattle.std.specs.Prelude.{◌≡◌, IfOk, codes, option_copied};
ghost use Rattle.sql_tokens.specs.Words.{is_word};
ghost use Rattle.pin_classifier.specs.Classes.{begins_other, class_by_itself, class_of, ends_transaction_of, first, gives_id, hides_diagnostics, is_connection_id, is_deep, is_deep_inside, is_deep_start, is_global, is_next_transaction, is_other, is_tracked, is_unread_text, is_use, keeps_diagnostics, keeps_found, locking_of, may_last, names_connection, outlasts, reads_diagnostics, reads_found, reads_id, reads_last, refusal_of, second, sets_id, spares_variables, uses_table};
ghost use Rattle.pin_classifier.specs.Opened.{opened_text, opens};
ghost use Rattle.pin_classifier.specs.Passing.{seen_of};
ghost use Rattle.pin_classifier.specs.Shapes.{set_in, shape_of};
ghost use Rattle.pin_classifier.specs.Statement.{statement};

use crate::diagnostics::has_any;
use crate::judged::{behind_token, sets_limit};
use crate::marks::{Mark, has_blank_byte, stands};
use crate::opened::{are_readable, has_executed, spaced};
use crate::seen::Seen;
use crate::shape::{is_end, shape_of};
use crate::starts::{
    analyzes_other, begins_unknown, changes_schema, ends_transaction, explains, flushes_other,
    gives_rows, goes_back, is_savepoint, locks_other, locks_tables, makes_id, names_accounts,
    returns_rows, shows_connection, shows_diagnostics, starts_other, stores, subject,
    unlocks_tables, writes_tables,
};
use crate::word_list::WordList;
use crate::words::{first_word, is_ascii, is_there, next_word};
use crate::{Class, Locking, Refusal, Shape};
use mx_base::OutOfMemory;
use session_vars::SetShape;
use sql_tokens::is_word;
use std::alloc::Global;

fn is_global(shape: &Shape) -> bool
    ensures { result ≡ is_global (set_in shape.now) }
{
    matches!(shape, Shape::Set(SetShape::Global))
}

fn is_next_transaction(shape: &Shape) -> bool
    ensures { result ≡ is_next_transaction (set_in shape.now) }
{
    matches!(shape, Shape::Set(SetShape::NextTransaction))
}

fn is_other(shape: &Shape) -> bool
    ensures { result ≡ is_other (set_in shape.now) }
{
    matches!(shape, Shape::Set(SetShape::Other))
}

fn is_tracked(shape: &Shape) -> bool
    ensures { result ≡ is_tracked (set_in shape.now) }
{
    matches!(shape, Shape::Set(SetShape::Tracked(_)))
}

fn is_connection_id(shape: &Shape) -> bool
    ensures { result ≡ is_connection_id shape.now }
{
    matches!(shape, Shape::ConnectionId)
}

fn is_use(shape: &Shape) -> bool
    ensures { result ≡ is_use shape.now }
{
    matches!(shape, Shape::Use(_))
}

// What a statement does with table locks, by its first two words.
#[tactic(auto, unfolding(crate::specs::Classes::locking_of))]
fn locking_of(first: Option<&[u8]>, second: Option<&[u8]>) -> Locking
    ensures { result ≡ locking_of (option_copied first.entry) (option_copied second.entry) }
{
    if locks_tables(first, second) {
        Locking::Takes
    } else if unlocks_tables(first, second) {
        Locking::Frees
    } else {
        Locking::None
    }
}

// Whether a statement calls LAST_INSERT_ID with an argument.
#[tactic(auto, unfolding(crate::specs::Classes::gives_id))]
fn gives_id(text: &[u8], seen: &Seen) -> bool
    requires { seen.now ≡ seen_of text.now (statement text.now) }
    ensures { result ≡ gives_id text.now }
{
    seen.calls.last_insert_id && stands(text, Mark::GivenId)
}

// Whether a server may read a statement as another one.
#[tactic(auto, using(crate::proofs::Sets::shape_of_set), unfolding(crate::specs::Classes::is_unread_text))]
fn is_unread_text(text: &[u8], seen: &Seen, shape: &Shape) -> bool
    requires seen { seen.now ≡ seen_of text.now (statement text.now) }
    requires shape { shape.now ≡ shape_of text.now }
    ensures { result ≡ is_unread_text text.now }
{
    (seen.unread && !is_tracked(shape))
        || seen.quoted_call
        || (has_blank_byte(text) && stands(text, Mark::BlankInWord))
}

// Whether each `@` is part of an account, or stands in what isn't run yet.
#[tactic(auto, unfolding(crate::specs::Classes::spares_variables))]
fn spares_variables(text: &[u8], seen: &Seen, verb: Option<&[u8]>) -> bool
    requires verb { option_copied verb ≡ first text.now }
    requires seen { seen.now ≡ seen_of text.now (statement text.now) }
    ensures { result ≡ spares_variables text.now }
{
    let second = next_word(text, seen.opening.second);
    let third = next_word(text, seen.opening.third);
    let about = subject(second, third, next_word(text, seen.opening.fourth));
    names_accounts(verb, about) || (stores(verb, about) && !stands(text, Mark::Event))
}

// Whether something in it lives in a session, or can't be read as a server does.
#[tactic(auto, unfolding(crate::specs::Classes::is_deep_inside))]
fn is_deep_inside(text: &[u8], seen: &Seen, verb: Option<&[u8]>, unread: bool, gives: bool) -> bool
    requires verb { option_copied verb ≡ first text.now }
    requires seen { seen.now ≡ seen_of text.now (statement text.now) }
    requires unread { unread ≡ is_unread_text text.now }
    requires gives { gives ≡ gives_id text.now }
    ensures { result ≡ is_deep_inside text.now }
{
    unread
        || (seen.user_variable && !spares_variables(text, seen, verb))
        || seen.calls.session_function
        || seen.quoted_call
        || seen.variables.wide
        || (gives && !gives_rows(verb))
}

// BEGIN but for BEGIN, BEGIN WORK and a `;`.
#[tactic(auto, unfolding(crate::specs::Classes::begins_other))]
fn begins_other(text: &[u8], seen: &Seen, verb: Option<&[u8]>) -> bool
    requires verb { option_copied verb ≡ first text.now }
    requires seen { seen.now ≡ seen_of text.now (statement text.now) }
    ensures { result ≡ begins_other text.now }
{
    is_word(verb, b"BEGIN")
        && !is_word(next_word(text, seen.opening.second), b"WORK")
        && !is_end(text, seen.opening.second, seen.opening.third)
}

// Whether a statement that begins so may change its session in a way that isn't tracked.
#[tactic(auto, unfolding(crate::specs::Classes::is_deep_start, crate::specs::Classes::makes_temporary, crate::specs::Classes::ends_session))]
fn is_deep_start(text: &[u8], seen: &Seen, verb: Option<&[u8]>) -> bool
    requires verb { option_copied verb ≡ first text.now }
    requires seen { seen.now ≡ seen_of text.now (statement text.now) }
    ensures { result ≡ is_deep_start text.now }
{
    let second = next_word(text, seen.opening.second);
    let third = next_word(text, seen.opening.third);
    let fourth = next_word(text, seen.opening.fourth);
    (is_word(verb, b"CREATE") && seen.temporary)
        || changes_schema(verb, second, third, fourth)
        || (seen.release && ends_transaction(verb))
        || starts_other(verb, second)
        || begins_other(text, seen, verb)
        || analyzes_other(verb, second, third)
        || locks_other(verb, second)
        || flushes_other(verb, second)
        || begins_unknown(text, seen.opening.first)
}

// Whether a statement may change its session in a way that isn't tracked.
#[tactic(auto, using(crate::proofs::Sets::shape_of_set), unfolding(crate::specs::Classes::is_deep, crate::specs::Classes::uses_other))]
fn is_deep(
    text: &[u8],
    seen: &Seen,
    shape: &Shape,
    verb: Option<&[u8]>,
    unread: bool,
    gives: bool,
) -> bool
    requires verb { option_copied verb ≡ first text.now }
    requires seen { seen.now ≡ seen_of text.now (statement text.now) }
    requires unread { unread ≡ is_unread_text text.now }
    requires gives { gives ≡ gives_id text.now }
    requires shape { shape.now ≡ shape_of text.now }
    ensures { result ≡ is_deep text.now }
{
    is_deep_inside(text, seen, verb, unread, gives)
        || is_deep_start(text, seen, verb)
        || is_other(shape)
        || (is_word(verb, b"USE") && !is_use(shape))
}

// Whether no reset takes back what a deep statement may do.
#[tactic(auto, using(crate::proofs::Sets::shape_of_set), unfolding(crate::specs::Classes::may_last))]
fn may_last(text: &[u8], seen: &Seen, shape: &Shape, verb: Option<&[u8]>, unread: bool) -> bool
    requires verb { option_copied verb ≡ first text.now }
    requires seen { seen.now ≡ seen_of text.now (statement text.now) }
    requires shape { shape.now ≡ shape_of text.now }
    requires unread { unread ≡ is_unread_text text.now }
    ensures { result ≡ may_last text.now }
{
    unread
        || begins_unknown(text, seen.opening.first)
        || begins_other(text, seen, verb)
        || flushes_other(verb, next_word(text, seen.opening.second))
        || (is_other(shape) && stands(text, Mark::Lasting))
}

// Whether a statement reads the insert id.
#[tactic(auto, unfolding(crate::specs::Classes::reads_id))]
fn reads_id(text: &[u8], seen: &Seen) -> bool
    requires { seen.now ≡ seen_of text.now (statement text.now) }
    ensures { result ≡ reads_id text.now }
{
    seen.calls.last_insert_id || seen.variables.last_insert_id || seen.variables.identity
}

// Whether a statement sets the insert id where its reply doesn't show it.
#[tactic(auto, unfolding(crate::specs::Classes::sets_id))]
fn sets_id(text: &[u8], seen: &Seen, verb: Option<&[u8]>, gives: bool) -> bool
    requires verb { option_copied verb ≡ first text.now }
    requires seen { seen.now ≡ seen_of text.now (statement text.now) }
    requires gives { gives ≡ gives_id text.now }
    ensures { result ≡ sets_id text.now }
{
    (gives && gives_rows(verb)) || (returns_rows(verb) && seen.returning)
}

// Whether a statement has words of diagnostics and may be read as another one, or may run another one that reads them.
#[tactic(auto, unfolding(crate::specs::Classes::hides_diagnostics))]
fn hides_diagnostics(text: &[u8], unread: bool, lasting: bool) -> bool
    requires unread { unread ≡ is_unread_text text.now }
    requires lasting { lasting ≡ outlasts text.now }
    ensures { result ≡ hides_diagnostics text.now }
{
    (unread && has_any(WordList::Diagnostics, text)) || (lasting && stands(text, Mark::Diagnostic))
}

// Whether a statement reads what the statement before it left.
#[tactic(auto, unfolding(crate::specs::Classes::reads_diagnostics))]
fn reads_diagnostics(
    text: &[u8],
    seen: &Seen,
    verb: Option<&[u8]>,
    next: Option<&[u8]>,
    hides: bool,
) -> bool
    requires verb { option_copied verb ≡ first text.now }
    requires next { option_copied next ≡ second text.now }
    requires seen { seen.now ≡ seen_of text.now (statement text.now) }
    requires hides { hides ≡ hides_diagnostics text.now }
    ensures { result ≡ reads_diagnostics text.now }
{
    seen.calls.row_count
        || seen.calls.found_rows
        || shows_diagnostics(verb, next)
        || seen.variables.warning_count
        || seen.variables.error_count
        || seen.variables.wide
        || hides
}

// Whether a statement may read how many rows an earlier one found.
#[tactic(auto, unfolding(crate::specs::Classes::reads_found))]
fn reads_found(text: &[u8], seen: &Seen, hides: bool) -> bool
    requires seen { seen.now ≡ seen_of text.now (statement text.now) }
    requires hides { hides ≡ hides_diagnostics text.now }
    ensures { result ≡ reads_found text.now }
{
    seen.calls.found_rows || hides
}

// Whether a statement surely uses a table.
#[tactic(auto, unfolding(crate::specs::Classes::uses_table))]
fn uses_table(
    text: &[u8],
    seen: &Seen,
    verb: Option<&[u8]>,
    next: Option<&[u8]>,
    selects: bool,
) -> bool
    requires verb { option_copied verb ≡ first text.now }
    requires next { option_copied next ≡ second text.now }
    requires selects { selects ≡ is_word (first text.now) (codes "SELECT") }
    requires seen { seen.now ≡ seen_of text.now (statement text.now) }
    ensures { result ≡ uses_table text.now }
{
    (selects && seen.from && !seen.dual && !seen.calls.from_function) || writes_tables(verb, next)
}

// Whether an older count of found rows may stand behind a statement.
#[tactic(auto, unfolding(crate::specs::Classes::keeps_found))]
fn keeps_found(text: &[u8], seen: &Seen, selects: bool, unread: bool) -> bool
    requires selects { selects ≡ is_word (first text.now) (codes "SELECT") }
    requires seen { seen.now ≡ seen_of text.now (statement text.now) }
    requires unread { unread ≡ is_unread_text text.now }
    ensures { result ≡ keeps_found text.now }
{
    unread || !selects || seen.into
}

// Whether a statement ends a transaction, whatever is open.
#[tactic(auto, unfolding(crate::specs::Classes::ends_transaction_of))]
fn ends_transaction_of(
    text: &[u8],
    seen: &Seen,
    verb: Option<&[u8]>,
    next: Option<&[u8]>,
    unread: bool,
) -> bool
    requires verb { option_copied verb ≡ first text.now }
    requires next { option_copied next ≡ second text.now }
    requires seen { seen.now ≡ seen_of text.now (statement text.now) }
    requires unread { unread ≡ is_unread_text text.now }
    ensures { result ≡ ends_transaction_of text.now }
{
    ends_transaction(verb) && !unread && !goes_back(next, next_word(text, seen.opening.third))
}

// Whether a statement reads a last value.
#[tactic(auto, unfolding(crate::specs::Classes::reads_last))]
fn reads_last(text: &[u8], seen: &Seen, unread: bool) -> bool
    requires seen { seen.now ≡ seen_of text.now (statement text.now) }
    requires unread { unread ≡ is_unread_text text.now }
    ensures { result ≡ reads_last text.now }
{
    seen.calls.last_function
        || seen.variables.last_gtid
        || (seen.value && stands(text, Mark::PreviousValue))
        || (unread && has_any(WordList::LastValues, text))
}

// Whether a statement names a connection.
#[tactic(auto, unfolding(crate::specs::Classes::names_connection))]
fn names_connection(
    text: &[u8],
    seen: &Seen,
    shape: &Shape,
    verb: Option<&[u8]>,
    next: Option<&[u8]>,
) -> bool
    requires verb { option_copied verb ≡ first text.now }
    requires next { option_copied next ≡ second text.now }
    requires seen { seen.now ≡ seen_of text.now (statement text.now) }
    requires shape { shape.now ≡ shape_of text.now }
    ensures { result ≡ names_connection text.now }
{
    is_word(verb, b"KILL")
        || (seen.calls.connection_id && !is_connection_id(shape))
        || seen.calls.thread_function
        || seen.variables.pseudo_thread_id
        || shows_connection(verb, next)
        || (explains(verb) && stands(text, Mark::ForConnection))
}

// Why a statement is refused.
#[tactic(auto, using(crate::proofs::Sets::shape_of_set), unfolding(crate::specs::Classes::refusal_of))]
fn refusal_of(
    text: &[u8],
    seen: &Seen,
    shape: &Shape,
    verb: Option<&[u8]>,
    next: Option<&[u8]>,
    unread: bool,
) -> Option<Refusal>
    requires verb { option_copied verb ≡ first text.now }
    requires next { option_copied next ≡ second text.now }
    requires seen { seen.now ≡ seen_of text.now (statement text.now) }
    requires unread { unread ≡ is_unread_text text.now }
    requires shape { shape.now ≡ shape_of text.now }
    ensures { result ≡ refusal_of text.now }
{
    if is_global(shape) {
        Some(Refusal::SetsServer)
    } else if names_connection(text, seen, shape, verb, next) {
        Some(Refusal::NamesConnection)
    } else if reads_last(text, seen, unread) {
        Some(Refusal::ReadsLast)
    } else {
        None
    }
}

// The class of a statement, by what was seen of it.
#[tactic(auto, using(crate::proofs::Sets::shape_of_set), unfolding(crate::specs::Classes::keeps_diagnostics, crate::specs::Classes::marks_id, crate::specs::Classes::outlasts))]
fn class_by(text: &[u8], seen: &Seen, shape: Shape) -> Class
    requires seen { seen.now ≡ seen_of text.now (statement text.now) }
    requires shape { shape ≡ shape_of text.now }
    ensures { result ≡ class_by_itself text.now }
{
    let verb = first_word(text, seen.opening.first);
    let next = next_word(text, seen.opening.second);
    let selects = is_word(verb, b"SELECT");
    let unread = is_unread_text(text, seen, &shape);
    let gives = gives_id(text, seen);
    let deep = is_deep(text, seen, &shape, verb, unread, gives);
    let outlasts_reset = deep && may_last(text, seen, &shape, verb, unread);
    let hides = hides_diagnostics(text, unread, outlasts_reset);
    let reads_id = reads_id(text, seen);
    Class {
        deep,
        locks: locking_of(verb, next),
        next_tx: is_next_transaction(&shape),
        savepoint: is_savepoint(verb),
        ends_tx: ends_transaction_of(text, seen, verb, next, unread),
        outlasts_reset,
        marks_id: reads_id | deep | makes_id(verb),
        sets_id: sets_id(text, seen, verb, gives),
        reads_id,
        reads_diag: reads_diagnostics(text, seen, verb, next, hides),
        reads_found: reads_found(text, seen, hides),
        keeps_diag: unread || !uses_table(text, seen, verb, next, selects),
        keeps_found: keeps_found(text, seen, selects, unread),
        calc_rows: seen.calc_rows,
        refusal: refusal_of(text, seen, &shape, verb, next, unread),
        shape,
    }
}

// The class of a statement that has no front.
fn class_by_itself(alloc: Global, text: &[u8], seen: &Seen) -> Result<Class, OutOfMemory>
    requires { seen.now ≡ seen_of text.now (statement text.now) }
    ensures { IfOk result (λ class. class ≡ class_by_itself text.now) }
{
    let shape = shape_of(alloc, text, &seen.opening)?;
    Ok(class_by(text, seen, shape))
}

// Whether a statement has executed comments that are read, and all else can be read.
#[tactic(auto, unfolding(crate::specs::Opened::opens))]
fn opens(text: &[u8], seen: &Seen) -> bool
    requires { seen.now ≡ seen_of text.now (statement text.now) }
    ensures { result ≡ opens text.now }
{
    seen.unread && has_executed(text) && (is_ascii(text) && are_readable(text))
}

// The class of a statement that has no front, with such comments opened.
#[tactic(auto, unfolding(crate::specs::Opened::opened_text))]
fn class_opened(alloc: Global, text: &[u8], seen: &Seen) -> Result<Class, OutOfMemory>
    requires { seen.now ≡ seen_of text.now (statement text.now) }
    ensures { IfOk result (λ class. class ≡ class_by_itself (opened_text text.now)) }
{
    if !opens(text, seen) {
        return class_by_itself(alloc, text, seen);
    }
    let opened = spaced(alloc, text)?;
    class_by_itself(alloc, opened.as_slice(), &Seen::of(opened.as_slice()))
}

/// The class of a statement, whatever bytes it has. It is read by its tokens without comments; words are read in any ASCII
/// case, and a name in backticks counts as the word inside (MySQL Reference Manual, "Language Structure"). Behind SET STATEMENT
/// with a limit (MariaDB, "SET STATEMENT") it is the class of the statement that runs there, and with executed comments in which
/// nothing can hide that of the text as servers read it. One pass over the text, a second one over a SET statement and over what runs
/// behind a limit, and more where it has executed comments or words that matter by those beside them. Takes no memory but for the
/// values of a SET statement, the name behind USE, and such a text.
#[tactic(auto, unfolding(crate::specs::Classes::class_of, crate::specs::Judged::limited))]
pub fn classify(alloc: Global, text: &[u8]) -> Result<Class, OutOfMemory>
    ensures { IfOk result (λ class. class ≡ class_of text.now) }
{
    let seen = Seen::of(text);
    if !sets_limit(text, &seen.opening) {
        return class_opened(alloc, text, &seen);
    }
    let inner = behind_token(text, seen.opening.sixth);
    let inside = Seen::of(inner);
    if is_there(inner, inside.opening.first, b"SET") {
        class_opened(alloc, text, &seen)
    } else {
        class_by_itself(alloc, inner, &inside)
    }
}
