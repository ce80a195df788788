// The forms of statements.
ghost use Rattle.std.specs.Prelude.{◌≡◌, IfOk, drop};
ghost use Rattle.mem_rule.specs.Forms.{taken_as, first_fit, fits, fixed_if, form_of, is_single_quoted, is_word_piece, number_as, pattern_of, symbol_as, value_if};

use mem_rule::{Captured, Form};
use mx_base::{Bytes, Items, OutOfMemory, first_piece};
use sql_tokens::{Token, TokenKind, Tokens, bytes_of, inside, says};
use std::alloc::Global;

const ALL: [Form; 21] = [
    Form::CreateTable,
    Form::CreateTemporary,
    Form::InsertAt,
    Form::Insert,
    Form::Select,
    Form::Count,
    Form::Update,
    Form::Delete,
    Form::Begin,
    Form::Commit,
    Form::Rollback,
    Form::Setting,
    Form::SetVariable,
    Form::Variable,
    Form::SetId,
    Form::Id,
    Form::Lock,
    Form::LockTables,
    Form::UnlockTables,
    Form::Warnings,
    Form::Do,
];

// The tokens of a form, with a blank between them. `<n>` stands for a number, `<x>` for a text in `'`, `<a>` for a user
// variable and `<s>` for a system variable.
fn pattern(form: Form) -> &'static [u8]
    ensures { result.now ≡ pattern_of form }
{
    match form {
        Form::CreateTable => b"CREATE TABLE t",
        Form::CreateTemporary => b"CREATE TEMPORARY TABLE t",
        Form::InsertAt => b"INSERT INTO t ( id , v ) VALUES ( <n> , <x> )",
        Form::Insert => b"INSERT INTO t ( v ) VALUES ( <x> )",
        Form::Select => b"SELECT v FROM t WHERE id = <n>",
        Form::Count => b"SELECT COUNT ( * ) FROM t",
        Form::Update => b"UPDATE t SET v = <x> WHERE id = <n>",
        Form::Delete => b"DELETE FROM t WHERE id = <n>",
        Form::Begin => b"BEGIN",
        Form::Commit => b"COMMIT",
        Form::Rollback => b"ROLLBACK",
        Form::Setting => b"SELECT <s>",
        Form::SetVariable => b"SET <a> = <n>",
        Form::Variable => b"SELECT <a>",
        Form::SetId => b"SET SESSION last_insert_id = <n>",
        Form::Id => b"SELECT LAST_INSERT_ID ( )",
        Form::Lock => b"SELECT GET_LOCK ( <x> , 0 )",
        Form::LockTables => b"LOCK TABLES t WRITE",
        Form::UnlockTables => b"UNLOCK TABLES",
        Form::Warnings => b"SHOW WARNINGS",
        Form::Do => b"DO <n>",
    }
}

/// The values of a statement in order, None where a `?` stands.
pub type Values = Items<Option<Bytes>>;

fn value(alloc: Global, fits: bool, bytes: &[u8]) -> Result<Captured, OutOfMemory>
    ensures { IfOk result (λ got. got ≡ value_if fits bytes.now) }
{
    if fits {
        Ok(Captured::Value(Some(Bytes::from_slice(alloc, bytes)?)))
    } else {
        Ok(Captured::Differs)
    }
}

fn fixed(fits: bool) -> Captured
    ensures { result ≡ fixed_if fits }
{
    if fits {
        Captured::Fixed
    } else {
        Captured::Differs
    }
}

// What one byte is where this piece of a form stands.
fn symbol(piece: &[u8], bytes: &[u8]) -> Captured
    ensures { result ≡ symbol_as piece.now bytes.now }
{
    if bytes == b"?".as_slice() && (piece == b"<n>".as_slice() || piece == b"<x>".as_slice()) {
        Captured::Value(None)
    } else {
        fixed(piece.len() == 1 && bytes == piece)
    }
}

// What a number is where this piece of a form stands.
fn number(alloc: Global, piece: &[u8], bytes: &[u8]) -> Result<Captured, OutOfMemory>
    ensures { IfOk result (λ got. got ≡ number_as piece.now bytes.now) }
{
    if piece == b"<n>".as_slice() {
        Ok(Captured::Value(Some(Bytes::from_slice(alloc, bytes)?)))
    } else {
        Ok(fixed(piece == b"0".as_slice() && bytes == piece))
    }
}

// Whether these bytes stand between `'`.
fn is_single_quoted(bytes: &[u8]) -> bool
    ensures { result ≡ is_single_quoted bytes.now }
{
    matches!(bytes.first(), Some(b'\''))
}

// The bytes without so many at the front.
fn without(bytes: &[u8], count: usize) -> &[u8]
    ensures { result.now ≡ drop count bytes.now }
{
    &bytes[count.min(bytes.len())..]
}

// Whether a piece of a form is a word.
fn is_word_piece(piece: &[u8]) -> bool
    ensures { result ≡ is_word_piece piece.now }
{
    match piece.first() {
        None => false,
        Some(first) => *first >= b'A',
    }
}

// What a token is where this piece of a form stands.
fn taken_as(
    alloc: Global,
    text: &[u8],
    piece: &[u8],
    token: &Token,
) -> Result<Captured, OutOfMemory>
    ensures { IfOk result (λ got. got ≡ taken_as text.now piece.now token.now) }
{
    if is_word_piece(piece) {
        return Ok(fixed(says(text, token, piece)));
    }
    let bytes = bytes_of(text, token);
    match token.kind {
        TokenKind::Symbol => Ok(symbol(piece, bytes)),
        TokenKind::Number => number(alloc, piece, bytes),
        TokenKind::Quoted => value(
            alloc,
            piece == b"<x>".as_slice() && is_single_quoted(bytes),
            inside(bytes),
        ),
        TokenKind::UserVar => value(alloc, piece == b"<a>".as_slice(), without(bytes, 1)),
        TokenKind::SysVar => value(alloc, piece == b"<s>".as_slice(), without(bytes, 2)),
        _ => Ok(Captured::Differs),
    }
}

// The values of a text in this form. None where it has another one.
#[tactic(auto, using(crate::proofs::Fitting::unfit))]
fn fits(alloc: Global, text: &[u8], pattern: &[u8]) -> Result<Option<Values>, OutOfMemory>
    ensures { IfOk result (λ values. values ≡ fits text.now pattern.now) }
{
    let mut values = Vec::new(alloc);
    let mut left = Some(pattern);
    for token in Tokens::of(text) {
        let Some(pieces) = left else {
            return Ok(None);
        };
        let (piece, behind) = first_piece(b" ", pieces);
        match taken_as(alloc, text, piece, &token)? {
            Captured::Differs => return Ok(None),
            Captured::Fixed => {}
            Captured::Value(value) => values.push(value)?,
        }
        left = behind;
    }
    match left {
        Some(_) => Ok(None),
        None => Ok(Some(Values::from_vec(values))),
    }
}

// The first of these forms that a text has, and its values.
fn first_fit(
    alloc: Global,
    text: &[u8],
    forms: &[Form],
) -> Result<Option<(Form, Values)>, OutOfMemory>
    ensures { IfOk result (λ form. form ≡ first_fit text.now forms.now) }
{
    for form in forms {
        if let Some(values) = fits(alloc, text, pattern(*form))? {
            return Ok(Some((*form, values)));
        }
    }
    Ok(None)
}

/// The form of a text, and its values. None where it has none.
pub fn form_of(alloc: Global, text: &[u8]) -> Result<Option<(Form, Values)>, OutOfMemory>
    ensures { IfOk result (λ form. form ≡ form_of text.now) }
{
    first_fit(alloc, text, &ALL)
}
