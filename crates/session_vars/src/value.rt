// The values that an assignment may give a setting.
ghost use Rattle.std.specs.Prelude.{◌≡◌, ◌≤◌, ◌++◌, not, nat_eq, length, IfOk};
ghost use Rattle.std.specs.List.{list_all, prefix_len, suffix_len};
ghost use Rattle.sql_tokens.specs.Words.{inside};
ghost use Rattle.session_vars.specs.Values.{kept, is_plain_byte, is_default, plain_value, is_character_set, is_reading_mode, is_blank, without_last_blanks, without_blanks, has_reading_mode, may_be_collation, may_be_results, may_be_modes, may_be_server, names_collation, may_be_limit, may_be_off, may_be, value_of, takes_numbers, negative_value};

use crate::{Slot, SlotValue};
use mx_base::{Bytes, OutOfMemory};
use sql_tokens::{TokenKind, behind, front, inside, is_one_of, same_text};
use std::alloc::Global;

// The bytes of the longest value that is kept.
pub(crate) const LONGEST_VALUE: usize = 1024;

// A value in three parts, where it isn't too long.
fn kept(
    alloc: Global,
    before: &[u8],
    middle: &[u8],
    after: &[u8],
) -> Result<Option<SlotValue>, OutOfMemory>
    requires before { length before.now ≤ 1 }
    requires after { length after.now ≤ 1 }
    ensures { IfOk result (λ value. value ≡ kept (before.now ++ middle.now ++ after.now)) }
{
    if middle.len() > LONGEST_VALUE - before.len() - after.len() {
        return Ok(None);
    }
    let mut text = Vec::with_capacity(alloc, before.len() + middle.len() + after.len())?;
    text.extend_from_slice(before)?;
    text.extend_from_slice(middle)?;
    text.extend_from_slice(after)?;
    Ok(Some(SlotValue::Text(Bytes::from_vec(text))))
}

// Printable ASCII, but no quote and no backslash.
fn is_plain_byte(byte: u8) -> bool
    ensures { result ≡ is_plain_byte byte }
{
    32 <= byte && byte <= 126 && !(byte == b'\'' || byte == b'"' || byte == b'\\')
}

pub(crate) fn is_plain_text(bytes: &[u8]) -> bool
    ensures { result ≡ list_all is_plain_byte bytes.now }
{
    bytes.iter().all(|byte| is_plain_byte(*byte))
}

fn is_default(word: &[u8]) -> bool
    ensures { result ≡ is_default word.now }
{
    same_text(word, b"DEFAULT")
}

// A number, a word or a quoted text as it is kept.
#[tactic(auto, unfolding(crate::specs::Values::plain_value))]
fn plain_value(
    alloc: Global,
    kind: TokenKind,
    bytes: &[u8],
) -> Result<Option<SlotValue>, OutOfMemory>
    ensures { IfOk result (λ value. value ≡ plain_value kind bytes.now) }
{
    match kind {
        TokenKind::Number => kept(alloc, b"", bytes, b""),
        TokenKind::Word if is_default(bytes) => Ok(Some(SlotValue::Default)),
        TokenKind::Word => kept(alloc, b"", bytes, b""),
        TokenKind::Quoted if is_plain_text(inside(bytes)) => {
            kept(alloc, b"'", inside(bytes), b"'")
        }
        _ => Ok(None),
    }
}

// The character sets that SET NAMES and character_set_results may name, the likeliest first: in each of them a byte of ASCII is
// that letter, wherever it stands.
static CHARACTER_SETS: [&[u8]; 32] = [
    b"utf8mb4",
    b"utf8",
    b"latin1",
    b"utf8mb3",
    b"ascii",
    b"binary",
    b"latin2",
    b"latin5",
    b"latin7",
    b"cp1250",
    b"cp1251",
    b"cp1256",
    b"cp1257",
    b"cp850",
    b"cp852",
    b"cp866",
    b"koi8r",
    b"koi8u",
    b"greek",
    b"hebrew",
    b"tis620",
    b"armscii8",
    b"geostd8",
    b"dec8",
    b"hp8",
    b"keybcs2",
    b"macce",
    b"macroman",
    b"ujis",
    b"eucjpms",
    b"euckr",
    b"gb2312",
];

pub(crate) fn is_character_set(word: &[u8]) -> bool
    ensures { result ≡ is_character_set word.now }
{
    is_one_of(word, &CHARACTER_SETS)
}

// The modes that change where tokens begin and end, and those that hold more than this. ANSI and ANSI_QUOTES do so only where a text in
// `"` has an escaped one.
static READING_MODES: [&[u8]; 6] = [
    b"NO_BACKSLASH_ESCAPES",
    b"DB2",
    b"MAXDB",
    b"MSSQL",
    b"ORACLE",
    b"POSTGRESQL",
];

fn is_reading_mode(mode: &[u8]) -> bool
    ensures { result ≡ is_reading_mode mode.now }
{
    is_one_of(mode, &READING_MODES)
}

fn first_blanks(bytes: &[u8]) -> usize
    ensures { result ≡ prefix_len is_blank bytes.now }
{
    bytes.iter().take_while(|b| **b == b' ').count()
}

fn last_blanks(bytes: &[u8]) -> usize
    ensures { result ≡ suffix_len is_blank bytes.now }
{
    bytes.iter().rev().take_while(|b| **b == b' ').count()
}

fn without_last_blanks(bytes: &[u8]) -> &[u8]
    ensures { result.now ≡ without_last_blanks bytes.now }
{
    &bytes[..bytes.len().saturating_sub(last_blanks(bytes))]
}

fn without_blanks(bytes: &[u8]) -> &[u8]
    ensures { result.now ≡ without_blanks bytes.now }
{
    without_last_blanks(behind(bytes, first_blanks(bytes)))
}

// Whether a list of modes has one that changes where tokens begin and end.
#[tactic(auto, unfolding(crate::specs::Values::has_reading_mode))]
pub(crate) fn has_reading_mode(modes: &[u8]) -> bool
    ensures { result ≡ has_reading_mode modes.now }
{
    modes
        .split(|byte| *byte == b',')
        .any(|mode| is_reading_mode(without_blanks(mode)))
}

fn may_be_results(kind: TokenKind, bytes: &[u8]) -> bool
    ensures { result ≡ may_be_results kind bytes.now }
{
    match kind {
        TokenKind::Word => is_character_set(bytes) || same_text(bytes, b"NULL"),
        TokenKind::Quoted => is_character_set(inside(bytes)),
        _ => false,
    }
}

// Whether it is the name of a collation of such a character set, with which it begins.
fn names_collation(name: &[u8]) -> bool
    ensures { result ≡ names_collation name.now }
{
    is_character_set(front(name, set_size(name)))
}

// How many bytes stand before the first `_`.
fn set_size(name: &[u8]) -> usize
    ensures { result ≡ prefix_len (λ b. not (nat_eq b 95)) name.now }
{
    name.iter().take_while(|byte| **byte != b'_').count()
}

fn may_be_collation(kind: TokenKind, bytes: &[u8]) -> bool
    ensures { result ≡ may_be_collation kind bytes.now }
{
    match kind {
        TokenKind::Word => names_collation(bytes),
        TokenKind::Quoted => names_collation(inside(bytes)),
        _ => false,
    }
}

fn may_be_modes(kind: TokenKind, bytes: &[u8]) -> bool
    ensures { result ≡ may_be_modes kind bytes.now }
{
    match kind {
        TokenKind::Word => is_default(bytes),
        TokenKind::Quoted => !has_reading_mode(inside(bytes)),
        _ => false,
    }
}

// Whether sql_select_limit may get it: no number of 0 or below, none that begins with `0` or `.`, and not FALSE, which is 0.
fn may_be_limit(kind: TokenKind, bytes: &[u8]) -> bool
    ensures { result ≡ may_be_limit kind bytes.now }
{
    match kind {
        TokenKind::Number => !bytes.is_empty() && bytes[0] >= b'1',
        TokenKind::Word => !same_text(bytes, b"FALSE"),
        _ => true,
    }
}

// Whether it turns sql_auto_is_null off.
fn may_be_off(kind: TokenKind, bytes: &[u8]) -> bool
    ensures { result ≡ may_be_off kind bytes.now }
{
    match kind {
        TokenKind::Number => bytes == b"0".as_slice(),
        TokenKind::Word => same_text(bytes, b"OFF") || is_default(bytes),
        _ => false,
    }
}

// Whether the server's character set may get it, or its collation: no number, by which it isn't seen which of them is meant.
fn may_be_server(kind: TokenKind) -> bool
    ensures { result ≡ may_be_server kind }
{
    kind != TokenKind::Number
}

// Whether a setting may get such a value.
fn may_be(slot: Slot, kind: TokenKind, bytes: &[u8]) -> bool
    ensures { result ≡ may_be slot kind bytes.now }
{
    match slot {
        Slot::CharacterSetResults => may_be_results(kind, bytes),
        Slot::CollationConnection => may_be_collation(kind, bytes),
        Slot::CharacterSetServer => may_be_server(kind),
        Slot::SqlMode => may_be_modes(kind, bytes),
        Slot::SqlSelectLimit => may_be_limit(kind, bytes),
        Slot::SqlAutoIsNull => may_be_off(kind, bytes),
        _ => true,
    }
}

// The value that one token gives a setting.
#[tactic(auto, unfolding(crate::specs::Values::value_of))]
pub(crate) fn value_of(
    alloc: Global,
    slot: Slot,
    kind: TokenKind,
    bytes: &[u8],
) -> Result<Option<SlotValue>, OutOfMemory>
    ensures { IfOk result (λ value. value ≡ value_of slot kind bytes.now) }
{
    if may_be(slot, kind, bytes) {
        plain_value(alloc, kind, bytes)
    } else {
        Ok(None)
    }
}

fn takes_numbers(slot: Slot) -> bool
    ensures { result ≡ takes_numbers slot }
{
    match slot {
        Slot::CharacterSetResults
        | Slot::CollationConnection
        | Slot::CharacterSetServer
        | Slot::SqlMode
        | Slot::SqlSelectLimit
        | Slot::SqlAutoIsNull => false,
        _ => true,
    }
}

// The value that a token behind `-` gives a setting.
#[tactic(auto, unfolding(crate::specs::Values::negative_value))]
pub(crate) fn negative_value(
    alloc: Global,
    slot: Slot,
    kind: TokenKind,
    bytes: &[u8],
) -> Result<Option<SlotValue>, OutOfMemory>
    ensures { IfOk result (λ value. value ≡ negative_value slot kind bytes.now) }
{
    if takes_numbers(slot) && kind == TokenKind::Number {
        kept(alloc, b"-", bytes, b"")
    } else {
        Ok(None)
    }
}
