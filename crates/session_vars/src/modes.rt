// Values of sql_mode by an expression: CONCAT, also nested, of a mode and of lists of modes that are added to it.
ghost use Rattle.std.specs.Prelude.{◌≡◌, ◌+◌, ◌<◌, ◌^◌, not, nat_eq, [], ◌∷◌, ◌++◌, length, take, fold, option_copied, Some, None, IfOk, OnOk, option_map, if◌then◌else◌};
ghost use Rattle.sql_tokens.specs.Words.{bytes_of as bytes_at};
ghost use Rattle.session_vars.specs.Modes.{is_mode_list, is_added_list, ends_with_comma, is_base_list, is_lone_comma, is_front, is_opening, moved_behind, may_join, base_of, list_of, lists_behind, joined_text, joined_change, joined_with, joined_at, takes_modes, joined, names_mode, with_named, as_value, is_joined_text, without_last, with_modes, with_more, grown, named_by, added_to};
ghost use Rattle.std.specs.List.{prefix_len, slice_split};

use crate::value::{LONGEST_VALUE, has_reading_mode, is_plain_text};
use crate::{Change, Slot, SlotValue};
use mx_base::{Bytes, OutOfMemory};
use sql_tokens::{Token, TokenKind, behind, bytes_of, front, inside, is_symbol, same_text, says};
use std::alloc::Global;

// The tokens of the longest expression that is read.
const LONGEST_EXPRESSION: usize = 60;

static OWN_MODE: &[u8] = b"@@sql_mode";

static SERVER_MODE: &[u8] = b"@@GLOBAL.sql_mode";

// A list of modes none of which changes how statements are read.
fn is_mode_list(list: &[u8]) -> bool
    ensures { result ≡ is_mode_list list.now }
{
    is_plain_text(list) && !has_reading_mode(list)
}

// One that begins with a comma, so that it adds whole modes to whatever stands before it.
fn is_added_list(list: &[u8]) -> bool
    ensures { result ≡ is_added_list list.now }
{
    !list.is_empty() && list[0] == b',' && is_mode_list(list)
}

fn without_last(bytes: &[u8], count: usize) -> &[u8]
    ensures { result.now ≡ without_last count bytes.now }
{
    &bytes[..bytes.len().saturating_sub(count)]
}

fn ends_with_comma(list: &[u8]) -> bool
    ensures { result ≡ ends_with_comma list.now }
{
    !list.is_empty() && list[list.len() - 1] == b','
}

// One that other lists are added to.
fn is_base_list(list: &[u8]) -> bool
    ensures { result ≡ is_base_list list.now }
{
    !ends_with_comma(list) && is_mode_list(list)
}

fn in_quotes(alloc: Global, list: &[u8]) -> Result<Bytes, OutOfMemory>
    ensures { IfOk result (λ text. text ≡ 39 ∷ [] ++ list.now ++ 39 ∷ []) }
{
    let mut text = Bytes::from_slice(alloc, b"'")?;
    text.append(list)?;
    text.append(b"'")?;
    Ok(text)
}

// The mode of a system variable.
#[tactic(auto, unfolding(crate::specs::Modes::base_of))]
fn variable_mode(variable: &[u8]) -> Option<&'static [u8]>
    ensures { option_copied result ≡ base_of TokenKind.SysVar variable.now }
{
    if same_text(variable, OWN_MODE) || same_text(variable, b"@@session.sql_mode") {
        Some(OWN_MODE)
    } else if same_text(variable, SERVER_MODE) {
        Some(SERVER_MODE)
    } else {
        None
    }
}

// What is added to: a mode by its variable, or a quoted list that ends with no comma.
#[tactic(auto, unfolding(crate::specs::Modes::base_of))]
fn base_of(alloc: Global, kind: TokenKind, bytes: &[u8]) -> Result<Option<Bytes>, OutOfMemory>
    ensures { IfOk result (λ base. base ≡ base_of kind bytes.now) }
{
    match kind {
        TokenKind::SysVar => match variable_mode(bytes) {
            Some(mode) => Ok(Some(Bytes::from_slice(alloc, mode)?)),
            None => Ok(None),
        },
        TokenKind::Quoted if is_base_list(inside(bytes)) => {
            Ok(Some(in_quotes(alloc, inside(bytes))?))
        }
        _ => Ok(None),
    }
}

// What is added, which may be a part of a list.
#[tactic(auto, unfolding(crate::specs::Modes::list_of))]
fn list_of(kind: TokenKind, bytes: &[u8]) -> Option<&[u8]>
    ensures { option_copied result ≡ list_of kind bytes.now }
{
    match kind {
        TokenKind::Quoted => Some(inside(bytes)),
        _ => None,
    }
}

// Appends texts, each behind a comma, up to the brackets that close, where so many are open. Whether nothing else is there.
#[tactic(auto, unfolding(crate::specs::Modes::lists_behind))]
fn push_lists(
    text: &[u8],
    depth: usize,
    tokens: &[Token],
    lists: &mut Bytes,
) -> Result<bool, OutOfMemory>
    ensures { IfOk result (λ all. option_map (λ more. lists.old ++ more) (lists_behind text.now depth tokens.now) ≡ (if all then Some lists.new else None)) }
{
    match tokens {
        [] => Ok(depth == 0),
        [_, ..] if depth == 0 => Ok(false),
        [token, rest @ ..] if is_symbol(text, token, b')') => {
            push_lists(text, depth - 1, rest, lists)
        }
        [token, next, rest @ ..] if is_symbol(text, token, b',') => {
            let Some(list) = list_of(next.kind, bytes_of(text, next)) else {
                return Ok(false);
            };
            lists.append(list)?;
            push_lists(text, depth, rest, lists)
        }
        _ => Ok(false),
    }
}

fn joined_text(alloc: Global, base: &[u8], lists: &[u8]) -> Result<Bytes, OutOfMemory>
    ensures { IfOk result (λ text. text ≡ joined_text base.now lists.now) }
{
    let mut text = Bytes::from_slice(alloc, b"CONCAT(")?;
    text.append(base)?;
    text.append(b", '")?;
    text.append(lists)?;
    text.append(b"')")?;
    Ok(text)
}

// Whole modes are added, and to the mode before it no more than a value may have.
fn may_join(base: &[u8], lists: &[u8]) -> bool
    ensures { result ≡ may_join base.now lists.now }
{
    is_added_list(lists) && (base != OWN_MODE || lists.len() <= LONGEST_VALUE)
}

// Appends what is kept of texts in front of the mode.
fn push_front(lists: &mut Bytes, front: &[u8]) -> Result<(), OutOfMemory>
    ensures { OnOk result (lists.new ≡ lists.old ++ moved_behind front.now) }
{
    if front.is_empty() {
        return Ok(());
    }
    lists.append(b",")?;
    lists.append(without_last(front, 1))
}

// The texts behind the mode, and then those in front of it.
#[tactic(auto, using(crate::proofs::Adding::front_behind))]
fn lists_of(
    alloc: Global,
    text: &[u8],
    depth: usize,
    front: &[u8],
    rest: &[Token],
) -> Result<Option<Bytes>, OutOfMemory>
    ensures { IfOk result (λ lists. lists ≡ option_map (λ more. more ++ moved_behind front.now) (lists_behind text.now depth rest.now)) }
{
    let mut lists = Bytes::new(alloc);
    if !push_lists(text, depth, rest, &mut lists)? {
        return Ok(None);
    }
    push_front(&mut lists, front)?;
    Ok(Some(lists))
}

// A base, texts that were in front of it, and texts behind it.
#[tactic(auto, unfolding(crate::specs::Modes::joined_at))]
fn joined_with(
    alloc: Global,
    text: &[u8],
    depth: usize,
    front: &[u8],
    token: &Token,
    rest: &[Token],
) -> Result<Option<Change>, OutOfMemory>
    ensures { IfOk result (λ change. change ≡ joined_with (base_of token.now.kind (bytes_at text.now token.now)) (option_map (λ more. more ++ moved_behind front.now) (lists_behind text.now depth rest.now))) }
{
    let Some(base) = base_of(alloc, token.kind, bytes_of(text, token))? else {
        return Ok(None);
    };
    let Some(lists) = lists_of(alloc, text, depth, front, rest)? else {
        return Ok(None);
    };
    if !may_join(base.as_slice(), lists.as_slice()) {
        return Ok(None);
    }
    Ok(Some(Change {
        slot: Slot::SqlMode,
        value: SlotValue::Text(joined_text(alloc, base.as_slice(), lists.as_slice())?),
        adds: base.as_slice() == OWN_MODE,
    }))
}

// Whether a comma alone in quotes is there, and a comma behind it.
fn is_lone_comma(text: &[u8], tokens: &[Token]) -> bool
    ensures { result ≡ is_lone_comma text.now tokens.now }
{
    match tokens {
        [token, next, ..] => {
            token.kind == TokenKind::Quoted
                && inside(bytes_of(text, token)) == b",".as_slice()
                && is_symbol(text, next, b',')
        }
        _ => false,
    }
}

// Whether a text stands in front of the mode, within a CONCAT, behind which these tokens stand.
fn is_front(text: &[u8], depth: usize, token: &Token, next: &Token, tokens: &[Token]) -> bool
    ensures { result ≡ is_front text.now depth token.now next.now tokens.now }
{
    depth >= 1
        && is_symbol(text, next, b',')
        && token.kind == TokenKind::Quoted
        && (ends_with_comma(inside(bytes_of(text, token))) || is_lone_comma(text, tokens))
}

// `CONCAT (`, or `( SELECT`.
fn is_opening(text: &[u8], token: &Token, next: &Token) -> bool
    ensures { result ≡ is_opening text.now token.now next.now }
{
    (says(text, token, b"CONCAT") && is_symbol(text, next, b'('))
        || (is_symbol(text, token, b'(') && says(text, next, b"SELECT"))
}

// Behind so many of these, and such texts in front.
#[tactic(auto, unfolding(crate::specs::Modes::joined_at))]
fn joined_at(
    alloc: Global,
    text: &[u8],
    depth: usize,
    front: &mut Bytes,
    tokens: &[Token],
) -> Result<Option<Change>, OutOfMemory>
    requires { depth + length tokens.now < 2 ^ 64 }
    ensures { IfOk result (λ change. change ≡ joined_at text.now depth front.old tokens.now) }
{
    let [token, after @ ..] = tokens else {
        return Ok(None);
    };
    let [next, rest @ ..] = after else {
        return Ok(None);
    };
    if is_opening(text, token, next) {
        return joined_at(alloc, text, depth + 1, front, rest);
    }
    if is_front(text, depth, token, next, rest) {
        front.append(inside(bytes_of(text, token)))?;
        return joined_at(alloc, text, depth, front, rest);
    }
    joined_with(alloc, text, depth, front.as_slice(), token, after)
}

pub(crate) fn takes_modes(slot: Slot) -> bool
    ensures { result ≡ takes_modes slot }
{
    slot == Slot::SqlMode
}

// The change that an expression makes.
#[tactic(auto, unfolding(crate::specs::Modes::joined))]
pub(crate) fn joined(
    alloc: Global,
    text: &[u8],
    slot: Slot,
    tokens: &[Token],
) -> Result<Option<Change>, OutOfMemory>
    ensures { IfOk result (λ change. change ≡ joined text.now slot tokens.now) }
{
    if takes_modes(slot) && tokens.len() <= LONGEST_EXPRESSION {
        joined_at(alloc, text, 0, &mut Bytes::new(alloc), tokens)
    } else {
        Ok(None)
    }
}

// Whether a value names a mode, in any case, between its commas and quotes.
fn names_mode(value: &[u8], mode: &[u8]) -> bool
    ensures { result ≡ names_mode value.now mode.now }
{
    value
        .split(|byte| *byte == b',' || *byte == b'\'')
        .any(|named| same_text(mode, named))
}

// How many bytes stand before the first comma of a list.
fn first_size(list: &[u8]) -> usize
    ensures { result ≡ prefix_len (λ b. not (nat_eq b 44)) list.now }
{
    list.iter().take_while(|byte| **byte != b',').count()
}

// Appends a mode, behind a comma, to a value that doesn't name it.
fn push_unless_named(value: &mut Bytes, mode: &[u8]) -> Result<(), OutOfMemory>
    ensures { OnOk result (value.new ≡ with_named value.old mode.now) }
{
    if !names_mode(value.as_slice(), mode) {
        value.append(b",")?;
        value.append(mode)?;
    }
    Ok(())
}

// A value, and the modes of a list that are new to it.
fn all_named(alloc: Global, value: &[u8], list: &[u8]) -> Result<Bytes, OutOfMemory>
    ensures { IfOk result (λ named. named ≡ fold with_named value.now (slice_split (λ b. nat_eq b 44) list.now)) }
{
    let mut named = Bytes::from_slice(alloc, value)?;
    let mut left = Some(list);
    'modes: while let Some(list) = left {
        let size = first_size(list);
        push_unless_named(&mut named, front(list, size))?;
        left = if size < list.len() {
            Some(behind(list, size + 1))
        } else {
            None
        };
    }
    Ok(named)
}

fn is_joined_text(bytes: &[u8]) -> bool
    ensures { result ≡ is_joined_text bytes.now }
{
    front(bytes, 7) == b"CONCAT(".as_slice()
}

// A list as a value; one that is too long for that is kept as what it adds to no mode.
fn as_value(alloc: Global, list: &[u8]) -> Result<Bytes, OutOfMemory>
    ensures { IfOk result (λ text. text ≡ as_value list.now) }
{
    if list.len() <= LONGEST_VALUE - 2 {
        return in_quotes(alloc, list);
    }
    let mut lists = Bytes::from_slice(alloc, b",")?;
    lists.append(list)?;
    joined_text(alloc, b"''", lists.as_slice())
}

// A value with more modes in its last list.
fn with_modes(alloc: Global, old: &[u8], new: &[u8]) -> Result<Bytes, OutOfMemory>
    ensures { IfOk result (λ text. text ≡ with_modes old.now new.now) }
{
    if is_joined_text(old) {
        let mut text = Bytes::from_slice(alloc, without_last(old, 2))?;
        text.append(new)?;
        text.append(b"')")?;
        return Ok(text);
    }
    let mut list = Bytes::from_slice(alloc, inside(old))?;
    list.append(new)?;
    as_value(alloc, list.as_slice())
}

fn with_more(alloc: Global, old: &SlotValue, new: &[u8]) -> Result<Bytes, OutOfMemory>
    ensures { IfOk result (λ text. text ≡ with_more old.now new.now) }
{
    match old {
        SlotValue::Default => joined_text(alloc, SERVER_MODE, new),
        SlotValue::Text(old) => with_modes(alloc, old.as_slice(), new),
    }
}

fn grown(alloc: Global, old: &SlotValue, new: &[u8]) -> Result<SlotValue, OutOfMemory>
    ensures { IfOk result (λ value. value ≡ grown old.now new.now) }
{
    if new.is_empty() {
        old.copy(alloc)
    } else {
        Ok(SlotValue::Text(with_more(alloc, old, new)?))
    }
}

fn named_by(value: &SlotValue) -> &[u8]
    ensures { result.now ≡ named_by value.now }
{
    match value {
        SlotValue::Default => b"",
        SlotValue::Text(text) => text.as_slice(),
    }
}

// What an expression over the mode before it makes of that mode.
pub(crate) fn added_to(
    alloc: Global,
    old: &SlotValue,
    added: &SlotValue,
) -> Result<SlotValue, OutOfMemory>
    ensures { IfOk result (λ value. value ≡ added_to old.now added.now) }
{
    let SlotValue::Text(added) = added else {
        return Ok(SlotValue::Default);
    };
    let lists = without_last(behind(added.as_slice(), 20), 2);
    let value = named_by(old);
    let named = all_named(alloc, value, lists)?;
    grown(alloc, old, behind(named.as_slice(), value.len()))
}
