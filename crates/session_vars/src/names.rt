// SET NAMES, behind its SET or a comma.
ghost use Rattle.std.specs.Prelude.{◌≡◌, [], ◌∷◌, ◌++◌, IfOk, codes};
ghost use Rattle.std.specs.Option.{option_copied};
ghost use Rattle.session_vars.specs.Names.{is_one_word, character_set, collation, lower_case, collated, names_value};

use crate::statement::spoken;
use crate::value::is_character_set;
use mx_base::{Bytes, OutOfMemory};
use sql_tokens::{Token, TokenKind, Tokens, says};
use std::alloc::Global;

// Whether the bytes are one word, and nothing else.
fn is_one_word(bytes: &[u8]) -> bool
    ensures { result ≡ is_one_word bytes.now }
{
    match Tokens::of(bytes).next() {
        Some(token) => {
            token.kind == TokenKind::Word && token.start == 0 && token.end == bytes.len()
        }
        None => false,
    }
}

fn character_set<'a>(text: &'a [u8], token: &Token) -> Option<&'a [u8]>
    ensures { option_copied result ≡ character_set text.now token.now }
{
    let name = spoken(text, token)?;
    if is_character_set(name) {
        Some(name)
    } else {
        None
    }
}

fn collation<'a>(text: &'a [u8], token: &Token) -> Option<&'a [u8]>
    ensures { option_copied result ≡ collation text.now token.now }
{
    let name = spoken(text, token)?;
    if is_one_word(name) { Some(name) } else { None }
}

#[tactic(auto, using(std::proofs::lemmas::List::map_more, std::proofs::Common::append_assoc))]
fn push_lower_case(out: &mut Vec<u8>, bytes: &[u8]) -> Result<(), OutOfMemory>
    ensures { IfOk result (λ _. out.new.items ≡ out.old.items ++ lower_case bytes.now) }
{
    for byte in bytes {
        out.push(byte.to_ascii_lowercase())?;
    }
    Ok(())
}

// A character set's name in lower case.
fn plain(alloc: Global, set: &[u8]) -> Result<Bytes, OutOfMemory>
    ensures { IfOk result (λ value. value ≡ lower_case set.now) }
{
    let mut out = Vec::with_capacity(alloc, set.len())?;
    push_lower_case(&mut out, set)?;
    Ok(Bytes::from_vec(out))
}

// A character set and a collation, both in lower case.
fn collated(alloc: Global, set: &[u8], name: &[u8]) -> Result<Bytes, OutOfMemory>
    ensures { IfOk result (λ value. value ≡ lower_case set.now ++ codes " COLLATE " ++ lower_case name.now) }
{
    let mut out = Vec::new(alloc);
    push_lower_case(&mut out, set)?;
    out.extend_from_slice(b" COLLATE ")?;
    push_lower_case(&mut out, name)?;
    Ok(Bytes::from_vec(out))
}

// `NAMES c`: what the setting `names` becomes.
#[tactic(auto, unfolding(crate::specs::Names::names_value))]
fn plain_names(
    alloc: Global,
    text: &[u8],
    names: &Token,
    set: &Token,
) -> Result<Option<Bytes>, OutOfMemory>
    ensures { IfOk result (λ value. value ≡ names_value text.now (names.now ∷ set.now ∷ [])) }
{
    if !says(text, names, b"NAMES") {
        return Ok(None);
    }
    match character_set(text, set) {
        Some(set) => Ok(Some(plain(alloc, set)?)),
        None => Ok(None),
    }
}

// `NAMES c COLLATE k`: what the setting `names` becomes.
#[tactic(auto, unfolding(crate::specs::Names::names_value))]
fn collated_names(
    alloc: Global,
    text: &[u8],
    names: &Token,
    set: &Token,
    collate: &Token,
    name: &Token,
) -> Result<Option<Bytes>, OutOfMemory>
    ensures { IfOk result (λ value. value ≡ names_value text.now (names.now ∷ set.now ∷ collate.now ∷ name.now ∷ [])) }
{
    if !says(text, names, b"NAMES") || !says(text, collate, b"COLLATE") {
        return Ok(None);
    }
    let Some(set) = character_set(text, set) else {
        return Ok(None);
    };
    let Some(name) = collation(text, name) else {
        return Ok(None);
    };
    Ok(Some(collated(alloc, set, name)?))
}

// What SET NAMES makes of the setting `names`, by what stands behind SET or a comma.
#[tactic(auto, unfolding(crate::specs::Names::names_value))]
pub(crate) fn names_value(
    alloc: Global,
    text: &[u8],
    tokens: &[Token],
) -> Result<Option<Bytes>, OutOfMemory>
    ensures { IfOk result (λ value. value ≡ names_value text.now tokens.now) }
{
    match tokens {
        [names, set] => plain_names(alloc, text, names, set),
        [names, set, collate, name] => collated_names(alloc, text, names, set, collate, name),
        _ => Ok(None),
    }
}
