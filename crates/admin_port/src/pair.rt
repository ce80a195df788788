// Columns and their values in a statement.
ghost use Rattle.std.specs.Prelude.{◌≡◌, [], option_copied};
ghost use Rattle.admin_port.specs.Faults.{Gives};
ghost use Rattle.admin_port.specs.Pairs.{assigned, column_of, given, names_from, pair_of, pairs_from, zipped_from};

use crate::Fault;
use crate::value::{Value, read_value};
use crate::words::{first_token, reads};
use mx_base::{Bytes, Items};
use sql_tokens::{Token, TokenKind, bytes_of, same_text};
use std::alloc::Global;

/// A column with its value.
#[derive(Drop)]
pub struct Pair {
    pub column: Bytes,
    pub value: Value,
}

// The column that a token names. A name in backticks is none.
fn read_column(alloc: Global, text: &[u8], token: &Token) -> Result<Bytes, Fault>
    ensures { Gives result (column_of text.now token.now) }
{
    match token.kind {
        TokenKind::Word => Ok(Bytes::from_slice(alloc, bytes_of(text, token))?),
        _ => Err(Fault::Refused),
    }
}

#[tactic(auto, using(crate::proofs::Steps::steps))]
fn read_pair(alloc: Global, text: &[u8], column: &Token, value: &Token) -> Result<Pair, Fault>
    ensures { Gives result (pair_of text.now column.now value.now) }
{
    let column = read_column(alloc, text, column)?;
    let value = read_value(alloc, text, value)?;
    Ok(Pair { column, value })
}

/// A column and its value, with `=` between them.
#[tactic(auto, using(crate::proofs::Steps::steps))]
pub(crate) fn read_assigned(
    alloc: Global,
    text: &[u8],
    column: &Token,
    equals: &Token,
    value: &Token,
) -> Result<Pair, Fault>
    ensures { Gives result (assigned text.now column.now equals.now value.now) }
{
    if !reads(text, equals, b"=") {
        return Err(Fault::Refused);
    }
    read_pair(alloc, text, column, value)
}

/// Columns and their values, each `<column> = <value>`, with this word between two of them.
pub(crate) fn read_pairs(
    alloc: Global,
    text: &[u8],
    tokens: &[Token],
    between: &[u8],
) -> Result<Items<Pair>, Fault>
    ensures { Gives result (pairs_from text.now between.now [] tokens.now) }
{
    let mut pairs = Items::new(alloc);
    let mut left = tokens;
    while let Some((column, behind)) = first_token(left) {
        let Some((equals, behind)) = first_token(behind) else {
            return Err(Fault::Refused);
        };
        let Some((value, behind)) = first_token(behind) else {
            return Err(Fault::Refused);
        };
        let pair = read_assigned(alloc, text, &column, &equals, &value)?;
        pairs.push(pair)?;
        let Some((next, rest)) = first_token(behind) else {
            return Ok(pairs);
        };
        if !reads(text, &next, between) {
            return Err(Fault::Refused);
        }
        left = rest;
    }
    Err(Fault::Refused)
}

/// As many columns as values, with a comma between two of each.
pub(crate) fn read_zipped(
    alloc: Global,
    text: &[u8],
    columns: &[Token],
    values: &[Token],
) -> Result<Items<Pair>, Fault>
    ensures { Gives result (zipped_from text.now [] columns.now values.now) }
{
    let mut pairs = Items::new(alloc);
    let mut left = columns;
    let mut others = values;
    while let Some((column, behind)) = first_token(left) {
        let Some((value, ahead)) = first_token(others) else {
            return Err(Fault::Refused);
        };
        let pair = read_pair(alloc, text, &column, &value)?;
        pairs.push(pair)?;
        match (first_token(behind), first_token(ahead)) {
            (None, None) => return Ok(pairs),
            (Some((comma, rest)), Some((next, more))) => {
                if !reads(text, &comma, b",") || !reads(text, &next, b",") {
                    return Err(Fault::Refused);
                }
                left = rest;
                others = more;
            }
            _ => return Err(Fault::Refused),
        }
    }
    Err(Fault::Refused)
}

/// The names of columns, with a comma between two of them.
pub(crate) fn read_names(
    alloc: Global,
    text: &[u8],
    tokens: &[Token],
) -> Result<Items<Bytes>, Fault>
    ensures { Gives result (names_from text.now [] tokens.now) }
{
    let mut names = Items::new(alloc);
    let mut left = tokens;
    while let Some((name, behind)) = first_token(left) {
        let name = read_column(alloc, text, &name)?;
        names.push(name)?;
        let Some((comma, rest)) = first_token(behind) else {
            return Ok(names);
        };
        if !reads(text, &comma, b",") {
            return Err(Fault::Refused);
        }
        left = rest;
    }
    Err(Fault::Refused)
}

/// The value that is given for a column, None where it isn't named. Of a column that is named twice the last one holds.
pub(crate) fn given<'a>(pairs: &'a [Pair], column: &[u8]) -> Option<&'a Value>
    ensures { option_copied result ≡ given pairs.now column.now }
{
    match pairs
        .iter()
        .rev()
        .find(|pair| same_text(pair.column.as_slice(), column))
    {
        Some(pair) => Some(&pair.value),
        None => None,
    }
}
