// The statement of a text.
ghost use Rattle.std.specs.Prelude.{◌≡◌, ◌∷◌, [], IfOk, IfSome, ◌+◌, ◌*◌, ◌<◌, ◌^◌, nat_eq, find, option_copied, slice_index_or};
ghost use Rattle.mem_rule.specs.Statements.{asked, bound, bound_at, bound_by_type, bound_from, filled_from, id_at, id_place, is_null, name_place, numeral, said_by, said_in, said_of, said_with, text_place, value_at};

use crate::column::put_copy;
use crate::form::form_of;
use crate::note::text_at;
use itoa::Buffer;
use mem_rule::{Form, Said};
use mx_base::{Bytes, Items, OutOfMemory, get_u8, get_u16, get_u32, get_u64, read_number};
use session_vars::LongPart;
use std::alloc::Global;
use std::marker::Model;

// What a STMT_EXECUTE binds.
#[derive(Drop)]
pub(crate) struct Bindings<'a> {
    pub(crate) types: &'a [u8],
    pub(crate) nulls: &'a [u8],
    pub(crate) values: &'a [u8],
    pub(crate) long: &'a [LongPart],
}

impl<'a> Model for Bindings<'a> {
    ghost use Rattle.mem_rule.specs.Statements.{Binding};

    ghost Value = { Binding };

    ghost view = { λ b. record { types = b.types.now; nulls = b.nulls.now; values = b.values.now; long = b.long.now } };
}

fn id_place(form: Form) -> Option<usize>
    ensures { result ≡ id_place form }
{
    match form {
        Form::InsertAt => Some(0),
        Form::Select => Some(0),
        Form::Update => Some(1),
        Form::Delete => Some(0),
        Form::SetId => Some(0),
        _ => None,
    }
}

fn name_place(form: Form) -> Option<usize>
    ensures { result ≡ name_place form }
{
    match form {
        Form::Setting => Some(0),
        Form::SetVariable => Some(0),
        Form::Variable => Some(0),
        Form::Lock => Some(0),
        _ => None,
    }
}

fn text_place(form: Form) -> Option<usize>
    ensures { result ≡ text_place form }
{
    match form {
        Form::InsertAt => Some(1),
        Form::Insert => Some(0),
        Form::Update => Some(0),
        Form::SetVariable => Some(1),
        _ => None,
    }
}

fn value_in(values: &[Bytes], at: usize) -> &[u8]
    ensures { result.now ≡ slice_index_or values.now at [] }
{
    match values.get(at) {
        None => b"",
        Some(value) => value.as_slice(),
    }
}

fn value_at(values: &[Bytes], at: Option<usize>) -> &[u8]
    ensures { result.now ≡ value_at values.now at }
{
    match at {
        None => b"",
        Some(at) => value_in(values, at),
    }
}

fn id_at(values: &[Bytes], at: Option<usize>) -> Option<u64>
    ensures { result ≡ id_at values.now at }
{
    match at {
        None => Some(0),
        Some(at) => read_number(value_in(values, at)),
    }
}

fn said_by(alloc: Global, form: Form, values: &[Bytes]) -> Result<Option<Said>, OutOfMemory>
    ensures { IfOk result (λ said. said ≡ said_by form values.now) }
{
    let Some(id) = id_at(values, id_place(form)) else {
        return Ok(None);
    };
    Ok(Some(Said {
        form,
        id,
        name: Bytes::from_slice(alloc, value_at(values, name_place(form)))?,
        text: Bytes::from_slice(alloc, value_at(values, text_place(form)))?,
    }))
}

// The values of a text, with what is bound in the place of each `?`.
fn filled(
    alloc: Global,
    values: &[Option<Bytes>],
    bound: &[Bytes],
) -> Result<Option<Items<Bytes>>, OutOfMemory>
    ensures { IfOk result (λ all. all ≡ filled_from values.now bound.now []) }
{
    let mut out = Items::new(alloc);
    let mut left = bound;
    for value in values {
        match value {
            Some(bytes) => put_copy(alloc, &mut out, bytes.as_slice())?,
            None => {
                let [first, more @ ..] = left else {
                    return Ok(None);
                };
                put_copy(alloc, &mut out, first.as_slice())?;
                left = more;
            }
        }
    }
    Ok(Some(out))
}

fn is_null(nulls: &[u8], at: usize) -> bool
    ensures { result ≡ is_null nulls.now at }
{
    let first = match nulls.first() {
        None => 0,
        Some(first) => *first,
    };
    if at == 0 {
        first % 2 == 1
    } else {
        first / 2 % 2 == 1
    }
}

fn numeral(
    alloc: Global,
    size: usize,
    n: Option<u64>,
    at: usize,
) -> Result<Option<(Bytes, usize)>, OutOfMemory>
    requires { IfSome n (λ _. at + size < 2 ^ 64) }
    ensures { IfOk result (λ got. got ≡ numeral size n at) }
{
    let Some(n) = n else {
        return Ok(None);
    };
    let mut buffer = Buffer::new();
    let text = Bytes::from_slice(alloc, buffer.format(n).as_bytes())?;
    Ok(Some((text, at + size)))
}

fn bound_by_type(
    alloc: Global,
    code: u8,
    at: usize,
    values: &[u8],
) -> Result<Option<(Bytes, usize)>, OutOfMemory>
    ensures { IfOk result (λ got. got ≡ bound_by_type code at values.now) }
{
    match code {
        1 => numeral(alloc, 1, get_u8(values, at).map(u64::from), at),
        2 => numeral(alloc, 2, get_u16(values, at).map(u64::from), at),
        3 => numeral(alloc, 4, get_u32(values, at).map(u64::from), at),
        9 => numeral(alloc, 4, get_u32(values, at).map(u64::from), at),
        8 => numeral(alloc, 8, get_u64(values, at), at),
        _ => text_at(alloc, values, at),
    }
}

fn type_of(types: &[u8], parameter: usize) -> u8
    requires { parameter < 2 ^ 32 }
    ensures { result ≡ slice_index_or types.now (2 * parameter) 0 }
{
    match types.get(2 * parameter) {
        None => 0,
        Some(code) => *code,
    }
}

fn long_part<'a>(long: &'a [LongPart], parameter: usize) -> Option<&'a LongPart>
    ensures { option_copied result ≡ find (λ part. nat_eq part.parameter parameter) long.now }
{
    long.iter()
        .find(|part| part.parameter as usize == parameter)
}

// The value of a parameter whose bytes stand at a place, and the place behind them.
fn bound_at(
    alloc: Global,
    b: &Bindings,
    parameter: usize,
    at: usize,
) -> Result<Option<(Bytes, usize)>, OutOfMemory>
    requires { parameter < 2 ^ 32 }
    ensures { IfOk result (λ got. got ≡ bound_at b.now parameter at) }
{
    if let Some(part) = long_part(b.long, parameter) {
        return Ok(Some((Bytes::from_slice(alloc, part.bytes.as_slice())?, at)));
    }
    if is_null(b.nulls, parameter) {
        return Ok(None);
    }
    bound_by_type(alloc, type_of(b.types, parameter), at, b.values)
}

// How many values are asked for.
pub(crate) fn asked(values: &[Option<Bytes>]) -> usize
    ensures { result ≡ asked values.now }
{
    values.iter().filter(|value| value.is_none()).count()
}

// The values of so many parameters.
fn bound(alloc: Global, b: &Bindings, count: u32) -> Result<Option<Items<Bytes>>, OutOfMemory>
    ensures { IfOk result (λ all. all ≡ bound_from count 0 0 b.now []) }
{
    let mut out = Items::new(alloc);
    let mut at = 0;
    for parameter in 0..count {
        match bound_at(alloc, b, parameter as usize, at)? {
            None => return Ok(None),
            Some((value, next)) => {
                out.push(value)?;
                at = next;
            }
        }
    }
    Ok(Some(out))
}

fn bound_or_none(
    alloc: Global,
    b: Option<&Bindings>,
    count: usize,
) -> Result<Option<Items<Bytes>>, OutOfMemory>
    ensures { IfOk result (λ all. all ≡ bound (option_copied b.entry) count) }
{
    let Some(b) = b else {
        return Ok(Some(Items::new(alloc)));
    };
    if count > u32::MAX as usize {
        return Err(OutOfMemory);
    }
    bound(alloc, b, count as u32)
}

fn said_of(
    alloc: Global,
    form: Form,
    values: &[Option<Bytes>],
    bound: &[Bytes],
) -> Result<Option<Said>, OutOfMemory>
    ensures { IfOk result (λ said. said ≡ said_of form values.now bound.now) }
{
    match filled(alloc, values, bound)? {
        None => Ok(None),
        Some(all) => said_by(alloc, form, all.as_slice()),
    }
}

fn said_with(
    alloc: Global,
    form: Form,
    values: &[Option<Bytes>],
    b: Option<&Bindings>,
) -> Result<Option<Said>, OutOfMemory>
    ensures { IfOk result (λ said. said ≡ said_with (option_copied b.entry) (form, values.now)) }
{
    match bound_or_none(alloc, b, asked(values))? {
        None => Ok(None),
        Some(bound) => said_of(alloc, form, values, bound.as_slice()),
    }
}

// The statement of a text, with what is bound. None where the server doesn't know it.
pub(crate) fn said_in(
    alloc: Global,
    text: &[u8],
    b: Option<&Bindings>,
) -> Result<Option<Said>, OutOfMemory>
    ensures { IfOk result (λ said. said ≡ said_in text.now (option_copied b.entry)) }
{
    match form_of(alloc, text)? {
        None => Ok(None),
        Some((form, values)) => said_with(alloc, form, values.as_slice(), b),
    }
}
