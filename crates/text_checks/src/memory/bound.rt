// The values of an execute.
use check_lines::Answer;
use mx_base::{Bytes, put_lenenc};
use server_rule::LongParts;
use session_vars::LongPart;

/// The values of an execute, with one byte of the map of NULLs (client/server protocol, "COM_STMT_EXECUTE").
#[derive(Drop)]
pub struct Bound {
    pub types: Vec<u8>,
    pub nulls: Vec<u8>,
    pub values: Vec<u8>,
    pub long: LongParts,
}

// How many bytes the number of a type has, None of a type whose values are texts.
fn size_of_number(code: u8) -> Option<usize> {
    match code {
        1 => Some(1),
        2 => Some(2),
        3 => Some(4),
        9 => Some(4),
        8 => Some(8),
        _ => None,
    }
}

fn append(answer: &mut Answer, list: &mut Vec<u8>, bytes: &[u8]) {
    if list.extend_from_slice(bytes).is_err() {
        answer.refused();
    }
}

fn put_number(answer: &mut Answer, out: &mut Vec<u8>, size: usize, text: &str) {
    match text.parse::<u64>() {
        Ok(number) => {
            let bytes = number.to_le_bytes();
            append(answer, out, &bytes[..size.min(8)]);
        }
        Err(_) => answer.bad(),
    }
}

fn put_text(answer: &mut Answer, out: &mut Vec<u8>, text: &str) {
    answer.done(put_lenenc(out, text.len() as u64));
    append(answer, out, text.as_bytes());
}

// A value, as its type spells it.
fn put_value(answer: &mut Answer, bound: &mut Bound, code: &str, text: &str) {
    let Ok(code) = code.parse::<u8>() else {
        answer.bad();
        return;
    };
    append(answer, &mut bound.types, &[code, 0]);
    match size_of_number(code) {
        Some(size) => put_number(answer, &mut bound.values, size, text),
        None => put_text(answer, &mut bound.values, text),
    }
}

// NULL is of the type NULL, and has a bit in the map.
fn put_null(answer: &mut Answer, bound: &mut Bound, parameter: u16) {
    append(answer, &mut bound.types, &[6, 0]);
    if let Some(nulls) = bound.nulls.first_mut() {
        *nulls |= if parameter == 0 { 1 } else { 2 };
    }
}

// What was sent ahead stands in no values; its type is that of a text.
fn put_long(answer: &mut Answer, bound: &mut Bound, parameter: u16, text: &str) {
    append(answer, &mut bound.types, &[253, 0]);
    let mut bytes = Bytes::new(answer.alloc());
    answer.done(bytes.append(text.as_bytes()));
    answer.done(bound.long.push(LongPart { parameter, bytes }));
}

fn put(answer: &mut Answer, bound: &mut Bound, parameter: u16, piece: &str) {
    match piece.split_once(':') {
        None => put_null(answer, bound, parameter),
        Some(("long", text)) => put_long(answer, bound, parameter, text),
        Some((code, text)) => put_value(answer, bound, code, text),
    }
}

fn put_all(answer: &mut Answer, bound: &mut Bound, text: &str) {
    if text.is_empty() {
        return;
    }
    let Some((first, second)) = text.split_once(' ') else {
        put(answer, bound, 0, text);
        return;
    };
    put(answer, bound, 0, first);
    put(answer, bound, 1, second);
}

impl Bound {
    /// At most two values: `<type>:<value>`, with the number of the type; `long:<value>` for a text that was sent ahead; or
    /// `null`. A blank stands between two.
    pub fn of(answer: &mut Answer, text: &str) -> Bound {
        let alloc = answer.alloc();
        let mut bound = Bound {
            types: Vec::new(alloc),
            nulls: Vec::new(alloc),
            values: Vec::new(alloc),
            long: LongParts::new(alloc),
        };
        append(answer, &mut bound.nulls, &[0]);
        put_all(answer, &mut bound, text);
        bound
    }
}
