// Replies as a case shows them.
use crate::memory::payload::Payload;
use crate::memory::verb::Verb;
use check_lines::Answer;
use mx_base::Bytes;

fn put_text(answer: &mut Answer, bytes: &[u8]) {
    match str::from_utf8(bytes) {
        Ok(text) => answer.text(text),
        Err(_) => answer.bad(),
    }
}

// AUTOCOMMIT is what an idle session shows.
fn put_flags(answer: &mut Answer, status: u16) {
    match status {
        2 => {}
        3 => answer.text("+tx"),
        0 => answer.text("-autocommit"),
        1 => answer.text("-autocommit+tx"),
        _ => answer.bad(),
    }
}

// An OK without info and warnings (client/server protocol, "OK_Packet").
fn put_ok(answer: &mut Answer, payload: &[u8]) {
    let mut left = Payload { rest: payload };
    left.bytes(answer, 1);
    let rows = left.number(answer);
    let id = left.number(answer);
    let status = left.short(answer);
    answer.text("ok");
    put_flags(answer, status);
    if left.short(answer) != 0 {
        answer.bad();
    }
    left.end(answer);
    if rows != 0 || id != 0 {
        answer.text(" rows=");
        answer.display(rows);
        answer.text(" id=");
        answer.display(id);
    }
}

// The code, the SQL state and the message of an ERR (client/server protocol, "ERR_Packet").
fn put_err(answer: &mut Answer, payload: &[u8]) {
    let mut left = Payload { rest: payload };
    left.bytes(answer, 1);
    let code = left.short(answer);
    left.bytes(answer, 1);
    let state = left.bytes(answer, 5);
    answer.text("err ");
    answer.display(code);
    answer.text(" ");
    put_text(answer, state);
    answer.text(" ");
    put_text(answer, left.rest);
}

// The status flags of an EOF without warnings (client/server protocol, "EOF_Packet").
fn eof_status(answer: &mut Answer, payload: &[u8]) -> u16 {
    match payload {
        [0xFE, 0, 0, low, high] => u16::from_le_bytes([*low, *high]),
        _ => {
            answer.bad();
            0
        }
    }
}

// The name of a column, behind its catalog, schema, table and the table's own name (client/server protocol,
// "Protocol::ColumnDefinition41").
fn put_name(answer: &mut Answer, definition: &[u8]) {
    let mut left = Payload { rest: definition };
    for _ in 0..4 {
        left.text(answer);
    }
    let name = left.text(answer);
    put_text(answer, name);
}

// The name in each definition.
fn put_names(answer: &mut Answer, definitions: &[Bytes]) {
    answer.text(" [");
    let start = answer.len();
    for definition in definitions {
        answer.separate(start, ", ");
        put_name(answer, definition.as_slice());
    }
    answer.text("]");
}

// So many definitions and an EOF with these flags, and gives what stands behind; nothing where there are none.
fn put_definitions<'a>(
    answer: &mut Answer,
    status: u16,
    count: usize,
    payloads: &'a [Bytes],
) -> &'a [Bytes] {
    if count == 0 {
        answer.text(" []");
        return payloads;
    }
    let (definitions, behind) = payloads.split_at_checked(count).unwrap_or((&[], payloads));
    put_names(answer, definitions);
    match behind.split_first() {
        Some((eof, rest)) if eof_status(answer, eof.as_slice()) == status => rest,
        _ => {
            answer.bad();
            payloads
        }
    }
}

// A cell. One that is NULL has no bytes in a row of a prepared statement, and its own in a row of texts.
fn put_cell(answer: &mut Answer, left: &mut Payload<'_>, is_null: bool) {
    if is_null {
        answer.text("NULL");
    } else if left.rest.first() == Some(&0xFB) {
        left.bytes(answer, 1);
        answer.text("NULL");
    } else {
        let text = left.text(answer);
        put_text(answer, text);
    }
}

// So many cells of a row. Those whose bit is set are NULL.
fn put_cells(answer: &mut Answer, count: usize, nulls: u8, row: &[u8]) {
    answer.text(" (");
    let start = answer.len();
    let mut nulls = nulls;
    let mut left = Payload { rest: row };
    for _ in 0..count {
        answer.separate(start, ", ");
        put_cell(answer, &mut left, nulls % 2 == 1);
        nulls /= 2;
    }
    left.end(answer);
    answer.text(")");
}

// A row of texts, or one of a prepared statement with its map of NULLs (client/server protocol, "Binary Resultset Row").
fn put_row(answer: &mut Answer, is_binary: bool, count: usize, row: &[u8]) {
    if !is_binary {
        put_cells(answer, count, 0, row);
        return;
    }
    match row {
        [0, nulls, cells @ ..] => put_cells(answer, count, *nulls / 4, cells),
        _ => answer.bad(),
    }
}

fn put_rows(answer: &mut Answer, is_binary: bool, count: usize, rows: &[Bytes]) {
    for row in rows {
        put_row(answer, is_binary, count, row.as_slice());
    }
}

// A word, and the flags of the EOF that ends a reply.
fn put_head(answer: &mut Answer, word: &str, payloads: &[Bytes]) -> u16 {
    answer.text(word);
    let Some(last) = payloads.last() else {
        return 0;
    };
    let status = eof_status(answer, last.as_slice());
    put_flags(answer, status);
    status
}

// A result set.
fn put_table(answer: &mut Answer, is_binary: bool, count: usize, payloads: &[Bytes]) {
    let status = put_head(answer, "rows", payloads);
    match put_definitions(answer, status, count, payloads).split_last() {
        Some((_, rows)) => put_rows(answer, is_binary, count, rows),
        None => answer.bad(),
    }
}

// Parameters first, then columns (client/server protocol, "COM_STMT_PREPARE_OK").
fn put_prepared(answer: &mut Answer, first: &[u8], payloads: &[Bytes]) {
    let mut left = Payload { rest: first };
    left.bytes(answer, 5);
    let columns = usize::from(left.short(answer));
    let parameters = usize::from(left.short(answer));
    left.bytes(answer, 3);
    left.end(answer);
    let status = put_head(answer, "prepared", payloads);
    let rest = put_definitions(answer, status, parameters, payloads);
    let rest = put_definitions(answer, status, columns, rest);
    if !rest.is_empty() {
        answer.bad();
    }
}

// The definitions of a table's columns, and an EOF.
fn put_fields(answer: &mut Answer, payloads: &[Bytes]) {
    put_head(answer, "fields", payloads);
    match payloads.split_last() {
        Some((_, definitions)) => put_names(answer, definitions),
        None => answer.bad(),
    }
}

fn put_result(answer: &mut Answer, verb: Verb, first: &[u8], rest: &[Bytes]) {
    match first {
        [count] => put_table(answer, matches!(verb, Verb::Execute), *count as usize, rest),
        _ => answer.bad(),
    }
}

fn put_lone(answer: &mut Answer, first: &[u8], rest: &[Bytes]) {
    if !rest.is_empty() {
        answer.bad();
    }
    match first.first() {
        Some(0xFF) => put_err(answer, first),
        _ => put_ok(answer, first),
    }
}

/// A reply: `ok`, `rows`, `prepared` or `fields`, with `+tx` in a transaction and `-autocommit` where that is off; `err` with
/// its code, SQL state and message; or `nothing`. An OK shows its affected rows and insert id unless both are 0, a result
/// set the names of its columns in `[]` and each row in `()`, a prepare answer those of parameters and of columns. Bad
/// where it is no reply to this command.
pub fn put_reply(answer: &mut Answer, verb: Verb, payloads: &[Bytes]) {
    let Some((first, rest)) = payloads.split_first() else {
        answer.text("nothing");
        return;
    };
    match (verb, first.as_slice().first()) {
        (_, Some(0xFF)) => put_lone(answer, first.as_slice(), rest),
        (Verb::Prepare, _) => put_prepared(answer, first.as_slice(), rest),
        (Verb::Fields, _) => put_fields(answer, payloads),
        (_, Some(0)) => put_lone(answer, first.as_slice(), rest),
        _ => put_result(answer, verb, first.as_slice(), rest),
    }
}
