// What whitelists allow.
use crate::reports::lines_in;
use check_lines::{Answer, Fields};
use mx_base::{Bytes, Items, OutOfMemory};
use query_digest::{digest, digest_hash};
use sql_whitelist::{ListRow, Whitelist, digests_line, hashes};
use std::str;

// The digests of lines.
fn digests_of(answer: &mut Answer, text: &str) -> Vec<Bytes> {
    let mut digests = Vec::new(answer.alloc());
    for line in &lines_in(answer, text) {
        match digest(answer.alloc(), line.as_slice()) {
            Ok(digest) => answer.keep(&mut digests, digest),
            Err(OutOfMemory) => answer.refused(),
        }
    }
    digests
}

/// `hashes <line> | <line> ..`: the key `digests` with the hashes of the lines' digests.
pub fn hashes_of(fields: &mut Fields<'_>) {
    let alloc = fields.answer.alloc();
    let text = fields.rest_text();
    let digests = digests_of(&mut fields.answer, text);
    let Ok(hashes) = hashes(alloc, &digests) else {
        fields.answer.refused();
        return;
    };
    match digests_line(alloc, &hashes) {
        Ok(line) => fields
            .answer
            .text(str::from_utf8(line.as_slice()).unwrap_or("").trim_end()),
        Err(OutOfMemory) => fields.answer.refused(),
    }
}

// A row as a case writes it: a user, a schema and a statement.
fn add_row(answer: &mut Answer, rows: &mut Vec<ListRow>, row: &str) {
    let Some((user, rest)) = row.split_once(' ') else {
        answer.bad();
        return;
    };
    let Some((schema, text)) = rest.split_once(' ') else {
        answer.bad();
        return;
    };
    let mut listed = Vec::new(answer.alloc());
    for digest in &digests_of(answer, text) {
        answer.keep(&mut listed, digest_hash(digest.as_slice()));
    }
    let row = ListRow {
        user: Bytes::from_vec(answer.spelled(user)),
        schema: Bytes::from_vec(answer.spelled(schema)),
        digests: Items::from_vec(listed),
    };
    answer.keep(rows, row);
}

/// `allows <user> <schema> <statement>; .. => <user> <schema> <statement>; ..`: whether a list of the first rows has each of the
/// second ones.
pub fn allows(fields: &mut Fields<'_>) {
    let case = fields.rest_text();
    let (listed, asked) = case.split_once(" => ").unwrap_or(("", case));
    let answer = &mut fields.answer;
    let mut rows = Vec::new(answer.alloc());
    if !listed.is_empty() {
        for row in listed.split("; ") {
            add_row(answer, &mut rows, row);
        }
    }
    match Whitelist::build(answer.alloc(), &rows) {
        Ok(list) => push_allowed(answer, &list, asked),
        Err(OutOfMemory) => answer.refused(),
    }
}

fn push_allowed(answer: &mut Answer, list: &Whitelist, asked: &str) {
    let mut rows = Vec::new(answer.alloc());
    for row in asked.split("; ") {
        add_row(answer, &mut rows, row);
    }
    for row in &rows {
        for hash in row.digests.as_slice() {
            let is_allowed = list.allows(row.user.as_slice(), row.schema.as_slice(), *hash);
            answer.separate(0, " ");
            answer.text(if is_allowed { "yes" } else { "no" });
        }
    }
}
