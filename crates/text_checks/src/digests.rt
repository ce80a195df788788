// Digests, their hashes, and tables of them.
use crate::show::{or_none, push_bytes, push_quoted};
use check_lines::{Answer, Fields};
use mx_base::{Bytes, Hostgroup, OutOfMemory};
use query_digest::{Counted, DigestKey, DigestTable, digest, digest_hash};

/// `hash <text>`: the hash of a digest.
pub(crate) fn hash_of(fields: &mut Fields<'_>) {
    let text = fields.rest_bytes();
    fields.answer.digits(&digest_hash(&text).to_be_bytes());
}

/// `digest <text>`: its digest.
pub(crate) fn digest_of(fields: &mut Fields<'_>) {
    let text = fields.rest_bytes();
    match digest(fields.answer.alloc(), &text) {
        Ok(digest) => push_quoted(&mut fields.answer, digest.as_slice()),
        Err(OutOfMemory) => fields.answer.refused(),
    }
}

/// `table <statement> | <statement> ..`, each of hostgroup, schema, user and text: what recording each did, and the rows of the
/// table.
pub(crate) fn table(fields: &mut Fields<'_>) {
    let mut table = DigestTable::new(fields.answer.alloc());
    let text = fields.rest_text();
    if !text.is_empty() {
        record_all(fields, text, &mut table);
    }
    push_rows(&mut fields.answer, &table);
}

fn record_all<'a>(fields: &mut Fields<'a>, text: &'a str, table: &mut DigestTable) {
    for part in text.split(" | ") {
        fields.answer.separate(0, " ");
        fields.case.rest = part;
        record_next(fields, table);
    }
    fields.answer.text(": ");
}

// Records the statement that the fields are of, and appends what that did.
fn record_next(fields: &mut Fields<'_>, table: &mut DigestTable) {
    let hostgroup = fields.number();
    let schema = fields.bytes();
    let user = fields.bytes();
    let text = fields.rest_text();
    let key = DigestKey {
        hostgroup: Hostgroup(hostgroup),
        schema: Bytes::from_vec(schema),
        user: Bytes::from_vec(user),
        digest: digest_or_none(&mut fields.answer, text.as_bytes()),
    };
    let counted = record(&mut fields.answer, table, key);
    push_counted(&mut fields.answer, counted);
}

// The digest of a text, or none where memory is refused.
fn digest_or_none(answer: &mut Answer, text: &[u8]) -> Bytes {
    match digest(answer.alloc(), text) {
        Ok(digest) => digest,
        Err(OutOfMemory) => {
            answer.refused();
            Bytes::new(answer.alloc())
        }
    }
}

// Records a key.
fn record(answer: &mut Answer, table: &mut DigestTable, key: DigestKey) -> Option<Counted> {
    match table.record(key) {
        Ok(counted) => Some(counted),
        Err(OutOfMemory) => {
            answer.refused();
            None
        }
    }
}

fn push_counted(answer: &mut Answer, counted: Option<Counted>) {
    if let Some(counted) = counted {
        answer.debug(counted);
    }
}

fn push_rows(answer: &mut Answer, table: &DigestTable) {
    let start = answer.len();
    for (key, count) in table.iter() {
        answer.separate(start, " | ");
        push_row(answer, key, *count);
    }
    or_none(answer, start, "empty");
}

fn push_row(answer: &mut Answer, key: &DigestKey, count: u64) {
    answer.display(key.hostgroup.0);
    answer.text(" ");
    push_bytes(answer, key.schema.as_slice());
    answer.text(" ");
    push_bytes(answer, key.user.as_slice());
    answer.text(" ");
    push_quoted(answer, key.digest.as_slice());
    answer.text(" ");
    answer.display(count);
}

/// `fill <count> <hostgroup> <hostgroup> <text>`: records the text in so many hostgroups, and then in the two that are named: how
/// many rows there are, and what the two did.
pub(crate) fn fill(fields: &mut Fields<'_>) {
    let count = fields.number();
    let named = [fields.number(), fields.number()];
    let text = fields.rest_text();
    let mut table = DigestTable::new(fields.answer.alloc());
    fill_table(&mut fields.answer, &mut table, count, text);
    push_named(&mut fields.answer, &mut table, named, text);
}

fn fill_table(answer: &mut Answer, table: &mut DigestTable, count: u16, text: &str) {
    for hostgroup in 0..count {
        record_in(answer, table, hostgroup, text);
    }
}

fn push_named(answer: &mut Answer, table: &mut DigestTable, named: [u16; 2], text: &str) {
    answer.display(table.len());
    answer.text(" rows:");
    for hostgroup in named {
        answer.text(" ");
        let counted = record_in(answer, table, hostgroup, text);
        push_counted(answer, counted);
    }
}

// Records a text of the schema `s` and the user `u`.
fn record_in(
    answer: &mut Answer,
    table: &mut DigestTable,
    hostgroup: u16,
    text: &str,
) -> Option<Counted> {
    let key = DigestKey {
        hostgroup: Hostgroup(hostgroup),
        schema: Bytes::from_vec(answer.spelled("s")),
        user: Bytes::from_vec(answer.spelled("u")),
        digest: digest_or_none(answer, text.as_bytes()),
    };
    record(answer, table, key)
}
