// Files and a sink in memory.
use crate::files::answers::{Answering, answer_all};
use check_lines::{Answer, Fields};
use mem_wire::{MemFiles, MemSink};
use mx_base::Bytes;
use mx_wire::{Files, Sink};
use std::str;

impl Answering for MemFiles {
    fn answer(&mut self, fields: &mut Fields<'_>) {
        match self.read(fields.case.reader) {
            Ok(bytes) => fields.answer.debug(str::from_utf8(&bytes)),
            Err(fault) => fields.answer.debug(fault),
        }
    }
}

impl Answering for MemSink {
    fn answer(&mut self, fields: &mut Fields<'_>) {
        let text = fields.case.reader.as_bytes();
        fields.answer.debug(self.put(text));
    }
}

// The one call that fails.
fn failing_of(fields: &mut Fields<'_>) -> Vec<u64> {
    let call = fields.number();
    fields.answer.repeated(call, 1)
}

fn put_entry(answer: &mut Answer, entries: &mut Vec<(Bytes, Bytes)>, name: &str, text: &str) {
    let name = Bytes::from_vec(answer.spelled(name));
    let text = Bytes::from_vec(answer.spelled(text));
    answer.keep(entries, (name, text));
}

/// `files <failing call> <name>,<name>,..`: what each read answers where the file `a` has the text `one` and `b` has `two`.
pub(crate) fn files(fields: &mut Fields<'_>) {
    let failing = failing_of(fields);
    let alloc = fields.answer.alloc();
    let mut entries = Vec::new(alloc);
    put_entry(&mut fields.answer, &mut entries, "a", "one");
    put_entry(&mut fields.answer, &mut entries, "b", "two");
    let mut files = MemFiles::new(alloc, entries, failing);
    let names = fields.rest_text();
    answer_all(fields, &mut files, names, ",", "; ");
}

/// `sink <failing call> <text> <text> ..`: the answer to each put, and the bytes that were taken.
pub(crate) fn sink(fields: &mut Fields<'_>) {
    let failing = failing_of(fields);
    let mut sink = MemSink::new(fields.answer.alloc(), failing);
    let texts = fields.rest_text();
    answer_all(fields, &mut sink, texts, " ", "; ");
    fields.answer.debug(str::from_utf8(sink.bytes()));
}
