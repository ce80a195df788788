// Reports of lines.
use crate::gates::{Held, Open};
use audit_report::{AuditAsk, Gate, ReportRow, lines_of, report, report_text};
use check_lines::{Answer, Fields};
use mx_base::{Bytes, Hostgroup, OutOfMemory};
use query_rules::{RuleFault, RuleRow, Rules};
use std::str;
use std::thread::Threads;

/// The lines of a case, which are joined by ` | `; none where there are none.
pub fn lines_in(answer: &mut Answer, text: &str) -> Vec<Bytes> {
    let mut lines = Vec::new(answer.alloc());
    for line in text.split(" | ") {
        let line = Bytes::from_vec(answer.spelled(line));
        answer.keep(&mut lines, line);
    }
    lines
}

// A rule that sends texts with this pattern to a hostgroup.
fn sends(pattern: Bytes, hostgroup: u16) -> RuleRow {
    RuleRow {
        rule_id: 1,
        active: true,
        username: None,
        schemaname: None,
        flagIN: 0,
        digest: None,
        match_digest: None,
        match_pattern: Some(pattern),
        negate_match_pattern: false,
        flagOUT: None,
        replace_pattern: None,
        destination_hostgroup: Some(Hostgroup(hostgroup)),
        next_query_flagIN: None,
        multiplex: None,
        error_msg: None,
        OK_msg: None,
        apply: true,
    }
}

// The rules of a case: none for `-`, and else one that sends texts with this pattern to the hostgroup 7.
fn rules_of(answer: &mut Answer, pattern: &str) -> Result<Rules, RuleFault> {
    let alloc = answer.alloc();
    let mut rows = Vec::new(alloc);
    if pattern != "-" {
        let pattern = Bytes::from_vec(answer.spelled(pattern));
        answer.keep(&mut rows, sends(pattern, 7));
    }
    Rules::build(alloc, &rows)
}

fn ask_of(answer: &Answer) -> AuditAsk {
    AuditAsk {
        user: Bytes::new(answer.alloc()),
        schema: Bytes::new(answer.alloc()),
        default_hostgroup: Hostgroup(0),
    }
}

// Appends the lines of a report, with ` | ` between them.
fn push_rows(answer: &mut Answer, rows: &[ReportRow]) {
    let Ok(text) = report_text(answer.alloc(), rows) else {
        answer.refused();
        return;
    };
    match str::from_utf8(text.as_slice()) {
        Ok(text) => {
            for line in text.lines() {
                answer.separate(0, " | ");
                answer.text(line);
            }
        }
        Err(_) => answer.bytes(text.as_slice()),
    }
}

fn push_report<R: Threads + Sync, G: Gate>(
    rt: &R,
    answer: &mut Answer,
    (workers, pattern): (u16, &str),
    text: &str,
    gate: &G,
) {
    let lines = lines_in(answer, text);
    let ask = ask_of(answer);
    let Ok(rules) = rules_of(answer, pattern) else {
        answer.bad();
        return;
    };
    if workers < 1 || 64 < workers {
        answer.bad();
        return;
    }
    match report(rt, answer.alloc(), &lines, &rules, &ask, workers, gate) {
        Ok(rows) => push_rows(answer, &rows),
        Err(OutOfMemory) => answer.refused(),
    }
}

/// `report <workers> <pattern> <line> | <line> ..`: the report of these lines, by a rule that sends those in which the pattern finds
/// something to the hostgroup 7, or without rules for `-`.
pub fn report_of_lines<R: Threads + Sync>(rt: &R, fields: &mut Fields<'_>) {
    let workers = fields.number();
    let pattern = fields.text();
    let text = fields.rest_text();
    push_report(rt, &mut fields.answer, (workers, pattern), text, &Open);
}

/// `gate <line> | <line> ..`: the report of these lines with two workers, where a gate holds the first piece until the second has
/// passed; and whether the turns of the gate ran out.
pub fn held<R: Threads + Sync>(rt: &R, fields: &mut Fields<'_>) {
    let text = fields.rest_text();
    let gate = Held::new();
    push_report(rt, &mut fields.answer, (2, "-"), text, &gate);
    if gate.ran_out() {
        fields.answer.text(" ran out");
    }
}

/// `lines <file>`: the lines of a file, each in quotes.
pub fn lines(fields: &mut Fields<'_>) {
    let file = fields.rest_bytes();
    match lines_of(fields.answer.alloc(), &file) {
        Ok(lines) => {
            for line in &lines {
                push_line(&mut fields.answer, line);
            }
        }
        Err(OutOfMemory) => fields.answer.refused(),
    }
}

fn push_line(answer: &mut Answer, line: &Bytes) {
    answer.separate(0, " ");
    answer.bytes(line.as_slice());
}
