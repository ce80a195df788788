// A table of rules as a case writes it: fields are `key: value` with `, ` between them, and rules have `; ` between them.
use check_lines::Answer;
use mx_base::{Bytes, Hostgroup};
use query_rules::RuleRow;

// A rule of which nothing is said.
fn blank_row() -> RuleRow {
    RuleRow {
        rule_id: 0,
        active: true,
        username: None,
        schemaname: None,
        flagIN: 0,
        digest: None,
        match_digest: None,
        match_pattern: None,
        negate_match_pattern: false,
        flagOUT: None,
        replace_pattern: None,
        destination_hostgroup: None,
        next_query_flagIN: None,
        multiplex: None,
        error_msg: None,
        OK_msg: None,
        apply: false,
    }
}

fn set_number(row: &mut RuleRow, key: &str, value: u32) -> bool {
    let small = u16::try_from(value).unwrap_or(u16::MAX);
    match key {
        "rule_id" => row.rule_id = value,
        "flagIN" => row.flagIN = small,
        "flagOUT" => row.flagOUT = Some(small),
        "next_query_flagIN" => row.next_query_flagIN = Some(small),
        "destination_hostgroup" => row.destination_hostgroup = Some(Hostgroup(small)),
        _ => return false,
    }
    true
}

fn set_flag(row: &mut RuleRow, key: &str, value: bool) -> bool {
    match key {
        "active" => row.active = value,
        "negate_match_pattern" => row.negate_match_pattern = value,
        "multiplex" => row.multiplex = Some(value),
        "apply" => row.apply = value,
        _ => return false,
    }
    true
}

fn text_named<'a>(row: &'a mut RuleRow, key: &str) -> Option<&'a mut Option<Bytes>> {
    match key {
        "username" => Some(&mut row.username),
        "schemaname" => Some(&mut row.schemaname),
        "match_digest" => Some(&mut row.match_digest),
        "match_pattern" => Some(&mut row.match_pattern),
        "replace_pattern" => Some(&mut row.replace_pattern),
        "error_msg" => Some(&mut row.error_msg),
        "OK_msg" => Some(&mut row.OK_msg),
        _ => None,
    }
}

fn set_text(answer: &mut Answer, row: &mut RuleRow, key: &str, value: &str) {
    match text_named(row, key) {
        Some(text) => *text = Some(Bytes::from_vec(answer.spelled(value))),
        None => answer.bad(),
    }
}

// A field is a digest in hex digits, a number, `1` or `0`, or else a text. A text is tried where it is no number.
fn set_field(answer: &mut Answer, row: &mut RuleRow, key: &str, value: &str) {
    if key == "digest" {
        row.digest = u64::from_str_radix(value, 16).ok();
    } else if !set_flag(row, key, value == "1") && !set_counted(row, key, value) {
        set_text(answer, row, key, value);
    }
}

fn set_counted(row: &mut RuleRow, key: &str, value: &str) -> bool {
    match value.parse() {
        Ok(value) => set_number(row, key, value),
        Err(_) => false,
    }
}

fn set_fields(answer: &mut Answer, row: &mut RuleRow, text: &str) {
    for field in text.split(", ") {
        let (key, value) = field.split_once(": ").unwrap_or((field, ""));
        set_field(answer, row, key, value);
    }
}

/// The rows of a table, none of an empty text.
pub fn read_rows(answer: &mut Answer, text: &str) -> Vec<RuleRow> {
    let mut rows = Vec::new(answer.alloc());
    if !text.is_empty() {
        for part in text.split("; ") {
            read_row(answer, &mut rows, part);
        }
    }
    rows
}

fn read_row(answer: &mut Answer, rows: &mut Vec<RuleRow>, text: &str) {
    let mut row = blank_row();
    set_fields(answer, &mut row, text);
    answer.keep(rows, row);
}
