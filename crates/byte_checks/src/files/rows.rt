// Rows of servers.
use crate::files::answers::{Answering, answer_all};
use check_lines::{Answer, Fields};
use hostgroups::{ServerRow, ServerStatus};
use mx_base::{Address, Hostgroup};

/// The address 127.0.x.y of a host's number and a port.
pub(crate) fn at(host: u16, port: u16) -> Address {
    let [x, y] = host.to_be_bytes();
    Address {
        ip: [127, 0, x, y],
        port,
    }
}

/// The row of `<hostgroup>,<host>,<port>,<connections>,<status>`, of weight 1; or of
/// `<hostgroup>,<port>,<weight>,<connections>`, of the host 1 and ONLINE.
fn row_of(numbers: &[u16]) -> Option<ServerRow> {
    match numbers {
        [hostgroup, host, port, connections, status] => Some(ServerRow {
            hostgroup: Hostgroup(*hostgroup),
            address: at(*host, *port),
            weight: 1,
            max_connections: *connections,
            status: status_of(*status),
        }),
        [hostgroup, port, weight, connections] => Some(ServerRow {
            hostgroup: Hostgroup(*hostgroup),
            address: at(1, *port),
            weight: *weight,
            max_connections: *connections,
            status: ServerStatus::Online,
        }),
        _ => None,
    }
}

fn status_of(status: u16) -> ServerStatus {
    match status {
        0 => ServerStatus::Online,
        1 => ServerStatus::OfflineSoft,
        _ => ServerStatus::OfflineHard,
    }
}

// The numbers of a field, with a comma between each two.
fn numbers(answer: &mut Answer, field: &str) -> Vec<u16> {
    let mut numbers = Vec::new(answer.alloc());
    for number in field.split(',') {
        let number = answer.parsed(number);
        answer.keep(&mut numbers, number);
    }
    numbers
}

fn put_row(answer: &mut Answer, rows: &mut Vec<ServerRow>, numbers: &[u16]) {
    match row_of(numbers) {
        Some(row) => answer.keep(rows, row),
        None => answer.bad(),
    }
}

impl Answering for Vec<ServerRow> {
    fn answer(&mut self, fields: &mut Fields<'_>) {
        let numbers = numbers(&mut fields.answer, fields.case.reader);
        put_row(&mut fields.answer, self, &numbers);
    }
}

/// The rows of fields with such a mark between each two.
pub(crate) fn rows_by<'a>(fields: &mut Fields<'a>, text: &'a str, mark: &str) -> Vec<ServerRow> {
    let mut rows = Vec::new(fields.answer.alloc());
    if !text.is_empty() {
        answer_all(fields, &mut rows, text, mark, "");
    }
    rows
}

/// The rows of fields with a blank between each two.
pub(crate) fn rows_of<'a>(fields: &mut Fields<'a>, text: &'a str) -> Vec<ServerRow> {
    rows_by(fields, text, " ")
}

/// So many rows of the host 1, each with a port of its own and so many connections.
pub(crate) fn like_rows(answer: &mut Answer, count: u16, connections: u16) -> Vec<ServerRow> {
    let mut rows = Vec::new(answer.alloc());
    for port in 0..count {
        put_row(answer, &mut rows, &[0, port, 1, connections]);
    }
    rows
}
