// Tables of servers.
use crate::files::rows::{at, like_rows, rows_of};
use check_lines::{Answer, Fields};
use hostgroups::{ServerRow, ServerStatus, Servers, ServersFault};
use mx_base::{Address, Hostgroup, ServerId};
use std::alloc::Global;

// What is asked of a table.
#[derive(Clone, Copy)]
enum Asked {
    Fault,
    Number(Hostgroup, Address),
    Server(ServerId),
}

/// The table of these rows.
pub(crate) fn build(alloc: Global, rows: &[ServerRow]) -> Result<Servers, ServersFault> {
    if !rows.iter().all(|row| row.weight >= 1) {
        return Err(ServersFault::NumbersSpent);
    }
    Servers::build(alloc, rows)
}

/// Puts these rows in force.
pub(crate) fn reload(
    alloc: Global,
    servers: &mut Servers,
    rows: &[ServerRow],
) -> Result<(), ServersFault> {
    if !rows.iter().all(|row| row.weight >= 1) {
        return Err(ServersFault::NumbersSpent);
    }
    servers.reload(alloc, rows)
}

// The answer of a table of these rows, or of none where it has a fault.
fn ask(answer: &mut Answer, rows: &[ServerRow], asked: Asked) {
    match build(answer.alloc(), rows) {
        Ok(servers) => found(answer, &servers, asked),
        Err(fault) => missing(answer, fault, asked),
    }
}

fn found(answer: &mut Answer, servers: &Servers, asked: Asked) {
    match asked {
        Asked::Fault => answer.debug(None::<ServersFault>),
        Asked::Number(hostgroup, address) => answer.debug(servers.number(hostgroup, address)),
        Asked::Server(number) => answer.debug((servers.status(number), servers.row(number))),
    }
}

fn missing(answer: &mut Answer, fault: ServersFault, asked: Asked) {
    match asked {
        Asked::Fault => answer.debug(Some(fault)),
        Asked::Number(..) => answer.debug(None::<ServerId>),
        Asked::Server(_) => answer.debug((None::<ServerStatus>, None::<ServerRow>)),
    }
}

fn ask_rest(fields: &mut Fields<'_>, asked: Asked) {
    let rows = fields.rest_text();
    let rows = rows_of(fields, rows);
    ask(&mut fields.answer, &rows, asked);
}

/// `servers <row> <row> ..`: the fault of the table of these rows, if it has one.
pub(crate) fn servers(fields: &mut Fields<'_>) {
    ask_rest(fields, Asked::Fault);
}

/// `like_servers <count> <connections>`: the fault of a table of so many servers, each with so many connections.
pub(crate) fn like_servers(fields: &mut Fields<'_>) {
    let count = fields.number();
    let connections = fields.number();
    let rows = like_rows(&mut fields.answer, count, connections);
    ask(&mut fields.answer, &rows, Asked::Fault);
}

/// `number <hostgroup> <host> <port> <row> <row> ..`: the number of this server.
pub(crate) fn number(fields: &mut Fields<'_>) {
    let hostgroup = Hostgroup(fields.number());
    let host = fields.number();
    let address = at(host, fields.number());
    ask_rest(fields, Asked::Number(hostgroup, address));
}

/// `server <number> <row> <row> ..`: the status of the server with this number, and its row.
pub(crate) fn server(fields: &mut Fields<'_>) {
    let number = ServerId(fields.number());
    ask_rest(fields, Asked::Server(number));
}
