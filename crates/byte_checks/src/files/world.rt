// What is running, as administrators are told in the cases.
use crate::files::rows::at;
use admin_port::{ClientState, EventKind, EventRow, NamedRow, PoolRow, ProcessRow, Running};
use check_lines::Answer;
use hostgroups::{ServerName, ServerRow, ServerStatus};
use mx_base::{Bytes, ClientNo, Hostgroup};
use query_digest::{DigestKey, DigestTable};
use query_rules::RuleRow;

/// The running rows: two servers, of which one is shunned; a statement that was seen twice; two clients; and so on.
#[derive(Drop)]
pub(crate) struct World {
    servers: Vec<ServerRow>,
    rules: Vec<RuleRow>,
    digests: DigestTable,
    pool: Vec<PoolRow>,
    processes: Vec<ProcessRow>,
    totals: Vec<NamedRow>,
    events: Vec<EventRow>,
    variables: Vec<NamedRow>,
}

fn text(answer: &mut Answer, text: &str) -> Bytes {
    Bytes::from_vec(answer.spelled(text))
}

fn server(hostgroup: u16) -> ServerName {
    ServerName {
        hostgroup: Hostgroup(hostgroup),
        address: at(1, 3306),
    }
}

fn row(hostgroup: u16, status: ServerStatus) -> ServerRow {
    ServerRow {
        hostgroup: Hostgroup(hostgroup),
        address: at(1, 3306),
        weight: 1,
        max_connections: 100,
        status,
    }
}

fn put_named(answer: &mut Answer, rows: &mut Vec<NamedRow>, name: &str, value: &str) {
    let name = text(answer, name);
    let value = text(answer, value);
    answer.keep(rows, NamedRow { name, value });
}

fn digests(answer: &mut Answer) -> DigestTable {
    let mut table = DigestTable::new(answer.alloc());
    for _ in 0..2 {
        let key = DigestKey {
            hostgroup: Hostgroup(1),
            schema: text(answer, "db"),
            user: text(answer, "u"),
            digest: text(answer, "abc"),
        };
        if table.record(key).is_err() {
            answer.refused();
        }
    }
    table
}

fn processes(answer: &mut Answer) -> Vec<ProcessRow> {
    let mut rows = Vec::new(answer.alloc());
    let user = text(answer, "u");
    let pin = text(answer, "transaction");
    answer.keep(
        &mut rows,
        ProcessRow {
            client: ClientNo(1),
            user,
            server: Some(server(1)),
            state: ClientState::Running,
            time_ms: Some(12),
            pinned_by: Some(pin),
        },
    );
    let user = text(answer, "v");
    answer.keep(
        &mut rows,
        ProcessRow {
            client: ClientNo(2),
            user,
            server: None,
            state: ClientState::Idle,
            time_ms: None,
            pinned_by: None,
        },
    );
    rows
}

fn events(answer: &mut Answer) -> Vec<EventRow> {
    let mut rows = Vec::new(answer.alloc());
    let said = text(answer, "Access denied");
    answer.keep(
        &mut rows,
        EventRow {
            moment_ms: 5,
            kind: EventKind::LoginRefused,
            client: Some(ClientNo(3)),
            server: None,
            code: Some(1045),
            text: said,
        },
    );
    let said = text(answer, "");
    answer.keep(
        &mut rows,
        EventRow {
            moment_ms: 7,
            kind: EventKind::ServerShunned,
            client: None,
            server: Some(server(2)),
            code: None,
            text: said,
        },
    );
    rows
}

impl World {
    pub(crate) fn new(answer: &mut Answer) -> World {
        let alloc = answer.alloc();
        let mut servers = Vec::new(alloc);
        answer.keep(&mut servers, row(1, ServerStatus::Online));
        answer.keep(&mut servers, row(2, ServerStatus::Shunned { until_ms: 9 }));
        let mut pool = Vec::new(alloc);
        let status = ServerStatus::Online;
        answer.keep(
            &mut pool,
            PoolRow {
                server: server(1),
                status,
                used: 1,
                free: 2,
            },
        );
        let mut totals = Vec::new(alloc);
        put_named(answer, &mut totals, "clients_connected", "2");
        put_named(answer, &mut totals, "errors_1045", "1");
        let mut variables = Vec::new(alloc);
        put_named(answer, &mut variables, "listen", "127.0.0.1:6033");
        put_named(answer, &mut variables, "max_clients", "1000");
        put_named(answer, &mut variables, "max_packet", "67108864");
        World {
            servers,
            rules: Vec::new(alloc),
            digests: digests(answer),
            pool,
            processes: processes(answer),
            totals,
            events: events(answer),
            variables,
        }
    }

    /// The same with these variables.
    pub(crate) fn with_variables(answer: &mut Answer, variables: Vec<NamedRow>) -> World {
        let mut world = World::new(answer);
        world.variables = variables;
        world
    }

    pub(crate) fn running(&self) -> Running<'_> {
        Running {
            servers: &self.servers,
            rules: &self.rules,
            digests: &self.digests,
            pool: &self.pool,
            processes: &self.processes,
            totals: &self.totals,
            events: &self.events,
            variables: &self.variables,
        }
    }
}
