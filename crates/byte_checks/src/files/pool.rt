// What is asked of a table of servers.
use crate::files::answers::{Answering, answer_all};
use crate::files::rows::{rows_by, rows_of};
use crate::files::servers::{build, reload};
use check_lines::{Answer, Fields};
use hostgroups::{ServerRow, ServerStatus, Servers};
use mx_base::{Hostgroup, ServerId};
use std::fmt::Debug;

/// A table of servers, and how many connections each has.
#[derive(Drop)]
struct Pool {
    servers: Servers,
    counts: Vec<u32>,
}

/// `pool <row> <row> .. | <step> <step> ..`: the answers to the steps.
///
/// | Step | Asks for |
/// |---|---|
/// | `picks:<hostgroup>,<times>` | so many picks in a row, on which nothing is opened |
/// | `open:<hostgroup>` | a pick, on which a connection is opened |
/// | `close:<server>` | a connection is closed |
/// | `failed:<server>,<ms>` | an open failed at this moment |
/// | `tick:<ms>` | this moment |
/// | `up:<server>`, `soft:<server>`, `hard:<server>` | an operator's status: ONLINE, OFFLINE_SOFT, OFFLINE_HARD |
/// | `online:<hostgroup>`, `status:<server>` | what `Servers` says |
/// | `load:<row>/<row>..` | these rows are put in force |
pub(crate) fn follow(fields: &mut Fields<'_>) {
    let (rows, steps) = fields.rest_text().split_once(" | ").unwrap_or(("", ""));
    let rows = rows_of(fields, rows);
    let counts = fields.answer.repeated(0, rows.len());
    match build(fields.answer.alloc(), &rows) {
        Ok(servers) => {
            let mut pool = Pool { servers, counts };
            answer_all(fields, &mut pool, steps, " ", "");
        }
        Err(_) => fields.answer.bad(),
    }
}

fn told<T: Debug + Drop>(answer: &mut Answer, value: T) {
    answer.separate(0, " ");
    answer.debug(value);
}

fn told_pick(answer: &mut Answer, picked: Option<ServerId>) {
    answer.separate(0, " ");
    match picked {
        Some(server) => answer.display(server.0),
        None => answer.text("none"),
    }
}

// `<name>:<first>` or `<name>:<first>,<second>`.
impl Answering for Pool {
    fn answer(&mut self, fields: &mut Fields<'_>) {
        let (name, numbers) = fields.case.reader.split_once(':').unwrap_or(("", ""));
        if name == "load" {
            let rows = rows_by(fields, numbers, "/");
            self.load(&mut fields.answer, &rows);
            return;
        }
        let answer = &mut fields.answer;
        let (first, second) = numbers.split_once(',').unwrap_or((numbers, "0"));
        let first = answer.parsed(first);
        let second = answer.parsed(second);
        self.take(answer, name, first, second);
    }
}

impl Pool {
    fn take(&mut self, answer: &mut Answer, name: &str, first: u16, second: u64) {
        let hostgroup = Hostgroup(first);
        let server = ServerId(first);
        match name {
            "picks" => self.picks(answer, hostgroup, second),
            "open" => self.open(answer, hostgroup),
            "online" => told(answer, self.servers.online(hostgroup)),
            "status" => told(answer, self.servers.status(server)),
            "close" => self.count(server, false),
            "tick" => self.servers.tick(u64::from(first)),
            "failed" => self.servers.open_failed(server, second),
            _ => self.restate(answer, name, server),
        }
    }

    // An operator's status.
    fn restate(&mut self, answer: &mut Answer, name: &str, server: ServerId) {
        let status = match name {
            "up" => ServerStatus::Online,
            "soft" => ServerStatus::OfflineSoft,
            "hard" => ServerStatus::OfflineHard,
            _ => return answer.bad(),
        };
        told(answer, self.servers.set_status(server, status));
    }

    fn load(&mut self, answer: &mut Answer, rows: &[ServerRow]) {
        let loaded = reload(answer.alloc(), &mut self.servers, rows);
        told(answer, loaded);
    }

    fn picks(&mut self, answer: &mut Answer, hostgroup: Hostgroup, times: u64) {
        for _ in 0..times {
            let picked = self.servers.pick(hostgroup, self.counts.as_slice());
            told_pick(answer, picked);
        }
    }

    fn open(&mut self, answer: &mut Answer, hostgroup: Hostgroup) {
        let picked = self.servers.pick(hostgroup, self.counts.as_slice());
        if let Some(server) = picked {
            self.count(server, true);
        }
        told_pick(answer, picked);
    }

    // A connection of this server is opened, or closed.
    fn count(&mut self, server: ServerId, is_opened: bool) {
        let at = usize::from(server.0).saturating_sub(1);
        if let Some(count) = self.counts.get_mut(at) {
            *count = if is_opened {
                count.saturating_add(1)
            } else {
                count.saturating_sub(1)
            };
        }
    }
}
