// Runs of generated loads in which calls of the wire fail, and what clients are due by sessions of their own.
ghost use Rattle.std.specs.Prelude.{◌≡◌, ◌<◌, [], Some, IfSome};

use crate::fronts::{is_front, login_size};
use crate::given::Given;
use crate::runs::run_given;
use crate::tables::add;
use check_lines::{Answer, Fields};
use generated_load::{LoadAsk, below, load_scripts, load_server, next};
use load_oracle::{Client, walk};
use mem_server::MemServer;
use mx_wire::Entry;
use scripted_wire::Scripted;
use std::thread::Threads;

// How many links the server allows, by a draw.
const CONFIGS: [&str; 3] = ["one_load_link", "two_load_links", "load_links"];

// A load, by which configuration it is served, and the numbers of the calls that fail.
#[derive(Drop)]
struct Trial {
    ask: LoadAsk,
    config: &'static str,
    failing: Vec<u64>,
}

impl Trial {
    // How many statements it has, where no call fails.
    fn calm_statements(&self) -> Option<u64> {
        if self.failing.is_empty() {
            Some(self.ask.statements)
        } else {
            None
        }
    }
}

// The numbers behind one, of which so many fail.
fn failing_behind(answer: &mut Answer, drawn: u64, ask: &LoadAsk) -> Vec<u64> {
    let mut failing = Vec::new(answer.alloc());
    let mut drawn = drawn;
    for _ in 0..drawn % 4 {
        drawn = next(drawn);
        let most = ask.statements.saturating_mul(40).saturating_add(60);
        add(answer, &mut failing, below(drawn, most.max(1)));
    }
    failing
}

// That of a number.
fn trial_of(answer: &mut Answer, start: u64) -> Trial
    ensures { 0 < result.ask.clients }
{
    let first = next(start);
    let second = next(first);
    let ask = LoadAsk {
        start,
        clients: below(first, 9).saturating_add(1),
        statements: below(second, 60).saturating_add(1),
    };
    Trial {
        ask,
        config: CONFIGS[(second % 3) as usize],
        failing: failing_behind(answer, second, &ask),
    }
}

// The wire of a load.
fn wire_of(answer: &mut Answer, trial: Trial) -> Option<Scripted<MemServer>>
    requires { 0 < trial.ask.clients }
    ensures { IfSome result (λ wire. wire.told ≡ Some []) }
{
    let alloc = answer.alloc();
    let scripts = load_scripts(alloc, &trial.ask);
    let server = load_server(alloc);
    let (Ok(scripts), Ok(server)) = (scripts, server) else {
        answer.refused();
        return None;
    };
    let mut servers = Vec::new(alloc);
    add(answer, &mut servers, server);
    Some(Scripted::new(alloc, servers, scripts, trial.failing))
}

// Whether a client was written what it is due, where no call fails, or a front of it, up to errors of the router's.
fn is_due(answer: &mut Answer, client: &Client, is_calm: bool) -> bool {
    let login = client.written.get(..login_size(&client.written));
    match client.due(answer.alloc(), login.unwrap_or(&[])) {
        Ok(due) if is_calm => due == client.written,
        Ok(due) => is_front(&due, &client.written),
        Err(_) => {
            answer.refused();
            false
        }
    }
}

/// Whether a log is as it should be: servers were asked for what clients said alone, and each client was written what it is due. Where no call
/// fails, each statement was replied to.
pub fn is_kept(answer: &mut Answer, log: &[Entry], statements: Option<u64>) -> bool {
    match walk(answer.alloc(), log) {
        Ok(walked) => {
            let mut is_kept = walked.is_theirs();
            let mut replied = 0u64;
            for client in walked.clients() {
                is_kept = is_due(answer, client, statements.is_some()) && is_kept;
                replied = replied.saturating_add(client.replied() as u64);
            }
            is_kept && statements.unwrap_or(replied) == replied
        }
        Err(_) => {
            answer.refused();
            false
        }
    }
}

// Serves a load over a wire that has told nothing.
fn serve<R: Threads + Sync>(
    rt: &R,
    answer: &mut Answer,
    config: &str,
    wire: &mut Scripted<MemServer>,
) -> u8
    requires { wire.old.told ≡ Some [] }
{
    let mut given = Given::of(["serve", config, ""], "");
    given.put = 1;
    given.is_shown = false;
    run_given(rt, answer, given, wire)
}

// Whether the load of a number is served as it should be.
fn is_served<R: Threads + Sync>(rt: &R, answer: &mut Answer, start: u64) -> bool {
    let trial = trial_of(answer, start);
    let config = trial.config;
    let statements = trial.calm_statements();
    let Some(mut wire) = wire_of(answer, trial) else {
        return false;
    };
    let status = serve(rt, answer, config, &mut wire);
    match wire.log() {
        Some(log) => (status == 0 || status == 6) && is_kept(answer, log, statements),
        None => {
            answer.refused();
            false
        }
    }
}

/// `soak <first> <runs>` serves so many loads, with numbers from the first on: of up to nine clients that say up to sixty statements, over one
/// link, two or eight, with up to three calls of the wire that fail. It answers in how many each client was written what it is due by a session of
/// its own.
pub fn soak<R: Threads + Sync>(rt: &R, fields: &mut Fields<'_>) {
    let first: u64 = fields.number();
    let runs: u64 = fields.number();
    let answer = &mut fields.answer;
    let mut kept = 0u64;
    for start in first..first.saturating_add(runs) {
        if is_served(rt, answer, start) {
            kept = kept.saturating_add(1);
        }
    }
    answer.display(kept);
    answer.text(" of ");
    answer.display(runs);
}
