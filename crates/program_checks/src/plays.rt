// Runs between clients that follow scripts and servers in memory.
ghost use Rattle.std.specs.Prelude.{◌≡◌, [], Some};

use crate::given::{Given, failing_of};
use crate::runs::run_given;
use crate::scripts::scripts_of;
use crate::shown::{View, Whole, show};
use crate::tables::add;
use check_lines::{Answer, Fields};
use mem_server::MemServer;
use scripted_wire::Scripted;
use std::thread::Threads;

// So many servers, the scripts of clients, and the calls that fail.
#[derive(Clone, Copy)]
struct Play<'a> {
    servers: usize,
    scripts: &'a str,
    failing: u64,
    others: &'a str,
}

// So many servers without tables.
fn servers_of(answer: &mut Answer, count: usize) -> Vec<MemServer> {
    let mut servers = Vec::new(answer.alloc());
    for _ in 0..count {
        let server = MemServer::new(answer.alloc());
        add(answer, &mut servers, server);
    }
    servers
}

// Serves the configuration of one server over a wire that has told nothing.
fn serve<R: Threads + Sync>(
    rt: &R,
    answer: &mut Answer,
    wire: &mut Scripted<MemServer>,
    view: View<'_>,
)
    requires { wire.old.told ≡ Some [] }
{
    let mut given = Given::of(["serve", "one_server", ""], "");
    given.put = 1;
    given.is_shown = view.is_transcript();
    let status = run_given(rt, answer, given, wire);
    show(answer, status, wire.log(), view);
}

// Serves it between these clients and servers.
fn run<R: Threads + Sync>(rt: &R, answer: &mut Answer, play: Play<'_>, view: View<'_>) {
    let scripts = scripts_of(answer, play.scripts);
    let servers = servers_of(answer, play.servers);
    let failing = failing_of(answer, play.failing, play.others);
    let mut wire = Scripted::new(answer.alloc(), servers, scripts, failing);
    serve(rt, answer, &mut wire, view);
}

/// `scripted <servers> <failing> <script> | <script> ..` answers the status, and the transcript of the wire with a `|` in place of each line
/// feed.
pub fn one<R: Threads + Sync>(rt: &R, fields: &mut Fields<'_>) {
    let play = Play {
        servers: fields.number(),
        failing: 0,
        others: fields.text(),
        scripts: fields.rest_text(),
    };
    let view = View::Transcript {
        between: "",
        blank: " ",
    };
    run(rt, &mut fields.answer, play, view);
}

// Runs that differ in the call that fails, from one number to another, and what each client is written where none fails.
#[derive(Drop)]
struct Runs<'a> {
    play: Play<'a>,
    first: u64,
    last: u64,
    whole: Whole,
}

// Whether the run in which this call fails is as it should be.
fn is_same<R: Threads + Sync>(rt: &R, answer: &mut Answer, runs: &Runs<'_>, call: u64) -> bool {
    let mut shown = Answer::new(answer.alloc());
    let play = Play {
        failing: call,
        ..runs.play
    };
    run(rt, &mut shown, play, View::Fronts(&runs.whole));
    match shown.finished() {
        Ok(text) => text.as_str() == "same",
        Err(fault) => {
            answer.fail(fault);
            false
        }
    }
}

// In how many of the runs it is so, and whether the last call is made where none fails.
fn push_kept(answer: &mut Answer, runs: &Runs<'_>, kept: u64) {
    answer.display(kept);
    answer.text(" of ");
    answer.display(runs.last.saturating_add(1).saturating_sub(runs.first));
    answer.text(", call ");
    answer.display(runs.last);
    answer.text(if runs.last <= runs.whole.calls {
        " is made"
    } else {
        " is not made"
    });
}

fn each_of<R: Threads + Sync>(rt: &R, answer: &mut Answer, runs: &mut Runs<'_>) {
    run(rt, answer, runs.play, View::Keeps(&mut runs.whole));
    let mut kept: u64 = 0;
    for call in runs.first..runs.last.saturating_add(1) {
        if is_same(rt, answer, runs, call) {
            kept = kept.saturating_add(1);
        }
    }
    push_kept(answer, runs, kept);
}

/// `fails <servers> <first> <last> <clients> <script> | <script> ..` runs once with no call that fails, and once for each number from
/// `<first>` to `<last>` with that call failing. It answers in how many of these runs each client was written a front of what it was in
/// the first, and whether the first made as many calls.
pub fn each_failing<R: Threads + Sync>(rt: &R, fields: &mut Fields<'_>) {
    let servers = fields.number();
    let first = fields.number();
    let last = fields.number();
    let clients = fields.number();
    let play = Play {
        servers,
        failing: 0,
        others: "-",
        scripts: fields.rest_text(),
    };
    let whole = Whole {
        clients,
        calls: 0,
        written: Vec::new(fields.answer.alloc()),
    };
    let mut runs = Runs {
        play,
        first,
        last,
        whole,
    };
    each_of(rt, &mut fields.answer, &mut runs);
}
