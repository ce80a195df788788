// A pool of 8 links, 8 clients, and 4 keys, places, hostgroups and servers.
ghost use Rattle.std.specs.Prelude.{◌<◌, ◌≡◌, IfOk};
ghost use Rattle.lending_checks.specs.Small.{IsTable};

use check_lines::{Answer, Fields};
use conn_pool::{Pool, Shelf, Sizes};
use mx_base::OutOfMemory;
use std::alloc::Global;

/// `pool <step>, <step>..`. With a moment last: `open <link> <server> <key>`, `steps <link> <key>`, `back <link> <key> <place> <group> <server>`,
/// `aside <server>`, `forth <server>`, `expire <idle ms>`, `wait <client> <key>`. Without a moment: `lend <key> <place>`, `evict <group>`,
/// `in <link>`, `close <link>`, `leave <client>`, `oldest`, `first <key>`, `next <client>`, `since <client>`, `wants <key>`, `connections <server>`,
/// `longest <server>`, `total`.
pub(crate) fn run(fields: &mut Fields<'_>) {
    let steps = fields.rest_text();
    match pool(fields.answer.alloc()) {
        Ok(mut pool) => {
            for step in steps.split(", ") {
                take(&mut fields.answer, &mut pool, step);
            }
        }
        Err(OutOfMemory) => fields.answer.refused(),
    }
}

fn pool(alloc: Global) -> Result<Pool, OutOfMemory>
    ensures { IfOk result IsTable }
{
    let sizes = Sizes {
        links: 8,
        waiters: 8,
        keys: 4,
        places: 4,
        groups: 4,
        servers: 4,
    };
    Pool::new(alloc, &sizes)
}

// The number that a text spells, below a bound; else 0 and the fault.
fn below(answer: &mut Answer, text: &str, most: u32) -> u32
    requires { 0 < most }
    ensures { result < most }
{
    let number: u32 = answer.parsed(text);
    if number < most {
        number
    } else {
        answer.bad();
        0
    }
}

// The next word of a step.
fn word<'a>(rest: &mut &'a str) -> &'a str {
    let whole: &'a str = rest;
    match whole.split_once(' ') {
        Some((first, behind)) => {
            *rest = behind;
            first
        }
        None => {
            *rest = "";
            whole
        }
    }
}

fn take(answer: &mut Answer, pool: &mut Pool, step: &str)
    requires { IsTable pool.old }
    ensures { IsTable pool.new }
{
    let mut rest = step;
    match word(&mut rest) {
        "open" => open(answer, pool, rest),
        "in" => {
            let link = below(answer, rest, 8);
            pool.logged_in(link);
        }
        "steps" => steps(answer, pool, rest),
        "back" => back(answer, pool, rest),
        "close" => {
            let link = below(answer, rest, 8);
            pool.close(link);
        }
        "connections" => connections(answer, pool, rest),
        "longest" => longest(answer, pool, rest),
        "total" => {
            answer.separate(0, ", ");
            answer.display(pool.total());
        }
        verb => choose(answer, pool, verb, rest),
    }
}

// The steps that choose a link.
fn choose(answer: &mut Answer, pool: &mut Pool, verb: &str, step: &str)
    requires { IsTable pool.old }
    ensures { IsTable pool.new }
{
    match verb {
        "lend" => lend(answer, pool, step),
        "evict" => evict(answer, pool, step),
        "expire" => expire(answer, pool, step),
        "aside" => aside(answer, pool, step),
        "forth" => forth(answer, pool, step),
        verb => queue(answer, pool, verb, step),
    }
}

// The steps of clients that wait.
fn queue(answer: &mut Answer, pool: &mut Pool, verb: &str, step: &str)
    requires { IsTable pool.old }
    ensures { IsTable pool.new }
{
    match verb {
        "wait" => wait(answer, pool, step),
        "leave" => {
            let client = below(answer, step, 8);
            pool.leave(client);
        }
        "oldest" => push(answer, pool.oldest()),
        "first" => first(answer, pool, step),
        "next" => next(answer, pool, step),
        "since" => since(answer, pool, step),
        "wants" => wants(answer, pool, step),
        _ => answer.bad(),
    }
}

fn push(answer: &mut Answer, number: Option<u32>) {
    answer.separate(0, ", ");
    match number {
        Some(number) => answer.display(number),
        None => answer.text("none"),
    }
}

fn open(answer: &mut Answer, pool: &mut Pool, step: &str)
    requires { IsTable pool.old }
    ensures { IsTable pool.new }
{
    let mut rest = step;
    let link = below(answer, word(&mut rest), 8);
    let server = below(answer, word(&mut rest), 4);
    let key = below(answer, word(&mut rest), 4);
    let moment = answer.parsed(rest);
    pool.opened(link, server, key, moment);
}

fn steps(answer: &mut Answer, pool: &mut Pool, step: &str)
    requires { IsTable pool.old }
    ensures { IsTable pool.new }
{
    let mut rest = step;
    let link = below(answer, word(&mut rest), 8);
    let key = below(answer, word(&mut rest), 4);
    let moment = answer.parsed(rest);
    pool.steps(link, key, moment);
}

fn back(answer: &mut Answer, pool: &mut Pool, step: &str)
    requires { IsTable pool.old }
    ensures { IsTable pool.new }
{
    let mut rest = step;
    let link = below(answer, word(&mut rest), 8);
    let at = Shelf {
        key: below(answer, word(&mut rest), 4),
        place: below(answer, word(&mut rest), 4),
        group: below(answer, word(&mut rest), 4),
        server: below(answer, word(&mut rest), 4),
    };
    let moment = answer.parsed(rest);
    pool.give_back(link, &at, moment);
}

#[tactic(auto, using(crate::proofs::Small::table_busy))]
fn lend(answer: &mut Answer, pool: &mut Pool, step: &str)
    requires { IsTable pool.old }
    ensures { IsTable pool.new }
{
    let mut rest = step;
    let key = below(answer, word(&mut rest), 4);
    let place = below(answer, rest, 4);
    let link = pool.lend(key, place);
    push(answer, link);
}

#[tactic(auto, using(crate::proofs::Small::table_busy))]
fn evict(answer: &mut Answer, pool: &mut Pool, step: &str)
    requires { IsTable pool.old }
    ensures { IsTable pool.new }
{
    let group = below(answer, step, 4);
    let link = pool.evict(group);
    push(answer, link);
}

#[tactic(auto, using(crate::proofs::Small::table_busy))]
fn expire(answer: &mut Answer, pool: &mut Pool, step: &str)
    requires { IsTable pool.old }
    ensures { IsTable pool.new }
{
    let mut rest = step;
    let idle_ms = answer.parsed(word(&mut rest));
    let moment = answer.parsed(rest);
    let link = pool.expire(moment, idle_ms);
    push(answer, link);
}

#[tactic(auto, using(crate::proofs::Small::table_aside))]
fn aside(answer: &mut Answer, pool: &mut Pool, step: &str)
    requires { IsTable pool.old }
    ensures { IsTable pool.new }
{
    let mut rest = step;
    let server = below(answer, word(&mut rest), 4);
    let moment = answer.parsed(rest);
    let link = pool.put_aside(server, moment);
    push(answer, link);
}

#[tactic(auto, using(crate::proofs::Small::table_back))]
fn forth(answer: &mut Answer, pool: &mut Pool, step: &str)
    requires { IsTable pool.old }
    ensures { IsTable pool.new }
{
    let mut rest = step;
    let server = below(answer, word(&mut rest), 4);
    let moment = answer.parsed(rest);
    let link = pool.bring_back(server, moment);
    push(answer, link);
}

fn wait(answer: &mut Answer, pool: &mut Pool, step: &str)
    requires { IsTable pool.old }
    ensures { IsTable pool.new }
{
    let mut rest = step;
    let client = below(answer, word(&mut rest), 8);
    let key = below(answer, word(&mut rest), 4);
    let moment = answer.parsed(rest);
    pool.wait(client, key, moment);
}

fn first(answer: &mut Answer, pool: &Pool, step: &str)
    requires { IsTable pool.now }
{
    let key = below(answer, step, 4);
    push(answer, pool.oldest_of(key));
}

fn next(answer: &mut Answer, pool: &Pool, step: &str)
    requires { IsTable pool.now }
{
    let client = below(answer, step, 8);
    push(answer, pool.next(client));
}

fn since(answer: &mut Answer, pool: &Pool, step: &str)
    requires { IsTable pool.now }
{
    let client = below(answer, step, 8);
    answer.separate(0, ", ");
    answer.display(pool.waits_since(client));
}

fn wants(answer: &mut Answer, pool: &Pool, step: &str)
    requires { IsTable pool.now }
{
    let key = below(answer, step, 4);
    answer.separate(0, ", ");
    answer.display(pool.wants_link(key));
}

fn connections(answer: &mut Answer, pool: &Pool, step: &str)
    requires { IsTable pool.now }
{
    let server = below(answer, step, 4);
    answer.separate(0, ", ");
    answer.display(pool.connections()[server as usize]);
}

fn longest(answer: &mut Answer, pool: &Pool, step: &str)
    requires { IsTable pool.now }
{
    let server = below(answer, step, 4);
    push(answer, pool.oldest_link_to(server));
}
