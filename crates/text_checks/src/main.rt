//! Shows what the calls on SQL texts and on the replies to them answer, what a server in memory answers to them, and what the turns of a
//! private world leave, a line for each case of stdin.
#![tactic(auto)]

mod answered;
mod classes;
mod digests;
mod memory;
mod pins;
mod rule_table;
mod rules;
mod settings;
mod show;
mod tokens;

use check_lines::{Case, CaseFault, Fields};
use std::alloc::Global;
use std::io;

fn read(fields: &mut Fields<'_>) {
    match fields.case.reader {
        "tokens" => tokens::tokens(fields),
        "says" => tokens::says_first(fields),
        "token_at" => tokens::token_at(fields),
        "digest" => digests::digest_of(fields),
        "hash" => digests::hash_of(fields),
        "table" => digests::table(fields),
        "fill" => digests::fill(fields),
        "set" => settings::set(fields),
        "collation" => settings::collation(fields),
        "texts" => settings::texts(fields),
        "bring" => settings::bring(fields),
        "class" => classes::class(fields),
        "behind" => classes::behind(fields),
        "opening" => classes::opening(fields),
        "pins" => pins::pins(fields),
        "route" => rules::route(fields),
        "as" => rules::route_as(fields),
        "pattern" => rules::pattern(fields),
        "run" => memory::run_steps(fields),
        "turns" => memory::take_turns(fields),
        _ => fields.answer.bad(),
    }
}

fn answer(alloc: Global, case: &mut Case<'_>) -> Result<String, CaseFault> {
    let mut fields = Fields::of(alloc, *case);
    read(&mut fields);
    *case = fields.case;
    fields.answer.finished()
}

fn main(rt: HostRuntime) -> io::Result<()> {
    check_lines::run(&rt, answer)
}
