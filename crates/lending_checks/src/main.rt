//! Shows what the calls on links that clients share answer, a line for each case of stdin.
#![tactic(auto)]

mod numbers;
mod pools;
mod prepared;
mod steps;

use check_lines::{Case, CaseFault, Fields};
use std::alloc::Global;
use std::io;

fn read(fields: &mut Fields<'_>) {
    match fields.case.reader {
        "pool" => pools::run(fields),
        "client" => prepared::client(fields),
        "link" => prepared::link(fields),
        "number" => numbers::number(fields),
        "place" => numbers::place(fields),
        "next" => steps::next(fields),
        "prepare" => steps::prepare(fields),
        _ => fields.answer.bad(),
    }
}

fn answer(alloc: Global, case: &mut Case<'_>) -> Result<String, CaseFault> {
    let mut fields = Fields::of(alloc, *case);
    read(&mut fields);
    *case = fields.case;
    fields.answer.finished()
}

fn main(rt: HostRuntime) -> io::Result<()> {
    check_lines::run(&rt, answer)
}
