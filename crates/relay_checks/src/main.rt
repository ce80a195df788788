//! Shows what a reply in pieces and a client's buffer do, a line for each case of stdin.
#![tactic(auto)]

mod buffers;
mod cells;
mod relays;

use check_lines::{Case, CaseFault, Fields};
use std::alloc::Global;
use std::io;

fn read(fields: &mut Fields<'_>) {
    match fields.case.reader {
        "relay" => relays::run(fields),
        "buffer" => buffers::run(fields),
        "cell" => cells::run(fields),
        _ => fields.answer.bad(),
    }
}

fn answer(alloc: Global, case: &mut Case<'_>) -> Result<String, CaseFault> {
    let mut fields = Fields::of(alloc, *case);
    read(&mut fields);
    *case = fields.case;
    fields.answer.finished()
}

fn main(rt: HostRuntime) -> io::Result<()> {
    check_lines::run(&rt, answer)
}
