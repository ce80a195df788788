//! Shows what the calls answer that read and write bytes, a line for each case of stdin: packets and logins; configurations, tables of
//! servers and recordings.
#![tactic(auto)]

mod files;
mod packets;

use check_lines::{Case, CaseFault, Fields};
use std::alloc::Global;
use std::io;

fn answer(alloc: Global, case: &mut Case<'_>) -> Result<String, CaseFault> {
    let mut fields = Fields::of(alloc, *case);
    files::read(&mut fields);
    *case = fields.case;
    fields.answer.finished()
}

fn main(rt: HostRuntime) -> io::Result<()> {
    check_lines::run(&rt, answer)
}
