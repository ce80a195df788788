//! Shows the reports of lines and what whitelists allow, a line for each case of stdin.
#![tactic(auto)]

mod gates;
mod lists;
mod reports;

use check_lines::Fields;
use std::io;
use std::thread::Threads;

fn read<R: Threads + Sync>(rt: &R, fields: &mut Fields<'_>) {
    match fields.case.reader {
        "report" => reports::report_of_lines(rt, fields),
        "lines" => reports::lines(fields),
        "gate" => reports::held(rt, fields),
        "hashes" => lists::hashes_of(fields),
        "allows" => lists::allows(fields),
        _ => fields.answer.bad(),
    }
}

fn main(rt: HostRuntime) -> io::Result<()> {
    check_lines::run(&rt, |alloc, case| {
        let mut fields = Fields::of(alloc, *case);
        read(&rt, &mut fields);
        *case = fields.case;
        fields.answer.finished()
    })
}
