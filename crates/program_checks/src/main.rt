//! Runs the router over files, a wire and a sink in memory, a run for each case of stdin, and answers with the status and what was printed;
//! runs it between clients that follow scripts and servers in memory, also against sessions of the clients' own; and shows how the serving loop calls a wire, and what real sockets
//! answer.
#![tactic(auto)]

mod bare_wire;
mod careless;
mod configs;
mod flood;
mod fronts;
mod given;
mod names;
mod plays;
mod reports;
mod runs;
mod scripts;
mod shown;
mod soak;
mod sockets;
mod tables;
mod tapes;
mod user;

use check_lines::Fields;
use names::{Names, named};
use std::io;
use std::thread::Threads;
use tables::found;

// Who reads a case.
#[derive(Clone, Copy)]
enum Reader {
    Replay,
    Words { are_taken: bool },
    Report,
    Serve,
    Flood,
    One,
    Failing,
    Soak,
    Careless,
}

// Readers by their words, with the names that stand in their answers.
const READERS: [(&str, (Reader, Names)); 10] = [
    ("replay", (Reader::Replay, Names::Recorded)),
    ("run", (Reader::Words { are_taken: false }, Names::Recorded)),
    (
        "taken",
        (Reader::Words { are_taken: true }, Names::Recorded),
    ),
    ("report", (Reader::Report, Names::Recorded)),
    ("serve", (Reader::Serve, Names::Recorded)),
    ("flood", (Reader::Flood, Names::Recorded)),
    ("scripted", (Reader::One, Names::Scripted)),
    ("fails", (Reader::Failing, Names::Scripted)),
    ("soak", (Reader::Soak, Names::Scripted)),
    ("careless", (Reader::Careless, Names::Scripted)),
];

fn read_by<R: Threads + Sync>(rt: &R, fields: &mut Fields<'_>, reader: Reader) {
    match reader {
        Reader::Replay => runs::replay(rt, fields),
        Reader::Words { are_taken } => runs::words(rt, fields, are_taken),
        Reader::Report => reports::report(rt, fields),
        Reader::Serve => tapes::serve(rt, fields),
        Reader::Flood => flood::answer(fields),
        Reader::One => plays::one(rt, fields),
        Reader::Failing => plays::each_failing(rt, fields),
        Reader::Soak => soak::soak(rt, fields),
        Reader::Careless => careless::answer(fields),
    }
}

// Reads a case, and says which names stand in its answer.
fn read<R: Threads + Sync>(rt: &R, fields: &mut Fields<'_>) -> Names {
    match found(&READERS, fields.case.reader) {
        Some((reader, names)) => {
            read_by(rt, fields, reader);
            names
        }
        None => {
            fields.answer.bad();
            Names::Recorded
        }
    }
}

fn main(rt: HostRuntime) -> io::Result<()> {
    check_lines::run(&rt, |alloc, case| {
        let mut fields = Fields::of(alloc, *case);
        let names = match case.reader {
            "sockets" => sockets::answer(&rt, &mut fields),
            _ => read(&rt, &mut fields),
        };
        *case = fields.case;
        named(alloc, fields.answer, names)
    })
}
