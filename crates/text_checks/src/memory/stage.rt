// A server, and two sessions at it.
use crate::memory::parts::{Answering, follow};
use crate::memory::seat::Seat;
use crate::memory::verb::Verb;
use check_lines::Fields;
use mem_server::MemServer;
use mx_base::OutOfMemory;
use std::alloc::Global;

#[derive(Drop)]
struct Stage {
    server: MemServer,
    seats: Vec<Seat>,
}

// `<who> <text>` is a query, `<who>:<verb> <rest>` any other command.
impl Answering for Stage {
    fn answer(&mut self, fields: &mut Fields<'_>) {
        let (who, name) = match fields.case.reader.split_once(':') {
            Some(parts) => parts,
            None => (fields.case.reader, ""),
        };
        let text = fields.rest_text();
        let answer = &mut fields.answer;
        let verb = Verb::named(answer, name);
        let at = match who {
            "a" => 0,
            "b" => 1,
            _ => return answer.bad(),
        };
        if let Some(seat) = self.seats.get_mut(at) {
            seat.run(answer, &mut self.server, verb, text);
        }
    }
}

// A server without tables, and two fresh sessions.
fn first_stage(alloc: Global) -> Result<Stage, OutOfMemory> {
    let mut seats = Vec::new(alloc);
    for _ in 0..2 {
        seats.push(Seat::new(alloc)?)?;
    }
    let server = MemServer::new(alloc);
    Ok(Stage { server, seats })
}

/// `run <step> | <step> ..`: the replies to these steps of a server without tables and of two fresh sessions.
pub fn run_steps(fields: &mut Fields<'_>) {
    let text = fields.rest_text();
    match first_stage(fields.answer.alloc()) {
        Ok(mut stage) => follow(fields, &mut stage, text),
        Err(OutOfMemory) => fields.answer.refused(),
    }
}
