//! The router and a server in memory, each a process of its own on the loopback interface, and two clients of the router that share its one
//! connection to the server. The program starts itself as both processes: `server <port>`, and `router` with the three ports. Without words
//! it is the clients, and prints a line for each thing that is looked for.
#![tactic(auto)]

mod client;
mod meeting;
mod ports;
mod process;
mod reply;
mod report;
mod router;
mod server;
mod turns;

use ports::Ports;
use std::process::ExitCode;
use std::{env, io};

// What a process of this program is, and of the first the program's name.
#[derive(Clone, Copy)]
enum Role<'a> {
    Meeting(&'a str),
    Server(u16),
    Router(Ports),
}

// The role that the words ask for, the first of which is the program's name.
fn role_of(words: &[String]) -> Option<Role<'_>> {
    match words {
        [program] => Some(Role::Meeting(program.as_str())),
        [_, role, port] if role.as_str() == "server" => {
            Some(Role::Server(port.as_str().parse().ok()?))
        }
        [_, role, ports @ ..] if role.as_str() == "router" => {
            Some(Role::Router(Ports::of_words(ports)?))
        }
        _ => None,
    }
}

fn command_line(rt: &HostRuntime) -> io::Result<Vec<String>> {
    Ok(env::args(rt)?.collect(rt.alloc())?)
}

fn main(rt: HostRuntime) -> io::Result<ExitCode> {
    let words = command_line(&rt)?;
    match role_of(&words) {
        Some(Role::Meeting(program)) => meeting::hold(&rt, program)?,
        Some(Role::Server(port)) => server::serve(&rt, port)?,
        Some(Role::Router(ports)) => return Ok(router::serve(&rt, rt.alloc(), ports)),
        None => return Ok(ExitCode::from(2)),
    }
    Ok(ExitCode::SUCCESS)
}
