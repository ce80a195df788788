// What is looked for, and printed.
use crate::client::Client;
use crate::process::Process;
use std::io;

// Prints whether what was told is what is due.
fn check(rt: &HostRuntime, told: &str, due: &str, shows: &str) -> io::Result<()> {
    if told == due {
        println!(rt; "{shows}: ok")
    } else {
        println!(rt; "{shows}: WRONG, told {told} where {due} is due")
    }
}

/// How a client's login ends.
pub fn logs_in(rt: &HostRuntime, client: &mut Client, due: &str, shows: &str) -> io::Result<()> {
    let told = client.log_in()?;
    check(rt, told.as_str(), due, shows)
}

/// What a client is answered.
pub fn answers(rt: &HostRuntime, client: &mut Client, due: &str, shows: &str) -> io::Result<()> {
    let told = client.answer()?;
    check(rt, told.as_str(), due, shows)
}

/// What a client is answered to a statement.
pub fn asks(
    rt: &HostRuntime,
    client: &mut Client,
    statement: &str,
    due: &str,
    shows: &str,
) -> io::Result<()> {
    client.say(statement)?;
    answers(rt, client, due, shows)
}

/// Whether a client is closed without a word.
pub fn is_closed(rt: &HostRuntime, client: &mut Client, shows: &str) -> io::Result<()> {
    let told = if client.is_closed()? { "end" } else { "bytes" };
    check(rt, told, "end", shows)
}

/// Whether a process ends with status 0.
pub fn ends(rt: &HostRuntime, process: &mut Process, shows: &str) -> io::Result<()> {
    let told = process.ending(rt)?;
    check(rt, told.as_str(), "exit status: 0", shows)
}
