// The clients, and the processes that they need.
use crate::client::Client;
use crate::ports::Ports;
use crate::process::Process;
use crate::report::{answers, asks, ends, is_closed, logs_in};
use crate::turns;
use std::io;

// Who has a password isn't let in by the server.
fn be_refused(rt: &HostRuntime, port: u16) -> io::Result<()> {
    let mut stranger = Client::connect(rt, port, b"u", b"secret")?;
    logs_in(
        rt,
        &mut stranger,
        "error 1045",
        "the server refuses a password",
    )
}

// What the second asks for while the first is in a transaction waits until that is over.
fn wait_for_the_first(rt: &HostRuntime, first: &mut Client, second: &mut Client) -> io::Result<()> {
    second.say("SELECT v FROM t WHERE id = 2")?;
    asks(
        rt,
        first,
        "ROLLBACK",
        "OK",
        "the first takes the transaction back",
    )?;
    answers(
        rt,
        second,
        "no row",
        "the second, which asked meanwhile, sees nothing of it",
    )
}

// Nothing of the first is there once it has gone.
fn outlast_the_first(rt: &HostRuntime, first: &mut Client, second: &mut Client) -> io::Result<()> {
    asks(
        rt,
        first,
        "SET @a = 7",
        "OK",
        "the first sets a user variable",
    )?;
    first.quit()?;
    asks(
        rt,
        second,
        "SELECT @a",
        "NULL",
        "once it has gone, the second finds none",
    )
}

fn share(rt: &HostRuntime, first: &mut Client, second: &mut Client) -> io::Result<()> {
    logs_in(rt, first, "OK", "a client logs in at the router")?;
    logs_in(rt, second, "OK", "another one logs in")?;
    turns::take(rt, first, second)?;
    wait_for_the_first(rt, first, second)?;
    outlast_the_first(rt, first, second)
}

const LINKS: &str =
    "SELECT Variable_Value FROM stats_mysql_global WHERE Variable_Name = 'links_opened'";

// An administrator sees the one connection, and shuts the router down, which closes a client that has nothing in work.
fn shut_down_by(rt: &HostRuntime, admin: &mut Client, client: &mut Client) -> io::Result<()> {
    logs_in(rt, admin, "OK", "an administrator logs in")?;
    asks(
        rt,
        admin,
        LINKS,
        "1",
        "one connection to the server was opened",
    )?;
    asks(
        rt,
        admin,
        "PROXYSQL SHUTDOWN",
        "OK",
        "the administrator shuts the router down",
    )?;
    is_closed(rt, client, "the second is closed without a word")
}

fn shut_down(rt: &HostRuntime, port: u16, client: &mut Client) -> io::Result<()> {
    let mut admin = Client::connect(rt, port, b"admin", b"")?;
    shut_down_by(rt, &mut admin, client)
}

fn meet(rt: &HostRuntime, ports: Ports) -> io::Result<()> {
    let mut first = Client::connect(rt, ports.traffic, b"u", b"")?;
    let mut second = Client::connect(rt, ports.traffic, b"u", b"")?;
    share(rt, &mut first, &mut second)?;
    shut_down(rt, ports.admin, &mut second)
}

fn hold_at(rt: &HostRuntime, router: &mut Process, ports: Ports) -> io::Result<()> {
    meet(rt, ports)?;
    ends(rt, router, "the router ends")
}

// Starts the router, whose clients meet there.
fn hold_at_router(rt: &HostRuntime, program: &str, ports: Ports) -> io::Result<()> {
    let all = [ports.server, ports.traffic, ports.admin];
    let mut router = Process::start(rt, program, "router", &all)?;
    hold_at(rt, &mut router, ports)
}

// Behind the byte the server takes another connection, which is the router's.
fn hold_before(
    rt: &HostRuntime,
    program: &str,
    server: &mut Process,
    ports: Ports,
) -> io::Result<()> {
    server.give(b"x")?;
    be_refused(rt, ports.server)?;
    hold_at_router(rt, program, ports)?;
    ends(rt, server, "the server ends behind that connection")
}

/// Starts the server and the router, and has clients meet there. The processes have ended when it returns.
pub fn hold(rt: &HostRuntime, program: &str) -> io::Result<()> {
    let ports = Ports::free(rt)?;
    let mut server = Process::start(rt, program, "server", &[ports.server])?;
    hold_before(rt, program, &mut server, ports)
}
