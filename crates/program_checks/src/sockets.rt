// Real sockets, on the loopback interface.
use crate::names::Names;
use check_lines::{Answer, Fields};
use mio_wire::MioWire;
use mx_base::{Address, LinkId, Port, Tag};
use mx_wire::{Accepted, Wire};
use std::fmt;
use std::io::{Read, Write};
use std::net::{Ipv4Addr, SocketAddr, TcpListener, TcpStream};

fn on_loopback(port: u16) -> SocketAddr {
    SocketAddr::from((Ipv4Addr::LOCALHOST, port))
}

fn address(port: u16) -> Address {
    Address {
        ip: [127, 0, 0, 1],
        port,
    }
}

// The port at which a listener stands, 0 where that isn't known.
fn port_of(listener: &TcpListener) -> u16 {
    match listener.local_addr() {
        Ok(address) => address.port(),
        Err(_) => 0,
    }
}

// A port at which nobody listens.
fn free_port(rt: &HostRuntime) -> u16 {
    match TcpListener::bind(rt, on_loopback(0)) {
        Ok(listener) => port_of(&listener),
        Err(_) => 0,
    }
}

// What a call answers.
fn push<D: fmt::Debug + Drop>(answer: &mut Answer, answered: D) {
    answer.debug(answered);
    answer.text(" ");
}

// What a read answers, and the bytes that it may have put there, as all that is sent has fewer.
fn push_read(answer: &mut Answer, wire: &mut MioWire<'_, HostRuntime>, link: LinkId) -> [u8; 8] {
    let mut buffer = [0u8; 65_536];
    answer.debug(wire.read(link, &mut buffer));
    let [a, b, c, d, e, f, g, h, ..] = buffer;
    [a, b, c, d, e, f, g, h]
}

// A client is told hi, and says abc.
fn says(answer: &mut Answer, client: &mut TcpStream) {
    let mut heard = [0u8; 2];
    if client.read_exact(&mut heard).is_err() || client.write_all(b"abc").is_err() {
        answer.bad();
    }
    answer.debug(heard);
    answer.text("; ");
}

// Whether the next wake names this link first.
fn is_named(answer: &mut Answer, wire: &mut MioWire<'_, HostRuntime>, link: LinkId) {
    let _ = wire.wait(u64::MAX);
    push(answer, wire.next_ready() == Some(link));
}

// What the calls of a link answer, as its client says abc and is told hi.
fn talk(
    answer: &mut Answer,
    wire: &mut MioWire<'_, HostRuntime>,
    link: LinkId,
    client: &mut TcpStream,
) {
    let _ = push_read(answer, wire, link);
    answer.text(" ");
    push(answer, wire.write(link, Tag::Reply, b"hi"));
    says(answer, client);
    is_named(answer, wire, link);
    let said = push_read(answer, wire, link);
    answer.text(" ");
    push(answer, said);
    let _ = push_read(answer, wire, link);
}

// And as it has gone.
fn part(answer: &mut Answer, wire: &mut MioWire<'_, HostRuntime>, link: LinkId) {
    answer.text("; ");
    is_named(answer, wire, link);
    let _ = push_read(answer, wire, link);
    wire.close(link);
}

fn is_salt(salt: &[u8; 20]) -> bool {
    for byte in salt {
        if *byte == 0 || *byte > 127 {
            return false;
        }
    }
    true
}

// Whether each byte of the salt of the client that waits at the port may stand there, and what its link does then.
fn come(
    answer: &mut Answer,
    wire: &mut MioWire<'_, HostRuntime>,
    client: &mut TcpStream,
) -> Option<LinkId> {
    let _ = wire.wait(u64::MAX);
    match wire.accept(Port::Traffic) {
        Accepted::Link { id, salt } => {
            push(answer, is_salt(&salt));
            push(answer, wire.accept(Port::Traffic));
            answer.text("/ ");
            talk(answer, wire, id, client);
            Some(id)
        }
        _ => None,
    }
}

// The link of a client that came to the port, and has gone.
fn gone(
    rt: &HostRuntime,
    answer: &mut Answer,
    wire: &mut MioWire<'_, HostRuntime>,
    port: u16,
) -> Option<LinkId> {
    match TcpStream::connect(rt, on_loopback(port)) {
        Ok(mut client) => come(answer, wire, &mut client),
        Err(_) => None,
    }
}

// What the port answers before a client comes, and what then.
fn come_and_go(rt: &HostRuntime, answer: &mut Answer, wire: &mut MioWire<'_, HostRuntime>) {
    let port = free_port(rt);
    push(answer, wire.listen(Port::Traffic, address(port)));
    answer.debug(wire.accept(Port::Traffic));
    answer.text("; ");
    match gone(rt, answer, wire, port) {
        Some(link) => part(answer, wire, link),
        None => answer.bad(),
    }
}

// What this port answers that is taken, and one that is free.
fn listen(answer: &mut Answer, wire: &mut MioWire<'_, HostRuntime>, taken: u16) {
    push(answer, wire.listen(Port::Traffic, address(taken)));
    push(answer, wire.listen(Port::Admin, address(0)));
    push(answer, wire.accept(Port::Traffic));
    answer.debug(wire.accept(Port::Admin));
}

fn find_taken(rt: &HostRuntime, answer: &mut Answer, wire: &mut MioWire<'_, HostRuntime>) {
    match TcpListener::bind(rt, on_loopback(0)) {
        Ok(other) => listen(answer, wire, port_of(&other)),
        Err(_) => answer.bad(),
    }
}

fn show(rt: &HostRuntime, answer: &mut Answer, word: &str, wire: &mut MioWire<'_, HostRuntime>) {
    match word {
        "talk" => come_and_go(rt, answer, wire),
        "taken" => find_taken(rt, answer, wire),
        _ => answer.bad(),
    }
}

/// `sockets talk` is a client that comes over a real socket, is told hi, says abc and goes; `sockets taken` a port that is taken. The answer
/// is what each call of the wire answers.
pub fn answer(rt: &HostRuntime, fields: &mut Fields<'_>) -> Names {
    let word = fields.text();
    let answer = &mut fields.answer;
    match MioWire::new(rt, rt.alloc()) {
        Ok(mut wire) => show(rt, answer, word, &mut wire),
        Err(_) => answer.refused(),
    }
    Names::Recorded
}
