// Why a statement is given up, or a client told a last word.
ghost use Rattle.std.specs.Prelude.{◌≡◌, IfOk};
ghost use Rattle.client_session.specs.Errors.{bad_server_bytes};
ghost use Rattle.core_service.specs.Failures.{payload_of};
ghost use Rattle.own_words.specs.Own.{IsFailure};
ghost use Rattle.router_promises.specs.Errors.{buffers_full, no_connection, own_error, replay_refused, server_shutdown};

use mx_base::OutOfMemory;
use std::alloc::Global;

/// What the router answers in place of a server (the numbers from 9100 on are the router's own).
#[derive(Clone, Copy)]
pub enum Failure {
    /// 9101: the link was lost before the reply was whole.
    LinkLost,
    /// 9102: no link was lent from the one moment to the other.
    NoConnection { since_ms: u64, now_ms: u64 },
    /// 9103: no link could be opened.
    Refused,
    /// 9104: a step to the statement was refused with this code.
    StepRefused { code: u16 },
    /// 9110: bytes of a server that are no reply, from this place on.
    BadBytes { place: u64 },
    /// 9112: so many bytes of clients are kept, and so many were announced.
    BuffersFull { kept: u64, announced: u64 },
    /// 1053: the router shuts down.
    ShuttingDown,
}

// An error of the router's own (client/server protocol, "ERR_Packet").
fn error(alloc: Global, code: u16, text: &[u8]) -> Result<Vec<u8>, OutOfMemory>
    ensures { IfOk result (λ payload. payload.items ≡ own_error code text.now) }
{
    let low = (code % 256) as u8;
    let high = (code / 256) as u8;
    let mut payload = Vec::new(alloc);
    payload.extend_from_slice(&[0xFF, low, high])?;
    payload.extend_from_slice(b"#HY000")?;
    payload.extend_from_slice(text)?;
    Ok(payload)
}

// A server's error as it shuts down (MariaDB documentation, "MariaDB Error Codes").
#[tactic(auto, unfolding(router_promises::specs::Errors::server_shutdown))]
fn server_shutdown(alloc: Global) -> Result<Vec<u8>, OutOfMemory>
    ensures { IfOk result (λ payload. payload.items ≡ server_shutdown) }
{
    let mut payload = Vec::new(alloc);
    payload.extend_from_slice(&[0xFF, 29, 4])?;
    payload.extend_from_slice(b"#08S01")?;
    payload.extend_from_slice(b"Server shutdown in progress")?;
    Ok(payload)
}

// Those that have numbers in their texts.

#[tactic(auto, unfolding(router_promises::specs::Errors::no_connection))]
fn no_connection(alloc: Global, since: u64, now: u64) -> Result<Vec<u8>, OutOfMemory>
    ensures { IfOk result (λ payload. payload.items ≡ no_connection since now) }
{
    let text = format!(in alloc; "No connection from {since} to {now}")?;
    error(alloc, 9102, text.as_bytes())
}

#[tactic(auto, unfolding(router_promises::specs::Errors::replay_refused))]
fn replay_refused(alloc: Global, code: u16) -> Result<Vec<u8>, OutOfMemory>
    ensures { IfOk result (λ payload. payload.items ≡ replay_refused code) }
{
    let text = format!(in alloc; "Session replay refused with {code}")?;
    error(alloc, 9104, text.as_bytes())
}

#[tactic(auto, unfolding(client_session::specs::Errors::bad_server_bytes, client_session::specs::Errors::bad_bytes_text))]
fn bad_server_bytes(alloc: Global, place: u64) -> Result<Vec<u8>, OutOfMemory>
    ensures { IfOk result (λ payload. payload.items ≡ bad_server_bytes place) }
{
    let text = format!(in alloc; "Bad server bytes at {place}")?;
    error(alloc, 9110, text.as_bytes())
}

#[tactic(auto, unfolding(router_promises::specs::Errors::buffers_full))]
fn buffers_full(alloc: Global, kept: u64, announced: u64) -> Result<Vec<u8>, OutOfMemory>
    ensures { IfOk result (λ payload. payload.items ≡ buffers_full kept announced) }
{
    let text = format!(in alloc; "Buffers full: {kept} and {announced}")?;
    error(alloc, 9112, text.as_bytes())
}

/// The payload of the ERR.
#[tactic(auto, unfolding(client_session::specs::Errors::connection_lost, client_session::specs::Errors::connection_refused))]
pub fn payload_of(alloc: Global, why: Failure) -> Result<Vec<u8>, OutOfMemory>
    ensures is { IfOk result (λ payload. payload.items ≡ payload_of why) }
    ensures own { IsFailure (payload_of why) }
{
    match why {
        Failure::LinkLost => error(alloc, 9101, b"Server connection lost"),
        Failure::NoConnection { since_ms, now_ms } => no_connection(alloc, since_ms, now_ms),
        Failure::Refused => error(alloc, 9103, b"Server connection refused"),
        Failure::StepRefused { code } => replay_refused(alloc, code),
        Failure::BadBytes { place } => bad_server_bytes(alloc, place),
        Failure::BuffersFull { kept, announced } => buffers_full(alloc, kept, announced),
        Failure::ShuttingDown => server_shutdown(alloc),
    }
}
