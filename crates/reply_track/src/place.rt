// One byte of a reply.
ghost use Rattle.std.specs.Prelude.{◌≡◌, ◌≤◌, ◌<◌};
ghost use Rattle.reply_track.specs.Runs.{passed, behind, headed, is_header};
ghost use Rattle.reply_track.specs.Steps.{step, low_taken, length_taken, id_taken, packet_ended, payload_taken, written, number_byte, body_takes_low, body_takes_length, empty_body, next_id};

use crate::body::{Body, taken};
use crate::due::{Next, after_plain, takes_length, takes_low};
use crate::head::Number;
use crate::reply::ReplyEnd;

/// The length of the longest body of a packet.
pub(crate) const LONGEST: u32 = 16_777_215;

/// The byte of a packet that is next.
#[derive(Clone, Copy)]
pub(crate) enum Place {
    /// The first byte of its length.
    First,
    /// The second one, behind this first one.
    Second { low: u8 },
    /// The third one, behind these two.
    Third { low: u16 },
    /// Its sequence id.
    Id { length: u32 },
    /// One of its body, so many of whose bytes are left; the message goes on behind a `long` packet.
    Body { left: u32, long: bool },
}

/// Where a reply stands: the sequence ids that are due from the server and to the client, the number that takes the
/// place of the server's number of a statement, and the byte that is next.
#[derive(Clone, Copy)]
pub(crate) struct State {
    pub server: u8,
    pub client: u8,
    pub number: u32,
    pub place: Place,
    pub body: Body,
}

/// What a byte leads to.
#[derive(Clone, Copy)]
pub(crate) enum Outcome {
    On(State),
    Over(ReplyEnd),
    /// No reply goes on so.
    Wrong,
}

/// The step at a byte.
pub(crate) fn step(state: State, byte: u8) -> Outcome
    ensures { result ≡ step state byte }
{
    match state.place {
        Place::First => low_taken(state, Place::Second { low: byte }, byte as u16),
        Place::Second { low } => {
            let low = low as u16 + 256 * byte as u16;
            low_taken(state, Place::Third { low }, low)
        }
        Place::Third { low } => length_taken(state, low as u32 + 65_536 * byte as u32),
        Place::Id { length } => id_taken(state, length, byte),
        Place::Body { left, long } => payload_taken(state, left, long, byte),
    }
}

/// The byte that the client gets in place of one that isn't wrong.
pub(crate) fn written(state: State, byte: u8) -> u8
    ensures { result ≡ written state byte }
{
    match state.place {
        Place::Id { .. } => state.client,
        Place::Body { .. } => match state.body {
            Body::Number {
                number: Number::Statement,
                left,
                ..
            } => number_byte(state.number, left),
            _ => byte,
        },
        _ => byte,
    }
}

/// How many of the next bytes, `most` at most, may be passed over: bytes of a packet of which nothing but their
/// number matters, without its last one.
pub(crate) fn passed(state: State, most: usize) -> usize
    ensures { result ≡ passed state most }
{
    match (state.body, state.place) {
        (Body::Rest(_), Place::Body { left, .. }) => (left.saturating_sub(1) as usize).min(most),
        _ => 0,
    }
}

/// The state behind so many bytes that are passed over.
pub(crate) fn behind(state: State, count: usize) -> State
    ensures { result ≡ behind state count }
{
    match state.place {
        Place::Body { left, long } => {
            let left = (left as usize).saturating_sub(count) as u32;
            let place = Place::Body { left, long };
            State { place, ..state }
        }
        _ => state,
    }
}

// Whether these four bytes are the header of a packet that isn't empty and may come.
fn is_header(state: State, a: u8, b: u8, c: u8, id: u8) -> bool
    ensures { result ≡ is_header state a b c id }
{
    let low = a as u16 + 256 * b as u16;
    let length = low as u32 + 65_536 * c as u32;
    id == state.server
        && (length != 0
            && (body_takes_low(state.body, a as u16)
                && (body_takes_low(state.body, low) && body_takes_length(state.body, length))))
}

/// The state behind four bytes, where they are the header of a packet that isn't empty and may come. It is as behind a step at each.
pub(crate) fn headed(state: State, a: u8, b: u8, c: u8, id: u8) -> Option<State>
    ensures { result ≡ headed state a b c id }
{
    match state.place {
        Place::First => {
            if !is_header(state, a, b, c, id) {
                return None;
            }
            let length = a as u32 + 256 * b as u32 + 65_536 * c as u32;
            Some(State {
                server: state.server.wrapping_add(1),
                client: state.client.wrapping_add(1),
                place: Place::Body {
                    left: length,
                    long: length == LONGEST,
                },
                ..state
            })
        }
        _ => None,
    }
}

// The byte of a number, `left` of whose four bytes are left.
fn number_byte(number: u32, left: u8) -> u8
    ensures { result ≡ number_byte number left }
{
    match left {
        4 => (number % 256) as u8,
        3 => (number / 256 % 256) as u8,
        2 => (number / 65_536 % 256) as u8,
        _ => (number / 16_777_216) as u8,
    }
}

// The low bytes of a length.
fn low_taken(state: State, place: Place, low: u16) -> Outcome
    ensures { result ≡ low_taken state place low }
{
    if body_takes_low(state.body, low) {
        Outcome::On(State { place, ..state })
    } else {
        Outcome::Wrong
    }
}

// The whole length.
fn length_taken(state: State, length: u32) -> Outcome
    ensures { result ≡ length_taken state length }
{
    if body_takes_length(state.body, length) {
        let place = Place::Id { length };
        Outcome::On(State { place, ..state })
    } else {
        Outcome::Wrong
    }
}

fn body_takes_low(body: Body, low: u16) -> bool
    ensures { result ≡ body_takes_low body low }
{
    match body {
        Body::Due(due) => takes_low(due, low),
        _ => true,
    }
}

fn body_takes_length(body: Body, length: u32) -> bool
    ensures { result ≡ body_takes_length body length }
{
    match body {
        Body::Due(due) => takes_length(due, length),
        _ => true,
    }
}

// The sequence id.
fn id_taken(state: State, length: u32, byte: u8) -> Outcome
    ensures { result ≡ id_taken state length byte }
{
    if byte != state.server {
        return Outcome::Wrong;
    }
    let server = state.server.wrapping_add(1);
    let client = state.client.wrapping_add(1);
    let state = State {
        server,
        client,
        ..state
    };
    if length == 0 {
        match empty_body(state.body) {
            Some(body) => packet_ended(state, false, body),
            None => Outcome::Wrong,
        }
    } else {
        let place = Place::Body {
            left: length,
            long: length == LONGEST,
        };
        Outcome::On(State { place, ..state })
    }
}

// A payload behind a packet without bytes.
fn empty_body(body: Body) -> Option<Body>
    ensures { result ≡ empty_body body }
{
    match body {
        Body::Due(due) => {
            let due = after_plain(due)?;
            Some(Body::Rest(Next::Goes(due)))
        }
        body => Some(body),
    }
}

// A byte of a body.
fn payload_taken(state: State, left: u32, long: bool, byte: u8) -> Outcome
    ensures { result ≡ payload_taken state left long byte }
{
    match taken(state.body, left, byte) {
        None => Outcome::Wrong,
        Some(body) if left <= 1 => packet_ended(state, long, body),
        Some(body) => {
            let place = Place::Body {
                left: left - 1,
                long,
            };
            Outcome::On(State {
                place,
                body,
                ..state
            })
        }
    }
}

// The end of a packet, which the message goes on behind where it is `long`.
fn packet_ended(state: State, long: bool, body: Body) -> Outcome
    ensures { result ≡ packet_ended state long body }
{
    match body {
        Body::Rest(next) if long => {
            let place = Place::First;
            let body = Body::Rest(next);
            Outcome::On(State {
                place,
                body,
                ..state
            })
        }
        Body::Rest(Next::Goes(due)) => Outcome::On(State {
            place: Place::First,
            body: Body::Due(due),
            ..state
        }),
        Body::Rest(Next::Ends(end)) => Outcome::Over(end),
        _ => Outcome::Wrong,
    }
}
