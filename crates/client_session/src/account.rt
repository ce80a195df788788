// Who a client is, and what it is told where it isn't let in.
ghost use Rattle.std.specs.Prelude.{◌≡◌, ◌++◌, OnOk, IfOk};
ghost use Rattle.std.specs.Option.{option_copied};
ghost use Rattle.packet_frame.specs.Packets.{spelling};
ghost use Rattle.client_session.specs.Accounts.{find_user, answers_for, account_by, known_of, account_of, denial_of};
ghost use Rattle.client_session.specs.Setups.{users_at};

use crate::refusal::{write_denied, write_unserved};
use crate::setup::{Setup, User};
use handshake::Response;
use mx_base::{Bytes, OutOfMemory, Port};
use native_auth::check;
use server_side::Account;
use session_vars::is_served_collation;
use std::alloc::Global;

/// FOUND_ROWS: an UPDATE tells of the rows that it found (client/server protocol, "Capabilities Flags").
const FOUND_ROWS: u32 = 0x0000_0002;

// The user of the name.
fn find_user<'a>(users: &'a [User], name: &[u8]) -> Option<&'a User>
    ensures { option_copied result ≡ find_user name.now users.now }
{
    for user in users {
        if user.name() == name {
            return Some(user);
        }
    }
    None
}

// Whether the answer is that of the user's password.
#[tactic(auto, using(crate::proofs::Checks::decided))]
fn answers_for(salt: &[u8; 20], response: &Response, user: &User) -> bool
    ensures { result ≡ answers_for salt.now response.now user.now }
{
    check(user.password(), salt, response.answer.as_slice())
}

// The user that the client names, where its answer is right.
fn account_by(
    alloc: Global,
    salt: &[u8; 20],
    response: &Response,
    user: Option<&User>,
) -> Result<Option<Account>, OutOfMemory>
    ensures { IfOk result (λ account. account ≡ account_by salt.now response.now (option_copied user.entry)) }
{
    let Some(user) = user else {
        return Ok(None);
    };
    if answers_for(salt, response, user) {
        let name = Bytes::from_slice(alloc, user.name())?;
        let password = Bytes::from_slice(alloc, user.password())?;
        let found_rows = response.capabilities & FOUND_ROWS != 0;
        Ok(Some(Account::new(name, password, found_rows)))
    } else {
        Ok(None)
    }
}

// The user that the client names, where its answer to the salt is that of the user's password.
fn known_of(
    alloc: Global,
    setup: &Setup,
    port: Port,
    response: &Response,
    salt: &[u8; 20],
) -> Result<Option<Account>, OutOfMemory>
    ensures { IfOk result (λ account. account ≡ known_of (users_at setup.now port) salt.now response.now) }
{
    let user = find_user(setup.users_at(port), response.user.as_slice());
    account_by(alloc, salt, response, user)
}

/// Who the client is: the user of its port that it names, where its answer to the salt is that of the user's password, and its collation
/// is one that is served; else nobody.
#[tactic(auto, unfolding(crate::specs::Accounts::account_of))]
pub fn account_of(
    alloc: Global,
    setup: &Setup,
    port: Port,
    response: &Response,
    salt: &[u8; 20],
) -> Result<Option<Account>, OutOfMemory>
    ensures { IfOk result (λ account. account ≡ account_of (users_at setup.now port) salt.now response.now) }
{
    if is_served_collation(response.collation) {
        known_of(alloc, setup, port, response, salt)
    } else {
        Ok(None)
    }
}

/// What a client is told that is nobody, appended to `out` as one message with the sequence id `first`: error 1045, where the
/// user isn't known, or its answer is wrong; else 1115, since its collation is none that is served. So who doesn't know the
/// password isn't told of the collation.
#[tactic(auto, unfolding(crate::specs::Accounts::denial_of))]
pub fn write_denial(
    alloc: Global,
    out: &mut Vec<u8>,
    first: u8,
    setup: &Setup,
    port: Port,
    response: &Response,
    salt: &[u8; 20],
) -> Result<(), OutOfMemory>
    ensures { OnOk result (out.new.items ≡ out.old.items
        ++ spelling first (denial_of (users_at setup.now port) salt.now response.now)) }
{
    match known_of(alloc, setup, port, response, salt)? {
        Some(_) => write_unserved(alloc, out, first, response.collation),
        None => write_denied(alloc, out, first, response.user.as_slice()),
    }
}
