// What the value of a key may be.
ghost use Rattle.std.specs.Prelude.{◌≡◌, ◌≤◌, true, IfOk, option_map, Result};
ghost use Rattle.std.specs.Option.{option_copied};
ghost use Rattle.toml.specs.Data.{get_member};
ghost use Rattle.toml.specs.View.{view, table_view};
ghost use Rattle.mx_config.specs.Values.{number, text, fits, address_value, host_value, status_value, switch_value, digest_value, result_copied};

use crate::address::{read_address, read_ipv4};
use crate::fault::Kind;
use hex::FromHex;
use hostgroups::ServerStatus;
use mx_base::Address;
use toml::{Table, Value};

/// What a text has to be, beside free of the byte 0.
#[derive(Clone, Copy)]
pub(crate) enum TextForm {
    Any,
    NotEmpty,
    /// At most 255 bytes.
    Short,
    /// At most 1,024 bytes.
    Message,
}

/// The value of a key.
pub(crate) fn member<'a>(members: &'a Table, key: &str) -> Option<&'a Value>
    ensures { option_map (λ v. view v.now) result ≡ get_member key.now (table_view members.now) }
{
    members.get(key)
}

/// A number in a range.
#[tactic(auto, unfolding(crate::specs::Values::number))]
pub(crate) fn read_number(value: &Value, least: u64, most: u64) -> Result<u64, Kind>
    ensures value { result ≡ number least most (view value.now) }
    ensures range { IfOk result (λ n. (least ≤ n) × (n ≤ most)) }
{
    match value.as_integer() {
        None => Err(Kind::WrongType),
        Some(n) => match u64::try_from(n) {
            Ok(n) if least <= n && n <= most => Ok(n),
            _ => Err(Kind::OutOfRange),
        },
    }
}

/// A text of a form.
#[tactic(auto, unfolding(crate::specs::Values::text))]
pub(crate) fn read_text(value: &Value, form: TextForm) -> Result<&str, Kind>
    ensures value { result_copied result ≡ text form (view value.now) }
    ensures fits { IfOk result (λ t. fits form t.now ≡ true) }
{
    match value.as_str() {
        None => Err(Kind::WrongType),
        Some(text) => {
            if has_form(text, form) {
                Ok(text)
            } else {
                Err(Kind::OutOfRange)
            }
        }
    }
}

fn has_form(text: &str, form: TextForm) -> bool
    ensures { result ≡ fits form text.now }
{
    if text.as_bytes().contains(&0) {
        return false;
    }
    match form {
        TextForm::Any => true,
        TextForm::NotEmpty => !text.is_empty(),
        TextForm::Short => text.len() <= 255,
        TextForm::Message => text.len() <= 1024,
    }
}

/// `a.b.c.d:port`.
#[tactic(auto, unfolding(crate::specs::Values::address_value))]
pub(crate) fn read_address_value(value: &Value) -> Result<Address, Kind>
    ensures { result ≡ address_value (view value.now) }
{
    match value.as_str() {
        None => Err(Kind::WrongType),
        Some(text) => read_address(text.as_bytes()).ok_or(Kind::BadAddress),
    }
}

/// `a.b.c.d`.
#[tactic(auto, unfolding(crate::specs::Values::host_value))]
pub(crate) fn read_host_value(value: &Value) -> Result<[u8; 4], Kind>
    ensures { result ≡ host_value (view value.now) }
{
    match value.as_str() {
        None => Err(Kind::WrongType),
        Some(text) => read_ipv4(text.as_bytes()).ok_or(Kind::BadAddress),
    }
}

/// A status that an operator may give.
#[tactic(auto, unfolding(crate::specs::Values::status_value))]
pub(crate) fn read_status_value(value: &Value) -> Result<ServerStatus, Kind>
    ensures { result ≡ status_value (view value.now) }
{
    match value.as_str() {
        None => Err(Kind::WrongType),
        Some(text) => {
            if text == "ONLINE" {
                Ok(ServerStatus::Online)
            } else if text == "OFFLINE_SOFT" {
                Ok(ServerStatus::OfflineSoft)
            } else if text == "OFFLINE_HARD" {
                Ok(ServerStatus::OfflineHard)
            } else {
                Err(Kind::OutOfRange)
            }
        }
    }
}

/// A number that is 1 or 0 for yes or no.
#[tactic(auto, unfolding(crate::specs::Values::switch_value))]
pub(crate) fn read_switch_value(value: &Value) -> Result<bool, Kind>
    ensures { result ≡ switch_value (view value.now) }
{
    match read_number(value, 0, 1) {
        Ok(n) => Ok(n == 1),
        Err(kind) => Err(kind),
    }
}

/// The hash of a digest, in 16 hexadecimal digits.
#[tactic(auto, unfolding(crate::specs::Values::digest_value))]
pub(crate) fn read_digest_value(value: &Value) -> Result<u64, Kind>
    ensures { result ≡ digest_value (view value.now) }
{
    match value.as_str() {
        None => Err(Kind::WrongType),
        Some(text) => match <[u8; 8] as FromHex>::from_hex(text) {
            Ok(bytes) => Ok(u64::from_be_bytes(bytes)),
            Err(_) => Err(Kind::OutOfRange),
        },
    }
}
