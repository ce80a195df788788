// The columns of the staged tables: the form of each, and its value in a row.
ghost use Rattle.std.specs.Prelude.{◌≡◌, ◌≤◌, IfOk, IfSome, option_copied};
ghost use Rattle.mx_config.specs.Address.{ipv4};
ghost use Rattle.admin_port.specs.Columns.{are_columns, digest_at, digest_in, form_of, has_form, has_value, host_at, is_column, is_message, is_number, is_plain, is_text, number_at, number_between, rule_form, server_form, small_at, status_at, status_in, switch_at, text_at};

use crate::pair::{Pair, given};
use crate::statement::StagedTable;
use crate::value::Value;
use hex::FromHex;
use hostgroups::ServerStatus;
use mx_base::{Bytes, OutOfMemory, four_pieces, read_number_to};
use sql_tokens::{is_one_of, same_text};
use std::alloc::Global;

/// What the value of a column may be.
#[derive(Clone, Copy)]
pub(crate) enum Form {
    /// From the one to the other.
    Number(u64, u64),
    /// A text without the byte 0.
    Text,
    /// Such a text of at most 1,024 bytes.
    Message,
    /// A pattern of `regex`.
    Pattern,
    /// The hash of a digest.
    Digest,
    /// `a.b.c.d`.
    Host,
    /// A status that an operator may give.
    Status,
}

/// The longest text of an answer that a rule gives.
const MOST_MESSAGE: usize = 1024;

fn server_form(column: &[u8]) -> Option<Form>
    ensures { result ≡ server_form column.now }
{
    if is_one_of(column, &[b"hostgroup_id", b"port"]) {
        Some(Form::Number(0, 65_535))
    } else if same_text(column, b"hostname") {
        Some(Form::Host)
    } else if same_text(column, b"status") {
        Some(Form::Status)
    } else if same_text(column, b"weight") {
        Some(Form::Number(1, 1_000))
    } else if same_text(column, b"max_connections") {
        Some(Form::Number(1, 10_000))
    } else {
        None
    }
}

const SWITCHES: [&[u8]; 4] = [b"active", b"negate_match_pattern", b"multiplex", b"apply"];

const SMALL_NUMBERS: [&[u8]; 4] = [
    b"flagIN",
    b"flagOUT",
    b"next_query_flagIN",
    b"destination_hostgroup",
];

fn rule_form(column: &[u8]) -> Option<Form>
    ensures { result ≡ rule_form column.now }
{
    if same_text(column, b"rule_id") {
        Some(Form::Number(1, 4_294_967_295))
    } else if is_one_of(column, &SWITCHES) {
        Some(Form::Number(0, 1))
    } else if is_one_of(column, &SMALL_NUMBERS) {
        Some(Form::Number(0, 65_535))
    } else if is_one_of(column, &[b"username", b"schemaname", b"replace_pattern"]) {
        Some(Form::Text)
    } else if is_one_of(column, &[b"match_digest", b"match_pattern"]) {
        Some(Form::Pattern)
    } else if is_one_of(column, &[b"error_msg", b"OK_msg"]) {
        Some(Form::Message)
    } else if same_text(column, b"digest") {
        Some(Form::Digest)
    } else {
        None
    }
}

fn form_of(table: StagedTable, column: &[u8]) -> Option<Form>
    ensures { result ≡ form_of table column.now }
{
    match table {
        StagedTable::Servers => server_form(column),
        StagedTable::Rules => rule_form(column),
    }
}

fn number_between(least: u64, most: u64, digits: &[u8]) -> Option<u64>
    ensures value { result ≡ number_between least most digits.now }
    ensures bound { IfSome result (λ n. (least ≤ n) × (n ≤ most)) }
{
    let n = read_number_to(most, digits)?;
    if least <= n { Some(n) } else { None }
}

/// The four numbers of `a.b.c.d`.
#[tactic(auto, unfolding(mx_config::specs::Address::ipv4))]
pub(crate) fn read_host(text: &[u8]) -> Option<[u8; 4]>
    ensures { result ≡ ipv4 text.now }
{
    let (a, b, c, d) = four_pieces(b".", Some(text))?;
    let a = read_number_to(255, a)? as u8;
    let b = read_number_to(255, b)? as u8;
    let c = read_number_to(255, c)? as u8;
    let d = read_number_to(255, d)? as u8;
    Some([a, b, c, d])
}

fn status_in(text: &[u8]) -> Option<ServerStatus>
    ensures { result ≡ status_in text.now }
{
    if text == b"ONLINE".as_slice() {
        Some(ServerStatus::Online)
    } else if text == b"OFFLINE_SOFT".as_slice() {
        Some(ServerStatus::OfflineSoft)
    } else if text == b"OFFLINE_HARD".as_slice() {
        Some(ServerStatus::OfflineHard)
    } else {
        None
    }
}

fn digest_in(text: &[u8]) -> Option<u64>
    ensures { result ≡ digest_in text.now }
{
    match <[u8; 8] as FromHex>::from_hex(text) {
        Ok(bytes) => Some(u64::from_be_bytes(bytes)),
        Err(_) => None,
    }
}

fn is_number(form: Form, digits: &[u8]) -> bool
    ensures { result ≡ is_number form digits.now }
{
    match form {
        Form::Number(least, most) => number_between(least, most, digits).is_some(),
        _ => false,
    }
}

fn is_plain(text: &[u8]) -> bool
    ensures { result ≡ is_plain text.now }
{
    !text.contains(&0)
}

fn is_message(text: &[u8]) -> bool
    ensures { result ≡ is_message text.now }
{
    is_plain(text) && text.len() <= MOST_MESSAGE
}

fn is_text(form: Form, patterned: bool, text: &[u8]) -> bool
    ensures { result ≡ is_text patterned form text.now }
{
    match form {
        Form::Number(..) => false,
        Form::Text => is_plain(text),
        Form::Message => is_message(text),
        Form::Pattern => is_plain(text) && patterned,
        Form::Digest => digest_in(text).is_some(),
        Form::Host => read_host(text).is_some(),
        Form::Status => status_in(text).is_some(),
    }
}

fn has_form(form: Form, patterned: bool, value: &Value) -> bool
    ensures { result ≡ has_form patterned form value.now }
{
    match value {
        Value::Number(digits) => is_number(form, digits.as_slice()),
        Value::Text(text) => is_text(form, patterned, text.as_slice()),
        Value::Null => true,
    }
}

fn is_column(table: StagedTable, patterned: bool, pair: &Pair) -> bool
    ensures { result ≡ is_column patterned table pair.now }
{
    match form_of(table, pair.column.as_slice()) {
        Some(form) => has_form(form, patterned, &pair.value),
        None => false,
    }
}

/// Whether each column is one of the table, and each value has the form of its column, where the texts of patterns are patterns, or
/// where one of them is none.
pub(crate) fn are_columns(table: StagedTable, patterned: bool, pairs: &[Pair]) -> bool
    ensures { result ≡ are_columns patterned table pairs.now }
{
    pairs.iter().all(|pair| is_column(table, patterned, pair))
}

/// The number of a column, or its default.
pub(crate) fn number_at(column: &[u8], default: u64, least: u64, most: u64, pairs: &[Pair]) -> u64
    requires { (least ≤ default) × (default ≤ most) }
    ensures value { result ≡ number_at column.now default least most pairs.now }
    ensures bound { (least ≤ result) × (result ≤ most) }
{
    match given(pairs, column) {
        Some(Value::Number(digits)) => {
            number_between(least, most, digits.as_slice()).unwrap_or(default)
        }
        _ => default,
    }
}

/// The number of at most 65,535 of a column that may be absent.
pub(crate) fn small_at(column: &[u8], pairs: &[Pair]) -> Option<u16>
    ensures { result ≡ small_at column.now pairs.now }
{
    match given(pairs, column) {
        Some(Value::Number(digits)) => {
            let n = read_number_to(65_535, digits.as_slice())?;
            Some(n as u16)
        }
        _ => None,
    }
}

/// Yes or no, of a column that may be absent.
pub(crate) fn switch_at(column: &[u8], pairs: &[Pair]) -> Option<bool>
    ensures { result ≡ switch_at column.now pairs.now }
{
    match given(pairs, column) {
        Some(Value::Number(digits)) => Some(digits.as_slice() == b"1".as_slice()),
        _ => None,
    }
}

fn text_at<'a>(column: &[u8], pairs: &'a [Pair]) -> Option<&'a [u8]>
    ensures { option_copied result ≡ text_at column.now pairs.now }
{
    match given(pairs, column) {
        Some(Value::Text(text)) => Some(text.as_slice()),
        _ => None,
    }
}

/// The text of a column that may be absent.
pub(crate) fn read_text_at(
    alloc: Global,
    column: &[u8],
    pairs: &[Pair],
) -> Result<Option<Bytes>, OutOfMemory>
    ensures { IfOk result (λ text. text ≡ text_at column.now pairs.now) }
{
    match text_at(column, pairs) {
        Some(text) => {
            let text = Bytes::from_slice(alloc, text)?;
            Ok(Some(text))
        }
        None => Ok(None),
    }
}

/// The hash of a digest, of a column that may be absent.
pub(crate) fn digest_at(column: &[u8], pairs: &[Pair]) -> Option<u64>
    ensures { result ≡ digest_at column.now pairs.now }
{
    let text = text_at(column, pairs)?;
    digest_in(text)
}

/// The host of a column.
pub(crate) fn host_at(column: &[u8], pairs: &[Pair]) -> [u8; 4]
    ensures { result ≡ host_at column.now pairs.now }
{
    match text_at(column, pairs) {
        Some(text) => read_host(text).unwrap_or([0; 4]),
        None => [0; 4],
    }
}

/// The status of a column.
pub(crate) fn status_at(column: &[u8], pairs: &[Pair]) -> ServerStatus
    ensures { result ≡ status_at column.now pairs.now }
{
    match text_at(column, pairs) {
        Some(text) => status_in(text).unwrap_or(ServerStatus::Online),
        None => ServerStatus::Online,
    }
}

/// Whether a column has a value.
pub(crate) fn has_value(column: &[u8], pairs: &[Pair]) -> bool
    ensures { result ≡ has_value column.now pairs.now }
{
    match given(pairs, column) {
        Some(Value::Number(_)) | Some(Value::Text(_)) => true,
        _ => false,
    }
}
