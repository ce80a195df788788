// Numbers (MySQL Reference Manual, "Numeric Literals" and "Hexadecimal Literals"). Each length is 0 where there is none.
ghost use Rattle.std.specs.Prelude.{◌≡◌};
ghost use Rattle.sql_tokens.specs.Numbers.{hexadecimal_length, fraction_length, sign_length, exponent_length, decimal_length, number_length};

use crate::bytes::{behind, digit_run, followed_by, has_byte, hexdigit_run};

// `0x` and hexadecimal digits.
#[tactic(auto, unfolding(crate::specs::Numbers::hexadecimal_length))]
fn hexadecimal_length(bytes: &[u8]) -> usize
    ensures { result ≡ hexadecimal_length bytes.now }
{
    if has_byte(bytes, 0, b'0') && has_byte(bytes, 1, b'x') {
        followed_by(2, hexdigit_run(behind(bytes, 2)))
    } else {
        0
    }
}

// `.` and digits.
#[tactic(auto, unfolding(crate::specs::Numbers::fraction_length))]
fn fraction_length(bytes: &[u8]) -> usize
    ensures { result ≡ fraction_length bytes.now }
{
    if has_byte(bytes, 0, b'.') {
        followed_by(1, digit_run(behind(bytes, 1)))
    } else {
        0
    }
}

// An optional sign.
#[tactic(auto, unfolding(crate::specs::Numbers::sign_length))]
fn sign_length(bytes: &[u8]) -> usize
    ensures { result ≡ sign_length bytes.now }
{
    if has_byte(bytes, 0, b'+') || has_byte(bytes, 0, b'-') {
        1
    } else {
        0
    }
}

// `e` or `E`, an optional sign, and digits.
#[tactic(auto, unfolding(crate::specs::Numbers::exponent_length))]
fn exponent_length(bytes: &[u8]) -> usize
    ensures { result ≡ exponent_length bytes.now }
{
    if has_byte(bytes, 0, b'e') || has_byte(bytes, 0, b'E') {
        let front = 1 + sign_length(behind(bytes, 1));
        followed_by(front, digit_run(behind(bytes, front)))
    } else {
        0
    }
}

// Digits and a fraction, of which one may be missing, and then an exponent that may be missing.
#[tactic(auto, unfolding(crate::specs::Numbers::decimal_length))]
fn decimal_length(bytes: &[u8]) -> usize
    ensures { result ≡ decimal_length bytes.now }
{
    let digits = digit_run(bytes);
    let mantissa = digits + fraction_length(behind(bytes, digits));
    if mantissa == 0 {
        0
    } else {
        mantissa + exponent_length(behind(bytes, mantissa))
    }
}

#[tactic(auto, unfolding(crate::specs::Numbers::number_length))]
pub(crate) fn number_length(bytes: &[u8]) -> usize
    ensures { result ≡ number_length bytes.now }
{
    let hexadecimal = hexadecimal_length(bytes);
    if hexadecimal == 0 {
        decimal_length(bytes)
    } else {
        hexadecimal
    }
}
