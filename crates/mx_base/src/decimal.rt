// Numbers in decimal digits.
ghost use Rattle.std.specs.Prelude.{◌≡◌, ◌≤◌, true, IfSome};
ghost use Rattle.std.specs.List.{list_all};
ghost use Rattle.mx_base.specs.Decimal.{is_digit, is_decimal, leads_with_zero, with_digit, decimal_value, in_64_bits, number, number_to};

/// The number that decimal digits spell, None for any other text, for a 0 before another digit, and from 2 ^ 64 on.
#[tactic(auto, unfolding(crate::specs::Decimal::number))]
pub fn read_number(text: &[u8]) -> Option<u64>
    ensures { result ≡ number text.now }
{
    if is_decimal_text(text) {
        value_of(text)
    } else {
        None
    }
}

/// The number of at most so much that decimal digits spell, None where `read_number` gives no such number.
#[tactic(auto, unfolding(crate::specs::Decimal::number_to))]
pub fn read_number_to(most: u64, text: &[u8]) -> Option<u64>
    ensures value { result ≡ number_to most text.now }
    ensures bound { IfSome result (λ n. n ≤ most) }
{
    let n = read_number(text)?;
    if n <= most { Some(n) } else { None }
}

fn is_decimal_text(text: &[u8]) -> bool
    ensures { result ≡ is_decimal text.now }
{
    match text {
        [] => false,
        _ => are_digits(text) && !has_leading_zero(text),
    }
}

fn are_digits(text: &[u8]) -> bool
    ensures { result ≡ list_all is_digit text.now }
{
    text.iter().all(|b| b'0' <= *b && *b <= b'9')
}

fn has_leading_zero(text: &[u8]) -> bool
    ensures { result ≡ leads_with_zero text.now }
{
    match text {
        [first, _, ..] => *first == b'0',
        _ => false,
    }
}

// The value of digits, where 64 bits hold it.
fn value_of(digits: &[u8]) -> Option<u64>
    requires { list_all is_digit digits.now ≡ true }
    ensures { result ≡ in_64_bits (decimal_value digits.now) }
{
    let mut value: u64 = 0;
    for digit in digits {
        value = add_digit(value, *digit)?;
    }
    Some(value)
}

fn add_digit(value: u64, digit: u8) -> Option<u64>
    requires { is_digit digit ≡ true }
    ensures { result ≡ in_64_bits (with_digit value digit) }
{
    value.checked_mul(10)?.checked_add(u64::from(digit - b'0'))
}
