ghost use Rattle.std.specs.Prelude.{◌≡◌, ◌+◌, ◌-◌, ◌*◌, ◌<◌, ◌≤◌, ◌^◌, true, false, length, MatchOption};
ghost use Rattle.std.specs.Option.{SomeIff};
ghost use Rattle.std.specs.List.{list_all, prefix_len};
ghost use Rattle.defs_text.specs.Bytes.{is_digit};
ghost use Rattle.defs_text.specs.Runs.{unsigned, begins_digit, begins_with, are_digits, is_integer, is_exponent, is_float, after_digits, number_from, integer_of, fits_integer};

use crate::bytes::digit;

/// An optional sign and one or more digits.
pub fn is_integer(run: &[u8]) -> bool
    ensures { result ≡ is_integer run.now }
{
    are_digits(unsigned(run))
}

/// Digits with an exponent, behind an optional sign.
pub fn is_float(run: &[u8]) -> bool
    ensures { result ≡ is_float run.now }
{
    let digits = unsigned(run);
    begins_digit(digits) && is_exponent(after_digits(digits))
}

/// The value of an integer, where 64 bits hold it.
pub fn integer(run: &[u8]) -> Option<i64>
    ensures { MatchOption result (fits_integer (integer_of run.now) ≡ false)
        (λ value. (value ≡ integer_of run.now) × (fits_integer value ≡ true)) }
{
    let value = decimal_value(unsigned(run))?;
    if begins_minus(run) {
        0i64.checked_sub_unsigned(value)
    } else {
        0i64.checked_add_unsigned(value)
    }
}

/// The number that digits are in decimal, below 2^64.
pub fn decimal_value(digits: &[u8]) -> Option<u64>
    ensures { MatchOption result (2 ^ 64 ≤ number_from 0 digits.now) (λ value. value ≡ number_from 0 digits.now) }
{
    let mut value: u64 = 0;
    'digits: for digit in digits {
        match with_digit(value, *digit) {
            Some(longer) => value = longer,
            None => return None,
        }
    }
    Some(value)
}

/// A number with one more digit behind it, below 2^64.
fn with_digit(value: u64, digit: u8) -> Option<u64>
    ensures { SomeIff result (value * 10 + (digit - 48) < 2 ^ 64) (value * 10 + (digit - 48)) }
{
    value
        .checked_mul(10)?
        .checked_add(u64::from(digit.saturating_sub(b'0')))
}

fn begins_minus(run: &[u8]) -> bool
    ensures { result ≡ begins_with 45 run.now }
{
    match run.split_first() {
        Some((first, _)) => *first == b'-',
        None => false,
    }
}

/// The run without a sign in front.
fn unsigned(run: &[u8]) -> &[u8]
    ensures { result.now ≡ unsigned run.now }
{
    match run.split_first() {
        Some((b'+' | b'-', rest)) => rest,
        _ => run,
    }
}

fn begins_digit(bytes: &[u8]) -> bool
    ensures { result ≡ begins_digit bytes.now }
{
    match bytes.first() {
        Some(first) => digit(*first),
        None => false,
    }
}

fn are_digits(bytes: &[u8]) -> bool
    ensures { result ≡ are_digits bytes.now }
{
    begins_digit(bytes) && all_digits(bytes)
}

fn all_digits(bytes: &[u8]) -> bool
    ensures { result ≡ list_all is_digit bytes.now }
{
    bytes.iter().all(|b| digit(*b))
}

fn digits_in_front(bytes: &[u8]) -> usize
    ensures count { result ≡ prefix_len is_digit bytes.now }
    ensures within { result ≤ length bytes.now }
{
    bytes.iter().take_while(|b| digit(**b)).count()
}

fn after_digits(bytes: &[u8]) -> &[u8]
    ensures { result.now ≡ after_digits bytes.now }
{
    let (_, rest) = bytes.split_at(digits_in_front(bytes));
    rest
}

/// `e` or `E`, an optional sign and one or more digits.
fn is_exponent(bytes: &[u8]) -> bool
    ensures { result ≡ is_exponent bytes.now }
{
    match bytes.split_first() {
        Some((b'e' | b'E', rest)) => are_digits(unsigned(rest)),
        _ => false,
    }
}
