ghost use Rattle.std.specs.Prelude.{◌≡◌, if◌then◌else◌, nat_le, Some, None};
ghost use Rattle.std.specs.List.{list_all};
ghost use Rattle.defs_text.specs.Bytes.{is_digit, is_run_byte};
ghost use Rattle.defs_text.specs.Runs.{begins_with, number_from, run_kind};
ghost use Rattle.defs_text.specs.Symbols.{is_identifier_form, is_identifier_number, is_word_kind, reads_back, stands_bare};

use soar_lex::{Run, capital, digit, run_byte, run_kind};

/// The greatest number of an identifier.
const MOST_NUMBER: u64 = 4_294_967_295;

/// Whether a word is printed without bars.
pub fn stands_bare(text: &[u8]) -> bool
    ensures { result ≡ stands_bare text.now }
{
    reads_back(text) && !is_identifier_form(text)
}

/// Whether a text is read back as a bare word.
fn reads_back(text: &[u8]) -> bool
    ensures { result ≡ reads_back text.now }
{
    text.len() > 0 && all_run_bytes(text) && is_word_run(text)
}

fn all_run_bytes(text: &[u8]) -> bool
    ensures { result ≡ list_all is_run_byte text.now }
{
    text.iter().all(|b| run_byte(*b))
}

fn is_word_run(text: &[u8]) -> bool
    ensures { result ≡ is_word_kind (run_kind text.now) }
{
    match run_kind(text) {
        Run::Word => true,
        _ => false,
    }
}

/// Whether a text has the form of an identifier: a capital letter and a number from 1 to 2^32 - 1 without a zero in front.
pub fn is_identifier_form(text: &[u8]) -> bool
    ensures { result ≡ is_identifier_form text.now }
{
    match text.split_first() {
        Some((letter, digits)) => capital(*letter) && is_identifier_number(digits),
        None => false,
    }
}

/// Whether a text is a number from 1 to 2^32 - 1 without a zero in front.
fn is_identifier_number(digits: &[u8]) -> bool
    ensures { result ≡ is_identifier_number digits.now }
{
    identifier_number(digits).is_some()
}

/// The number of an identifier: one from 1 to 2^32 - 1 without a zero in front.
pub fn identifier_number(digits: &[u8]) -> Option<u32>
    ensures { result ≡ (if is_identifier_number digits.now then Some (number_from 0 digits.now) else None) }
{
    if digits.len() > 0 && !begins_zero(digits) && all_digits(digits) {
        small_number(digits)
    } else {
        None
    }
}

fn begins_zero(digits: &[u8]) -> bool
    ensures { result ≡ begins_with 48 digits.now }
{
    match digits.first() {
        Some(first) => *first == b'0',
        None => false,
    }
}

fn all_digits(bytes: &[u8]) -> bool
    ensures { result ≡ list_all is_digit bytes.now }
{
    bytes.iter().all(|b| digit(*b))
}

/// The number that digits are, where it is at most 2^32 - 1.
fn small_number(digits: &[u8]) -> Option<u32>
    ensures { result ≡ (if nat_le (number_from 0 digits.now) 4294967295 then Some (number_from 0 digits.now) else None) }
{
    let mut value: u64 = 0;
    'digits: for digit in digits {
        value = value * 10 + u64::from(digit.saturating_sub(b'0'));
        if value > MOST_NUMBER {
            return None;
        }
    }
    Some(value as u32)
}
