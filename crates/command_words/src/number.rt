// Numbers in decimal, without a sign.
ghost use Rattle.std.specs.Prelude.{◌≡◌, ◌≤◌, IfSome};
ghost use Rattle.std.specs.List.{list_all};
ghost use Rattle.defs_text.specs.Bytes.{is_digit};
ghost use Rattle.defs_text.specs.Runs.{begins_with};
ghost use Rattle.defs_run.specs.CommandLine.{is_number, number_between};

use soar_lex::{decimal_value, digit};

/// A watch level, from 0 to 5.
pub fn watch_level(text: &[u8]) -> Option<u8>
    ensures { result ≡ number_between 0 5 text.now }
{
    match number_between(0, 5, text) {
        Some(level) => Some(level as u8),
        None => None,
    }
}

/// How many items a script has, from 1 to 200,000.
pub fn item_count(text: &[u8]) -> Option<u32>
    ensures { result ≡ number_between 1 200000 text.now }
{
    match number_between(1, 200_000, text) {
        Some(count) => Some(count as u32),
        None => None,
    }
}

/// The number that a text is, from `low` to `high`.
fn number_between(low: u64, high: u64, text: &[u8]) -> Option<u64>
    ensures value { result ≡ number_between low high text.now }
    ensures most { IfSome result (λ value. value ≤ high) }
{
    if !is_number(text) {
        return None;
    }
    match decimal_value(text) {
        Some(value) if low <= value && value <= high => Some(value),
        _ => None,
    }
}

/// Whether a text is `0`, or digits of which the first is no 0.
fn is_number(text: &[u8]) -> bool
    ensures { result ≡ is_number text.now }
{
    text.len() > 0 && all_digits(text) && (!begins_zero(text) || text.len() == 1)
}

fn all_digits(text: &[u8]) -> bool
    ensures { result ≡ list_all is_digit text.now }
{
    text.iter().all(|b| digit(*b))
}

fn begins_zero(text: &[u8]) -> bool
    ensures { result ≡ begins_with 48 text.now }
{
    match text.first() {
        Some(first) => *first == b'0',
        None => false,
    }
}
