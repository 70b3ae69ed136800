// The numbers of runs and of tokens.
ghost use Rattle.std.specs.Prelude.{◌≡◌, ◌≤◌, ◌^◌, true, MatchOption};
ghost use Rattle.defs_text.specs.Runs.{begins_digit, number_from};
ghost use Rattle.defs_run.specs.Arguments.{argument_of};
ghost use Rattle.random_words.specs.Answers.{number_in};
ghost use Rattle.soar_lex.specs.Pieces.{saying};

use soar_lex::{Says, decimal_value, digit};

/// The value of a run of digits, below 2^64.
pub fn unsigned_value(run: &[u8]) -> Option<u64>
    ensures { MatchOption result (begins_digit run.now ≡ true → 2 ^ 64 ≤ number_from 0 run.now)
        (λ value. (begins_digit run.now ≡ true) × (value ≡ number_from 0 run.now)) }
{
    if begins_digit(run) {
        decimal_value(run)
    } else {
        None
    }
}

/// The number of a token that is an integer without a sign, below 2^63. The text begins with the token.
pub fn number_of(text: &[u8], says: Says<'_>) -> Option<u64>
    ensures { result ≡ number_in (argument_of text.now (saying says.entry)) }
{
    match says {
        Says::Integer(value) if value >= 0 && begins_digit(text) => Some(value as u64),
        _ => None,
    }
}

fn begins_digit(bytes: &[u8]) -> bool
    ensures { result ≡ begins_digit bytes.now }
{
    match bytes.first() {
        Some(first) => digit(*first),
        None => false,
    }
}
