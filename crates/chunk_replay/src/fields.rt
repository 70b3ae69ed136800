// One symbol against the tests of a field.
ghost use Rattle.std.specs.Prelude.{◌≡◌, map};
ghost use Rattle.std.specs.List.{list_all};
ghost use Rattle.chunk_replay.specs.LookedUp.{field_passes, is_or_free, known_at, of_tags, other_passes, plain_passes, symbol_in, within};
ghost use Rattle.soar_rule.specs.Conditions.{condition};

use crate::lookup::{Known, Part, symbol_before, symbol_for};
use match_row::{contains_symbol, stands};
use soar_rule::{Atom, Test};
use soar_sym::{Sym, is_symbol};

/// Whether the symbol passes the tests.
pub fn field_passes(known: &Known<'_>, part: Part, tests: &[Test], symbol: Sym) -> bool
    ensures { result ≡ field_passes (known_at part (symbol_in (map condition known.now.conds.now) (of_tags known.now.used.now known.now.tags.now)) known.now.pattern.now known.now.element) tests.now symbol }
{
    plains_pass(known, part, tests, symbol) && others_pass(known, part, tests, symbol)
}

fn plains_pass(known: &Known<'_>, part: Part, tests: &[Test], symbol: Sym) -> bool
    ensures { result ≡ list_all (plain_passes (known_at part (symbol_in (map condition known.now.conds.now) (of_tags known.now.used.now known.now.tags.now)) known.now.pattern.now known.now.element) symbol) tests.now }
{
    'tests: for test in tests {
        if !plain_passes(known, part, test, symbol) {
            return false;
        }
    }
    true
}

/// A plain test of a constant, or of a variable that stood before.
fn plain_passes(known: &Known<'_>, part: Part, test: &Test, symbol: Sym) -> bool
    ensures { result ≡ plain_passes (known_at part (symbol_in (map condition known.now.conds.now) (of_tags known.now.used.now known.now.tags.now)) known.now.pattern.now known.now.element) symbol test.now }
{
    match test {
        Test::Plain(Atom::Const(constant)) => is_symbol(symbol, *constant),
        Test::Plain(Atom::Var(variable)) => {
            is_or_free(symbol, symbol_before(known, part, *variable))
        }
        _ => true,
    }
}

fn is_or_free(symbol: Sym, bound: Option<Sym>) -> bool
    ensures { result ≡ is_or_free symbol bound }
{
    match bound {
        Some(bound) => is_symbol(symbol, bound),
        None => true,
    }
}

fn others_pass(known: &Known<'_>, part: Part, tests: &[Test], symbol: Sym) -> bool
    ensures { result ≡ list_all (other_passes (within (known_at part (symbol_in (map condition known.now.conds.now) (of_tags known.now.used.now known.now.tags.now)) known.now.pattern.now known.now.element) tests.now symbol) symbol) tests.now }
{
    'tests: for test in tests {
        if !other_passes(known, part, tests, symbol, test) {
            return false;
        }
    }
    true
}

/// A test that is not plain.
fn other_passes(known: &Known<'_>, part: Part, tests: &[Test], symbol: Sym, test: &Test) -> bool
    ensures { result ≡ other_passes (within (known_at part (symbol_in (map condition known.now.conds.now) (of_tags known.now.used.now known.now.tags.now)) known.now.pattern.now known.now.element) tests.now symbol) symbol test.now }
{
    match test {
        Test::Plain(_) => true,
        Test::Rel(relation, atom) => match symbol_for(known, part, tests, symbol, *atom) {
            Some(other) => stands(*relation, symbol, other),
            None => false,
        },
        Test::OneOf(symbols) => contains_symbol(symbols.as_slice(), &symbol),
    }
}
