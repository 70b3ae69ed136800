// Conditions behind a mark.
ghost use Rattle.std.specs.Prelude.{◌≡◌};
ghost use Rattle.body_marks.specs.Fingerprint.{after_condition, after_conditions, after_field, after_flag, after_pattern, after_test};
ghost use Rattle.soar_rule.specs.Conditions.{condition, conditions};

use crate::symbols::{after_atom, after_number, after_symbols};
use soar_rule::{Cond, Field, Pattern, Test};

#[cycle(conditions)]
pub fn after_conditions(conds: &[Cond], mark: u64) -> u64
    ensures { result ≡ after_conditions (conditions conds.now) mark }
{
    let mut last = mark;
    'conds: for cond in conds {
        last = after_condition(cond, last);
    }
    last
}

#[cycle(conditions)]
fn after_condition(cond: &Cond, mark: u64) -> u64
    ensures { result ≡ after_condition (condition cond.now) mark }
{
    match cond {
        Cond::Pos(pattern) => after_pattern(pattern, after_number(7, mark)),
        Cond::Neg(pattern) => after_pattern(pattern, after_number(8, mark)),
        Cond::Conj(inside) => after_conditions(inside.as_slice(), after_number(9, mark)),
    }
}

fn after_pattern(pattern: &Pattern, mark: u64) -> u64
    ensures { result ≡ after_pattern pattern.now mark }
{
    let state = after_flag(pattern.state, mark);
    let id = after_field(&pattern.id, state);
    let attr = after_field(&pattern.attr, id);
    let value = after_field(&pattern.value, attr);
    after_flag(pattern.accept, value)
}

fn after_flag(flag: bool, mark: u64) -> u64
    ensures { result ≡ after_flag flag mark }
{
    if flag {
        after_number(1, mark)
    } else {
        after_number(0, mark)
    }
}

fn after_field(field: &Field, mark: u64) -> u64
    ensures { result ≡ after_field field.now mark }
{
    let mut last = after_number(6, mark);
    'tests: for test in field.tests.as_slice() {
        last = after_test(test, last);
    }
    last
}

fn after_test(test: &Test, mark: u64) -> u64
    ensures { result ≡ after_test test.now mark }
{
    match test {
        Test::Plain(atom) => after_atom(*atom, mark),
        Test::Rel(_, atom) => after_atom(*atom, after_number(4, mark)),
        Test::OneOf(symbols) => after_symbols(symbols.as_slice(), after_number(5, mark)),
    }
}
