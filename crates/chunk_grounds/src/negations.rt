// The first identifier without a variable among the constants of conditions.
ghost use Rattle.std.specs.Prelude.{◌≡◌};
ghost use Rattle.defs_soar.specs.Ungrounded.{first_without};
ghost use Rattle.soar_rule.specs.Conditions.{condition, conditions};
ghost use Rattle.soar_rule.specs.Symbols.{constants_of_atom, constants_of_condition, constants_of_conditions, constants_of_field, constants_of_pattern, constants_of_test};

use crate::unplaced::first_without;
use soar_rule::{Atom, Cond, Field, Pattern, Test};
use soar_sym::Sym;

#[cycle(conditions)]
pub(crate) fn first_in_conditions(places: &[Sym], conds: &[Cond]) -> Option<Sym>
    ensures { result ≡ first_without places.now (constants_of_conditions (conditions conds.now)) }
{
    'conds: for cond in conds {
        if let Some(symbol) = first_in_condition(places, cond) {
            return Some(symbol);
        }
    }
    None
}

#[cycle(conditions)]
fn first_in_condition(places: &[Sym], cond: &Cond) -> Option<Sym>
    ensures { result ≡ first_without places.now (constants_of_condition (condition cond.now)) }
{
    match cond {
        Cond::Pos(pattern) => first_in_pattern(places, pattern),
        Cond::Neg(pattern) => first_in_pattern(places, pattern),
        Cond::Conj(inside) => first_in_conditions(places, inside.as_slice()),
    }
}

#[tactic(auto, using(crate::proofs::FirstLemmas::first_in_both))]
fn first_in_pattern(places: &[Sym], pattern: &Pattern) -> Option<Sym>
    ensures { result ≡ first_without places.now (constants_of_pattern pattern.now) }
{
    if let Some(symbol) = first_in_field(places, &pattern.id) {
        return Some(symbol);
    }
    if let Some(symbol) = first_in_field(places, &pattern.attr) {
        return Some(symbol);
    }
    first_in_field(places, &pattern.value)
}

fn first_in_field(places: &[Sym], field: &Field) -> Option<Sym>
    ensures { result ≡ first_without places.now (constants_of_field field.now) }
{
    'tests: for test in field.tests.as_slice() {
        if let Some(symbol) = first_in_test(places, test) {
            return Some(symbol);
        }
    }
    None
}

fn first_in_test(places: &[Sym], test: &Test) -> Option<Sym>
    ensures { result ≡ first_without places.now (constants_of_test test.now) }
{
    match test {
        Test::Plain(atom) => first_in_atom(places, *atom),
        Test::Rel(_, atom) => first_in_atom(places, *atom),
        Test::OneOf(symbols) => first_without(places, symbols.as_slice()),
    }
}

fn first_in_atom(places: &[Sym], atom: Atom) -> Option<Sym>
    ensures { result ≡ first_without places.now (constants_of_atom atom) }
{
    match atom {
        Atom::Const(symbol) => first_without(places, &[symbol]),
        Atom::Var(_) => None,
    }
}
