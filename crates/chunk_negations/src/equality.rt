// Whether conditions are one.
ghost use Rattle.std.specs.Prelude.{◌≡◌};
ghost use Rattle.soar_rule.specs.Conditions.{condition, conditions};
ghost use Rattle.soar_rule.specs.Equality.{atom_eq, condition_eq, conditions_eq, list_eq, pattern_eq, relation_eq, relation_place, test_eq};
ghost use Rattle.soar_sym.specs.Equality.{symbol_eq};

use soar_rule::{Atom, Cond, Pattern, Relation, Test};
use soar_sym::{List, Same, Sym, is_symbol};

/// Whether two lists of conditions are one.
#[cycle(equality)]
pub fn same_conds(conds: &[Cond], others: &[Cond]) -> bool
    ensures { result ≡ conditions_eq (conditions conds.now) (conditions others.now) }
{
    if conds.len() != others.len() {
        return false;
    }
    'conds: for at in 0..conds.len() {
        if !same_cond(&conds[at], &others[at]) {
            return false;
        }
    }
    true
}

/// Whether two conditions are one.
#[cycle(equality)]
pub(crate) fn same_cond(cond: &Cond, other: &Cond) -> bool
    ensures { result ≡ condition_eq (condition cond.now) (condition other.now) }
{
    match (cond, other) {
        (Cond::Pos(pattern), Cond::Pos(other)) => same_pattern(pattern, other),
        (Cond::Neg(pattern), Cond::Neg(other)) => same_pattern(pattern, other),
        (Cond::Conj(inside), Cond::Conj(other)) => same_conds(inside.as_slice(), other.as_slice()),
        _ => false,
    }
}

fn same_pattern(pattern: &Pattern, other: &Pattern) -> bool
    ensures { result ≡ pattern_eq pattern.now other.now }
{
    pattern.state == other.state
        && same_tests(pattern.id.tests.as_slice(), other.id.tests.as_slice())
        && same_tests(pattern.attr.tests.as_slice(), other.attr.tests.as_slice())
        && same_tests(pattern.value.tests.as_slice(), other.value.tests.as_slice())
        && pattern.accept == other.accept
}

fn same_tests(tests: &[Test], others: &[Test]) -> bool
    ensures { result ≡ list_eq test_eq tests.now others.now }
{
    if tests.len() != others.len() {
        return false;
    }
    'tests: for at in 0..tests.len() {
        if !same_test(&tests[at], &others[at]) {
            return false;
        }
    }
    true
}

fn same_test(test: &Test, other: &Test) -> bool
    ensures { result ≡ test_eq test.now other.now }
{
    match (test, other) {
        (Test::Plain(atom), Test::Plain(other)) => same_atom(*atom, *other),
        (Test::Rel(relation, atom), Test::Rel(other_relation, other)) => {
            same_relation(*relation, *other_relation) && same_atom(*atom, *other)
        }
        (Test::OneOf(symbols), Test::OneOf(others)) => same_symbols(symbols, others),
        _ => false,
    }
}

fn same_symbols(symbols: &List<Sym>, others: &List<Sym>) -> bool
    ensures { result ≡ list_eq symbol_eq symbols.now others.now }
{
    symbols.same(others)
}

fn same_atom(atom: Atom, other: Atom) -> bool
    ensures { result ≡ atom_eq atom other }
{
    match (atom, other) {
        (Atom::Const(symbol), Atom::Const(other)) => is_symbol(symbol, other),
        (Atom::Var(variable), Atom::Var(other)) => variable == other,
        _ => false,
    }
}

fn same_relation(relation: Relation, other: Relation) -> bool
    ensures { result ≡ relation_eq relation other }
{
    relation_place(relation) == relation_place(other)
}

/// The place of a relation in the row of them.
fn relation_place(relation: Relation) -> u8
    ensures { result ≡ relation_place relation }
{
    match relation {
        Relation::Differ => 0,
        Relation::Less => 1,
        Relation::Greater => 2,
        Relation::AtMost => 3,
        Relation::AtLeast => 4,
        Relation::SameKind => 5,
    }
}
