// The tests of conditions between symbols.
ghost use Rattle.std.specs.Prelude.{◌≡◌, ◌++◌, ◌≤◌, map, OnOk};
ghost use Rattle.std.specs.Option.{option_copied};
ghost use Rattle.carried_tests.specs.Parts.{taken_by, tests_of_condition, tests_of_test};
ghost use Rattle.carried_tests.specs.Seen.{carried_seen};
ghost use Rattle.defs_match.specs.Testing.{symbol_at};
ghost use Rattle.defs_soar.specs.CarriedTests.{carried_by, is_of_symbols, tests_in, tests_of_conditions, tests_of_pattern};
ghost use Rattle.soar_rule.specs.Conditions.{condition, conditions};

use crate::carrying::CarriedTest;
use chain_identifiers::symbol_of;
use soar_rule::{Atom, Cond, Pattern, Relation, Test};
use soar_sym::{List, NoMemory, Sym};
use soar_wm::Element;

/// Adds those of positive conditions, each with its element.
pub(crate) fn add_conditions(
    tests: &mut Vec<CarriedTest>,
    bindings: &[(u32, Sym)],
    conds: &[Cond],
    elements: &List<Element>,
) -> Result<(), NoMemory>
    ensures { OnOk result (map carried_seen tests.new.items ≡ map carried_seen tests.old.items ++ tests_of_conditions bindings.now (conditions conds.now) elements.now) }
{
    let mut at = 0;
    'conds: for cond in conds {
        add_condition(tests, bindings, cond, elements.get(at))?;
        at += taken_by(cond);
    }
    Ok(())
}

/// How many elements a condition takes.
fn taken_by(cond: &Cond) -> usize
    ensures few { result ≤ 1 }
    ensures taken { result ≡ taken_by (condition cond.now) }
{
    match cond {
        Cond::Pos(_) => 1,
        _ => 0,
    }
}

fn add_condition(
    tests: &mut Vec<CarriedTest>,
    bindings: &[(u32, Sym)],
    cond: &Cond,
    element: Option<&Element>,
) -> Result<(), NoMemory>
    ensures { OnOk result (map carried_seen tests.new.items ≡ map carried_seen tests.old.items ++ tests_of_condition bindings.now (condition cond.now) (option_copied element.entry)) }
{
    match cond {
        Cond::Pos(pattern) => match element {
            Some(element) => add_pattern(tests, bindings, pattern, element),
            None => Ok(()),
        },
        _ => Ok(()),
    }
}

fn add_pattern(
    tests: &mut Vec<CarriedTest>,
    bindings: &[(u32, Sym)],
    pattern: &Pattern,
    element: &Element,
) -> Result<(), NoMemory>
    ensures { OnOk result (map carried_seen tests.new.items ≡ map carried_seen tests.old.items ++ tests_of_pattern bindings.now pattern.now element.now) }
{
    add_tests(tests, bindings, element.id, pattern.id.tests.as_slice())?;
    add_tests(tests, bindings, element.attr, pattern.attr.tests.as_slice())?;
    add_tests(
        tests,
        bindings,
        element.value,
        pattern.value.tests.as_slice(),
    )?;
    Ok(())
}

/// Adds those of a field that has this symbol.
fn add_tests(
    tests: &mut Vec<CarriedTest>,
    bindings: &[(u32, Sym)],
    symbol: Sym,
    field: &[Test],
) -> Result<(), NoMemory>
    ensures { OnOk result (map carried_seen tests.new.items ≡ map carried_seen tests.old.items ++ tests_in bindings.now symbol field.now) }
{
    'tests: for test in field {
        add_test(tests, bindings, symbol, test)?;
    }
    Ok(())
}

fn add_test(
    tests: &mut Vec<CarriedTest>,
    bindings: &[(u32, Sym)],
    symbol: Sym,
    test: &Test,
) -> Result<(), NoMemory>
    ensures { OnOk result (map carried_seen tests.new.items ≡ map carried_seen tests.old.items ++ tests_of_test bindings.now symbol test.now) }
{
    match test {
        Test::Rel(relation, atom) => {
            add_relation(tests, *relation, symbol, symbol_at(bindings, *atom))
        }
        _ => Ok(()),
    }
}

fn add_relation(
    tests: &mut Vec<CarriedTest>,
    relation: Relation,
    field: Sym,
    referent: Option<Sym>,
) -> Result<(), NoMemory>
    ensures { OnOk result (map carried_seen tests.new.items ≡ map carried_seen tests.old.items ++ carried_by relation field referent) }
{
    let Some(referent) = referent else {
        return Ok(());
    };
    if is_of_symbols(relation) {
        tests.push(CarriedTest {
            relation,
            field,
            referent,
        })?;
    }
    Ok(())
}

fn is_of_symbols(relation: Relation) -> bool
    ensures { result ≡ is_of_symbols relation }
{
    matches!(relation, Relation::Differ | Relation::SameKind)
}

/// The symbol of an atom, where its variable is bound.
fn symbol_at(bindings: &[(u32, Sym)], atom: Atom) -> Option<Sym>
    ensures { result ≡ symbol_at atom bindings.now }
{
    match atom {
        Atom::Const(symbol) => Some(symbol),
        Atom::Var(variable) => symbol_of(bindings, variable),
    }
}
