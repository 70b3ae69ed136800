// The conditions of a learned rule over symbols.
ghost use Rattle.std.specs.Prelude.{◌≡◌, ◌+◌, ◌^◌, ◌<◌, ◌++◌, map, IfOk, OnOk};
ghost use Rattle.carried_tests.specs.Seen.{placed_seen};
ghost use Rattle.defs_soar.specs.Candidate.{condition_of, conditions_from, plain_and};
ghost use Rattle.defs_soar.specs.CarriedTests.{tests_at};
ghost use Rattle.soar_rule.specs.Conditions.{condition, positive};

use carried_tests::PlacedTest;
use condition_copies::add_copies;
use soar_rule::{Atom, Cond, Field, Pattern, Test};
use soar_sym::{List, NoMemory, Sym};
use soar_wm::Element;
use std::alloc::Global;

/// The conditions of a learned rule over symbols: grounds with the tests at their fields, and then negations.
pub fn conditions_of(
    alloc: Global,
    elements: &[Element],
    placed: &[PlacedTest],
    negations: &[Cond],
) -> Result<List<Cond>, NoMemory>
    ensures { IfOk result (λ conds. map condition conds
        ≡ conditions_from (map placed_seen placed.now) 0 elements.now ++ map condition negations.now) }
{
    let mut conds = List::new(alloc);
    add_grounds(alloc, &mut conds, elements, placed)?;
    add_copies(alloc, &mut conds, negations)?;
    Ok(conds)
}

/// Adds the conditions of elements, whose fields are numbered from 0, three for each.
fn add_grounds(
    alloc: Global,
    conds: &mut List<Cond>,
    elements: &[Element],
    placed: &[PlacedTest],
) -> Result<(), NoMemory>
    ensures { OnOk result (map condition conds.new ≡ map condition conds.old ++ conditions_from (map placed_seen placed.now) 0 elements.now) }
{
    let mut first = 0;
    'elements: for element in elements {
        let next = next_first(first)?;
        conds.push(Cond::Pos(pattern_of(alloc, element, placed, first)?))?;
        first = next;
    }
    Ok(())
}

/// The first field of the next condition. No rule has so many conditions that it has no number.
fn next_first(first: usize) -> Result<usize, NoMemory>
    ensures { IfOk result (λ next. next ≡ first + 3) }
{
    first.checked_add(3).ok_or(NoMemory)
}

/// What an element is, with the tests at its fields.
fn pattern_of(
    alloc: Global,
    element: &Element,
    placed: &[PlacedTest],
    first: usize,
) -> Result<Pattern, NoMemory>
    requires { first + 3 < 2 ^ 64 }
    ensures { IfOk result (λ pattern. positive pattern ≡ condition_of (map placed_seen placed.now) first element.now) }
{
    let id = field_of(alloc, element.id, placed, first)?;
    let attr = field_of(alloc, element.attr, placed, first + 1)?;
    let value = field_of(alloc, element.value, placed, first + 2)?;
    Ok(Pattern {
        state: element.of_state,
        id,
        attr,
        value,
        accept: element.accept,
    })
}

/// A field that is a symbol, with the tests at it.
fn field_of(alloc: Global, symbol: Sym, placed: &[PlacedTest], at: usize) -> Result<Field, NoMemory>
    ensures { IfOk result (λ field. field ≡ plain_and symbol (tests_at (map placed_seen placed.now) at)) }
{
    let mut tests = List::new(alloc);
    tests.push(Test::Plain(Atom::Const(symbol)))?;
    add_tests(&mut tests, placed, at)?;
    Ok(Field { tests })
}

/// Adds the tests at a field.
fn add_tests(tests: &mut List<Test>, placed: &[PlacedTest], at: usize) -> Result<(), NoMemory>
    ensures { OnOk result (tests.new ≡ tests.old ++ tests_at (map placed_seen placed.now) at) }
{
    'placed: for test in placed {
        if test.at == at {
            tests.push(Test::Rel(test.relation, Atom::Const(test.right)))?;
        }
    }
    Ok(())
}
