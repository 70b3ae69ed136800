ghost use Rattle.std.specs.Prelude.{◌≡◌, ◌∷◌, [], Some, map, IfOk, OnOk};
ghost use Rattle.std.specs.List.{list_any};
ghost use Rattle.std.specs.Option.{option_map, option_to_list};
ghost use Rattle.carried_tests.specs.Parts.{placed_of};
ghost use Rattle.carried_tests.specs.Seen.{carried_seen, placed_seen};
ghost use Rattle.defs_soar.specs.CarriedTests.{placed_by, placed_eq, placed_once, placed_tests};
ghost use Rattle.soar_rule.specs.Equality.{relation_place};

use crate::carrying::CarriedTest;
use crate::occurring::occurrence;
use soar_rule::Relation;
use soar_sym::{NoMemory, Sym, is_symbol};
use soar_wm::Element;
use std::alloc::Global;

/// A test at a field, of three for each condition from 0, with its right side.
#[derive(Clone, Copy)]
pub struct PlacedTest {
    pub at: usize,
    pub relation: Relation,
    pub right: Sym,
}

/// The tests at the fields in which the later of their sides first occurs, without repeats.
pub fn placed(
    alloc: Global,
    elements: &[Element],
    tests: &[CarriedTest],
) -> Result<Vec<PlacedTest>, NoMemory>
    ensures { IfOk result (λ placed. map placed_seen placed.items ≡ placed_tests elements.now (map carried_seen tests.now)) }
{
    let mut placed = Vec::new(alloc);
    'tests: for test in tests {
        add_test(&mut placed, elements, *test)?;
    }
    Ok(placed)
}

/// Adds a test at its field, where it has one.
fn add_test(
    placed: &mut Vec<PlacedTest>,
    elements: &[Element],
    test: CarriedTest,
) -> Result<(), NoMemory>
    ensures { OnOk result (map placed_seen placed.new.items ≡ placed_once (map placed_seen placed.old.items) (placed_of elements.now (carried_seen test))) }
{
    let field = occurrence(elements, test.field);
    let referent = occurrence(elements, test.referent);
    match placed_by(test, field, referent) {
        Some(one) => add_new(placed, one),
        None => Ok(()),
    }
}

/// The side that occurs later is on the left; a side that occurs nowhere counts as the earlier one.
fn placed_by(test: CarriedTest, field: Option<usize>, referent: Option<usize>) -> Option<PlacedTest>
    ensures { option_to_list (option_map placed_seen result) ≡ placed_by (carried_seen test) field referent }
{
    let relation = test.relation;
    match (field, referent) {
        (None, None) => None,
        (Some(at), None) => Some(PlacedTest {
            at,
            relation,
            right: test.referent,
        }),
        (None, Some(at)) => Some(PlacedTest {
            at,
            relation,
            right: test.field,
        }),
        (Some(field), Some(referent)) => Some(later_of(test, field, referent)),
    }
}

/// A test whose sides both occur.
fn later_of(test: CarriedTest, field: usize, referent: usize) -> PlacedTest
    ensures { placed_seen result ∷ [] ≡ placed_by (carried_seen test) (Some field) (Some referent) }
{
    let relation = test.relation;
    if field < referent {
        PlacedTest {
            at: referent,
            relation,
            right: test.field,
        }
    } else {
        PlacedTest {
            at: field,
            relation,
            right: test.referent,
        }
    }
}

// ---- each once

fn add_new(placed: &mut Vec<PlacedTest>, one: PlacedTest) -> Result<(), NoMemory>
    ensures { OnOk result (map placed_seen placed.new.items ≡ placed_once (map placed_seen placed.old.items) (placed_seen one ∷ [])) }
{
    if !is_among(placed.as_slice(), one) {
        placed.push(one)?;
    }
    Ok(())
}

fn is_among(placed: &[PlacedTest], one: PlacedTest) -> bool
    ensures { result ≡ list_any (placed_eq (placed_seen one)) (map placed_seen placed.now) }
{
    'placed: for other in placed {
        if is_placed(one, *other) {
            return true;
        }
    }
    false
}

fn is_placed(a: PlacedTest, b: PlacedTest) -> bool
    ensures { result ≡ placed_eq (placed_seen a) (placed_seen b) }
{
    a.at == b.at
        && (relation_place(a.relation) == relation_place(b.relation) && is_symbol(a.right, b.right))
}

/// The place of a relation in the row of them.
fn relation_place(relation: Relation) -> u8
    ensures { result ≡ relation_place relation }
{
    match relation {
        Relation::Differ => 0,
        Relation::Less => 1,
        Relation::Greater => 2,
        Relation::AtMost => 3,
        Relation::AtLeast => 4,
        Relation::SameKind => 5,
    }
}
