// The first row that blocks a negation.
ghost use Rattle.std.specs.Prelude.{◌≡◌, map, IfOk};
ghost use Rattle.defs_match.specs.Rows.{empty_row, extend};
ghost use Rattle.defs_soar.specs.Stale.{blocking_rows, first_tag};
ghost use Rattle.soar_rule.specs.Conditions.{condition};
ghost use Rattle.chunk_learn.specs.Blocked.{blocking_tag, tag_of_first, told_from};

use match_row::{Row, add_extended, rows};
use soar_rule::{Cond, Pattern};
use soar_sym::NoMemory;
use soar_wm::Element;
use std::alloc::Global;

/// The place of the first negation that is blocked, from 1 and at most 2^32 - 1, and the tag that blocks it.
pub fn first_blocked(
    alloc: Global,
    negations: &[Cond],
    elements: &[Element],
) -> Result<Option<(u32, u32)>, NoMemory>
    ensures { IfOk result (λ found. found ≡ told_from 1 elements.now (map condition negations.now)) }
{
    let mut place: u32 = 1;
    'negations: for negation in negations {
        if let Some(tag) = blocking_tag(alloc, negation, elements)? {
            return Ok(Some((place, tag)));
        }
        place = place.saturating_add(1);
    }
    Ok(None)
}

/// The first tag of the first row that blocks a negation.
fn blocking_tag(
    alloc: Global,
    negation: &Cond,
    elements: &[Element],
) -> Result<Option<u32>, NoMemory>
    ensures { IfOk result (λ tag. tag ≡ blocking_tag elements.now (condition negation.now)) }
{
    let rows = blocking_rows(alloc, negation, elements)?;
    Ok(tag_of_first(rows.as_slice()))
}

fn blocking_rows(alloc: Global, negation: &Cond, elements: &[Element]) -> Result<Vec<Row>, NoMemory>
    ensures { IfOk result (λ rows. rows.items ≡ blocking_rows elements.now (condition negation.now)) }
{
    match negation {
        Cond::Pos(_) => Ok(Vec::new(alloc)),
        Cond::Neg(pattern) => rows_of(alloc, pattern, elements),
        Cond::Conj(inside) => rows(alloc, inside.as_slice(), elements),
    }
}

/// The rows of one pattern.
fn rows_of(alloc: Global, pattern: &Pattern, elements: &[Element]) -> Result<Vec<Row>, NoMemory>
    ensures { IfOk result (λ rows. rows.items ≡ extend pattern.now elements.now empty_row) }
{
    let row = Row::empty(alloc);
    let mut found = Vec::new(alloc);
    add_extended(alloc, pattern, elements, &row, &mut found)?;
    Ok(found)
}

#[tactic(auto, using(crate::proofs::BlockingLemmas::tag_of_none))]
fn tag_of_first(rows: &[Row]) -> Option<u32>
    ensures { result ≡ tag_of_first rows.now }
{
    match rows.split_first() {
        Some((row, _)) => Some(first_tag(row.tags())),
        None => None,
    }
}

#[tactic(auto, using(crate::proofs::BlockingLemmas::first_of_none))]
fn first_tag(tags: &[u32]) -> u32
    ensures { result ≡ first_tag tags.now }
{
    match tags.split_first() {
        Some((tag, _)) => *tag,
        None => 0,
    }
}
