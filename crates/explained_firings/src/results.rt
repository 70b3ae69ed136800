// The results of a firing: whether there is one, and their makers and preferences.
ghost use Rattle.std.specs.Prelude.{◌≡◌, ◌∷◌, map, IfOk};
ghost use Rattle.std.specs.List.{list_any};
ghost use Rattle.defs_soar.specs.Results.{is_result};
ghost use Rattle.firing_records.specs.Recorded.{reach_of, standing};

use defs_soar::{Firing, Preference, Wish};
use firing_records::Before;
use soar_sym::List;
use std::alloc::{AllocError, Global};

/// Whether the firing made something for a higher goal than its own.
pub(crate) fn has_result(before: &Before<'_>, firing: &Firing) -> bool
    ensures { result ≡ list_any (is_result (reach_of (standing before.now)) firing.now.depth) firing.now.made }
{
    'made: for wish in firing.made.as_slice() {
        if is_result(before, firing.depth, wish) {
            return true;
        }
    }
    false
}

fn is_result(before: &Before<'_>, depth: u32, wish: &Wish) -> bool
    ensures { result ≡ is_result (reach_of (standing before.now)) depth wish.now }
{
    match before.levels.level_of(wish.id) {
        Some(level) => level < depth,
        None => false,
    }
}

/// The number of the firing, and those of the makers of its results.
pub(crate) fn roots_of(
    alloc: Global,
    number: u64,
    results: &[Preference],
) -> Result<List<u64>, AllocError>
    ensures { IfOk result (λ roots. roots ≡ number ∷ map (λ row. row.firing) results.now) }
{
    let mut roots = List::new(alloc);
    roots.push(number)?;
    'results: for row in results {
        roots.push(row.firing)?;
    }
    Ok(roots)
}

pub(crate) fn wishes_of(alloc: Global, results: &[Preference]) -> Result<List<Wish>, AllocError>
    ensures { IfOk result (λ wishes. wishes ≡ map (λ row. row.wish) results.now) }
{
    let mut wishes = List::new(alloc);
    'results: for row in results {
        wishes.push(row.wish)?;
    }
    Ok(wishes)
}
