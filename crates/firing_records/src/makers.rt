// Which firing made an element.
ghost use Rattle.std.specs.Prelude.{◌≡◌, None, IfOk};
ghost use Rattle.defs_soar.specs.Uses.{maker_of, makes_element};
ghost use Rattle.firing_records.specs.Makers.{least_maker, lesser};

use defs_soar::{PrefKind, Preference};
use kept_triples::Prefs;
use soar_sym::{NoMemory, is_symbol};
use soar_wm::Element;
use std::alloc::Global;

/// The least number of a firing that has a row for the element, and 0 without one.
pub fn maker_of(alloc: Global, prefs: &Prefs, element: &Element) -> Result<u64, NoMemory>
    ensures { IfOk result (λ number. number ≡ maker_of prefs.now.rows element.now) }
{
    let rows = prefs.slot(alloc, element.id, element.attr)?;
    Ok(least_of(rows.as_slice(), element))
}

fn least_of(rows: &[Preference], element: &Element) -> u64
    ensures { result ≡ maker_of rows.now element.now }
{
    match least_found(rows, element) {
        Some(number) => number,
        None => 0,
    }
}

/// The least number, where there is one.
fn least_found(rows: &[Preference], element: &Element) -> Option<u64>
    ensures { result ≡ least_maker None element.now rows.now }
{
    let mut least = None;
    'rows: for row in rows {
        if makes_element(row, element) {
            least = Some(lesser(least, row.firing));
        }
    }
    least
}

fn makes_element(row: &Preference, element: &Element) -> bool
    ensures { result ≡ makes_element element.now row.now }
{
    is_symbol(row.wish.id, element.id)
        && is_symbol(row.wish.attr, element.attr)
        && is_symbol(row.wish.value, element.value)
        && (row.wish.kind.is(PrefKind::Accept)
            || (element.accept && row.wish.kind.is(PrefKind::Require)))
}

fn lesser(least: Option<u64>, number: u64) -> u64
    ensures { result ≡ lesser least number }
{
    match least {
        Some(other) => other.min(number),
        None => number,
    }
}
