// Which firing made the marked element of an operator.
ghost use Rattle.std.specs.Prelude.{◌≡◌, None};
ghost use Rattle.soar_decide.specs.Makers.{least_maker, least_maker_from, lesser, makes_marked};

use defs_soar::{PrefKind, Preference};
use soar_sym::{Sym, is_symbol};

/// The least number of a firing that has a row of the operator slot for this operator, acceptable or required, and 0 without one.
pub fn maker_of(rows: &[Preference], operator: Sym) -> u64
    ensures { result ≡ least_maker operator rows.now }
{
    match least_found(rows, operator) {
        Some(number) => number,
        None => 0,
    }
}

/// The least number, where there is one.
fn least_found(rows: &[Preference], operator: Sym) -> Option<u64>
    ensures { result ≡ least_maker_from None operator rows.now }
{
    let mut least = None;
    'rows: for row in rows {
        if makes_marked(row, operator) {
            least = Some(lesser(least, row.firing));
        }
    }
    least
}

fn makes_marked(row: &Preference, operator: Sym) -> bool
    ensures { result ≡ makes_marked operator row.now }
{
    is_symbol(row.wish.value, operator)
        && (row.wish.kind.is(PrefKind::Accept) || row.wish.kind.is(PrefKind::Require))
}

fn lesser(least: Option<u64>, number: u64) -> u64
    ensures { result ≡ lesser least number }
{
    match least {
        Some(other) => other.min(number),
        None => number,
    }
}
