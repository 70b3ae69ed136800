ghost use Rattle.std.specs.Prelude.{◌≡◌};
ghost use Rattle.defs_soar.specs.Choice.{has_kind as has_kind_of};
ghost use Rattle.soar_choose.specs.Parts.{is_of as is_of_row};

use defs_soar::{PrefKind, Preference};
use soar_sym::{Sym, is_symbol};

/// Whether a row is of a kind and of a value.
fn is_of(row: &Preference, kind: PrefKind, value: Sym) -> bool
    ensures { result ≡ is_of_row kind value row.now }
{
    row.wish.kind.is(kind) && is_symbol(row.wish.value, value)
}

/// Whether some row of a kind names a value.
pub(crate) fn has_kind(rows: &[Preference], kind: PrefKind, value: Sym) -> bool
    ensures { result ≡ has_kind_of rows.now kind value }
{
    rows.iter().any(|row| is_of(row, kind, value))
}
