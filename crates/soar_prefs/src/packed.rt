// A row in 48 bytes.
ghost use Rattle.std.specs.Prelude.{◌≡◌};
ghost use Rattle.soar_prefs.specs.Packed.{referent_at, referent_kind};

use defs_soar::{PrefKind, Preference, Wish};
use packed_triples::{Kind, kind_of, number_of, symbol_at};
use soar_sym::Sym;
use std::marker::Model;

/// A row in 48 bytes: each symbol is a number with its kind. A map keeps it as it would keep the row.
#[derive(Drop)]
pub struct PackedPreference {
    firing: u64,
    id: i64,
    attr: i64,
    value: i64,
    referent: i64,
    id_kind: Kind,
    attr_kind: Kind,
    value_kind: Kind,
    referent_kind: Option<Kind>,
    kind: PrefKind,
    operator_support: bool,
}

const _: () = prove!(size_of::<PackedPreference>() == 48);

impl Model for PackedPreference {
    ghost use Rattle.packed_triples.specs.Packed.{symbol_at};
    ghost use Rattle.defs_soar.specs.contracts.preference.Preference as preference;
    ghost use Rattle.defs_soar.specs.declared.preference.Preference.{Preference as PreferenceOf};
    ghost use Rattle.soar_prefs.specs.Packed.{preference_with, referent_at};

    ghost Value = { PreferenceOf };

    ghost coded = { preference.the_row.coded };

    ghost view = { λ p. preference_with p.firing (symbol_at p.id_kind p.id) (symbol_at p.attr_kind p.attr) (symbol_at p.value_kind p.value) p.kind (referent_at p.referent_kind p.referent) p.operator_support };
}

impl PackedPreference {
    /// The row, packed.
    pub fn new(row: Preference) -> PackedPreference
        ensures { result ≡ row }
    {
        PackedPreference {
            firing: row.firing,
            id: number_of(row.wish.id),
            attr: number_of(row.wish.attr),
            value: number_of(row.wish.value),
            referent: referent_number(row.wish.referent),
            id_kind: kind_of(row.wish.id),
            attr_kind: kind_of(row.wish.attr),
            value_kind: kind_of(row.wish.value),
            referent_kind: referent_kind(row.wish.referent),
            kind: row.wish.kind,
            operator_support: row.operator_support,
        }
    }

    /// The row itself.
    pub fn preference(&self) -> Preference
        ensures { result ≡ self.now }
    {
        Preference {
            firing: self.firing,
            wish: Wish {
                id: symbol_at(self.id_kind, self.id),
                attr: symbol_at(self.attr_kind, self.attr),
                value: symbol_at(self.value_kind, self.value),
                kind: self.kind,
                referent: referent_at(self.referent_kind, self.referent),
            },
            operator_support: self.operator_support,
        }
    }
}

/// The kind of a referent, where there is one.
fn referent_kind(referent: Option<Sym>) -> Option<Kind>
    ensures { result ≡ referent_kind referent }
{
    match referent {
        None => None,
        Some(symbol) => Some(kind_of(symbol)),
    }
}

/// The number of a referent, and 0 for none.
fn referent_number(referent: Option<Sym>) -> i64
    ensures { referent_at (referent_kind referent) result ≡ referent }
{
    match referent {
        None => 0,
        Some(symbol) => number_of(symbol),
    }
}

/// The referent of a kind and a number.
fn referent_at(kind: Option<Kind>, number: i64) -> Option<Sym>
    ensures { result ≡ referent_at kind number }
{
    match kind {
        None => None,
        Some(kind) => Some(symbol_at(kind, number)),
    }
}
