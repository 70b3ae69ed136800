// The short form of the keys of rows, in which an index keeps them.
ghost use Rattle.std.specs.Prelude.{◌≡◌, Some, refl};
ghost use Rattle.std.specs.Cmp.{eq_by_cmp_equiv, partial_equiv_from_equiv, partial_order_from_agreeing_total};
ghost use Rattle.std.specs.Ordering.{eq_by_cmp};
ghost use Rattle.node_memory.specs.Sides.{IsSide, kind_mark, meaning_at, variable_at, variable_mark, variable_number};
ghost use Rattle.node_memory.specs.Symbols.{is_of, symbol_cmp, symbol_total};

use crate::symbols::{Joined, Symbols};
use packed_triples::{Kind, kind_of, number_of};
use row_tags::RowTags;
use soar_sym::Sym;
use std::cmp::Ordering;
use std::marker::Model;

/// A variable with what it stands for in 16 bytes: the number of the symbol comes first, since sides mostly differ by it.
#[derive(Clone, Copy, PartialEq, Eq, PartialOrd, Ord)]
pub struct Side {
    number: i64,
    variable: u32,
    bound: u8,
    kind: u8,
}

/// What variables stand for in the row of these tags, as an index keeps it, in 64 bytes.
#[derive(Drop)]
pub struct PackedSymbolKey {
    id: Side,
    value: Side,
    tags: RowTags,
}

const _: () = prove!(size_of::<Side>() == 16);

const _: () = prove!(size_of::<PackedSymbolKey>() == 64);

impl Model for PackedSymbolKey {
    ghost use Rattle.node_memory.specs.contracts.symbols.SymbolKey as key;
    ghost use Rattle.node_memory.specs.declared.symbols.SymbolKey.{SymbolKey as KeyOf};
    ghost use Rattle.node_memory.specs.Sides.{IsSide, key_at};

    ghost Value = { KeyOf };

    ghost coded = { key.the_row.coded };

    ghost view = { λ k. key_at k.id k.value k.tags };

    ghost invariant = { λ k. IsSide k.id × IsSide k.value };
}

/// The number of a variable, and 0 for none.
fn variable_number(variable: Option<u32>) -> u32
    ensures { result ≡ variable_number variable }
{
    match variable {
        None => 0,
        Some(variable) => variable,
    }
}

/// Whether there is a variable: 1 where there is.
fn variable_mark(variable: Option<u32>) -> u8
    ensures { result ≡ variable_mark variable }
{
    match variable {
        None => 0,
        Some(_) => 1,
    }
}

/// The number of a kind, from 1 to 3.
fn kind_mark(kind: Kind) -> u8
    ensures { result ≡ kind_mark kind }
{
    match kind {
        Kind::Identifier => 1,
        Kind::Name => 2,
        Kind::Integer => 3,
    }
}

/// A variable with what it stands for.
#[tactic(auto, using(crate::proofs::SideLemmas::variable_told, crate::proofs::SideLemmas::symbol_told))]
fn side_of(variable: Option<u32>, symbol: Option<Sym>) -> Side
    ensures exact { IsSide result }
    ensures variable { variable_at result ≡ variable }
    ensures meaning { meaning_at result ≡ symbol }
{
    let bound = variable_mark(variable);
    let variable = variable_number(variable);
    match symbol {
        None => Side {
            number: 0,
            variable,
            bound,
            kind: 0,
        },
        Some(symbol) => Side {
            number: number_of(symbol),
            variable,
            bound,
            kind: kind_mark(kind_of(symbol)),
        },
    }
}

impl PackedSymbolKey {
    /// The key of these parts. It takes no memory.
    pub fn new(joined: Joined, symbols: Symbols, tags: RowTags) -> PackedSymbolKey
        ensures { result ≡ record { joined = joined; symbols = symbols; tags = tags } }
    {
        PackedSymbolKey {
            id: side_of(joined.id, symbols.id),
            value: side_of(joined.value, symbols.value),
            tags,
        }
    }

    /// The tags of the row.
    pub fn tags(&self) -> &RowTags
        ensures { result.now ≡ self.now.tags }
    {
        &self.tags
    }

    /// The tags of the row, for who has no more use of the key.
    pub fn into_tags(self) -> RowTags
        ensures { result ≡ self.tags }
    {
        let PackedSymbolKey { tags, .. } = self;
        tags
    }

    /// Whether the key is of the variables of the other, and of what they stand for there.
    pub fn is_beside(&self, other: &PackedSymbolKey) -> bool
        ensures { result ≡ is_of other.now.joined other.now.symbols self.now }
    {
        self.id == other.id && self.value == other.value
    }

    /// How keys compare: by the sides, and those of the same sides by tags.
    fn cmp_sides(&self, other: &PackedSymbolKey) -> Ordering
        ensures { result ≡ symbol_cmp self.now other.now }
    {
        match self.id.cmp(&other.id) {
            Ordering::Equal => match self.value.cmp(&other.value) {
                Ordering::Equal => self.tags.cmp(&other.tags),
                order => order,
            },
            order => order,
        }
    }
}

impl PartialEq for PackedSymbolKey {
    ghost eq = { λ x y. eq_by_cmp symbol_cmp x y };

    ghost laws = { partial_equiv_from_equiv (eq_by_cmp_equiv symbol_total) };

    fn eq(&self, other: &PackedSymbolKey) -> bool {
        self.cmp(other).is_eq()
    }
}

impl Eq for PackedSymbolKey {
    ghost laws = { eq_by_cmp_equiv symbol_total };
}

impl PartialOrd for PackedSymbolKey {
    ghost partial_cmp = { λ x y. Some (symbol_cmp x y) };

    ghost laws = { partial_order_from_agreeing_total symbol_cmp symbol_total (λ x y. refl) (λ x y. refl) };

    fn partial_cmp(&self, other: &PackedSymbolKey) -> Option<Ordering> {
        Some(self.cmp(other))
    }
}

/// By the sides, and those of the same sides by tags, so that the rows in which variables stand for the same stand side by side.
/// Where the numbers of the first sides differ, no more than these is compared.
impl Ord for PackedSymbolKey {
    ghost cmp = { λ x y. symbol_cmp x y };

    ghost total = { symbol_total };

    ghost matches_partial_cmp = { λ x y. refl };

    ghost matches_eq = { λ x y. refl };

    fn cmp(&self, other: &PackedSymbolKey) -> Ordering {
        if self.id.number != other.id.number {
            return self.id.number.cmp(&other.id.number);
        }
        self.cmp_sides(other)
    }
}
