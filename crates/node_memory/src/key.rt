// The keys of elements, and the short form in which an index keeps them.
ghost use Rattle.std.specs.Prelude.{◌≡◌, Some, refl};
ghost use Rattle.std.specs.Cmp.{eq_by_cmp_equiv, partial_equiv_from_equiv, partial_order_from_agreeing_total};
ghost use Rattle.std.specs.Ordering.{eq_by_cmp};
ghost use Rattle.node_memory.specs.contracts.key.ElementKeyOrd.TheImpl.Laws as key_laws;
ghost use Rattle.node_memory.specs.Keys.{key_cmp};
ghost use Rattle.node_memory.specs.Packed.{attributes_cmp, key_with, rank_of, sym_cmp, values_cmp};
ghost use Rattle.packed_triples.specs.Packed.{IsExact, symbol_at};

use packed_triples::{Kind, kind_of, number_of, symbol_at};
use soar_sym::Sym;
use std::cmp::Ordering;
use std::marker::Model;

/// The key of an element: by identifier, then attribute, then value, then tag.
#[derive(Clone, Copy, PartialEq, Eq, PartialOrd, Ord)]
pub struct ElementKey {
    pub id: Sym,
    pub attr: Sym,
    pub value: Sym,
    pub tag: u32,
}

/// The key of an element in 32 bytes: each symbol is a number with its kind, by which keys compare.
#[derive(Drop)]
pub struct PackedKey {
    id: i64,
    attr: i64,
    value: i64,
    tag: u32,
    id_kind: Kind,
    attr_kind: Kind,
    value_kind: Kind,
}

const _: () = prove!(size_of::<PackedKey>() == 32);

impl Model for PackedKey {
    ghost use Rattle.node_memory.specs.contracts.key.ElementKey as key;
    ghost use Rattle.node_memory.specs.declared.key.ElementKey.{ElementKey as KeyOf};
    ghost use Rattle.node_memory.specs.Packed.{key_with};
    ghost use Rattle.packed_triples.specs.Packed.{IsExact, symbol_at};

    ghost Value = { KeyOf };

    ghost coded = { key.the_row.coded };

    ghost view = { λ k. key_with (symbol_at k.id_kind k.id) (symbol_at k.attr_kind k.attr) (symbol_at k.value_kind k.value) k.tag };

    ghost invariant = { λ k. IsExact k.id_kind k.id × IsExact k.attr_kind k.attr × IsExact k.value_kind k.value };
}

/// The place of a kind in the order of symbols.
fn rank_of(kind: Kind) -> u8
    ensures { result ≡ rank_of kind }
{
    match kind {
        Kind::Identifier => 0,
        Kind::Name => 1,
        Kind::Integer => 2,
    }
}

/// How two symbols compare: as their kinds, and those of one kind as their numbers.
#[tactic(auto, using(crate::proofs::NumberLemmas::told_by_numbers))]
fn cmp_symbols(kind: Kind, number: i64, other_kind: Kind, other: i64) -> Ordering
    requires first { IsExact kind number }
    requires second { IsExact other_kind other }
    ensures { result ≡ sym_cmp (symbol_at kind number) (symbol_at other_kind other) }
{
    match rank_of(kind).cmp(&rank_of(other_kind)) {
        Ordering::Equal => number.cmp(&other),
        order => order,
    }
}

impl PackedKey {
    /// The key of these parts.
    pub fn new(id: Sym, attr: Sym, value: Sym, tag: u32) -> PackedKey
        ensures { result ≡ key_with id attr value tag }
    {
        PackedKey {
            id: number_of(id),
            attr: number_of(attr),
            value: number_of(value),
            tag,
            id_kind: kind_of(id),
            attr_kind: kind_of(attr),
            value_kind: kind_of(value),
        }
    }

    /// The key itself.
    pub fn key(&self) -> ElementKey
        ensures { result ≡ self.now }
    {
        ElementKey {
            id: symbol_at(self.id_kind, self.id),
            attr: symbol_at(self.attr_kind, self.attr),
            value: symbol_at(self.value_kind, self.value),
            tag: self.tag,
        }
    }

    /// How keys of one identifier compare: at once by the numbers of attributes of one kind, where these differ.
    fn cmp_attributes(&self, other: &PackedKey) -> Ordering
        ensures { result ≡ attributes_cmp self.now other.now }
    {
        if rank_of(self.attr_kind) == rank_of(other.attr_kind) && self.attr != other.attr {
            return self.attr.cmp(&other.attr);
        }
        match cmp_symbols(self.attr_kind, self.attr, other.attr_kind, other.attr) {
            Ordering::Equal => self.cmp_values(other),
            order => order,
        }
    }

    /// How keys of one identifier and one attribute compare.
    fn cmp_values(&self, other: &PackedKey) -> Ordering
        ensures { result ≡ values_cmp self.now other.now }
    {
        match cmp_symbols(self.value_kind, self.value, other.value_kind, other.value) {
            Ordering::Equal => self.tag.cmp(&other.tag),
            order => order,
        }
    }
}

impl PartialEq for PackedKey {
    ghost eq = { λ x y. eq_by_cmp key_cmp x y };

    ghost laws = { partial_equiv_from_equiv (eq_by_cmp_equiv key_laws.total-law) };

    fn eq(&self, other: &PackedKey) -> bool {
        self.cmp(other).is_eq()
    }
}

impl Eq for PackedKey {
    ghost laws = { eq_by_cmp_equiv key_laws.total-law };
}

impl PartialOrd for PackedKey {
    ghost partial_cmp = { λ x y. Some (key_cmp x y) };

    ghost laws = { partial_order_from_agreeing_total key_cmp key_laws.total-law (λ x y. refl) (λ x y. refl) };

    fn partial_cmp(&self, other: &PackedKey) -> Option<Ordering> {
        Some(self.cmp(other))
    }
}

/// Where the identifiers are of one kind and differ in number, no more than these numbers is compared.
impl Ord for PackedKey {
    ghost cmp = { λ x y. key_cmp x y };

    ghost total = { key_laws.total-law };

    ghost matches_partial_cmp = { λ x y. refl };

    ghost matches_eq = { λ x y. refl };

    fn cmp(&self, other: &PackedKey) -> Ordering {
        if rank_of(self.id_kind) == rank_of(other.id_kind) && self.id != other.id {
            return self.id.cmp(&other.id);
        }
        match cmp_symbols(self.id_kind, self.id, other.id_kind, other.id) {
            Ordering::Equal => self.cmp_attributes(other),
            order => order,
        }
    }
}
