// A letter and a number in eight bytes.
ghost use Rattle.std.specs.Prelude.{◌≡◌, Some, refl};
ghost use Rattle.std.specs.Cmp.{partial_equiv_from_equiv, partial_order_from_agreeing_total};
ghost use Rattle.packed_ids.specs.Ids.{id_cmp, id_eq, id_writes};
ghost use Rattle.packed_ids.specs.Laws.{id_equivalence, id_tied, id_total, same_writes};

use std::cmp::Ordering;
use std::hash::{Hash, Hasher};
use std::marker::Model;

/// The letter and number of an identifier in eight bytes, by letter and then by number.
#[derive(Clone, Copy)]
pub struct PackedId {
    number: u64,
}

const _: () = prove!(size_of::<PackedId>() == 8);

impl Model for PackedId {
    ghost use Rattle.std.specs.Prelude.{ℕ, ◌<◌};
    ghost use Rattle.packed_ids.specs.Ids.{number_of, pair_of};
    ghost use Rattle.packed_ids.specs.Laws.{whole};

    ghost Value = { ℕ × ℕ };

    ghost view = { λ p. pair_of p.number };

    ghost invariant = { λ p. p.number < 1099511627776 };

    ghost inverse = { λ d. record { number = number_of d } };

    ghost inverse_ok = { λ p below i. record { number = whole p.number i } };
}

impl PackedId {
    /// A letter and a number, packed.
    pub fn new(letter: u8, number: u32) -> PackedId
        ensures { result ≡ (letter, number) }
    {
        PackedId {
            number: letter as u64 * 4294967296 + number as u64,
        }
    }

    /// The letter.
    pub fn letter(&self) -> u8
        ensures { result ≡ self.now.0 }
    {
        (self.number / 4294967296) as u8
    }

    /// The number.
    pub fn number(&self) -> u32
        ensures { result ≡ self.now.1 }
    {
        (self.number % 4294967296) as u32
    }
}

impl PartialEq for PackedId {
    ghost eq = { λ x y. id_eq x y };

    ghost laws = { partial_equiv_from_equiv id_equivalence };

    fn eq(&self, other: &PackedId) -> bool {
        self.number == other.number
    }
}

impl Eq for PackedId {
    ghost laws = { id_equivalence };
}

impl PartialOrd for PackedId {
    ghost partial_cmp = { λ x y. Some (id_cmp x y) };

    ghost laws = { partial_order_from_agreeing_total id_cmp id_total (λ x y. refl) id_tied };

    fn partial_cmp(&self, other: &PackedId) -> Option<Ordering> {
        Some(self.cmp(other))
    }
}

impl Ord for PackedId {
    ghost cmp = { λ x y. id_cmp x y };

    ghost total = { id_total };

    ghost matches_partial_cmp = { λ x y. refl };

    ghost matches_eq = { id_tied };

    fn cmp(&self, other: &PackedId) -> Ordering {
        self.number.cmp(&other.number)
    }
}

impl Hash for PackedId {
    ghost hash_input = { λ p. id_writes p };

    ghost respects_eq = { same_writes };

    fn hash<H: Hasher>(&self, state: &mut H) {
        self.number.hash(state);
    }
}
