// A list of tags with copies of its first two tags beside it.
ghost use Rattle.std.specs.Prelude.{◌≡◌, Some, IfOk, nat_eq, refl};
ghost use Rattle.std.specs.Cmp.{partial_equiv_from_equiv};
ghost use Rattle.std.specs.Cmp.Lexicographic.{nat_list_cmp_total, nat_list_eq_equiv, pointwise, slice_cmp, texts_po, texts_ties};
ghost use Rattle.std.specs.Ordering.{nat_cmp};
ghost use Rattle.row_tags.specs.Tags.{tag_at, later_cmp};

use soar_sym::{List, NoMemory};
use std::alloc::Global;
use std::cmp::Ordering;
use std::marker::Model;

/// The tags of a row, with copies of the first two beside the list: most comparisons are told without a look at the list.
#[derive(Drop)]
pub struct RowTags {
    first: u32,
    second: u32,
    tags: List<u32>,
}

impl Model for RowTags {
    ghost use Rattle.std.specs.Prelude.{◌≡◌, ℕ, List as ListOf};
    ghost use Rattle.std.specs.Coded.{coded_list, coded_ℕ};
    ghost use Rattle.row_tags.specs.Tags.{tag_at};

    ghost Value = { ListOf ℕ };

    ghost coded = { coded_list coded_ℕ };

    ghost view = { λ t. t.tags };

    ghost invariant = { λ t. (t.first ≡ tag_at 0 t.tags) × (t.second ≡ tag_at 1 t.tags) };
}

/// The tag at a place, counted from 0, and 0 past the end.
fn tag_at(at: usize, tags: &[u32]) -> u32
    ensures { result ≡ tag_at at tags.now }
{
    if at < tags.len() { tags[at] } else { 0 }
}

impl RowTags {
    /// These tags. It takes no memory.
    pub fn new(tags: List<u32>) -> RowTags
        ensures { result ≡ tags }
    {
        RowTags {
            first: tag_at(0, tags.as_slice()),
            second: tag_at(1, tags.as_slice()),
            tags,
        }
    }

    /// A copy of these tags.
    pub fn of(alloc: Global, tags: &[u32]) -> Result<RowTags, NoMemory>
        ensures { IfOk result (λ t. t ≡ tags.now) }
    {
        let tags = List::from_slice(alloc, tags)?;
        Ok(RowTags::new(tags))
    }

    /// The tags, in order.
    pub fn as_slice(&self) -> &[u32]
        ensures { result.now ≡ self.now }
    {
        self.tags.as_slice()
    }

    /// The tags as a list. It takes no memory.
    pub fn into_list(self) -> List<u32>
        ensures { result ≡ self }
    {
        let RowTags { tags, .. } = self;
        tags
    }

    /// How tags with one first tag compare.
    fn cmp_later(&self, other: &RowTags) -> Ordering
        ensures { result ≡ later_cmp self.now other.now }
    {
        match self.second.cmp(&other.second) {
            Ordering::Equal => self.tags.cmp(&other.tags),
            order => order,
        }
    }
}

impl PartialEq for RowTags {
    ghost eq = { λ x y. pointwise nat_eq x y };

    ghost laws = { partial_equiv_from_equiv nat_list_eq_equiv };

    #[tactic(auto, using(crate::proofs::TagLemmas::tied))]
    fn eq(&self, other: &RowTags) -> bool {
        self.cmp(other).is_eq()
    }
}

impl Eq for RowTags {
    ghost laws = { nat_list_eq_equiv };
}

impl PartialOrd for RowTags {
    ghost partial_cmp = { λ x y. Some (slice_cmp nat_cmp x y) };

    ghost laws = { texts_po };

    fn partial_cmp(&self, other: &RowTags) -> Option<Ordering> {
        Some(self.cmp(other))
    }
}

/// Where the first tags differ, no more than these is compared.
impl Ord for RowTags {
    ghost cmp = { λ x y. slice_cmp nat_cmp x y };

    ghost total = { nat_list_cmp_total };

    ghost matches_partial_cmp = { λ x y. refl };

    ghost matches_eq = { λ x y. texts_ties x y };

    #[tactic(auto, using(crate::proofs::TagLemmas::told_by_two))]
    fn cmp(&self, other: &RowTags) -> Ordering {
        if self.first != other.first {
            return self.first.cmp(&other.first);
        }
        self.cmp_later(other)
    }
}
