// The elements of a firing's instance, in the order of its tags.
ghost use Rattle.std.specs.Prelude.{◌≡◌, [], ◌∷◌, map, MatchOption};
ghost use Rattle.std.specs.List.{list_all};
ghost use Rattle.chunk_replay.specs.LookedUp.{of_tags};
ghost use Rattle.learning_laws.specs.Replay.{is_known};
ghost use Rattle.soar_wm.specs.WorkingMemory.{element_of};

use crate::known::is_known;
use defs_soar::{Used, Wish};
use soar_wm::Element;

/// Whether each element is known.
pub fn are_known(used: &[Used], tags: &[u32], rows: &[Element], made: &[Wish]) -> bool
    ensures { result ≡ list_all (is_known rows.now made.now) (of_tags used.now tags.now) }
{
    'tags: for tag in tags {
        if let Some(element) = element_of(used, *tag) {
            if !is_known(rows, made, element) {
                return false;
            }
        }
    }
    true
}

/// The first element, and the tags behind it.
pub fn next_element<'a>(used: &[Used], tags: &'a [u32]) -> Option<(Element, &'a [u32])>
    ensures { MatchOption result (of_tags used.now tags.now ≡ []) (λ found. of_tags used.now tags.now ≡ found.0 ∷ of_tags used.now found.1.now) }
{
    let mut rest = tags;
    'tags: while let Some((tag, behind)) = rest.split_first() {
        if let Some(element) = element_of(used, *tag) {
            return Some((element, behind));
        }
        rest = behind;
    }
    None
}

/// The used element of a tag.
fn element_of(used: &[Used], tag: u32) -> Option<Element>
    ensures { result ≡ element_of tag (map (λ u. u.element) used.now) }
{
    'used: for one in used {
        if one.element.tag == tag {
            return Some(one.element);
        }
    }
    None
}
