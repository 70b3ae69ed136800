// The conditions of a rule on the elements of a firing.
ghost use Rattle.std.specs.Prelude.{◌≡◌, map, MatchOption};
ghost use Rattle.chunk_replay.specs.LookedUp.{fields_behind_pass, fields_pass, nothing, of_tags, pass, pattern_passes, symbol_in, IsRefused, IsTaken};
ghost use Rattle.soar_rule.specs.Conditions.{condition, conditions};

use crate::elements::next_element;
use crate::fields::field_passes;
use crate::lookup::{Known, Part};
use defs_soar::Used;
use match_row::takes_marks;
use soar_rule::{Cond, Pattern};

/// Whether the positive conditions pass on the elements, one each.
pub fn conditions_pass(conds: &[Cond], used: &[Used], tags: &[u32]) -> bool
    ensures { result ≡ pass nothing (conditions conds.now) (of_tags used.now tags.now) }
{
    let mut rest = tags;
    'conds: for (place, cond) in conds.iter().enumerate() {
        match cond {
            Cond::Pos(pattern) => {
                match behind_taken(&conds[..place], used, tags, pattern, rest) {
                    Some(behind) => rest = behind,
                    None => return false,
                }
            }
            Cond::Neg(_) => {}
            Cond::Conj(_) => {}
        }
    }
    next_element(used, rest).is_none()
}

/// The tags behind the next element, where the pattern takes it after these conditions.
#[tactic(auto, using(crate::proofs::LookupLemmas::none_refused, crate::proofs::LookupLemmas::one_refused))]
fn behind_taken<'a>(
    conds: &[Cond],
    used: &[Used],
    tags: &[u32],
    pattern: &Pattern,
    rest: &'a [u32],
) -> Option<&'a [u32]>
    ensures { MatchOption result (IsRefused (symbol_in (map condition conds.now) (of_tags used.now tags.now)) pattern.now (of_tags used.now rest.now)) (λ behind. IsTaken (symbol_in (map condition conds.now) (of_tags used.now tags.now)) pattern.now (of_tags used.now rest.now) (of_tags used.now behind.now)) }
{
    match next_element(used, rest) {
        Some((element, behind)) => {
            let known = Known {
                conds,
                used,
                tags,
                pattern,
                element,
            };
            if pattern_passes(&known) {
                Some(behind)
            } else {
                None
            }
        }
        None => None,
    }
}

fn pattern_passes(known: &Known<'_>) -> bool
    ensures { result ≡ pattern_passes (symbol_in (map condition known.now.conds.now) (of_tags known.now.used.now known.now.tags.now)) known.now.pattern.now known.now.element }
{
    takes_marks(known.pattern, &known.element) && fields_pass(known)
}

fn fields_pass(known: &Known<'_>) -> bool
    ensures { result ≡ fields_pass (symbol_in (map condition known.now.conds.now) (of_tags known.now.used.now known.now.tags.now)) known.now.pattern.now known.now.element }
{
    let id = known.pattern.id.tests.as_slice();
    field_passes(known, Part::Id, id, known.element.id) && fields_behind_pass(known)
}

/// Attribute and value.
fn fields_behind_pass(known: &Known<'_>) -> bool
    ensures { result ≡ fields_behind_pass (symbol_in (map condition known.now.conds.now) (of_tags known.now.used.now known.now.tags.now)) known.now.pattern.now known.now.element }
{
    let attr = known.pattern.attr.tests.as_slice();
    let value = known.pattern.value.tests.as_slice();
    field_passes(known, Part::Attr, attr, known.element.attr)
        && field_passes(known, Part::Value, value, known.element.value)
}
