// The limits of working memory.
ghost use Rattle.std.specs.Prelude.{◌≡◌, ◌+◌, ◌-◌, ◌≤◌, ◌^◌, [], ◌∷◌, IfNone};
ghost use Rattle.defs_soar.specs.Limits.{elements_to, first_passed, tags_to};

use defs_soar::Which;

/// The most elements of working memory.
const MOST_ELEMENTS: usize = 4_000_000;

/// The limit that is passed where so many elements are new beside those that stay, of elements before tags. `last` is the
/// last tag that was given.
pub fn limit_passed(staying: usize, new: usize, last: u32) -> Option<Which>
    requires few { staying ≤ 4000000 }
    ensures room { IfNone result (staying + new ≤ 4000000) }
    ensures left { IfNone result (last + new ≤ 2 ^ 32 - 1) }
    ensures passed { result ≡ first_passed (elements_to (staying + new) ∷ tags_to (last + new) ∷ []) }
{
    if new > MOST_ELEMENTS - staying {
        return Some(Which::Elements);
    }
    if new > (u32::MAX - last) as usize {
        return Some(Which::Tags);
    }
    None
}
