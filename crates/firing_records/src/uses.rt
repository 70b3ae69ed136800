// How firings used their elements (Soar manual, chapter 4, backtracing).
ghost use Rattle.std.specs.Prelude.{◌≡◌, ◌≤◌, ◌||◌, ◌++◌, ◌∷◌, [], nat_lt, IfOk, OnOk};
ghost use Rattle.defs_soar.specs.Levels.{level_in};
ghost use Rattle.defs_soar.specs.Uses as meaning;
ghost use Rattle.firing_records.specs.Recorded.{all_uses_before, reach_of, standing, uses_before};

use crate::before::{Before, triple_of};
use crate::makers::maker_of;
use crate::ways::{add_own, add_selected, add_use, selection_told};
use defs_soar::{How, Used};
use soar_sym::{List, NoMemory, Sym};
use soar_wm::Element;

/// How a firing of this depth used the elements of these tags, in order.
pub fn all_uses(before: &Before<'_>, depth: usize, tags: &[u32]) -> Result<List<Used>, NoMemory>
    requires few { depth ≤ 100 }
    ensures { IfOk result (λ used. used ≡ all_uses_before (standing before.now) depth tags.now) }
{
    let mut used = List::from_vec(Vec::with_capacity(before.alloc, tags.len())?);
    'tags: for tag in tags {
        add_uses_of_tag(before, depth, *tag, &mut used)?;
    }
    Ok(used)
}

/// A tag that working memory lacks counts for nothing.
fn add_uses_of_tag(
    before: &Before<'_>,
    depth: usize,
    tag: u32,
    used: &mut List<Used>,
) -> Result<(), NoMemory>
    requires few { depth ≤ 100 }
    ensures { OnOk result (used.new ≡ used.old ++ all_uses_before (standing before.now) depth (tag ∷ [])) }
{
    match before.memory.get(tag) {
        Some(element) => add_uses(before, depth, &element, used),
        None => Ok(()),
    }
}

/// An item and a selected operator stand with the marked element that they name.
fn add_uses(
    before: &Before<'_>,
    depth: usize,
    element: &Element,
    used: &mut List<Used>,
) -> Result<(), NoMemory>
    requires few { depth ≤ 100 }
    ensures { OnOk result (used.new ≡ used.old ++ uses_before (standing before.now) depth element.now) }
{
    if is_upper(before, depth, element.id) {
        return add_use(used, element, How::Upper);
    }
    if before.own.has(triple_of(*element)) {
        return add_own(used, element.id, before.goals.as_slice(), element);
    }
    add_made(before, element, used)
}

/// Whether the firing is of the top goal, or the identifier is of a higher level.
fn is_upper(before: &Before<'_>, depth: usize, id: Sym) -> bool
    requires few { depth ≤ 100 }
    ensures { result ≡ (nat_lt depth 2 || meaning.is_above (level_in before.now.goals.now (reach_of (standing before.now)).reached id) depth) }
{
    depth < 2 || is_above(before.levels.level_of(id), depth)
}

fn is_above(level: Option<u32>, depth: usize) -> bool
    ensures { result ≡ meaning.is_above level depth }
{
    match level {
        Some(level) => (level as usize) < depth,
        None => false,
    }
}

/// Adds a selected operator, or an element that a firing made.
fn add_made(before: &Before<'_>, element: &Element, used: &mut List<Used>) -> Result<(), NoMemory>
    ensures { OnOk result (used.new ≡ used.old ++ meaning.made_uses before.now.prefs.now.rows element.now (meaning.selection_told before.now.goals.now element.now)) }
{
    match selection_told(before.goals.as_slice(), element) {
        Some(selection) => add_selected(used, element, &selection),
        None => {
            let maker = maker_of(before.alloc, before.prefs, element)?;
            add_use(used, element, How::Made(maker))
        }
    }
}
