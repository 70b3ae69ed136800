// The ways in which an element below the top goal's was used.
ghost use Rattle.std.specs.Prelude.{◌≡◌, ◌++◌, ◌∷◌, [], OnOk, Some};
ghost use Rattle.defs_soar.specs.Uses as meaning;
ghost use Rattle.firing_records.specs.Own.{uses_of_goal};

use defs_soar::{Goal, How, Item, Selection, Used};
use soar_sym::architecture::{ITEM, OPERATOR};
use soar_sym::{List, NoMemory, Sym, is_symbol};
use soar_wm::Element;

pub fn add_use(used: &mut List<Used>, element: &Element, how: How) -> Result<(), NoMemory>
    ensures { OnOk result (used.new ≡ used.old ++ meaning.used_as element.now how ∷ []) }
{
    used.push(Used {
        element: *element,
        how,
    })?;
    Ok(())
}

/// The marked operator element of a goal.
fn marked_element(goal: Sym, operator: Sym, tag: u32) -> Element
    ensures { result ≡ meaning.marked_element goal operator tag }
{
    Element {
        tag,
        id: goal,
        attr: OPERATOR,
        value: operator,
        accept: true,
        of_state: true,
    }
}

// ---- a goal's own element

/// Adds an element of these goals, of which the first stands below the superstate.
pub fn add_own(
    used: &mut List<Used>,
    superstate: Sym,
    goals: &[Goal],
    element: &Element,
) -> Result<(), NoMemory>
    ensures { OnOk result (used.new ≡ used.old ++ meaning.own_uses superstate goals.now element.now) }
{
    let mut above = superstate;
    'goals: for goal in goals {
        if is_symbol(goal.id, element.id) {
            return add_of_goal(used, above, goal.items.as_slice(), element);
        }
        above = goal.id;
    }
    add_use(used, element, How::Architecture)
}

/// Adds an element of a goal, which tells an item or something else.
fn add_of_goal(
    used: &mut List<Used>,
    superstate: Sym,
    items: &[Item],
    element: &Element,
) -> Result<(), NoMemory>
    ensures { OnOk result (used.new ≡ used.old ++ uses_of_goal superstate items.now element.now) }
{
    if !is_symbol(element.attr, ITEM) {
        return add_use(used, element, How::Architecture);
    }
    match item_in(items, element.value) {
        Some(item) => add_item(used, superstate, element, item),
        None => add_use(used, element, How::Architecture),
    }
}

/// Adds an item, and the marked element that it names.
fn add_item(
    used: &mut List<Used>,
    superstate: Sym,
    element: &Element,
    item: Item,
) -> Result<(), NoMemory>
    ensures { OnOk result (used.new ≡ used.old ++ meaning.item_uses superstate element.now (Some item)) }
{
    add_use(used, element, How::Item(item.tag))?;
    let marked = marked_element(superstate, item.value, item.tag);
    add_use(used, &marked, How::Upper)
}

/// The first item of a value.
fn item_in(items: &[Item], value: Sym) -> Option<Item>
    ensures { result ≡ meaning.item_in items.now value }
{
    'items: for item in items {
        if is_symbol(item.value, value) {
            return Some(*item);
        }
    }
    None
}

// ---- a selected operator

/// The selection of a goal that the element tells.
pub fn selection_told(goals: &[Goal], element: &Element) -> Option<Selection>
    ensures { result ≡ meaning.selection_told goals.now element.now }
{
    'goals: for goal in goals {
        if let Some(selection) = told_by(goal, element) {
            return Some(selection);
        }
    }
    None
}

/// The selection of the goal, where the element tells it.
fn told_by(goal: &Goal, element: &Element) -> Option<Selection>
    ensures { result ≡ meaning.selection_told (goal.now ∷ []) element.now }
{
    match goal.selected {
        Some(selection)
            if is_symbol(goal.id, element.id)
                && is_symbol(element.attr, OPERATOR)
                && !element.accept
                && is_symbol(selection.operator, element.value) => { Some(selection) }
        _ => None,
    }
}

/// Adds a selected operator, and its marked element, which the selection's maker made.
pub fn add_selected(
    used: &mut List<Used>,
    element: &Element,
    selection: &Selection,
) -> Result<(), NoMemory>
    ensures { OnOk result (used.new ≡ used.old ++ meaning.made_uses [] element.now (Some selection.now)) }
{
    add_use(used, element, How::Selected(selection.tag))?;
    let marked = marked_element(element.id, element.value, selection.tag);
    add_use(used, &marked, How::Made(selection.maker))
}
