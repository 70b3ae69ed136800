// One triple for each action.
ghost use Rattle.std.specs.Prelude.{◌≡◌, [], ◌∷◌, ◌++◌, true, map, IfOk, OnOk};
ghost use Rattle.soar_rule.specs.Productions.{accepts, action_seen, atom_value, makes, preference_seen, value_seen};
ghost use Rattle.defs_read.specs.ActionExpansion.{action_of, action_path, actions_of, items_actions, makes_actions, value_of, wished_actions, wishes_actions};
ghost use Rattle.defs_read.specs.FreshNames.{expanded, fresh_variable, then_expand};
ghost use Rattle.tree_parts.specs.Seen.{action_seen as tree_seen, attribute_make_seen, item_seen, term_seen, wish_seen};
ghost use Rattle.read_parts.specs.Naming.{are_kept, fresh_seen};

use read_parts::{Names, Source, copy_value, fresh, named, preference, value, values};
use soar_rule::{Action, Atom, Pref, Value};
use soar_sym::{List, NoMemory};
use std::alloc::Global;
use tree_parts::{ActionTree, AttributeMake, ItemTree, WishTree};

fn single(alloc: Global, action: Action) -> Result<List<Action>, NoMemory>
    ensures { IfOk result (λ actions. map action_seen actions ≡ action_seen action ∷ []) }
{
    let mut actions = List::new(alloc);
    actions.push(action)?;
    Ok(actions)
}

fn append(out: &mut List<Action>, more: List<Action>) -> Result<(), NoMemory>
    ensures { OnOk result (map action_seen out.new ≡ map action_seen out.old ++ map action_seen more) }
{
    'more: for action in more.into_vec() {
        out.push(action)?;
    }
    Ok(())
}

/// An action with copies of the attribute and the value.
fn make(
    alloc: Global,
    id: Atom,
    attr: &Value,
    value: &Value,
    pref: Pref,
) -> Result<Action, NoMemory>
    ensures { IfOk result (λ action. action_seen action ≡ makes id (value_seen attr.now) (value_seen value.now) (preference_seen pref)) }
{
    let attr = copy_value(alloc, attr)?;
    let value = copy_value(alloc, value)?;
    Ok(Action::Make {
        id,
        attr,
        value,
        pref,
    })
}

/// An action for each preference.
fn wishes_actions(
    source: &Source<'_>,
    names: &mut Names,
    id: Atom,
    attr: &Value,
    value: &Value,
    wishes: &[WishTree],
) -> Result<List<Action>, NoMemory>
    requires { are_kept source.now names.old ≡ true }
    ensures actions { IfOk result (λ actions. wishes_actions source.now.table.now id (value_seen attr.now) (value_seen value.now) (map (wish_seen source.now.table.now) wishes.now) (fresh_seen source.now names.old) ≡ expanded (map action_seen actions) (fresh_seen source.now names.new)) }
    ensures kept { OnOk result (are_kept source.now names.new ≡ true) }
{
    let mut actions = List::new(source.alloc);
    'wishes: for wish in wishes {
        let pref = preference(source, names, wish)?;
        actions.push(make(source.alloc, id, attr, value, pref)?)?;
    }
    Ok(actions)
}

/// An item without a preference is acceptable.
fn wished_actions(
    source: &Source<'_>,
    names: &mut Names,
    id: Atom,
    attr: &Value,
    value: &Value,
    wishes: &[WishTree],
) -> Result<List<Action>, NoMemory>
    requires { are_kept source.now names.old ≡ true }
    ensures actions { IfOk result (λ actions. wished_actions source.now.table.now id (value_seen attr.now) (value_seen value.now) (map (wish_seen source.now.table.now) wishes.now) (fresh_seen source.now names.old) ≡ expanded (map action_seen actions) (fresh_seen source.now names.new)) }
    ensures kept { OnOk result (are_kept source.now names.new ≡ true) }
{
    if wishes.is_empty() {
        let action = make(source.alloc, id, attr, value, Pref::Accept)?;
        return single(source.alloc, action);
    }
    wishes_actions(source, names, id, attr, value, wishes)
}

fn item_actions(
    source: &Source<'_>,
    names: &mut Names,
    id: Atom,
    attr: &Value,
    item: &ItemTree,
) -> Result<List<Action>, NoMemory>
    requires { are_kept source.now names.old ≡ true }
    ensures actions { IfOk result (λ actions. then_expand (value_of (term_seen source.now.table.now item.now.value) source.now.table.now (fresh_seen source.now names.old)) (λ v g. wished_actions source.now.table.now id (value_seen attr.now) v (map (wish_seen source.now.table.now) item.now.wishes) g) ≡ expanded (map action_seen actions) (fresh_seen source.now names.new)) }
    ensures kept { OnOk result (are_kept source.now names.new ≡ true) }
{
    let value = value(source, names, &item.value)?;
    wished_actions(source, names, id, attr, &value, item.wishes.as_slice())
}

/// The actions of one item or more.
fn items_actions(
    source: &Source<'_>,
    names: &mut Names,
    id: Atom,
    attr: &Value,
    first: &ItemTree,
    others: &[ItemTree],
) -> Result<List<Action>, NoMemory>
    requires { are_kept source.now names.old ≡ true }
    ensures actions { IfOk result (λ actions. items_actions source.now.table.now id (value_seen attr.now) (item_seen source.now.table.now first.now ∷ map (item_seen source.now.table.now) others.now) (fresh_seen source.now names.old) ≡ expanded (map action_seen actions) (fresh_seen source.now names.new)) }
    ensures kept { OnOk result (are_kept source.now names.new ≡ true) }
{
    let mut actions = item_actions(source, names, id, attr, first)?;
    'others: for item in others {
        let here = item_actions(source, names, id, attr, item)?;
        append(&mut actions, here)?;
    }
    Ok(actions)
}

/// An action that makes a new variable, and the variable.
fn to_fresh(
    source: &Source<'_>,
    names: &mut Names,
    id: Atom,
    attr: Value,
) -> Result<(Action, Atom), NoMemory>
    requires { are_kept source.now names.old ≡ true }
    ensures variable { IfOk result (λ r. fresh_variable (fresh_seen source.now names.old) ≡ expanded r.1 (fresh_seen source.now names.new)) }
    ensures action { IfOk result (λ r. action_seen r.0 ≡ makes id (value_seen attr) (atom_value r.1) accepts) }
    ensures kept { OnOk result (are_kept source.now names.new ≡ true) }
{
    let variable = fresh(source, names)?;
    let action = Action::Make {
        id,
        attr,
        value: Value::Atom(variable),
        pref: Pref::Accept,
    };
    Ok((action, variable))
}

/// A path makes new variables on the way.
fn path_actions(
    source: &Source<'_>,
    names: &mut Names,
    mut id: Atom,
    made: &AttributeMake,
) -> Result<List<Action>, NoMemory>
    requires { are_kept source.now names.old ≡ true }
    ensures actions { IfOk result (λ actions. action_path source.now.table.now id (term_seen source.now.table.now made.now.attribute) (map (term_seen source.now.table.now) made.now.path) (item_seen source.now.table.now made.now.item ∷ map (item_seen source.now.table.now) made.now.items) (fresh_seen source.now names.old) ≡ expanded (map action_seen actions) (fresh_seen source.now names.new)) }
    ensures kept { OnOk result (are_kept source.now names.new ≡ true) }
{
    let mut actions = List::new(source.alloc);
    let mut attribute = &made.attribute;
    'path: for next in made.path.as_slice() {
        let attr = value(source, names, attribute)?;
        let (action, variable) = to_fresh(source, names, id, attr)?;
        actions.push(action)?;
        id = variable;
        attribute = next;
    }
    let attr = value(source, names, attribute)?;
    let last = items_actions(source, names, id, &attr, &made.item, made.items.as_slice())?;
    append(&mut actions, last)?;
    Ok(actions)
}

/// What is made of one identifier: one attribute or more.
fn makes_actions(
    source: &Source<'_>,
    names: &mut Names,
    id: Atom,
    first: &AttributeMake,
    others: &[AttributeMake],
) -> Result<List<Action>, NoMemory>
    requires { are_kept source.now names.old ≡ true }
    ensures actions { IfOk result (λ actions. makes_actions source.now.table.now id (attribute_make_seen source.now.table.now first.now ∷ map (attribute_make_seen source.now.table.now) others.now) (fresh_seen source.now names.old) ≡ expanded (map action_seen actions) (fresh_seen source.now names.new)) }
    ensures kept { OnOk result (are_kept source.now names.new ≡ true) }
{
    let mut actions = path_actions(source, names, id, first)?;
    'others: for made in others {
        let here = path_actions(source, names, id, made)?;
        append(&mut actions, here)?;
    }
    Ok(actions)
}

/// The actions of one in the text.
fn action(
    source: &Source<'_>,
    names: &mut Names,
    tree: &ActionTree,
) -> Result<List<Action>, NoMemory>
    requires { are_kept source.now names.old ≡ true }
    ensures actions { IfOk result (λ actions. action_of source.now.table.now (tree_seen source.now.table.now tree.now) (fresh_seen source.now names.old) ≡ expanded (map action_seen actions) (fresh_seen source.now names.new)) }
    ensures kept { OnOk result (are_kept source.now names.new ≡ true) }
{
    match tree {
        ActionTree::Making(made) => {
            let id = named(source, names, made.variable)?;
            makes_actions(source, names, id, &made.make, made.makes.as_slice())
        }
        ActionTree::Writing(terms) => {
            let values = values(source, names, terms.as_slice())?;
            single(source.alloc, Action::Write(values))
        }
        ActionTree::Halting => single(source.alloc, Action::Halt),
    }
}

/// The actions of the trees, in order.
pub fn actions(
    source: &Source<'_>,
    names: &mut Names,
    trees: &[ActionTree],
) -> Result<List<Action>, NoMemory>
    requires { are_kept source.now names.old ≡ true }
    ensures actions { IfOk result (λ actions. actions_of source.now.table.now (map (tree_seen source.now.table.now) trees.now) (fresh_seen source.now names.old) ≡ expanded (map action_seen actions) (fresh_seen source.now names.new)) }
    ensures kept { OnOk result (are_kept source.now names.new ≡ true) }
{
    let mut actions = List::new(source.alloc);
    'trees: for tree in trees {
        let here = action(source, names, tree)?;
        append(&mut actions, here)?;
    }
    Ok(actions)
}
