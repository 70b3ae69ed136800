// One triple for each condition of a group.
ghost use Rattle.std.specs.Prelude.{◌≡◌, true, false, map, option_map, IfOk, OnOk};
ghost use Rattle.soar_rule.specs.Conditions.{condition};
ghost use Rattle.defs_read.specs.ConditionExpansion.{along, group_conditions, group_field, group_tests, tests_conditions, triple_condition, valued, with_values};
ghost use Rattle.defs_read.specs.FieldExpansion.{plain_field};
ghost use Rattle.defs_read.specs.FreshNames.{expanded, fresh_variable};
ghost use Rattle.tree_parts.specs.Seen.{attribute_test_seen, field_seen, value_test_seen};
ghost use Rattle.read_parts.specs.Naming.{are_kept, fresh_seen};
ghost use Rattle.read_parts.specs.Grouping.{group_of};

use crate::condition_lists::{append_conditions, one_condition, signed};
use crate::fields::{copy_field, field, plain_field};
use crate::names::{Names, fresh};
use crate::source::Source;
use soar_rule::{Atom, Cond, Field, Pattern};
use soar_sym::architecture::SUPERSTATE;
use soar_sym::{List, NoMemory};
use tree_parts::{AttributeTest, FieldTree, ValueTest};

fn triple(state: bool, id: Field, attr: Field, value: Field, accept: bool) -> Cond
    ensures { condition result ≡ triple_condition state id attr value accept }
{
    Cond::Pos(Pattern {
        state,
        id,
        attr,
        value,
        accept,
    })
}

/// A triple for each value.
fn with_values(
    source: &Source<'_>,
    names: &mut Names,
    state: bool,
    id: &Field,
    attr: &Field,
    values: &[ValueTest],
) -> Result<List<Cond>, NoMemory>
    requires { are_kept source.now names.old ≡ true }
    ensures conditions { IfOk result (λ conds. with_values source.now.table.now state id.now attr.now (map (value_test_seen source.now.table.now) values.now) (fresh_seen source.now names.old) ≡ expanded (map condition conds) (fresh_seen source.now names.new)) }
    ensures kept { OnOk result (are_kept source.now names.new ≡ true) }
{
    let mut conds = List::new(source.alloc);
    'values: for test in values {
        let id = copy_field(source.alloc, id)?;
        let attr = copy_field(source.alloc, attr)?;
        let value = field(source, names, &test.value)?;
        conds.push(triple(state, id, attr, value, test.accept))?;
    }
    Ok(conds)
}

/// A triple with a new variable as its value, by the atom of which it is told too.
fn to_fresh(
    source: &Source<'_>,
    names: &mut Names,
    state: bool,
    id: Field,
    attr: Field,
) -> Result<(Cond, Atom), NoMemory>
    requires { are_kept source.now names.old ≡ true }
    ensures variable { IfOk result (λ r. fresh_variable (fresh_seen source.now names.old) ≡ expanded r.1 (fresh_seen source.now names.new)) }
    ensures condition { IfOk result (λ r. condition r.0 ≡ triple_condition state id attr (plain_field r.1) false) }
    ensures kept { OnOk result (are_kept source.now names.new ≡ true) }
{
    let variable = fresh(source, names)?;
    let value = plain_field(source.alloc, variable)?;
    Ok((triple(state, id, attr, value, false), variable))
}

/// An attribute without a value has a new variable.
fn valued(
    source: &Source<'_>,
    names: &mut Names,
    state: bool,
    id: &Field,
    attr: &Field,
    values: &[ValueTest],
) -> Result<List<Cond>, NoMemory>
    requires { are_kept source.now names.old ≡ true }
    ensures conditions { IfOk result (λ conds. valued source.now.table.now state id.now attr.now (map (value_test_seen source.now.table.now) values.now) (fresh_seen source.now names.old) ≡ expanded (map condition conds) (fresh_seen source.now names.new)) }
    ensures kept { OnOk result (are_kept source.now names.new ≡ true) }
{
    if values.is_empty() {
        let id = copy_field(source.alloc, id)?;
        let attr = copy_field(source.alloc, attr)?;
        let (cond, _) = to_fresh(source, names, state, id, attr)?;
        return one_condition(source.alloc, cond);
    }
    with_values(source, names, state, id, attr, values)
}

/// A path goes over new variables; only its first triple has the group's field and mark.
fn along(
    source: &Source<'_>,
    names: &mut Names,
    mut state: bool,
    id: &Field,
    test: &AttributeTest,
) -> Result<List<Cond>, NoMemory>
    requires { are_kept source.now names.old ≡ true }
    ensures conditions { IfOk result (λ conds. along source.now.table.now state id.now (field_seen source.now.table.now test.now.attribute) (map (field_seen source.now.table.now) test.now.path) (map (value_test_seen source.now.table.now) test.now.values) (fresh_seen source.now names.old) ≡ expanded (map condition conds) (fresh_seen source.now names.new)) }
    ensures kept { OnOk result (are_kept source.now names.new ≡ true) }
{
    let mut conds = List::new(source.alloc);
    let mut id = copy_field(source.alloc, id)?;
    let mut attribute = &test.attribute;
    'path: for next in test.path.as_slice() {
        let attr = field(source, names, attribute)?;
        let (cond, variable) = to_fresh(source, names, state, id, attr)?;
        conds.push(cond)?;
        state = false;
        id = plain_field(source.alloc, variable)?;
        attribute = next;
    }
    let attr = field(source, names, attribute)?;
    let last = valued(source, names, state, &id, &attr, test.values.as_slice())?;
    append_conditions(&mut conds, last)?;
    Ok(conds)
}

/// The conditions of a group's attributes.
fn tests_conditions(
    source: &Source<'_>,
    names: &mut Names,
    state: bool,
    id: &Field,
    tests: &[AttributeTest],
) -> Result<List<Cond>, NoMemory>
    requires { are_kept source.now names.old ≡ true }
    ensures conditions { IfOk result (λ conds. tests_conditions source.now.table.now state id.now (map (attribute_test_seen source.now.table.now) tests.now) (fresh_seen source.now names.old) ≡ expanded (map condition conds) (fresh_seen source.now names.new)) }
    ensures kept { OnOk result (are_kept source.now names.new ≡ true) }
{
    let mut conds = List::new(source.alloc);
    'tests: for test in tests {
        let here = along(source, names, state, id, test)?;
        let here = signed(source.alloc, test.negative, here)?;
        append_conditions(&mut conds, here)?;
    }
    Ok(conds)
}

/// A group without a field has a new variable.
fn group_field(
    source: &Source<'_>,
    names: &mut Names,
    tree: &Option<FieldTree>,
) -> Result<Field, NoMemory>
    requires { are_kept source.now names.old ≡ true }
    ensures field { IfOk result (λ f. group_field source.now.table.now (option_map (field_seen source.now.table.now) tree.now) (fresh_seen source.now names.old) ≡ expanded f (fresh_seen source.now names.new)) }
    ensures kept { OnOk result (are_kept source.now names.new ≡ true) }
{
    match tree {
        None => {
            let variable = fresh(source, names)?;
            Ok(plain_field(source.alloc, variable)?)
        }
        Some(tree) => field(source, names, tree),
    }
}

/// A group without attributes asks for a superstate.
fn group_tests(
    source: &Source<'_>,
    names: &mut Names,
    state: bool,
    id: Field,
    tests: &[AttributeTest],
) -> Result<List<Cond>, NoMemory>
    requires { are_kept source.now names.old ≡ true }
    ensures conditions { IfOk result (λ conds. group_tests source.now.table.now state id (map (attribute_test_seen source.now.table.now) tests.now) (fresh_seen source.now names.old) ≡ expanded (map condition conds) (fresh_seen source.now names.new)) }
    ensures kept { OnOk result (are_kept source.now names.new ≡ true) }
{
    if tests.is_empty() {
        let superstate = plain_field(source.alloc, Atom::Const(SUPERSTATE))?;
        let (cond, _) = to_fresh(source, names, state, id, superstate)?;
        return one_condition(source.alloc, cond);
    }
    tests_conditions(source, names, state, &id, tests)
}

/// The conditions of a group, given by its parts.
pub fn group(
    source: &Source<'_>,
    names: &mut Names,
    state: bool,
    tree: &Option<FieldTree>,
    tests: &[AttributeTest],
) -> Result<List<Cond>, NoMemory>
    requires { are_kept source.now names.old ≡ true }
    ensures conditions { IfOk result (λ conds. group_conditions source.now.table.now (group_of source.now.table.now state tree.now tests.now) (fresh_seen source.now names.old) ≡ expanded (map condition conds) (fresh_seen source.now names.new)) }
    ensures kept { OnOk result (are_kept source.now names.new ≡ true) }
{
    let id = group_field(source, names, tree)?;
    group_tests(source, names, state, id, tests)
}
