ghost use Rattle.std.specs.Prelude.{◌≤◌, length};

use super::parts::{COLOR, O1, O2, OTHERS, S1, S2, S3, goals, instance, prefs, rule};
use super::world::make_world;
use defs_soar::{How, Used};
use firing_records::{Before, Recorded, goals_of, recorded};
use soar_sym::architecture::{ITEM, OPERATOR, SUPERSTATE};
use soar_sym::{List, NoMemory, Sym, SymTable};
use soar_wm::Element;
use std::alloc::Global;
use std::test::Fail;

/// How an element was used, unmarked.
const fn used(tag: u32, id: Sym, attr: Sym, value: Sym, how: How) -> Used {
    Used {
        element: Element {
            tag,
            id,
            attr,
            value,
            accept: false,
            of_state: false,
        },
        how,
    }
}

/// How the marked operator element of a state was used.
const fn marked(tag: u32, id: Sym, value: Sym, how: How) -> Used {
    Used {
        element: Element {
            tag,
            id,
            attr: OPERATOR,
            value,
            accept: true,
            of_state: true,
        },
        how,
    }
}

/// A firing of the elements of these tags.
fn record_of(before: &Before<'_>, tags: &[u32]) -> Result<Recorded, NoMemory>
    requires { length before.now.goals.now ≤ 100 }
{
    let rule = rule(before.alloc)?;
    let instance = instance(before.alloc, tags, &[])?;
    recorded(before, &rule, &instance, 8, List::new(before.alloc), &[])
}

/// Whether these are the uses of a firing of the elements of these tags.
fn uses(alloc: Global, tags: &[u32], expected: &[Used]) -> Result<bool, NoMemory> {
    let goals = goals(alloc)?;
    let prefs = prefs(alloc)?;
    let world = make_world(alloc, &goals, &OTHERS)?;
    let before = Before::new(alloc, &goals, &prefs, &world.memory, &world.kept)?;
    let record = record_of(&before, tags)?;
    Ok(record.firing.used.as_slice() == expected)
}

#[test]
fn of_a_firing_of_the_top_goal_all_is_upper(rt: HostRuntime) -> Result<(), Fail> {
    let upper = [used(17, S1, COLOR, Sym::Int(1), How::Upper)];
    assert!(rt; uses(rt.alloc(), &[17], &upper)?);
    Ok(())
}

#[test]
fn below_it_the_older_firing_is_the_maker(rt: HostRuntime) -> Result<(), Fail> {
    let both = [
        used(17, S1, COLOR, Sym::Int(1), How::Upper),
        used(18, S2, COLOR, Sym::Int(1), How::Made(4)),
    ];
    assert!(rt; uses(rt.alloc(), &[17, 18], &both)?);
    Ok(())
}

#[test]
fn the_superstate_is_of_the_architecture(rt: HostRuntime) -> Result<(), Fail> {
    let own = [used(7, S2, SUPERSTATE, S1, How::Architecture)];
    assert!(rt; uses(rt.alloc(), &[7], &own)?);
    Ok(())
}

#[test]
fn an_item_names_the_marked_element_of_the_superstate(rt: HostRuntime) -> Result<(), Fail> {
    let item = [
        used(12, S2, ITEM, O1, How::Item(9)),
        marked(9, S1, O1, How::Upper),
    ];
    assert!(rt; uses(rt.alloc(), &[12], &item)?);
    Ok(())
}

#[test]
fn a_selected_operator_is_made_by_the_maker_of_its_selection(rt: HostRuntime) -> Result<(), Fail> {
    let selected = [
        used(16, S2, OPERATOR, O2, How::Selected(8)),
        marked(8, S2, O2, How::Made(6)),
    ];
    assert!(rt; uses(rt.alloc(), &[16], &selected)?);
    Ok(())
}

/// The goals among these symbols and S2, which the rule's action names.
fn goals_are(alloc: Global, binds: &[Sym], expected: &[Sym]) -> Result<bool, NoMemory> {
    let table = SymTable::new(alloc)?;
    let goals = goals(alloc)?;
    let rule = rule(alloc)?;
    let instance = instance(alloc, &[], binds)?;
    let found = goals_of(alloc, &table, &goals, &rule, &instance)?;
    Ok(found.as_slice() == expected)
}

#[test]
fn the_goals_of_a_firing_are_those_of_its_symbols_in_order(rt: HostRuntime) -> Result<(), Fail> {
    let binds = [O1, S1, S3, S1];
    assert!(rt; goals_are(rt.alloc(), &binds, &[S1, S2])? && goals_are(rt.alloc(), &[], &[S2])?);
    Ok(())
}
