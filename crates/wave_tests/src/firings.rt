ghost use Rattle.std.specs.Prelude.{◌≡◌, ◌∷◌, []};
ghost use Rattle.defs_soar.specs.Goals.{goal_ids};

mod parts;
mod world;

use crate::firings::parts::{OTHERS, S1, S2, goals, instance, rule};
use crate::firings::world::make_world;
use defs_soar::Preference;
use firing_records::{Before, Recorded};
use live_firings::Live;
use rule_shelf::Rules;
use soar_prefs::Prefs;
use soar_settle::Stop;
use soar_sym::{Letters, List, Sym, SymTable, is_symbol};
use std::alloc::Global;
use std::test::Fail;
use trace_details::HeldBy;
use wave_entries::{Heading, Told, made_of};
use wave_firings::{Fired, fire_all};

/// What the rule makes when it fires twice after the number 7, for an element of S1 and for one of S2.
fn fired(alloc: Global) -> Result<Fired, Stop> {
    let goals = goals(alloc)?;
    let prefs = Prefs::new(alloc, 9)?;
    let world = make_world(alloc, &goals, &OTHERS)?;
    let before = Before::new(alloc, &goals, &prefs, &world.memory, &world.kept)?;
    fired_after(&before)
}

fn fired_after(before: &Before<'_>) -> Result<Fired, Stop>
    requires { goal_ids before.now.goals.now ≡ Sym.Ident 83 1 ∷ Sym.Ident 83 2 ∷ [] }
{
    let alloc = before.alloc;
    let mut table = SymTable::new(alloc)?;
    let mut letters = Letters::new();
    let mut rules = Rules::new(alloc);
    rules.push(rule(alloc)?)?;
    let mut instances = List::new(alloc);
    instances.push(instance(alloc, 12)?)?;
    instances.push(instance(alloc, 13)?)?;
    fire_all(
        alloc,
        &mut table,
        &mut letters,
        before,
        &rules,
        &instances,
        7,
    )
}

/// The firings of rows, the states that they are for, and whether they have operator support. The third row is for an
/// operator of S2. A firing of S2 makes a result for S1, which it holds as the others before anything is learned.
const ROWS: [(u64, Sym, bool); 6] = [
    (8, S1, true),
    (8, S2, true),
    (8, S2, false),
    (9, S1, true),
    (9, S2, true),
    (9, S2, false),
];

fn are_rows(rows: &[Preference]) -> bool {
    if rows.len() != ROWS.len() {
        return false;
    }
    for (row, (firing, id, operator_support)) in rows.iter().zip(&ROWS) {
        let same = is_symbol(row.wish.id, *id) && row.operator_support == *operator_support;
        if row.firing != *firing || !same {
            return false;
        }
    }
    true
}

/// Whether the firings 8 and 9 are live, at the depths 1 and 2.
fn are_live(live: &[Live]) -> bool {
    match live {
        [top, below] => top.number == 8 && top.depth == 1 && below.number == 9 && below.depth == 2,
        _ => false,
    }
}

/// Whether they are recorded, each with its goal, the element that it used, and its three wishes.
fn are_recorded(recorded: &[Recorded]) -> bool {
    match recorded {
        [top, below] => is_recorded(top, 8, S1, 12) && is_recorded(below, 9, S2, 13),
        _ => false,
    }
}

fn is_recorded(recorded: &Recorded, number: u64, goal: Sym, tag: u32) -> bool {
    let firing = &recorded.firing;
    let used = match firing.used.as_slice() {
        [used] => used.element.tag == tag,
        _ => false,
    };
    let of_goal = match recorded.goal {
        Some(id) => is_symbol(id, goal),
        None => false,
    };
    firing.number == number && of_goal && used && firing.made.len() == 3 && recorded.operator_kind
}

/// Whether they are told in turn, each with its three preferences and its text.
fn are_told(told: &[Told]) -> bool {
    match told {
        [top, below] => is_told(top, 8) && is_told(below, 9),
        _ => false,
    }
}

/// Whether the firing of a number is told, with an element for S1, one for S2, and an operator of S2.
fn is_told(told: &Told, number: u64) -> bool {
    let fires = match &told.heading {
        Heading::Fires { number: fired, .. } => *fired == number,
        Heading::Learns(_) => false,
    };
    let held = match told.wishes.as_slice() {
        [first, second, third] => is_held_so([first.by, second.by, third.by]),
        _ => false,
    };
    fires && held && told.dropped.is_empty() && told.text.as_str() == "3"
}

fn is_held_so(held: [HeldBy; 3]) -> bool {
    match held {
        [HeldBy::Operator, HeldBy::Operator, HeldBy::Instance] => true,
        _ => false,
    }
}

/// Whether all that the two firings made is as it should be.
fn is_fired(alloc: Global) -> Result<bool, Stop> {
    let Fired { entries, halted } = fired(alloc)?;
    let made = made_of(alloc, entries)?;
    Ok(
        are_rows(made.rows.as_slice())
            && are_live(made.live.as_slice())
            && are_recorded(made.recorded.as_slice())
            && are_told(made.told.as_slice())
            && !halted,
    )
}

#[test]
fn a_result_is_held_as_the_kind_of_its_firing_has_it(rt: HostRuntime) -> Result<(), Fail> {
    assert!(rt; is_fired(rt.alloc())?);
    Ok(())
}
