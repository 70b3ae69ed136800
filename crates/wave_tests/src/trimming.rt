// A triple is written as the number of its state and its value. Each has the attribute `name`.
ghost use Rattle.std.specs.Prelude.{◌≡◌, ◌++◌, [], ◌∷◌, IfOk, OnOk};
ghost use Rattle.dependency_tables.specs.Tables.{all_tags};
ghost use Rattle.wave_tests.specs.Doubts.{AreOf};

use defs_match::Instance;
use defs_soar::{Impasse, PrefKind, Preference, Wish};
use dependency_tables::Dependencies;
use goal_trimming::trim;
use input_memory::Inputs;
use kept_triples::Kept;
use live_firings::{Live, LiveFirings};
use settle_changes::changes_are_tracked;
use soar_goals::Goals;
use soar_prefs::Prefs;
use soar_sym::architecture::NAME;
use soar_sym::{List, NoMemory, Sym, Triple};
use soar_wm::Memory;
use std::alloc::Global;
use std::test::Fail;

/// What is trimmed.
#[derive(Drop)]
struct Scene {
    goals: Goals,
    depends: Dependencies,
    doubted: List<u32>,
    prefs: Prefs,
    inputs: Inputs,
    live: LiveFirings,
    memory: Memory,
}

fn state(number: u32) -> Sym {
    Sym::Ident {
        letter: b'S',
        number,
    }
}

fn triple(number: u32, value: i64) -> Triple {
    Triple {
        id: state(number),
        attr: NAME,
        value: Sym::Int(value),
        accept: false,
    }
}

/// A row that a firing made for a triple.
fn row(firing: u64, triple: Triple, operator_support: bool) -> Preference {
    Preference {
        firing,
        wish: Wish {
            id: triple.id,
            attr: triple.attr,
            value: triple.value,
            kind: PrefKind::Accept,
            referent: None,
        },
        operator_support,
    }
}

/// The states S1 to S4, each below the last.
fn four_goals(alloc: Global) -> Result<Goals, NoMemory> {
    let mut goals = Goals::new(alloc, state(1))?;
    for number in 2..5 {
        if goals
            .push(state(number), Impasse::StateNoChange, List::new(alloc))
            .is_err()
        {
            return Err(NoMemory);
        }
    }
    Ok(goals)
}

/// Working memory with S1's names 1 to 4, whose tags are these numbers.
fn four_names(alloc: Global) -> Result<Memory, NoMemory> {
    let mut memory = Memory::new(alloc, 9, 0)?;
    for value in 1..5 {
        if memory.add(triple(1, value), true).is_err() {
            return Err(NoMemory);
        }
    }
    Ok(memory)
}

/// Rows, each of a firing, the number of a state, a value, and whether it has operator support. None was settled yet.
fn rows_of(alloc: Global, rows: &[(u64, u32, i64, bool)]) -> Result<Prefs, NoMemory>
    ensures { IfOk result (λ prefs. prefs.settled ≡ []) }
{
    let mut prefs = Prefs::new(alloc, 9)?;
    'rows: for (firing, number, value, operator_support) in rows {
        let row = row(*firing, triple(*number, *value), *operator_support);
        add_row(&mut prefs, row)?;
    }
    Ok(prefs)
}

fn add_row(prefs: &mut Prefs, row: Preference) -> Result<(), NoMemory>
    ensures { OnOk result (prefs.new.settled ≡ prefs.old.settled) }
{
    match prefs.add(row) {
        Ok(()) => Ok(()),
        Err(_) => Err(NoMemory),
    }
}

fn inputs_of(alloc: Global, triples: &[Triple]) -> Result<Inputs, NoMemory> {
    let mut inputs = Inputs::new(alloc);
    for triple in triples {
        inputs.add(*triple)?;
    }
    Ok(inputs)
}

/// Firings, each with the depth of its match goal.
fn live_of(alloc: Global, firings: &[(u64, usize)]) -> Result<LiveFirings, NoMemory> {
    let mut live = LiveFirings::new(alloc);
    for (number, depth) in firings {
        live.push(Live {
            number: *number,
            name: NAME,
            depth: *depth,
            instance: Instance {
                rule: *number,
                tags: List::new(alloc),
                binds: List::new(alloc),
            },
        })?;
    }
    Ok(live)
}

/// The tags on which the goals of depth 2 to 4 depend, one each.
fn tags_of(alloc: Global, tags: &[u32]) -> Result<Dependencies, NoMemory>
    ensures { IfOk result (λ depends. AreOf depends tags.now) }
{
    let found = one_each(alloc, tags)?;
    let mut depends = three_tables(alloc)?;
    depends.add(found.as_slice())?;
    Ok(depends)
}

/// Tables of three goals, without tags.
fn three_tables(alloc: Global) -> Result<Dependencies, NoMemory>
    ensures { IfOk result (λ depends. depends ≡ [] ∷ [] ∷ [] ∷ []) }
{
    let mut depends = Dependencies::new(alloc);
    depends.push(alloc)?;
    depends.push(alloc)?;
    depends.push(alloc)?;
    Ok(depends)
}

/// A list for each tag.
fn one_each(alloc: Global, tags: &[u32]) -> Result<List<List<u32>>, NoMemory>
    ensures { IfOk result (λ found. all_tags found ≡ tags.now) }
{
    let mut found = List::new(alloc);
    'tags: for tag in tags {
        add_alone(alloc, &mut found, *tag)?;
    }
    Ok(found)
}

fn add_alone(alloc: Global, found: &mut List<List<u32>>, tag: u32) -> Result<(), NoMemory>
    ensures { OnOk result (all_tags found.new ≡ all_tags found.old ++ tag ∷ []) }
{
    let alone = List::from_slice(alloc, &[tag])?;
    found.push(alone)?;
    Ok(())
}

/// The four goals, which depend on these tags. S1's name 1 is held by an operator, its name 3 by firing 6 of depth 4;
/// its names 2 and 4 are in working memory and nothing holds them.
fn four_deep(alloc: Global, tags: [u32; 3]) -> Result<Scene, NoMemory>
    ensures settled { IfOk result (λ scene. scene.prefs.settled ≡ []) }
    ensures doubted { IfOk result (λ scene. AreOf scene.depends scene.doubted) }
{
    let rows = [
        (1, 1, 1, true),
        (6, 1, 3, false),
        (4, 2, 7, true),
        (5, 3, 8, false),
        (5, 1, 9, true),
    ];
    let firings = [(5, 3), (2, 1), (6, 4), (4, 2)];
    Ok(Scene {
        goals: four_goals(alloc)?,
        depends: tags_of(alloc, &tags)?,
        doubted: List::from_slice(alloc, &tags)?,
        prefs: rows_of(alloc, &rows)?,
        inputs: inputs_of(alloc, &[triple(1, 5), triple(2, 5)])?,
        live: live_of(alloc, &firings)?,
        memory: four_names(alloc)?,
    })
}

/// Trims, where each goal below the top has its tags, and tells what is kept. All inputs came since nothing was there, so
/// each tag is doubted.
fn trim_scene(alloc: Global, scene: &mut Scene) -> Result<Kept, NoMemory>
    requires settled { scene.old.prefs.settled ≡ [] }
    requires doubted { AreOf scene.old.depends scene.old.doubted }
{
    changes_are_tracked();
    if scene.goals.list().len() - 1 != scene.depends.len() {
        return Err(NoMemory);
    }
    let mut changed = scene.inputs.all(alloc)?;
    let mut kept = Kept::new(alloc)?;
    let mut touched = List::new(alloc);
    trim(
        alloc,
        &mut scene.goals,
        &mut scene.depends,
        &scene.doubted,
        &mut scene.prefs,
        &mut scene.inputs,
        &mut changed,
        &mut scene.live,
        &mut kept,
        &mut touched,
        &scene.memory,
    )?;
    Ok(kept)
}

/// Whether these firings are live, in order.
fn are_live(live: &LiveFirings, numbers: &[u64]) -> bool {
    let mut left = numbers.iter();
    for firing in live.all() {
        match left.next() {
            Some(number) => {
                if *number != firing.number {
                    return false;
                }
            }
            None => return false,
        }
    }
    left.next().is_none()
}

/// Whether the rows are of these firings, in order.
fn has_rows_of(prefs: &Prefs, alloc: Global, firings: &[u64]) -> Result<bool, NoMemory> {
    let rows = prefs.all(alloc)?;
    if rows.len() != firings.len() {
        return Ok(false);
    }
    for (row, firing) in rows.as_slice().iter().zip(firings) {
        if row.firing != *firing {
            return Ok(false);
        }
    }
    Ok(true)
}

/// Whether goals with these tags come to so many goals, with these live firings and rows of these firings.
fn come_to(
    alloc: Global,
    tags: [u32; 3],
    goals: usize,
    live: &[u64],
    rows: &[u64],
) -> Result<bool, NoMemory> {
    let mut scene = four_deep(alloc, tags)?;
    let kept = trim_scene(alloc, &mut scene)?;
    let stack = scene.goals.list().len() == goals && scene.depends.len() < goals;
    let held = scene.inputs.len() == 1 && kept.has(triple(1, 5)) && kept.has(triple(1, 9));
    let below = kept.has(triple(1, 3)) == (goals == 4) && !kept.has(triple(2, 5));
    let left = are_live(&scene.live, live) && has_rows_of(&scene.prefs, alloc, rows)?;
    Ok(stack && held && below && left)
}

#[test]
fn goals_that_lost_nothing_stay(rt: HostRuntime) -> Result<(), Fail> {
    assert!(rt; come_to(rt.alloc(), [1, 3, 1], 4, &[5, 2, 6, 4], &[1, 6, 4, 5, 5])?);
    Ok(())
}

#[test]
fn a_goal_whose_triple_is_not_kept_goes_with_what_its_firings_made(
    rt: HostRuntime,
) -> Result<(), Fail> {
    assert!(rt; come_to(rt.alloc(), [1, 1, 2], 3, &[5, 2, 4], &[1, 4, 5, 5])?);
    Ok(())
}

#[test]
fn of_two_the_highest_goes_with_all_below(rt: HostRuntime) -> Result<(), Fail> {
    assert!(rt; come_to(rt.alloc(), [1, 2, 4], 2, &[2, 4], &[1, 4, 5])?);
    Ok(())
}

#[test]
fn what_goes_with_a_goal_can_break_a_higher_one(rt: HostRuntime) -> Result<(), Fail> {
    assert!(rt; come_to(rt.alloc(), [3, 1, 2], 1, &[2], &[1, 5])?);
    Ok(())
}

#[test]
fn a_goal_whose_element_is_gone_goes(rt: HostRuntime) -> Result<(), Fail> {
    assert!(rt; come_to(rt.alloc(), [9, 1, 1], 1, &[2], &[1, 5])?);
    Ok(())
}

/// Whether the firings from depth 3 on go with their instance-supported rows alone.
fn firings_leave(alloc: Global) -> Result<bool, NoMemory> {
    let mut scene = four_deep(alloc, [1, 1, 1])?;
    scene.live.leave_goals(3, &mut scene.prefs);
    Ok(are_live(&scene.live, &[2, 4]) && has_rows_of(&scene.prefs, alloc, &[1, 4, 5])?)
}

#[test]
fn firings_from_a_depth_on_leave(rt: HostRuntime) -> Result<(), Fail> {
    assert!(rt; firings_leave(rt.alloc())?);
    Ok(())
}
