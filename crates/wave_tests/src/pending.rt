mod parts;

use match_direct::conflict;
use outstanding::compare;
use parts::{goals, listed, live_of, memory, rules};
use pending_work::{Work, pending};
use soar_sym::NoMemory;
use std::alloc::Global;
use std::test::Fail;

/// Whether operators wait; the live firings, each with its number, its depth, its rule and its tag; what is retracted; and
/// what fires, each with its rule and its tag. The rules match the tags 1 and 2, and 3 and 4: the odd ones at depth 1.
const CASES: &[(bool, &[(u64, usize, u64, u32)], &[u64], &[(u64, u32)])] = &[
    // while proposing, the second rule does not fire
    (true, &[], &[], &[(1, 1)]),
    (false, &[], &[], &[(1, 1), (2, 3)]),
    // what is live does not fire again
    (false, &[(5, 1, 1, 1)], &[], &[(2, 3)]),
    // the substate has its turn where the goal above has no work
    (true, &[(5, 1, 1, 1)], &[], &[(1, 2)]),
    (false, &[(5, 1, 1, 1), (6, 1, 2, 3)], &[], &[(1, 2), (2, 4)]),
    // so it is with what matches no more
    (false, &[(7, 2, 1, 9)], &[], &[(1, 1), (2, 3)]),
    (true, &[(5, 1, 1, 1), (7, 2, 1, 9)], &[7], &[(1, 2)]),
    (
        false,
        &[(8, 1, 2, 9), (5, 1, 1, 1), (6, 1, 2, 3)],
        &[8],
        &[],
    ),
    // nothing is left
    (true, &[(5, 1, 1, 1), (4, 2, 1, 2)], &[], &[]),
];

/// Whether this is pending.
fn is_pending(
    alloc: Global,
    proposing: bool,
    live: &[(u64, usize, u64, u32)],
    retracted: &[u64],
    fired: &[(u64, u32)],
) -> Result<bool, NoMemory> {
    let rules = rules(alloc)?;
    let memory = memory(alloc)?;
    let goals = goals(alloc)?;
    let live = live_of(alloc, live)?;
    let elements = memory.all(alloc)?;
    let listed = listed(alloc, &rules)?;
    let instances = conflict(alloc, listed.as_slice(), elements.as_slice())?;
    let left = compare(alloc, instances, &live)?;
    let work = pending(alloc, proposing, &rules, &memory, &goals, left)?;
    Ok(is_work(&work, retracted, fired))
}

fn is_work(work: &Work, retracted: &[u64], fired: &[(u64, u32)]) -> bool {
    retracts(work, retracted)
        && fires(work, fired)
        && work.is_nothing() == (retracted.is_empty() && fired.is_empty())
}

/// Whether the firings of these numbers are retracted, in order.
fn retracts(work: &Work, numbers: &[u64]) -> bool {
    let retracted = work.retracted.as_slice();
    if retracted.len() != numbers.len() {
        return false;
    }
    for (firing, number) in retracted.iter().zip(numbers) {
        if firing.number != *number {
            return false;
        }
    }
    true
}

/// Whether the instances of these rules and tags fire, in order.
fn fires(work: &Work, fired: &[(u64, u32)]) -> bool {
    let instances = work.fired.as_slice();
    if instances.len() != fired.len() {
        return false;
    }
    for (instance, (rule, tag)) in instances.iter().zip(fired) {
        if instance.rule != *rule || instance.tags.as_slice() != [*tag].as_slice() {
            return false;
        }
    }
    true
}

#[test]
fn the_highest_goal_with_work_has_its_turn(rt: HostRuntime) -> Result<(), Fail> {
    for (proposing, live, retracted, fired) in CASES {
        assert!(rt;
            is_pending(rt.alloc(), *proposing, live, retracted, fired)?,
            "retracted {retracted:?}, fired {fired:?}"
        );
    }
    Ok(())
}
