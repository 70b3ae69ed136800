mod calls;
mod follower;
mod random;
mod rules;
mod shown;
mod world;

use calls::{Call, calls_of, conflicts_of};
use follower::Follower;
use match_direct::Direct;
use random::random_calls;
use rete_net::Net;
use rules::{Ready, rules_of};
use std::alloc::Global;
use std::test::Fail;

fn net_conflicts(alloc: Global, rules: &[Ready], calls: &[Call]) -> Result<String, Fail> {
    let mut matcher = Net::new(alloc)?;
    conflicts_of(alloc, &mut matcher, rules, calls)
}

fn direct_conflicts(alloc: Global, rules: &[Ready], calls: &[Call]) -> Result<String, Fail> {
    let mut matcher = Direct::new(alloc)?;
    conflicts_of(alloc, &mut matcher, rules, calls)
}

/// Whether the network and the enumeration have the same conflict sets after each call.
fn agree(alloc: Global, rules: &[Ready], calls: &[Call]) -> Result<bool, Fail> {
    let net = net_conflicts(alloc, rules, calls)?;
    let direct = direct_conflicts(alloc, rules, calls)?;
    Ok(net.as_str() == direct.as_str())
}

/// Whether they agree on the calls of a text.
fn agree_on(alloc: Global, rules: &[&str], calls: &str) -> Result<bool, Fail> {
    let rules = rules_of(alloc, rules)?;
    let calls = calls_of(alloc, calls)?;
    agree(alloc, rules.as_slice(), calls.as_slice())
}

/// Whether both have these conflict sets after the calls of a text.
fn both_have(alloc: Global, rules: &[&str], calls: &str, wanted: &str) -> Result<bool, Fail> {
    let rules = rules_of(alloc, rules)?;
    let calls = calls_of(alloc, calls)?;
    let net = net_conflicts(alloc, rules.as_slice(), calls.as_slice())?;
    let direct = direct_conflicts(alloc, rules.as_slice(), calls.as_slice())?;
    Ok(net.as_str() == wanted && direct.as_str() == wanted)
}

#[test]
fn rules_with_the_same_conditions_come_and_go(rt: HostRuntime) -> Result<(), Fail> {
    assert!(rt;
        both_have(
            rt.alloc(),
            &["s0a1 +0a2", "s3a4 +3a5"],
            "l1 +Sa1 +Sa2 l2 x1 -Sa1",
            "|1 1 1:S11;|1 1 1:S11;1 1 2:S12;1 2 1:S21;1 2 2:S22;|\
         1 1 1:S11;1 1 2:S12;1 2 1:S21;1 2 2:S22;2 1 1:S11;2 1 2:S12;2 2 1:S21;2 2 2:S22;|\
         2 1 1:S11;2 1 2:S12;2 2 1:S21;2 2 2:S22;|2 2 2:S22;|",
        )?
    );
    Ok(())
}

#[test]
fn negations_in_one_another_block_in_turn(rt: HostRuntime) -> Result<(), Fail> {
    assert!(rt;
        both_have(
            rt.alloc(),
            &["s0a1 {0b2 {2c3 -3d4"],
            "+Sa1 l1 +SbX +XcY +Yd1 -Yd1",
            "|1 1:S1;||1 1:S1;||1 1:S1;|",
        )?
    );
    Ok(())
}

#[test]
fn a_negation_blocks_and_frees(rt: HostRuntime) -> Result<(), Fail> {
    assert!(rt;
        both_have(
            rt.alloc(),
            &["s0a1 -0d2"],
            "+Sa1 l1 +Sd1 -Sd1 +Sd2",
            "|1 1:S1;||1 1:S1;||",
        )?
    );
    Ok(())
}

/// The rules of the random lists: joins, a test of two variables, and negations of one condition and of lists.
const MIXED: [&str; 5] = [
    "s0a1 +1b2",
    "s0a1 +1b2 -2c3",
    "s0a1 {1b2 +2c3 -3a4",
    "s0a1 +0b2 !1c2",
    "s0a1 -1a0 {0b2 {2c3 +3a1",
];

/// Whether they agree on so many random calls.
fn agree_at_random(alloc: Global, seed: u64, count: usize) -> Result<bool, Fail> {
    let rules = rules_of(alloc, &MIXED)?;
    let calls = random_calls(alloc, seed, count)?;
    agree(alloc, rules.as_slice(), calls.as_slice())
}

#[test]
fn random_lists_of_calls_agree(rt: HostRuntime) -> Result<(), Fail> {
    for seed in 1..9 {
        assert!(rt; agree_at_random(rt.alloc(), seed, 500)?, "{seed}");
    }
    Ok(())
}

/// Whether they agree where these three rules are excised in this order.
fn agree_in_order(alloc: Global, order: [u8; 3]) -> Result<bool, Fail> {
    let [first, second, third] = order;
    let calls = format!(in alloc;
        "l1 l2 l3 +SaT +TbU +SaU x{first} +Uc1 +TbS -SaU x{second} +SaU -Uc1 +UbT x{third} -SaT"
    )?;
    let rules = ["s0a1 +1b2", "s0a1 +1b2 -2c3", "s0a1 {1b2 +2c3"];
    agree_on(alloc, &rules, calls.as_str())
}

#[test]
fn three_rules_go_in_each_order(rt: HostRuntime) -> Result<(), Fail> {
    for order in [
        [1, 2, 3],
        [1, 3, 2],
        [2, 1, 3],
        [2, 3, 1],
        [3, 1, 2],
        [3, 2, 1],
    ] {
        assert!(rt; agree_in_order(rt.alloc(), order)?, "{order:?}");
    }
    Ok(())
}

/// Negations of lists in one another, one to eight deep.
const NESTED: [&str; 8] = [
    "s0a1 {1b2",
    "s0a1 {1b2 {2a3",
    "s0a1 {1b2 {2a3 {3b4",
    "s0a1 {1b2 {2a3 {3b4 {4a5",
    "s0a1 {1b2 {2a3 {3b4 {4a5 {5b6",
    "s0a1 {1b2 {2a3 {3b4 {4a5 {5b6 {6a7",
    "s0a1 {1b2 {2a3 {3b4 {4a5 {5b6 {6a7 {7b8",
    "s0a1 {1b2 {2a3 {3b4 {4a5 {5b6 {6a7 {7b8 {8a9",
];

#[test]
fn negations_up_to_eight_deep_agree(rt: HostRuntime) -> Result<(), Fail> {
    assert!(rt;
        agree_on(
            rt.alloc(),
            &NESTED,
            "l1 l2 l3 l4 +SaT +TbU +UaV +VbW l5 l6 +WaX +XbY +YaZ +ZbA +AaB l7 l8 \
         -AaB -XbY +AaB +XbY -VbW x3 x8 +VbW l8 -TbU +TbV -SaT",
        )?
    );
    Ok(())
}

#[test]
fn a_join_is_unlinked_on_either_side_and_linked_again(rt: HostRuntime) -> Result<(), Fail> {
    for calls in [
        "l1 l2 +Tb1 +Tb2 +SaT -SaT +Tb3 -Tb1 +SaT -Tb2 -Tb3 +Tb1",
        "l1 l2 +SaT -SaT +SaT +SaU -SaU +Tb1 +Ub2 -Tb1 +SaU -SaT -SaU +Tb1 +SaT",
        "+SaT +Tb1 l1 l2 -Tb1 -SaT +Tb1 +SaT -SaT -Tb1 +SaT +Tb1",
    ] {
        assert!(rt;
            agree_on(rt.alloc(), &["s0a1 +1b2", "s0a1 -1b2"], calls)?,
            "{calls}"
        );
    }
    Ok(())
}

/// How many nodes there are after the calls of a text. Two rules begin alike, and the third has the conditions of the first.
fn nodes_after(alloc: Global, calls: &str) -> Result<usize, Fail> {
    let rules = rules_of(
        alloc,
        &["s0a1 +1b2 +2c3", "s5a6 +6b7 +7d8", "s3a4 +4b5 +5c6"],
    )?;
    let calls = calls_of(alloc, calls)?;
    let mut matcher = Net::new(alloc)?;
    let _conflicts = conflicts_of(alloc, &mut matcher, rules.as_slice(), calls.as_slice())?;
    Ok(matcher.nodes())
}

#[test]
fn rules_that_begin_alike_share_nodes(rt: HostRuntime) -> Result<(), Fail> {
    for (calls, nodes) in [
        ("l1", 4),
        ("l1 l3", 4),
        ("l1 l2", 5),
        ("l1 l2 x1", 4),
        ("l1 l2 x1 x2", 1),
    ] {
        assert!(rt; nodes_after(rt.alloc(), calls)? == nodes, "{calls}");
    }
    Ok(())
}

/// Whether what a network tells makes its conflict set after each of these calls.
fn tells(alloc: Global, rules: &[Ready], calls: &[Call]) -> Result<bool, Fail> {
    let mut matcher = Follower::new(alloc)?;
    let _conflicts = conflicts_of(alloc, &mut matcher, rules, calls)?;
    Ok(matcher.agrees())
}

/// Whether it does after the calls of a text.
fn tells_of(alloc: Global, rules: &[&str], calls: &str) -> Result<bool, Fail> {
    let rules = rules_of(alloc, rules)?;
    let calls = calls_of(alloc, calls)?;
    tells(alloc, rules.as_slice(), calls.as_slice())
}

/// Whether it does after so many random calls.
fn tells_at_random(alloc: Global, seed: u64, count: usize) -> Result<bool, Fail> {
    let rules = rules_of(alloc, &MIXED)?;
    let calls = random_calls(alloc, seed, count)?;
    tells(alloc, rules.as_slice(), calls.as_slice())
}

#[test]
fn what_is_told_makes_the_conflict_set(rt: HostRuntime) -> Result<(), Fail> {
    let alloc = rt.alloc();
    for calls in [
        "+SaT l1 +TbU -SaT +SaT x1",
        "l1 l2 l3 l4 l5 +SaT +TbU +Uc1 -Uc1 x2 -TbU +TbU",
        "+SaT +TbU +UcS +SbT l2 l3 x3 -UcS +UcS l3 -SaT",
    ] {
        assert!(rt; tells_of(alloc, &MIXED, calls)?, "{calls}");
    }
    for seed in 9..12 {
        assert!(rt; tells_at_random(alloc, seed, 300)?, "{seed}");
    }
    Ok(())
}
