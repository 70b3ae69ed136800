mod calls;
mod live;
mod random;
mod rules;
mod shown;
mod world;

use calls::{Call, answers_of, calls_of};
use match_direct::Direct;
use outstanding::{Compared, Followed};
use random::random_calls;
use rete_net::Net;
use rules::{Ready, rules_of};
use std::alloc::Global;
use std::test::Fail;

fn followed(alloc: Global, rules: &[Ready], calls: &[Call]) -> Result<String, Fail> {
    let mut matcher = Followed::new(alloc, Net::new(alloc)?);
    answers_of(alloc, &mut matcher, rules, calls)
}

fn compared(alloc: Global, rules: &[Ready], calls: &[Call]) -> Result<String, Fail> {
    let mut matcher = Compared::new(Direct::new(alloc)?);
    answers_of(alloc, &mut matcher, rules, calls)
}

/// Whether these are the answers to the calls of a text, both ways.
fn both_answer(alloc: Global, rules: &[&str], calls: &str, wanted: &str) -> Result<bool, Fail> {
    let rules = rules_of(alloc, rules)?;
    let calls = calls_of(alloc, calls)?;
    let followed = followed(alloc, rules.as_slice(), calls.as_slice())?;
    let compared = compared(alloc, rules.as_slice(), calls.as_slice())?;
    Ok(followed.as_str() == wanted && compared.as_str() == wanted)
}

#[test]
fn what_fired_is_not_asked_for_again(rt: HostRuntime) -> Result<(), Fail> {
    assert!(rt;
        both_answer(
            rt.alloc(),
            &["s0a1"],
            "l1 +Sa1 f +Sa2 -Sa1 r f a",
            "1 1:S1;-|1 2:S2;-1 1:S1;|1 2:S2;-|-|",
        )?
    );
    Ok(())
}

#[test]
fn an_instance_that_comes_back_is_as_it_was(rt: HostRuntime) -> Result<(), Fail> {
    assert!(rt;
        both_answer(
            rt.alloc(),
            &["s0a1 -0d2"],
            "l1 +Sa1 f +Sd1 -Sd1 a +Sd1 a g a -Sd1 a",
            "1 1:S1;-|-|-1 1:S1;|-1 1:S1;|-|1 1:S1;-|",
        )?
    );
    Ok(())
}

#[test]
fn a_rule_goes_with_its_live_firings(rt: HostRuntime) -> Result<(), Fail> {
    assert!(rt;
        both_answer(
            rt.alloc(),
            &["s0a1", "s0a1 +0b2"],
            "l1 l2 +Sa1 f +Sb1 x1 f x2 r f",
            "1 1:S1;-|2 1 2:S11;-1 1:S1;|-1 1:S1;2 1 2:S11;|-|",
        )?
    );
    Ok(())
}

#[test]
fn the_instances_of_one_rule_are_listed(rt: HostRuntime) -> Result<(), Fail> {
    assert!(rt;
        both_answer(
            rt.alloc(),
            &["s0a1", "s0a1 +0b2"],
            "l1 l2 +Sa1 +Sb1 m1 m2 m3 x1 m1",
            "1 1:S1;|2 1 2:S11;|||",
        )?
    );
    Ok(())
}

/// The rules of the random lists: joins and negations.
const MIXED: [&str; 4] = ["s0a1 +1b2", "s0a1", "s0a1 -1b0", "s0a1 +1b2 -2c3"];

/// Whether both ways answer alike on so many random calls.
fn agree_at_random(alloc: Global, seed: u64, count: usize) -> Result<bool, Fail> {
    let rules = rules_of(alloc, &MIXED)?;
    let calls = random_calls(alloc, seed, count)?;
    let followed = followed(alloc, rules.as_slice(), calls.as_slice())?;
    let compared = compared(alloc, rules.as_slice(), calls.as_slice())?;
    Ok(followed.as_str() == compared.as_str())
}

#[test]
fn random_lists_of_calls_agree(rt: HostRuntime) -> Result<(), Fail> {
    for seed in 1..7 {
        assert!(rt; agree_at_random(rt.alloc(), seed, 300)?, "{seed}");
    }
    Ok(())
}
