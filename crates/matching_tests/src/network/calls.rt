// Lists of calls of a matcher.
ghost use Rattle.std.specs.Prelude.{◌≡◌, false, [], OnOk};
ghost use Rattle.defs_match.specs.Contents.{Works};
ghost use Rattle.matching_tests.specs.NetworkWorlds.{AreTold};

use super::rules::{Ready, attribute};
use super::shown::add_instances;
use super::world::{World, add, excise, load, nothing, remove};
use defs_match::Matcher;
use soar_sym::{NoMemory, Sym, Triple};
use std::alloc::Global;
use std::test::Fail;

/// A call, which does nothing where it is not lawful.
#[derive(Clone, Copy)]
pub enum Call {
    Add(Triple),
    Remove(Triple),
    Load(u64),
    Excise(u64),
}

/// The calls of a text: `+Sa1` adds (S1 ^a 1), `-SaX` removes (S1 ^a X1), `l1` loads rule 1, and `x1` excises it.
pub fn calls_of(alloc: Global, text: &str) -> Result<Vec<Call>, NoMemory> {
    let mut calls = Vec::new(alloc);
    for word in text.split_whitespace() {
        calls.push(call_of(word))?;
    }
    Ok(calls)
}

fn call_of(word: &str) -> Call {
    match word.as_bytes() {
        [b'+', id, attr, value] => Call::Add(triple_of(*id, *attr, *value)),
        [b'-', id, attr, value] => Call::Remove(triple_of(*id, *attr, *value)),
        [b'x', number] => Call::Excise(u64::from(number.saturating_sub(b'0'))),
        [_, number] => Call::Load(u64::from(number.saturating_sub(b'0'))),
        _ => Call::Excise(0),
    }
}

/// The triple of an identifier, an attribute, and an identifier or a digit.
pub fn triple_of(id: u8, attr: u8, value: u8) -> Triple {
    Triple {
        id: symbol_of(id),
        attr: attribute(attr),
        value: symbol_of(value),
        accept: false,
    }
}

fn symbol_of(byte: u8) -> Sym {
    if byte.is_ascii_digit() {
        Sym::Int(i64::from(byte.saturating_sub(b'0')))
    } else {
        Sym::Ident {
            letter: byte,
            number: 1,
        }
    }
}

/// The conflict sets after each of these calls.
pub fn conflicts_of<M: Matcher>(
    alloc: Global,
    matcher: &mut M,
    rules: &[Ready],
    calls: &[Call],
) -> Result<String, Fail>
    requires working { M.failed matcher.old ≡ false }
    requires rules { M.rules matcher.old ≡ [] }
    requires elements { M.elements matcher.old ≡ [] }
{
    let mut world = nothing(alloc)?;
    let mut text = String::new(alloc);
    'calls: for call in calls {
        carry_out(&mut world, matcher, rules, *call)?;
        add_conflict(alloc, matcher, &mut text)?;
    }
    Ok(text)
}

/// The conflict set, behind a text.
fn add_conflict<M: Matcher>(
    alloc: Global,
    matcher: &mut M,
    out: &mut String,
) -> Result<(), NoMemory>
    ensures works { OnOk result (Works (M.failed matcher.old) (M.failed matcher.new)) }
    ensures rules { OnOk result (M.rules matcher.new ≡ M.rules matcher.old) }
    ensures elements { OnOk result (M.elements matcher.new ≡ M.elements matcher.old) }
{
    let instances = matcher.conflict(alloc)?;
    add_instances(alloc, &instances, out)
}

/// Carries a call out, if it is lawful. A rule is the one at its place.
pub fn carry_out<M: Matcher>(
    world: &mut World,
    matcher: &mut M,
    rules: &[Ready],
    call: Call,
) -> Result<(), Fail>
    requires { AreTold (M.failed matcher.old) (M.rules matcher.old) (M.elements matcher.old) world.old.memory world.old.numbers.items }
    ensures { OnOk result (AreTold (M.failed matcher.new) (M.rules matcher.new) (M.elements matcher.new) world.new.memory world.new.numbers.items) }
{
    match call {
        Call::Add(triple) => add(world, matcher, triple),
        Call::Remove(triple) => remove(world, matcher, triple),
        Call::Load(number) => load_numbered(world, matcher, rules, number),
        Call::Excise(number) => {
            excise(world, matcher, number);
            Ok(())
        }
    }
}

fn load_numbered<M: Matcher>(
    world: &mut World,
    matcher: &mut M,
    rules: &[Ready],
    number: u64,
) -> Result<(), Fail>
    requires { AreTold (M.failed matcher.old) (M.rules matcher.old) (M.elements matcher.old) world.old.memory world.old.numbers.items }
    ensures { OnOk result (AreTold (M.failed matcher.new) (M.rules matcher.new) (M.elements matcher.new) world.new.memory world.new.numbers.items) }
{
    match rules.get(number.saturating_sub(1) as usize) {
        Some(ready) => load(world, matcher, ready),
        None => Ok(()),
    }
}
