// Lists of calls of a matcher, and what the live firings make of what is outstanding.
ghost use Rattle.std.specs.Prelude.{◌≡◌, false, [], OnOk, List as ListOf};
ghost use Rattle.defs_match.specs.Contents.{Works};
ghost use Rattle.live_firings.specs.declared.live.Live.{Live as LiveOf};
ghost use Rattle.matching_tests.specs.WaitingWorlds.{AreTold};

use super::live::{Fired, fire, forget, none_fired, retract};
use super::rules::{Ready, attribute};
use super::shown::{add_instances, add_outstanding};
use super::world::{World, add, excise, load, nothing, remove};
use outstanding::{Open, Outstanding};
use soar_sym::{NoMemory, Sym, Triple};
use std::alloc::Global;
use std::test::Fail;

/// A call, which does nothing where it is not lawful.
#[derive(Clone, Copy)]
pub enum Call {
    Add(Triple),
    Remove(Triple),
    Load(u64),
    Excise(u64),
    Ask,
    /// What is unfired fires.
    Fire,
    /// What is unmatched is retracted.
    Retract,
    /// The first live firing is forgotten.
    Forget,
    /// The instances of a rule are listed.
    List(u64),
}

/// The calls of a text: `+Sa1` adds (S1 ^a 1), `-SaX` removes (S1 ^a X1), `l1` loads rule 1, `x1`
/// excises it, `m1` lists its instances, `a` asks what is outstanding, and so do `f`, which fires what is unfired, `r`, which retracts what is
/// unmatched, and `g`, which forgets the first live firing.
pub fn calls_of(alloc: Global, text: &str) -> Result<Vec<Call>, NoMemory> {
    let mut calls = Vec::new(alloc);
    for word in text.split_whitespace() {
        calls.push(call_of(word))?;
    }
    Ok(calls)
}

fn call_of(word: &str) -> Call {
    match word.as_bytes() {
        [b'+', id, attr, value] => Call::Add(triple_of(*id, *attr, *value)),
        [b'-', id, attr, value] => Call::Remove(triple_of(*id, *attr, *value)),
        [b'a'] => Call::Ask,
        [b'f'] => Call::Fire,
        [b'r'] => Call::Retract,
        [b'g'] => Call::Forget,
        [b'm', number] => Call::List(u64::from(number.saturating_sub(b'0'))),
        [b'x', number] => Call::Excise(u64::from(number.saturating_sub(b'0'))),
        [_, number] => Call::Load(u64::from(number.saturating_sub(b'0'))),
        _ => Call::Excise(0),
    }
}

/// The triple of an identifier, an attribute, and an identifier or a digit.
pub fn triple_of(id: u8, attr: u8, value: u8) -> Triple {
    Triple {
        id: symbol_of(id),
        attr: attribute(attr),
        value: symbol_of(value),
        accept: false,
    }
}

fn symbol_of(byte: u8) -> Sym {
    if byte.is_ascii_digit() {
        Sym::Int(i64::from(byte.saturating_sub(b'0')))
    } else {
        Sym::Ident {
            letter: byte,
            number: 1,
        }
    }
}

/// What is outstanding, or listed, at each of these calls that asks.
pub fn answers_of<M: Outstanding>(
    alloc: Global,
    matcher: &mut M,
    rules: &[Ready],
    calls: &[Call],
) -> Result<String, Fail>
    requires working { M.failed matcher.old ≡ false }
    requires rules { M.rules matcher.old ≡ [] }
    requires elements { M.elements matcher.old ≡ [] }
    requires knows { M.knows matcher.old [] }
{
    let mut world = nothing(alloc)?;
    let mut fired = none_fired(alloc);
    let mut text = String::new(alloc);
    'calls: for call in calls {
        if asks(*call) {
            answer(alloc, matcher, &mut fired, *call, &mut text)?;
        } else {
            carry_out(&mut world, matcher, rules, *call)?;
        }
    }
    Ok(text)
}

fn asks(call: Call) -> bool {
    matches!(
        call,
        Call::Ask | Call::Fire | Call::Retract | Call::Forget | Call::List(_)
    )
}

/// The live firings after a call that asks.
fn answer<M: Outstanding>(
    alloc: Global,
    matcher: &mut M,
    fired: &mut Fired,
    call: Call,
    out: &mut String,
) -> Result<(), NoMemory>
    requires knows { M.knows matcher.old fired.old.live.told }
    ensures works { OnOk result (Works (M.failed matcher.old) (M.failed matcher.new)) }
    ensures rules { OnOk result (M.rules matcher.new ≡ M.rules matcher.old) }
    ensures elements { OnOk result (M.elements matcher.new ≡ M.elements matcher.old) }
    ensures knows { OnOk result (M.knows matcher.new fired.new.live.told) }
{
    if let Call::List(number) = call {
        return list(alloc, matcher, number, out);
    }
    let answer = ask(alloc, matcher, fired, out)?;
    fire_or_not(alloc, answer, fired, call)
}

/// The instances of a rule, behind a text.
fn list<M: Outstanding>(
    alloc: Global,
    matcher: &mut M,
    number: u64,
    out: &mut String,
) -> Result<(), NoMemory>
    ensures works { OnOk result (Works (M.failed matcher.old) (M.failed matcher.new)) }
    ensures rules { OnOk result (M.rules matcher.new ≡ M.rules matcher.old) }
    ensures elements { OnOk result (M.elements matcher.new ≡ M.elements matcher.old) }
    ensures knows { OnOk result ((live : ListOf LiveOf) → M.knows matcher.old live → M.knows matcher.new live) }
{
    let instances = matcher.instances_of(alloc, number)?;
    add_instances(alloc, instances.as_slice(), out)
}

/// What is outstanding, and behind a text too.
fn ask<M: Outstanding>(
    alloc: Global,
    matcher: &mut M,
    fired: &mut Fired,
    out: &mut String,
) -> Result<Open, NoMemory>
    requires knows { M.knows matcher.old fired.old.live.told }
    ensures works { OnOk result (Works (M.failed matcher.old) (M.failed matcher.new)) }
    ensures rules { OnOk result (M.rules matcher.new ≡ M.rules matcher.old) }
    ensures elements { OnOk result (M.elements matcher.new ≡ M.elements matcher.old) }
    ensures knows { OnOk result (M.knows matcher.new fired.new.live.told) }
{
    let answer = matcher.outstanding(alloc, &mut fired.live)?;
    add_outstanding(alloc, &answer, out)?;
    Ok(answer)
}

/// The live firings after a call.
fn fire_or_not(alloc: Global, answer: Open, fired: &mut Fired, call: Call) -> Result<(), NoMemory>
    ensures { OnOk result (fired.new.live.told ≡ fired.old.live.told) }
{
    match call {
        Call::Fire => fire(answer.unfired, fired),
        Call::Retract => retract(alloc, &answer.unmatched, fired),
        Call::Forget => {
            forget(fired);
            Ok(())
        }
        _ => Ok(()),
    }
}

/// Carries a call out, if it is lawful. A rule is the one at its place.
pub fn carry_out<M: Outstanding>(
    world: &mut World,
    matcher: &mut M,
    rules: &[Ready],
    call: Call,
) -> Result<(), Fail>
    requires { AreTold (M.failed matcher.old) (M.rules matcher.old) (M.elements matcher.old) world.old.memory world.old.numbers.items }
    ensures told { OnOk result (AreTold (M.failed matcher.new) (M.rules matcher.new) (M.elements matcher.new) world.new.memory world.new.numbers.items) }
    ensures knows { OnOk result ((live : ListOf LiveOf) → M.knows matcher.old live → M.knows matcher.new live) }
{
    match call {
        Call::Add(triple) => add(world, matcher, triple),
        Call::Remove(triple) => remove(world, matcher, triple),
        Call::Load(number) => load_numbered(world, matcher, rules, number),
        Call::Excise(number) => {
            excise(world, matcher, number);
            Ok(())
        }
        _ => Ok(()),
    }
}

fn load_numbered<M: Outstanding>(
    world: &mut World,
    matcher: &mut M,
    rules: &[Ready],
    number: u64,
) -> Result<(), Fail>
    requires { AreTold (M.failed matcher.old) (M.rules matcher.old) (M.elements matcher.old) world.old.memory world.old.numbers.items }
    ensures told { OnOk result (AreTold (M.failed matcher.new) (M.rules matcher.new) (M.elements matcher.new) world.new.memory world.new.numbers.items) }
    ensures knows { OnOk result ((live : ListOf LiveOf) → M.knows matcher.old live → M.knows matcher.new live) }
{
    match rules.get(number.saturating_sub(1) as usize) {
        Some(ready) => load(world, matcher, ready),
        None => Ok(()),
    }
}
