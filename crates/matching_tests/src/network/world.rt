// What a matcher was told: a list of calls is lawful where it follows this.
ghost use Rattle.std.specs.Prelude.{◌≡◌, ◌==◌, [], IfOk, OnOk};
ghost use Rattle.std.specs.List.{list_any};
ghost use Rattle.soar_wm.specs.WorkingMemory.{element_for};
ghost use Rattle.matching_tests.specs.NetworkWorlds.{AreTold};

use super::rules::Ready;
use defs_match::Matcher;
use soar_sym::{NoMemory, Sym, Triple};
use soar_wm::{AddFault, Element, Memory};
use std::alloc::Global;
use std::test::Fail;

/// The elements and the numbers of the rules that a matcher was told of.
#[derive(Drop)]
pub struct World {
    memory: Memory,
    numbers: Vec<u64>,
}

/// Nothing was told.
pub fn nothing(alloc: Global) -> Result<World, NoMemory>
    ensures memory { IfOk result (λ world. world.memory ≡ record { elements = []; limit = 1000; last = 0 }) }
    ensures numbers { IfOk result (λ world. world.numbers.items ≡ []) }
{
    Ok(World {
        memory: Memory::new(alloc, 1000, 0)?,
        numbers: Vec::new(alloc),
    })
}

/// Tells of a triple under the next tag, unless it is there.
pub fn add<M: Matcher>(world: &mut World, matcher: &mut M, triple: Triple) -> Result<(), Fail>
    requires { AreTold (M.failed matcher.old) (M.rules matcher.old) (M.elements matcher.old) world.old.memory world.old.numbers.items }
    ensures { OnOk result (AreTold (M.failed matcher.new) (M.rules matcher.new) (M.elements matcher.new) world.new.memory world.new.numbers.items) }
{
    let of_state = is_state(triple.id);
    match world.memory.add(triple, of_state) {
        Ok(tag) => Ok(matcher.add_element(element_for(tag, triple, of_state))?),
        Err(AddFault::Twice(_)) => Ok(()),
        Err(fault) => Err(Fail::new(fault)),
    }
}

/// The identifiers with the letter S are states.
fn is_state(id: Sym) -> bool {
    matches!(id, Sym::Ident { letter: b'S', .. })
}

fn element_for(tag: u32, triple: Triple, of_state: bool) -> Element
    ensures { result ≡ element_for tag triple of_state }
{
    Element {
        tag,
        id: triple.id,
        attr: triple.attr,
        value: triple.value,
        accept: triple.accept,
        of_state,
    }
}

/// Takes a triple out, if it is there.
pub fn remove<M: Matcher>(world: &mut World, matcher: &mut M, triple: Triple) -> Result<(), Fail>
    requires { AreTold (M.failed matcher.old) (M.rules matcher.old) (M.elements matcher.old) world.old.memory world.old.numbers.items }
    ensures { OnOk result (AreTold (M.failed matcher.new) (M.rules matcher.new) (M.elements matcher.new) world.new.memory world.new.numbers.items) }
{
    let Some(tag) = world.memory.find(triple) else {
        return Ok(());
    };
    let _gone = world.memory.remove(tag);
    Ok(matcher.remove_element(tag)?)
}

fn has(numbers: &[u64], number: u64) -> bool
    ensures { result ≡ list_any (λ n. n == number) numbers.now }
{
    numbers.iter().any(|n| *n == number)
}

/// Loads a rule, unless its number is there.
pub fn load<M: Matcher>(world: &mut World, matcher: &mut M, ready: &Ready) -> Result<(), Fail>
    requires { AreTold (M.failed matcher.old) (M.rules matcher.old) (M.elements matcher.old) world.old.memory world.old.numbers.items }
    ensures { OnOk result (AreTold (M.failed matcher.new) (M.rules matcher.new) (M.elements matcher.new) world.new.memory world.new.numbers.items) }
{
    let number = ready.rule.number;
    if has(world.numbers.as_slice(), number) {
        return Ok(());
    }
    world.numbers.push(number)?;
    Ok(matcher.add_rule(&ready.rule)?)
}

/// Takes the rule of a number out, if it is there.
pub fn excise<M: Matcher>(world: &mut World, matcher: &mut M, number: u64)
    requires { AreTold (M.failed matcher.old) (M.rules matcher.old) (M.elements matcher.old) world.old.memory world.old.numbers.items }
    ensures { AreTold (M.failed matcher.new) (M.rules matcher.new) (M.elements matcher.new) world.new.memory world.new.numbers.items }
{
    if has(world.numbers.as_slice(), number) {
        world.numbers.retain(|n| *n != number);
        matcher.remove_rule(number);
    }
}
