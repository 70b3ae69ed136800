// Live firings, as an agent would keep them.
ghost use Rattle.std.specs.Prelude.{◌≡◌, [], IfOk, OnOk};

use defs_match::Instance;
use live_firings::{Live, LiveFirings};
use soar_sym::{List, NoMemory, Sym};
use std::alloc::Global;

/// The live firings, and the number of the last one that fired.
#[derive(Drop)]
pub struct Fired {
    pub live: LiveFirings,
    pub last: u64,
}

/// Nothing fired.
pub fn none_fired(alloc: Global) -> Fired
    ensures { result.live ≡ record { list = []; told = [] } }
{
    Fired {
        live: LiveFirings::new(alloc),
        last: 0,
    }
}

/// With these instances fired.
pub fn fire(unfired: List<Instance>, fired: &mut Fired) -> Result<(), NoMemory>
    ensures { OnOk result (fired.new.live.told ≡ fired.old.live.told) }
{
    'unfired: for instance in unfired.into_vec() {
        fire_one(instance, fired)?;
    }
    Ok(())
}

fn fire_one(instance: Instance, fired: &mut Fired) -> Result<(), NoMemory>
    ensures { OnOk result (fired.new.live.told ≡ fired.old.live.told) }
{
    fired.last = fired.last.saturating_add(1);
    fired.live.push(Live {
        number: fired.last,
        name: Sym::Word(0),
        depth: 1,
        instance,
    })
}

/// Without these firings.
pub fn retract(alloc: Global, unmatched: &List<Live>, fired: &mut Fired) -> Result<(), NoMemory>
    ensures { OnOk result (fired.new.live.told ≡ fired.old.live.told) }
{
    let numbers = numbers_of(alloc, unmatched.as_slice())?;
    fired.live.drop_numbers(numbers.as_slice());
    Ok(())
}

fn numbers_of(alloc: Global, firings: &[Live]) -> Result<List<u64>, NoMemory> {
    let mut numbers = List::new(alloc);
    for firing in firings {
        numbers.push(firing.number)?;
    }
    Ok(numbers)
}

/// Without the first.
pub fn forget(fired: &mut Fired)
    ensures { fired.new.live.told ≡ fired.old.live.told }
{
    if let Some(number) = first_number(&fired.live) {
        fired.live.drop_numbers(&[number]);
    }
}

fn first_number(live: &LiveFirings) -> Option<u64> {
    match live.all().next() {
        Some(firing) => Some(firing.number),
        None => None,
    }
}
