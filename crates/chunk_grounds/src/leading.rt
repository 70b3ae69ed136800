// The identifiers to which results lead from those that have a variable.
ghost use Rattle.std.specs.Prelude.{◌≡◌, ◌++◌, [], flat_map, if◌then◌else◌, IfOk, OnOk};
ghost use Rattle.defs_soar.specs.Results.{named_by, with_each_symbol};
ghost use Rattle.defs_soar.specs.Sorted.{has_symbol};
ghost use Rattle.defs_soar.specs.Ungrounded.{led_to};

use chain_identifiers::is_among;
use defs_soar::Wish;
use soar_sym::{List, NoMemory, Sym};
use std::alloc::Global;

/// What has a variable, and what results lead to from there, step by step.
pub(crate) fn led_to(alloc: Global, places: &[Sym], wishes: &[Wish]) -> Result<List<Sym>, NoMemory>
    ensures { IfOk result (λ led. led ≡ led_to places.now wishes.now) }
{
    let mut led = List::from_slice(alloc, places)?;
    'rounds: for _ in wishes {
        let named = named_from(alloc, led.as_slice(), wishes)?;
        let before = led.len();
        add_each(&mut led, named.as_slice())?;
        if led.len() == before {
            return Ok(led);
        }
    }
    Ok(led)
}

/// The values and referents of the wishes whose identifier is known.
fn named_from(alloc: Global, known: &[Sym], wishes: &[Wish]) -> Result<List<Sym>, NoMemory>
    ensures { IfOk result (λ named. named ≡ flat_map (λ w. if has_symbol known.now w.id then named_by w else []) wishes.now) }
{
    let mut named = List::new(alloc);
    'wishes: for wish in wishes {
        if is_among(known, wish.id) {
            add_named(&mut named, wish)?;
        }
    }
    Ok(named)
}

fn add_named(named: &mut List<Sym>, wish: &Wish) -> Result<(), NoMemory>
    ensures { OnOk result (named.new ≡ named.old ++ named_by wish.now) }
{
    named.push(wish.value)?;
    if let Some(referent) = wish.referent {
        named.push(referent)?;
    }
    Ok(())
}

/// Adds each symbol that is new.
fn add_each(known: &mut List<Sym>, symbols: &[Sym]) -> Result<(), NoMemory>
    ensures { OnOk result (known.new ≡ with_each_symbol known.old symbols.now) }
{
    'symbols: for symbol in symbols {
        if !is_among(known.as_slice(), *symbol) {
            known.push(*symbol)?;
        }
    }
    Ok(())
}
