// Requests for patterns: the first makes a slot, and with the last it goes.
ghost use Rattle.std.specs.Prelude.{◌≡◌, ◌-◌, OnOk, OnErr, IfOk, ℕ, ◌==◌, if◌then◌else◌, Some, None, ◌<◌};
ghost use Rattle.std.specs.Option.{option_map};
ghost use Rattle.slab.specs.Slab.{get};
ghost use Rattle.rete_alpha.specs.Numbers.{IsIncreasing};
ghost use Rattle.rete_alpha.specs.Shapes.{number_at};
ghost use Rattle.rete_alpha.specs.Slots.{IsSound, with_requests, one_more, one_less};

use crate::shapes::PatternNumbers;
use crate::slots::Slot;
use slab::Slab;
use soar_sym::NoMemory;

/// Writes the count of requests of a number.
fn set_requests(slots: &mut Slab<Slot>, n: usize, requests: u64)
    ensures { (k : ℕ) → get slots.new k ≡ (if k == n then option_map (with_requests requests) (get slots.old k) else get slots.old k) }
{
    if let Some(slot) = slots.get_mut(n) {
        slot.requests = requests;
    }
}

/// One request more for a number that has some.
pub fn ask_again(slots: &mut Slab<Slot>, n: usize) -> Result<(), NoMemory>
    ensures ok { OnOk result ((k : ℕ) → get slots.new k ≡ (if k == n then option_map one_more (get slots.old k) else get slots.old k)) }
    ensures err { OnErr result (slots.new ≡ slots.old) }
{
    let Some(slot) = slots.get(n) else {
        return Ok(());
    };
    let Some(requests) = slot.requests.checked_add(1) else {
        return Err(NoMemory);
    };
    set_requests(slots, n, requests);
    Ok(())
}

/// The first request for a pattern, which gets a number. Want of memory changes nothing.
pub fn ask_first(
    numbers: &mut PatternNumbers,
    slots: &mut Slab<Slot>,
    slot: Slot,
) -> Result<usize, NoMemory>
    requires sound { IsSound (number_at numbers.old) (get slots.old) }
    requires new { number_at numbers.old slot.pattern ≡ None }
    requires rising { IsIncreasing slot.members }
    ensures vacant { IfOk result (λ n. get slots.old n ≡ None) }
    ensures slots { IfOk result (λ n. (k : ℕ) → get slots.new k ≡ (if k == n then Some slot else get slots.old k)) }
    ensures err { OnErr result ((k : ℕ) → get slots.new k ≡ get slots.old k) }
    ensures sound { IsSound (number_at numbers.new) (get slots.new) }
{
    let pattern = slot.pattern;
    let n = slots.insert(slot)?;
    match numbers.insert(pattern, n) {
        Ok(_) => Ok(n),
        Err(_) => {
            slots.try_remove(n);
            Err(NoMemory)
        }
    }
}

/// One request less; with the last the pattern goes.
pub fn release_at(numbers: &mut PatternNumbers, slots: &mut Slab<Slot>, n: usize)
    requires sound { IsSound (number_at numbers.old) (get slots.old) }
    ensures slots { (k : ℕ) → get slots.new k ≡ (if k == n then one_less (get slots.old k) else get slots.old k) }
    ensures sound { IsSound (number_at numbers.new) (get slots.new) }
{
    let Some(slot) = slots.get(n) else {
        return;
    };
    let pattern = slot.pattern;
    let requests = slot.requests;
    if requests > 1 {
        set_requests(slots, n, requests - 1);
    } else {
        slots.try_remove(n);
        numbers.remove(&pattern);
    }
}
