// The firings among the entries of a wave.
ghost use Rattle.std.specs.Prelude.{◌≡◌, ◌++◌, true, flat_map, map, slice_get, IfOk, OnOk};
ghost use Rattle.std.specs.Option.{option_copied, option_map};
ghost use Rattle.defs_soar.specs.History.{firing_seen};
ghost use Rattle.wave_entries.specs.Entries.{entry_seen};
ghost use Rattle.wave_learning.specs.Found.{AreTold, firing_at, firing_of_entry, first_firing, number_in};
ghost use Rattle.wave_learning.specs.Rising.{has_number, rises_from};

use defs_soar::Firing;
use soar_sym::{List, NoMemory};
use std::alloc::{AllocError, Global};
use wave_entries::Entry;

/// The numbers of the firings, in turn, which rise.
pub(crate) fn rising_numbers(alloc: Global, entries: &[Entry]) -> Result<List<u64>, NoMemory>
    ensures numbers { IfOk result (λ numbers. numbers ≡ flat_map (λ e. number_in (entry_seen e)) entries.now) }
    ensures rising { IfOk result (λ numbers. rises_from 0 numbers ≡ true) }
{
    let numbers = numbers_of(alloc, entries)?;
    if !are_rising(numbers.as_slice()) {
        return Err(NoMemory);
    }
    Ok(numbers)
}

fn are_rising(numbers: &[u64]) -> bool
    ensures { result ≡ rises_from 0 numbers.now }
{
    let mut last = 0;
    'numbers: for number in numbers {
        if !(last < *number) {
            return false;
        }
        last = *number;
    }
    true
}

fn numbers_of(alloc: Global, entries: &[Entry]) -> Result<List<u64>, AllocError>
    ensures { IfOk result (λ numbers. numbers ≡ flat_map (λ e. number_in (entry_seen e)) entries.now) }
{
    let mut numbers = List::new(alloc);
    'entries: for entry in entries {
        add_number(&mut numbers, entry)?;
    }
    Ok(numbers)
}

fn add_number(numbers: &mut List<u64>, entry: &Entry) -> Result<(), AllocError>
    ensures { OnOk result (numbers.new ≡ numbers.old ++ number_in (entry_seen entry.now)) }
{
    match entry {
        Entry::Fired(fresh) => numbers.push(fresh.recorded.firing.number),
        Entry::Noted(_) => Ok(()),
    }
}

/// The place of the first firing of a number from a place on; where there is none, that place. Numbers that are sought
/// in rising order go over the entries once.
pub(crate) fn place_from(entries: &[Entry], from: usize, number: u64) -> usize {
    'places: for place in from..entries.len() {
        if has_number(&entries[place], number) {
            return place;
        }
    }
    from
}

/// The first firing of a number: the one at a place, where it has this number, and else it is sought among all entries.
pub(crate) fn firing_numbered(entries: &List<Entry>, place: usize, number: u64) -> Option<&Firing>
    requires { AreTold (map entry_seen entries.now) }
    ensures { option_map firing_seen (option_copied result) ≡ first_firing number (map entry_seen entries.now) }
{
    match firing_in_place(entries, place, number) {
        Some(firing) => Some(firing),
        None => first_firing(entries.as_slice(), number),
    }
}

/// The firing of the entry at a place, where it has this number.
fn firing_in_place(entries: &List<Entry>, place: usize, number: u64) -> Option<&Firing>
    ensures { option_map firing_seen (option_copied result) ≡ firing_of_entry number (option_map entry_seen (slice_get entries.now place)) }
{
    match entries.get(place) {
        Some(entry) => firing_at(entry, number),
        None => None,
    }
}

fn first_firing(entries: &[Entry], number: u64) -> Option<&Firing>
    ensures { option_map firing_seen (option_copied result) ≡ first_firing number (map entry_seen entries.now) }
{
    'entries: for entry in entries {
        if let Some(firing) = firing_at(entry, number) {
            return Some(firing);
        }
    }
    None
}

/// The firing of the entry, where it has this number.
fn firing_at(entry: &Entry, number: u64) -> Option<&Firing>
    ensures { option_map firing_seen (option_copied result) ≡ firing_at number (entry_seen entry.now) }
{
    match entry {
        Entry::Fired(fresh) => {
            if fresh.recorded.firing.number == number {
                Some(&*fresh.recorded.firing)
            } else {
                None
            }
        }
        Entry::Noted(_) => None,
    }
}

/// Whether it is the entry of a firing of this number.
pub(crate) fn has_number(entry: &Entry, number: u64) -> bool
    ensures { result ≡ has_number number (entry_seen entry.now) }
{
    match entry {
        Entry::Fired(fresh) => fresh.recorded.firing.number == number,
        Entry::Noted(_) => false,
    }
}
