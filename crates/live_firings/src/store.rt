// Live firings by their places, found by number, depth and key.
ghost use Rattle.std.specs.Prelude.{◌≡◌, ℕ, ◌+◌, ◌<◌, ◌≤◌, ◌∷◌, ◌++◌, [], if◌then◌else◌, not, ◌==◌, nat_lt, filter, length, None, Some, IsSome, IfNone, IfErr, OnOk, OnErr, vec_len, vec_capacity};
ghost use Rattle.std.specs.BTreeMap.{insert_entry, is_at};
ghost use Rattle.std.specs.Map.{values_of, remove_entry};
ghost use Rattle.std.specs.Option.{option_map};
ghost use Rattle.std.specs.Ordering.{is_eq, nat_cmp};
ghost use Rattle.defs_soar.specs.Preferences.{without_firings};
ghost use Rattle.live_firings.specs.declared.live.Live.{Live as LiveOf};
ghost use Rattle.live_firings.specs.Living.{without_numbers};
ghost use Rattle.live_firings.specs.Store.{HasRoom, IsStore, deep_numbers, row_at, told_rows};

use crate::index::{self, Index};
use crate::live::Live;
use boxed_values::Boxed;
use open_instances::key_of;
use soar_settle::Prefs;
use soar_sym::NoMemory;
use std::alloc::Global;
use std::collections::BTreeMap;

/// Firings in order of adding, and those that went since they were told. There is room for each firing to go.
#[derive(Drop)]
pub struct Store {
    pub rows: BTreeMap<u64, Boxed<Live>>,
    pub index: Index,
    pub next: u64,
    /// The place from which on firings came since they were told.
    pub mark: u64,
    pub gone: Vec<(u64, Live)>,
}

impl Store {
    /// No firings. It takes no memory.
    pub fn new(alloc: Global) -> Store
        ensures rows { result.rows.entries ≡ [] }
        ensures sound { IsStore result.rows.entries result.index result.next result.mark }
        ensures gone { result.gone.items ≡ [] }
        ensures room { HasRoom result.rows.entries (vec_len result.gone) (vec_capacity result.gone) }
    {
        Store {
            rows: BTreeMap::new(alloc),
            index: Index::new(alloc),
            next: 0,
            mark: 0,
            gone: Vec::new(alloc),
        }
    }

    /// Adds a firing. That 2^64 - 1 were added before counts as want of memory.
    pub fn add(&mut self, alloc: Global, firing: Live) -> Result<(), NoMemory>
        requires sound { IsStore self.old.rows.entries self.old.index self.old.next self.old.mark }
        requires room { HasRoom self.old.rows.entries (vec_len self.old.gone) (vec_capacity self.old.gone) }
        ensures sound { IsStore self.new.rows.entries self.new.index self.new.next self.new.mark }
        ensures room { HasRoom self.new.rows.entries (vec_len self.new.gone) (vec_capacity self.new.gone) }
        ensures told { told_rows self.new.mark self.new.gone.items self.new.rows.entries ≡ told_rows self.old.mark self.old.gone.items self.old.rows.entries }
        ensures ok { OnOk result (values_of self.new.rows.entries ≡ values_of self.old.rows.entries ++ firing ∷ []) }
        ensures err { OnErr result (self.new.rows.entries ≡ self.old.rows.entries) }
    {
        let place = self.next;
        let Some(next) = place.checked_add(1) else {
            return Err(NoMemory);
        };
        // For this firing and all others to go.
        make_room(alloc, &mut self.gone, self.rows.len() + 1)?;
        let key = key_of(alloc, &firing.instance)?;
        let firing = self.index.note(firing, key, place)?;
        match put_row(alloc, &mut self.rows, place, firing) {
            Ok(()) => {
                self.next = next;
                Ok(())
            }
            Err(firing) => {
                let _ = self.index.forget(firing, place);
                Err(NoMemory)
            }
        }
    }

    /// Takes the firing of a place away, and gives its number.
    fn take(&mut self, place: u64) -> Option<u64>
        requires sound { IsStore self.old.rows.entries self.old.index self.old.next self.old.mark }
        requires room { HasRoom self.old.rows.entries (vec_len self.old.gone) (vec_capacity self.old.gone) }
        ensures sound { IsStore self.new.rows.entries self.new.index self.new.next self.new.mark }
        ensures room { HasRoom self.new.rows.entries (vec_len self.new.gone) (vec_capacity self.new.gone) }
        ensures told { told_rows self.new.mark self.new.gone.items self.new.rows.entries ≡ told_rows self.old.mark self.old.gone.items self.old.rows.entries }
        ensures rows { self.new.rows.entries ≡ remove_entry (is_at (nat_cmp place)) self.old.rows.entries }
        ensures number { result ≡ option_map (λ l. l.number) (row_at self.old.rows.entries place) }
    {
        match take_row(&mut self.rows, place) {
            Some(firing) => {
                let number = firing.number;
                let firing = self.index.forget(firing, place);
                note_gone(&mut self.gone, self.mark, place, firing);
                Some(number)
            }
            None => None,
        }
    }

    /// Takes the firings of a number away.
    pub fn drop_number(&mut self, number: u64)
        requires sound { IsStore self.old.rows.entries self.old.index self.old.next self.old.mark }
        requires room { HasRoom self.old.rows.entries (vec_len self.old.gone) (vec_capacity self.old.gone) }
        ensures sound { IsStore self.new.rows.entries self.new.index self.new.next self.new.mark }
        ensures room { HasRoom self.new.rows.entries (vec_len self.new.gone) (vec_capacity self.new.gone) }
        ensures told { told_rows self.new.mark self.new.gone.items self.new.rows.entries ≡ told_rows self.old.mark self.old.gone.items self.old.rows.entries }
        ensures rows { values_of self.new.rows.entries ≡ filter (λ l. not (number == l.number)) (values_of self.old.rows.entries) }
    {
        'rows: while let Some(place) = index::first(&self.index.numbers, number) {
            let _ = self.take(place);
        }
    }

    /// Takes the firings of these numbers away.
    pub fn drop_numbers(&mut self, numbers: &[u64])
        requires sound { IsStore self.old.rows.entries self.old.index self.old.next self.old.mark }
        requires room { HasRoom self.old.rows.entries (vec_len self.old.gone) (vec_capacity self.old.gone) }
        ensures sound { IsStore self.new.rows.entries self.new.index self.new.next self.new.mark }
        ensures room { HasRoom self.new.rows.entries (vec_len self.new.gone) (vec_capacity self.new.gone) }
        ensures told { told_rows self.new.mark self.new.gone.items self.new.rows.entries ≡ told_rows self.old.mark self.old.gone.items self.old.rows.entries }
        ensures rows { values_of self.new.rows.entries ≡ without_numbers numbers.now (values_of self.old.rows.entries) }
    {
        'numbers: for number in numbers {
            self.drop_number(*number);
        }
    }

    /// Takes the firings from a depth on away, and the instance-supported rows of these.
    pub fn leave_from(&mut self, depth: usize, prefs: &mut Prefs)
        requires sound { IsStore self.old.rows.entries self.old.index self.old.next self.old.mark }
        requires room { HasRoom self.old.rows.entries (vec_len self.old.gone) (vec_capacity self.old.gone) }
        ensures sound { IsStore self.new.rows.entries self.new.index self.new.next self.new.mark }
        ensures room { HasRoom self.new.rows.entries (vec_len self.new.gone) (vec_capacity self.new.gone) }
        ensures told { told_rows self.new.mark self.new.gone.items self.new.rows.entries ≡ told_rows self.old.mark self.old.gone.items self.old.rows.entries }
        ensures rows { values_of self.new.rows.entries ≡ filter (λ l. nat_lt l.depth depth) (values_of self.old.rows.entries) }
        ensures prefs { prefs.new ≡ record prefs.old { rows = without_firings prefs.old.rows (deep_numbers depth (values_of self.old.rows.entries)) } }
    {
        'rows: while let Some(place) = index::first_deep(&self.index.depths, depth) {
            self.take_with_rows(place, prefs);
        }
    }

    /// Takes the firing of a place away, and its instance-supported rows.
    fn take_with_rows(&mut self, place: u64, prefs: &mut Prefs)
        requires sound { IsStore self.old.rows.entries self.old.index self.old.next self.old.mark }
        requires room { HasRoom self.old.rows.entries (vec_len self.old.gone) (vec_capacity self.old.gone) }
        ensures sound { IsStore self.new.rows.entries self.new.index self.new.next self.new.mark }
        ensures room { HasRoom self.new.rows.entries (vec_len self.new.gone) (vec_capacity self.new.gone) }
        ensures told { told_rows self.new.mark self.new.gone.items self.new.rows.entries ≡ told_rows self.old.mark self.old.gone.items self.old.rows.entries }
        ensures rows { self.new.rows.entries ≡ remove_entry (is_at (nat_cmp place)) self.old.rows.entries }
        ensures prefs { (l : LiveOf) → Some l ≡ row_at self.old.rows.entries place → prefs.new ≡ record prefs.old { rows = without_firings prefs.old.rows (l.number ∷ []) } }
    {
        if let Some(number) = self.take(place) {
            prefs.retract(number);
        }
    }
}

/// Puts a firing at a place. Want of memory gives it back.
fn put_row(
    alloc: Global,
    rows: &mut BTreeMap<u64, Boxed<Live>>,
    place: u64,
    firing: Live,
) -> Result<(), Live>
    ensures entries { OnOk result (rows.new.entries ≡ insert_entry nat_cmp rows.old.entries place firing) }
    ensures updates { OnOk result ((n : ℕ) → row_at rows.new.entries n ≡ (if is_eq (nat_cmp place n) then Some firing else row_at rows.old.entries n)) }
    ensures len { OnOk result (length rows.new.entries ≤ length rows.old.entries + 1) }
    ensures back { IfErr result (λ back. back ≡ firing) }
    ensures err { OnErr result (rows.new.entries ≡ rows.old.entries) }
{
    match Boxed::new(alloc, firing) {
        Ok(boxed) => put_boxed(rows, place, boxed),
        Err(failed) => Err(failed.value),
    }
}

fn put_boxed(
    rows: &mut BTreeMap<u64, Boxed<Live>>,
    place: u64,
    firing: Boxed<Live>,
) -> Result<(), Live>
    ensures entries { OnOk result (rows.new.entries ≡ insert_entry nat_cmp rows.old.entries place firing) }
    ensures updates { OnOk result ((n : ℕ) → row_at rows.new.entries n ≡ (if is_eq (nat_cmp place n) then Some firing else row_at rows.old.entries n)) }
    ensures len { OnOk result (length rows.new.entries ≤ length rows.old.entries + 1) }
    ensures back { IfErr result (λ back. back ≡ firing) }
    ensures err { OnErr result (rows.new.entries ≡ rows.old.entries) }
{
    match rows.insert(place, firing) {
        Ok(_) => Ok(()),
        Err(failed) => Err(failed.value.1.into_value()),
    }
}

/// Takes the firing of a place away. It takes no memory.
fn take_row(rows: &mut BTreeMap<u64, Boxed<Live>>, place: u64) -> Option<Live>
    ensures value { result ≡ row_at rows.old.entries place }
    ensures entries { rows.new.entries ≡ remove_entry (is_at (nat_cmp place)) rows.old.entries }
    ensures updates { (n : ℕ) → row_at rows.new.entries n ≡ (if is_eq (nat_cmp place n) then None else row_at rows.old.entries n) }
    ensures len { length rows.new.entries ≤ length rows.old.entries }
    ensures none { IfNone result (rows.new.entries ≡ rows.old.entries) }
    ensures less { IsSome result → length rows.new.entries + 1 ≤ length rows.old.entries }
{
    match rows.remove(&place) {
        Some(boxed) => Some(boxed.into_value()),
        None => None,
    }
}

/// Notes a firing that went, if it was told. It takes no memory: there is room.
fn note_gone(gone: &mut Vec<(u64, Live)>, mark: u64, place: u64, firing: Live)
    requires { vec_len gone.old < vec_capacity gone.old }
    ensures items { gone.new.items ≡ gone.old.items ++ (if nat_lt place mark then (place, firing) ∷ [] else []) }
    ensures len { vec_len gone.new ≤ vec_len gone.old + 1 }
    ensures capacity { vec_capacity gone.new ≡ vec_capacity gone.old }
{
    if place < mark {
        gone.push_reserved((place, firing));
    }
}

/// Makes room for so many firings to go. Where none is noted nothing is copied.
fn make_room(alloc: Global, gone: &mut Vec<(u64, Live)>, more: usize) -> Result<(), NoMemory>
    ensures items { gone.new.items ≡ gone.old.items }
    ensures len { vec_len gone.new ≡ vec_len gone.old }
    ensures ok { OnOk result (vec_len gone.new + more ≤ vec_capacity gone.new) }
    ensures capacity { vec_capacity gone.old ≤ vec_capacity gone.new }
{
    if gone.is_empty() && gone.capacity() < more {
        *gone = Vec::with_capacity(alloc, more.saturating_mul(2))?;
    } else {
        gone.reserve(more)?;
    }
    Ok(())
}
