// The numbers of rules, by what rules are found.
ghost use Rattle.std.specs.Prelude.{◌≡◌, ℕ, ◌-◌, ◌^◌, [], true, false, OnOk, OnErr, IfOk, if◌then◌else◌};
ghost use Rattle.std.specs.BTreeMap.{is_at};
ghost use Rattle.std.specs.BTreeSet.{insert_key, keys_between, IsKeyRangeOf, IsOrdered};
ghost use Rattle.std.specs.Ordering.{nat_cmp};
ghost use Rattle.std.specs.declared.ops.Bound.TheVariants.{Included};
ghost use Rattle.soar_sym.specs.declared.symbol.Sym.{Sym as SymOf};
ghost use Rattle.rule_shelf.specs.Marks.{first_number, has, has_print, place_cmp, print_cmp, Forgets, IsSame, Notes};

use soar_sym::{List, NoMemory, Sym};
use std::alloc::Global;
use std::collections::BTreeSet;
use std::collections::btree_set::Range;

/// The numbers of the rules of each name and of each fingerprint, and those of the justifications.
#[derive(Drop)]
pub struct Index {
    pub names: BTreeSet<(Sym, u64)>,
    pub prints: BTreeSet<(u64, u64)>,
    pub justified: BTreeSet<u64>,
}

impl Index {
    /// No numbers. It takes no memory.
    pub fn new(alloc: Global) -> Index
        ensures names { result.names.keys ≡ [] }
        ensures prints { result.prints.keys ≡ [] }
        ensures justified { result.justified.keys ≡ [] }
    {
        Index {
            names: BTreeSet::new(alloc),
            prints: BTreeSet::new(alloc),
            justified: BTreeSet::new(alloc),
        }
    }

    /// Notes a rule of a new number, or leaves all as it was.
    pub fn note(
        &mut self,
        name: Sym,
        number: u64,
        fingerprint: u64,
        justified: bool,
    ) -> Result<(), NoMemory>
        requires names { has self.old.names.keys (name, number) ≡ false }
        requires prints { has_print self.old.prints.keys (fingerprint, number) ≡ false }
        ensures ok { OnOk result (Notes name number fingerprint justified self.old self.new) }
        ensures err { OnErr result (IsSame self.old self.new) }
    {
        self.names.insert((name, number))?;
        match note_rest(
            &mut self.prints,
            &mut self.justified,
            fingerprint,
            number,
            justified,
        ) {
            Ok(()) => Ok(()),
            Err(_) => {
                take(&mut self.names, name, number);
                Err(NoMemory)
            }
        }
    }

    /// Forgets a rule. It takes no memory.
    pub fn forget(&mut self, name: Sym, number: u64, fingerprint: u64)
        ensures { Forgets name number fingerprint self.old self.new }
    {
        take(&mut self.names, name, number);
        take_print(&mut self.prints, fingerprint, number);
        self.justified.remove(&number);
    }

    /// The numbers of the justifications, in order.
    pub fn justifications(&self, alloc: Global) -> Result<List<u64>, NoMemory>
        ensures { IfOk result (λ numbers. numbers ≡ self.now.justified.keys) }
    {
        let mut numbers = List::new(alloc);
        'numbers: for number in self.justified.iter() {
            numbers.push(*number)?;
        }
        Ok(numbers)
    }

    /// The names and numbers of the rules of a name, in order of number.
    pub fn of_name(&self, name: Sym) -> Range<'_, (Sym, u64)>
        ensures { IsKeyRangeOf place_cmp (Included (name, 0)) (Included (name, 2 ^ 64 - 1)) self.now.names result }
    {
        self.names.range((name, 0)..=(name, u64::MAX))
    }

    /// The numbers of the rules of a fingerprint, each behind it, in order.
    pub fn of_print(&self, fingerprint: u64) -> Range<'_, (u64, u64)>
        ensures between { result ≡ keys_between print_cmp (Included (fingerprint, 0)) (Included (fingerprint, 2 ^ 64 - 1)) self.now.prints }
        ensures ordered { IsOrdered print_cmp self.now.prints }
    {
        self.prints
            .range((fingerprint, 0)..=(fingerprint, u64::MAX))
    }
}

/// Takes a number from its name.
fn take(names: &mut BTreeSet<(Sym, u64)>, name: Sym, number: u64)
    ensures { (q : SymOf × ℕ) → has names.new.keys q ≡ if is_at (place_cmp (name, number)) q then false else has names.old.keys q }
{
    names.remove(&(name, number));
}

/// Takes a number from its fingerprint.
fn take_print(prints: &mut BTreeSet<(u64, u64)>, fingerprint: u64, number: u64)
    ensures { (q : ℕ × ℕ) → has_print prints.new.keys q ≡ if is_at (print_cmp (fingerprint, number)) q then false else has_print prints.old.keys q }
{
    prints.remove(&(fingerprint, number));
}

/// Puts a new number under its fingerprint, and among those of the justifications if it is one of them.
fn note_rest(
    prints: &mut BTreeSet<(u64, u64)>,
    numbers: &mut BTreeSet<u64>,
    fingerprint: u64,
    number: u64,
    justified: bool,
) -> Result<(), NoMemory>
    requires { has_print prints.old.keys (fingerprint, number) ≡ false }
    ensures printed { OnOk result ((q : ℕ × ℕ) → has_print prints.new.keys q ≡ if is_at (print_cmp (fingerprint, number)) q then true else has_print prints.old.keys q) }
    ensures told { OnOk result (numbers.new.keys ≡ if justified then insert_key nat_cmp numbers.old.keys number else numbers.old.keys) }
    ensures err_printed { OnErr result ((q : ℕ × ℕ) → has_print prints.new.keys q ≡ has_print prints.old.keys q) }
    ensures err_told { OnErr result (numbers.new.keys ≡ numbers.old.keys) }
{
    prints.insert((fingerprint, number))?;
    match note_justified(numbers, number, justified) {
        Ok(()) => Ok(()),
        Err(_) => {
            take_print(prints, fingerprint, number);
            Err(NoMemory)
        }
    }
}

/// Puts a number among those of the justifications, if it is one of them.
fn note_justified(numbers: &mut BTreeSet<u64>, number: u64, justified: bool) -> Result<(), NoMemory>
    ensures ok { OnOk result (numbers.new.keys ≡ if justified then insert_key nat_cmp numbers.old.keys number else numbers.old.keys) }
    ensures err { OnErr result (numbers.new.keys ≡ numbers.old.keys) }
{
    if justified {
        numbers.insert(number)?;
    }
    Ok(())
}

/// The first of the numbers that follow names.
pub fn first_number(mut places: Range<'_, (Sym, u64)>) -> Option<u64>
    ensures { result ≡ first_number places.entry }
{
    match places.next() {
        Some(place) => Some(place.1),
        None => None,
    }
}
