ghost use Rattle.std.specs.List.{list_any};
ghost use Rattle.std.specs.Prelude.{◌≡◌, ◌<◌, ◌==◌, ◌∷◌, ◌++◌, [], true, length, IfOk, OnOk, OnErr};
ghost use Rattle.defs_soar.specs.Explanation.{firing_of};
ghost use Rattle.defs_soar.specs.History.{firing_seen};
ghost use Rattle.defs_soar.specs.Standing.{AreFrom};
ghost use Rattle.soar_record.specs.Recorded.{of_numbers, recorded};

use defs_soar::{Firing, Keeps};
use indexmap::IndexMap;
use shared_values::Shared;
use soar_sym::NoMemory;
use std::alloc::Global;
use std::collections::BTreeSet;
use std::marker::Model;

/// So many firings may be kept at least before those that nothing needs are looked for.
const LEAST_BOUND: usize = 1_000;

/// Firings by number, in the order in which they were added.
#[derive(Drop)]
pub struct Record {
    firings: IndexMap<u64, Shared<Firing>>,
    /// With more firings than this it is time to look for those that nothing needs.
    bound: usize,
}

impl Model for Record {
    ghost use Rattle.std.specs.Coded.{codes};
    ghost use Rattle.std.specs.Prelude.{List as ListOf};
    ghost use Rattle.defs_soar.specs.contracts.firing.Firing as firing;
    ghost use Rattle.defs_soar.specs.declared.firing.Firing.{Firing as FiringKept};
    ghost use Rattle.soar_record.specs.Recorded.{firings_in, IsBounded};

    ghost Value = { ListOf FiringKept };

    ghost coded = { Prim.hlevel (codes, firing.the_row.coded) };

    ghost view = { λ r. firings_in r.firings.entries };

    ghost invariant = { λ r. IsBounded r.firings.entries r.bound };
}

impl Record {
    /// No firings. It takes no memory.
    pub fn new(alloc: Global) -> Result<Record, NoMemory>
        ensures { IfOk result (λ r. r ≡ []) }
    {
        Ok(Record {
            firings: IndexMap::new(alloc),
            bound: LEAST_BOUND,
        })
    }

    /// Adds a firing, the last.
    pub fn add(&mut self, firing: Shared<Firing>) -> Result<(), NoMemory>
        requires { firing_of (recorded self.old) firing.number ≡ [] }
        ensures ok { OnOk result (self.new ≡ self.old ++ firing ∷ []) }
        ensures recorded { OnOk result (recorded self.new ≡ recorded self.old ++ firing_seen firing ∷ []) }
        ensures err { OnErr result (self.new ≡ self.old) }
    {
        self.firings.insert(firing.number, firing)?;
        Ok(())
    }

    /// Whether so many firings were added since the last look that it is worth to look for those that nothing needs: the
    /// record has twice as many as stayed then, and over a thousand.
    pub fn is_due(&self) -> bool
        ensures { result ≡ true → 1000 < length self.now }
    {
        self.firings.len() > self.bound
    }

    /// Drops all firings but those of these numbers. It takes no memory.
    pub fn keep(&mut self, numbers: &BTreeSet<u64>)
        ensures { recorded self.new ≡ of_numbers numbers.now.keys (recorded self.old) }
    {
        self.firings.retain(
            |number: &u64, firing: &mut Shared<Firing>| -> bool
                ensures { (result ≡ list_any (λ n. n == number.now) numbers.entry.now.keys) × (firing.new ≡ firing.old) }
            { is_among(numbers, *number) },
        );
        self.bound = self.firings.len().saturating_mul(2).max(LEAST_BOUND);
    }

    /// A law for callers' proofs: nothing is done.
    pub fn numbers_stand_once(&self)
        ensures { AreFrom (recorded self.now) (recorded self.now) }
    {
        let _ = &self.firings;
    }
}

fn is_among(numbers: &BTreeSet<u64>, number: u64) -> bool
    ensures { result ≡ list_any (λ n. n == number) numbers.now.keys }
{
    numbers.contains(&number)
}

impl Keeps for Record {
    ghost kept = { λ r. recorded r };

    fn firing(&self, number: u64) -> Option<&Firing> {
        match self.firings.get(&number) {
            Some(firing) => Some(&**firing),
            None => None,
        }
    }
}
