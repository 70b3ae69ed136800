// What has a variable, in the order of the variables' numbers.
ghost use Rattle.std.specs.Prelude.{◌≡◌, ◌+◌, ◌≤◌, ◌∷◌, [], true, length, map, IfOk, OnOk};
ghost use Rattle.chunk_variables.specs.Seen.{as_many, variablized_seen};
ghost use Rattle.defs_soar.specs.Candidate.{variablized_place, with_variables};
ghost use Rattle.defs_soar.specs.Variablized.{each_variablized_once, names_from, variablized_in_atom, variablized_in_symbol};

use crate::naming::names_of;
use indexmap::IndexSet;
use soar_rule::Atom;
use soar_sym::{List, NoMemory, Sym, Text};
use std::alloc::Global;
use std::marker::Model;

/// The most variables of a rule.
const MOST_VARIABLES: usize = 4_294_967_295;

/// What has a variable: an identifier, or a negation's own variable.
#[derive(Clone, Copy, PartialEq, Eq, Hash)]
pub(crate) enum Variablized {
    Identifier { letter: u8, number: u32 },
    Own(u32),
}

/// What has a variable in a rule, each once. The number of its variable is its place.
#[derive(Drop)]
pub struct Variables {
    items: IndexSet<Variablized>,
}

impl Model for Variables {
    ghost use Rattle.std.specs.Prelude.{◌<◌, ◌^◌, List as ListOf, length, map};
    ghost use Rattle.chunk_variables.specs.Seen.{variablized_seen};
    ghost use Rattle.defs_soar.specs.Variablized.{Variablized as VariablizedOf};

    ghost Value = { ListOf VariablizedOf };

    ghost view = { λ v. map variablized_seen v.items.keys };

    ghost invariant = { λ v. length v.items.keys < 2 ^ 32 };
}

impl Variables {
    /// Nothing has a variable. It takes no memory.
    pub(crate) fn new(alloc: Global) -> Variables
        ensures { result ≡ [] }
    {
        Variables {
            items: IndexSet::new(alloc),
        }
    }

    /// Adds what an atom has a variable for, where it is new: in the general form an identifier, in both a
    /// negation's own variable.
    pub(crate) fn meet(&mut self, general: bool, atom: Atom) -> Result<(), NoMemory>
        ensures { OnOk result (self.new ≡ each_variablized_once self.old (variablized_in_atom general atom)) }
    {
        match item_of(general, atom) {
            Some(item) => self.add(item),
            None => Ok(()),
        }
    }

    fn add(&mut self, item: Variablized) -> Result<(), NoMemory>
        ensures { OnOk result (self.new ≡ each_variablized_once self.old (variablized_seen item ∷ [])) }
    {
        if self.items.len() >= MOST_VARIABLES {
            return Err(NoMemory);
        }
        insert(&mut self.items, item)
    }

    /// The atom with its variable in its place, where it has one.
    pub(crate) fn atom(&self, general: bool, atom: Atom) -> Atom
        ensures { result ≡ with_variables general self.now atom }
    {
        match item_of(general, atom) {
            Some(item) => Atom::Var(self.number(item)),
            None => atom,
        }
    }

    /// The number of an item's variable. One that has none would get it next.
    fn number(&self, item: Variablized) -> u32
        ensures { result ≡ variablized_place 0 self.now (variablized_seen item) }
    {
        place(&self.items, item) as u32
    }

    /// The names of the variables in the order of their numbers: a small letter and a number, from 1 for each letter.
    /// An identifier gives its own letter, which is one from `A` to `Z`, and a negation's own variable an x.
    pub fn names(&self, alloc: Global) -> Result<List<Text>, NoMemory>
        ensures { IfOk result (λ names. names ≡ names_from [] self.now) }
    {
        names_of(alloc, self.items.as_slice())
    }
}

/// What an atom has a variable for.
fn item_of(general: bool, atom: Atom) -> Option<Variablized>
    ensures { as_many result ≡ variablized_in_atom general atom }
{
    match atom {
        Atom::Const(symbol) => { if general { identifier_of(symbol) } else { None } }
        Atom::Var(variable) => Some(Variablized::Own(variable)),
    }
}

/// A symbol that is an identifier.
fn identifier_of(symbol: Sym) -> Option<Variablized>
    ensures { as_many result ≡ variablized_in_symbol true symbol }
{
    match symbol {
        Sym::Ident { letter, number } => Some(Variablized::Identifier { letter, number }),
        Sym::Word(_) => None,
        Sym::Int(_) => None,
    }
}

/// Adds an item at the end, where it is new.
#[tactic(auto, using(crate::proofs::VariableLemmas::insert_seen))]
fn insert(items: &mut IndexSet<Variablized>, item: Variablized) -> Result<(), NoMemory>
    ensures items { OnOk result (map variablized_seen items.new.keys ≡ each_variablized_once (map variablized_seen items.old.keys) (variablized_seen item ∷ [])) }
    ensures one_more { length items.new.keys ≤ length items.old.keys + 1 }
{
    items.insert(item)?;
    Ok(())
}

/// The place of an item. For one that is not there it is how many there are.
fn place(items: &IndexSet<Variablized>, item: Variablized) -> usize
    ensures place { result ≡ variablized_place 0 (map variablized_seen items.now.keys) (variablized_seen item) }
    ensures within { result ≤ length items.now.keys }
{
    match items.get_index_of(&item) {
        Some(at) => at,
        None => items.len(),
    }
}
