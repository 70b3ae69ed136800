ghost use Rattle.std.specs.Prelude.{◌≡◌, ◌++◌, ◌∷◌, [], length, map, take, OnOk};
ghost use Rattle.std.specs.BTreeSet.{keys};
ghost use Rattle.dependency_tables.specs.Tables.{each_with_tags, first_with, is_among};

use crate::adding::add_each;
use crate::finding::highest_with;
use soar_sym::{List, NoMemory};
use std::alloc::Global;
use std::collections::BTreeSet;
use std::marker::Model;

/// The tags of the elements on which each goal below the top depends (Soar manual, chapter 2, goal dependency sets), the
/// goal of depth 2 first. Each tag stands once for a goal.
#[derive(Drop)]
pub struct Dependencies {
    tables: Vec<BTreeSet<u32>>,
}

impl Model for Dependencies {
    ghost use Rattle.std.specs.Prelude.{List as ListOf, ℕ, map};
    ghost use Rattle.std.specs.BTreeSet.{keys};

    ghost Value = { ListOf (ListOf ℕ) };

    ghost view = { λ d. map keys d.tables.items };
}

impl Dependencies {
    /// The top goal alone, which has no table. It takes no memory.
    pub fn new(alloc: Global) -> Dependencies
        ensures { result ≡ [] }
    {
        Dependencies {
            tables: Vec::new(alloc),
        }
    }

    /// How many goals there are below the top.
    pub fn len(&self) -> usize
        ensures { result ≡ length self.now }
    {
        count(&self.tables)
    }

    /// The depth of the highest goal that depends on one of these tags. Takes no memory, and without tags looks at no
    /// table.
    pub fn highest_with(&self, tags: &[u32]) -> Option<usize>
        ensures { result ≡ first_with (is_among tags.now) 2 self.now }
    {
        highest_with(self.tables.as_slice(), tags)
    }

    /// One goal more below the others, which depends on nothing.
    pub fn push(&mut self, alloc: Global) -> Result<(), NoMemory>
        ensures { OnOk result (self.new ≡ self.old ++ [] ∷ []) }
    {
        push_empty(alloc, &mut self.tables)
    }

    /// Keeps the tables of the first goals below the top, so many.
    pub fn cut(&mut self, count: usize)
        ensures { self.new ≡ take count self.old }
    {
        keep_first(&mut self.tables, count);
    }

    /// Adds to each table the tags at its place. Those for which there is no table are let go.
    pub fn add(&mut self, tags: &[List<u32>]) -> Result<(), NoMemory>
        ensures { OnOk result (self.new ≡ each_with_tags self.old tags.now) }
    {
        add_each(&mut self.tables, tags)
    }
}

fn count(tables: &Vec<BTreeSet<u32>>) -> usize
    ensures { result ≡ length (map keys tables.now.items) }
{
    tables.len()
}

fn push_empty(alloc: Global, tables: &mut Vec<BTreeSet<u32>>) -> Result<(), NoMemory>
    ensures { OnOk result (map keys tables.new.items ≡ map keys tables.old.items ++ [] ∷ []) }
{
    tables.push(BTreeSet::new(alloc))?;
    Ok(())
}

fn keep_first(tables: &mut Vec<BTreeSet<u32>>, count: usize)
    ensures { map keys tables.new.items ≡ take count (map keys tables.old.items) }
{
    tables.truncate(count);
}
