// Levels that are kept while triples and goals come and go.
ghost use Rattle.std.specs.Prelude.{◌≡◌, [], false, IfOk, OnOk, OnErr, List as ListOf};
ghost use Rattle.soar_sym.specs.declared.symbol.Sym.{Sym as SymOf};
ghost use Rattle.soar_sym.specs.declared.symbol.Triple.{Triple as TripleOf};
ghost use Rattle.defs_soar.specs.Sorted.{has_symbol};
ghost use Rattle.level_change.specs.Counts.{IsChanged};
ghost use Rattle.level_change.specs.Graph.{level_in_graph, Stands, merged};

use crate::levels::{Told, no_levels, settle_levels};
use crate::renewing::renew_or_leave;
use crate::store::{Store, empty, settle};
use crate::told::level_of;
use soar_sym::{List, NoMemory, Sym, Triple};
use std::alloc::Global;
use std::marker::Model;

/// The levels over triples and goals that come and go (Soar manual, chapter 2, substates and levels).
#[derive(Drop)]
pub struct LevelGraph {
    told: Told,
    out: Store,
    into: Store,
    goals: List<Sym>,
    moved: List<Sym>,
    alloc: Global,
}

impl Model for LevelGraph {
    ghost use Rattle.level_change.specs.Graph.{Graph, merged};
    ghost use Rattle.level_change.specs.Links.{placed};

    ghost Value = { Graph };

    ghost view = { λ g. record { told = merged (placed g.told.base.entries) (placed g.told.late.entries); out = merged g.out.base.entries g.out.late.entries; into = merged g.into.base.entries g.into.late.entries; goals = g.goals; moved = g.moved } };
}

impl LevelGraph {
    /// No triples and no goals. It takes no memory.
    pub fn new(alloc: Global) -> Result<LevelGraph, NoMemory>
        ensures { IfOk result (λ graph. Stands graph [] []) }
    {
        Ok(LevelGraph {
            told: no_levels(alloc),
            out: empty(alloc),
            into: empty(alloc),
            goals: List::new(alloc),
            moved: List::new(alloc),
            alloc,
        })
    }

    /// Takes triples away and adds others, and sets the goals, from the top.
    pub fn change(
        &mut self,
        gone: &[Triple],
        come: &[Triple],
        goals: &[Sym],
    ) -> Result<(), NoMemory>
        ensures ok { (held after : ListOf TripleOf) (old_goals : ListOf SymOf) → IsChanged held gone.now come.now after → Stands self.old held old_goals → OnOk result (Stands self.new after goals.now) }
        ensures moved { (held : ListOf TripleOf) (old_goals : ListOf SymOf) → Stands self.old held old_goals → OnOk result ((s : SymOf) → has_symbol self.new.moved s ≡ false → level_in_graph self.new s ≡ level_in_graph self.old s) }
        ensures err { OnErr result (self.new ≡ self.old) }
    {
        settle_levels(self.alloc, &mut self.told)?;
        settle(self.alloc, &mut self.out)?;
        settle(self.alloc, &mut self.into)?;
        let kept = List::from_slice(self.alloc, goals)?;
        let moved = renew_or_leave(
            self.alloc,
            &mut self.told,
            &mut self.out,
            &mut self.into,
            self.goals.as_slice(),
            gone,
            come,
            goals,
        )?;
        self.goals = kept;
        self.moved = moved;
        Ok(())
    }

    /// The level of an identifier, from 1, and none where no goal reaches it.
    pub fn level_of(&self, id: Sym) -> Option<u32>
        ensures { result ≡ level_in_graph self.now id }
    {
        level_of(&self.told.base, &self.told.late, id)
    }

    /// The identifiers whose level the last change may have altered.
    pub fn moved(&self) -> &[Sym]
        ensures { result.now ≡ self.now.moved }
    {
        self.moved.as_slice()
    }
}
