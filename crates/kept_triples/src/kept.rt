// The triples that are held, with their levels.
ghost use Rattle.std.specs.Prelude.{◌≡◌, ◌||◌, false, List as ListOf, [], IfOk, OnOk};
ghost use Rattle.soar_sym.specs.declared.symbol.Sym.{Sym as SymOf};
ghost use Rattle.soar_sym.specs.declared.symbol.Triple.{Triple as TripleOf};
ghost use Rattle.defs_soar.specs.declared.goal.Goal.{Goal as GoalOf};
ghost use Rattle.defs_soar.specs.declared.preference.Preference.{Preference as PreferenceOf};
ghost use Rattle.defs_soar.specs.Sorted.{has_symbol};
ghost use Rattle.defs_soar.specs.Values.{has_triple_among};
ghost use Rattle.soar_settle.specs.Memory.{has_plain};
ghost use Rattle.kept_triples.specs.Kept.{level_in_kept, HoldsTriples, IsCovered, OwnIs};

use crate::held::HeldTriples;
use crate::looking::{Difference, look_at_all};
use crate::own::Own;
use defs_soar::Goal;
use input_memory::Inputs;
use level_change::LevelGraph;
use soar_settle::Prefs;
use soar_sym::{List, NoMemory, Sym, Triple};
use std::alloc::Global;
use std::marker::Model;

/// The triples that are held, each once, and the levels over them (Soar manual, chapter 2, support, substates and levels).
#[derive(Drop)]
pub struct Kept {
    held: HeldTriples,
    graph: LevelGraph,
    own: Own,
}

impl Model for Kept {
    ghost use Rattle.kept_triples.specs.Kept.{KeptOf};

    ghost Value = { KeptOf };

    ghost view = { λ k. record { triples = k.held; graph = k.graph; own = k.own.triples; ids = k.own.ids } };
}

impl Kept {
    /// No triples and no goals.
    pub fn new(alloc: Global) -> Result<Kept, NoMemory>
        ensures holds { IfOk result (λ kept. HoldsTriples [] [] [] kept) }
        ensures own { IfOk result (λ kept. OwnIs [] kept) }
    {
        Ok(Kept {
            held: HeldTriples::new(alloc),
            graph: LevelGraph::new(alloc)?,
            own: Own::new(alloc, &[])?,
        })
    }

    /// Whether a triple is held.
    pub fn has(&self, triple: Triple) -> bool
        ensures { result ≡ has_triple_among self.now.triples triple }
    {
        self.held.has(triple)
    }

    /// The level of an identifier, from 1, and none where no goal reaches it.
    pub fn level_of(&self, id: Sym) -> Option<u32>
        ensures { result ≡ level_in_kept self.now id }
    {
        self.graph.level_of(id)
    }

    /// The identifiers whose level may have changed when triples were looked at last.
    pub fn moved(&self) -> &[Sym]
        ensures { result.now ≡ self.now.graph.moved }
    {
        self.graph.moved()
    }

    /// The goals' own elements and selected operators.
    pub fn own(&self) -> &[Triple]
        ensures { result.now ≡ self.now.own }
    {
        self.own.triples()
    }

    /// The goals' identifiers, from the top.
    pub fn ids(&self) -> &[Sym]
        ensures { result.now ≡ self.now.ids }
    {
        self.own.ids()
    }

    /// Other goals from now on: their own elements take the place of those before. Triples and levels stay as they
    /// are until they are looked at again.
    pub fn set_own(&mut self, own: Own)
        ensures { self.new ≡ record self.old { own = own.triples; ids = own.ids } }
    {
        self.own = own;
    }

    /// Looks again at what holds the named triples up, marked and unmarked, and renews the levels. Notes the triples
    /// that it looked at. Where memory is refused nothing is promised.
    pub fn reconsider(
        &mut self,
        alloc: Global,
        goals: &[Goal],
        prefs: &Prefs,
        inputs: &Inputs,
        changed: &[Triple],
        touched: &mut List<Triple>,
    ) -> Result<(), NoMemory>
        requires own { OwnIs goals.now self.old }
        ensures holds { (goals0 : ListOf GoalOf) (rows0 : ListOf PreferenceOf) (inputs0 : ListOf TripleOf) → HoldsTriples goals0 rows0 inputs0 self.old → IsCovered goals0 rows0 inputs0 goals.now prefs.now.rows inputs.now changed.now → OnOk result (HoldsTriples goals.now prefs.now.rows inputs.now self.new) }
        ensures own { OnOk result (OwnIs goals.now self.new) }
        ensures moved { (goals0 : ListOf GoalOf) (rows0 : ListOf PreferenceOf) (inputs0 : ListOf TripleOf) → HoldsTriples goals0 rows0 inputs0 self.old → OnOk result ((s : SymOf) → has_symbol self.new.graph.moved s ≡ false → level_in_kept self.new s ≡ level_in_kept self.old s) }
        ensures touched { OnOk result ((t : TripleOf) → has_plain touched.new t ≡ (has_plain touched.old t || has_plain changed.now t)) }
        ensures same { OnOk result ((t : TripleOf) → has_plain changed.now t ≡ false → has_triple_among self.new.triples t ≡ has_triple_among self.old.triples t) }
    {
        let mut difference = Difference::with_room(alloc, changed.len())?;
        look_at_all(
            &self.own,
            goals,
            prefs,
            inputs,
            changed,
            &mut self.held,
            &mut difference,
        )?;
        touched.extend_from_slice(changed)?;
        self.graph.change(
            difference.gone.as_slice(),
            difference.come.as_slice(),
            self.own.ids(),
        )
    }
}
