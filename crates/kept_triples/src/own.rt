// The goals' own elements and selected operators (Soar manual, chapter 2, impasses and substates).
ghost use Rattle.std.specs.Prelude.{◌≡◌, ◌++◌, flat_map, IfOk, OnOk};
ghost use Rattle.defs_soar.specs.Goals.{goal_ids, selected_element};
ghost use Rattle.defs_soar.specs.Values.{has_triple_among};
ghost use Rattle.settling_laws.specs.Changes.{own_triples};
ghost use Rattle.kept_triples.specs.Owned.{TellsOwn};

use crate::triples::TripleSet;
use defs_soar::Goal;
use soar_settle::{add_goal_elements, plain_triple};
use soar_sym::architecture::OPERATOR;
use soar_sym::{List, NoMemory, Sym, Triple};
use std::alloc::Global;
use std::marker::Model;

/// The goals' own elements and selected operators, and the goals' identifiers from the top.
#[derive(Drop)]
pub struct Own {
    set: TripleSet,
    all: List<Triple>,
    goals: List<Sym>,
}

impl Model for Own {
    ghost use Rattle.kept_triples.specs.Owned.{ArePlain, IsSetOf, OwnOf};

    ghost Value = { OwnOf };

    ghost view = { λ own. record { triples = own.all; ids = own.goals } };

    ghost invariant = { λ own. IsSetOf own.all own.set × ArePlain own.all };
}

impl Own {
    /// Those of these goals.
    pub fn new(alloc: Global, goals: &[Goal]) -> Result<Own, NoMemory>
        ensures { IfOk result (λ own. TellsOwn goals.now own) }
    {
        let all = own_triples(alloc, goals)?;
        let set = TripleSet::of(alloc, all.as_slice())?;
        let goals = ids_of(alloc, goals)?;
        Ok(Own { set, all, goals })
    }

    /// Whether a triple is among them. A marked one never is.
    pub fn has(&self, triple: Triple) -> bool
        ensures { result ≡ has_triple_among self.now.triples triple }
    {
        !triple.accept && self.set.has(triple)
    }

    /// The triples, in the order of the goals: first all elements, then the selected operators.
    pub fn triples(&self) -> &[Triple]
        ensures { result.now ≡ self.now.triples }
    {
        self.all.as_slice()
    }

    /// The goals' identifiers, from the top.
    pub fn ids(&self) -> &[Sym]
        ensures { result.now ≡ self.now.ids }
    {
        self.goals.as_slice()
    }
}

fn own_triples(alloc: Global, goals: &[Goal]) -> Result<List<Triple>, NoMemory>
    ensures { IfOk result (λ all. all ≡ own_triples goals.now) }
{
    let mut all = List::new(alloc);
    add_goal_elements(&mut all, goals)?;
    add_selected(&mut all, goals)?;
    Ok(all)
}

fn add_selected(out: &mut List<Triple>, goals: &[Goal]) -> Result<(), NoMemory>
    ensures { OnOk result (out.new ≡ out.old ++ flat_map selected_element goals.now) }
{
    'goals: for goal in goals {
        add_selected_of(out, goal)?;
    }
    Ok(())
}

fn add_selected_of(out: &mut List<Triple>, goal: &Goal) -> Result<(), NoMemory>
    ensures { OnOk result (out.new ≡ out.old ++ selected_element goal.now) }
{
    if let Some(selection) = &goal.selected {
        out.push(plain_triple(goal.id, OPERATOR, selection.operator))?;
    }
    Ok(())
}

fn ids_of(alloc: Global, goals: &[Goal]) -> Result<List<Sym>, NoMemory>
    ensures { IfOk result (λ ids. ids ≡ goal_ids goals.now) }
{
    let mut ids = List::new(alloc);
    'goals: for goal in goals {
        ids.push(goal.id)?;
    }
    Ok(ids)
}
