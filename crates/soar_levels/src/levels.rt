ghost use Rattle.std.specs.Prelude.{◌≡◌, [], IfOk, OnOk, OnErr};
ghost use Rattle.defs_soar.specs.Goals.{goal_ids};
ghost use Rattle.soar_levels.specs.Told.{level_told, TellsLevels};

use defs_soar::{Goal, Leveled};
use level_graph::{Links, Marks, add_triples, from_last, spread, tell_goals};
use soar_sym::{List, NoMemory, Sym, Triple};
use std::alloc::Global;
use std::marker::Model;

/// The level of each identifier that a goal reaches: a goal's own depth, else the least depth of a goal
/// from which walks lead to it (Soar manual, chapter 2, substates and levels).
#[derive(Drop)]
pub struct Levels {
    told: Marks,
    alloc: Global,
}

impl Model for Levels {
    ghost use Rattle.std.specs.Prelude.{List as ListOf, Option as OptionOf, ℕ};
    ghost use Rattle.soar_sym.specs.declared.symbol.Sym.{Sym as SymOf};

    ghost Value = { ListOf (SymOf × OptionOf ℕ) };

    ghost view = { λ levels. levels.told };
}

impl Levels {
    /// No identifier has a level.
    pub fn new(alloc: Global) -> Result<Levels, NoMemory>
        ensures { IfOk result (λ levels. levels ≡ []) }
    {
        Ok(Levels {
            told: Marks::new(alloc),
            alloc,
        })
    }

    /// Finds the levels anew, over the triples that are held and the goals from the top.
    pub fn refresh(&mut self, held: &List<Triple>, goals: &List<Goal>) -> Result<(), NoMemory>
        ensures ok { OnOk result (TellsLevels self.new goals.now held.now) }
        ensures err { OnErr result (self.new ≡ self.old) }
    {
        let ids = ids_of(self.alloc, goals.as_slice())?;
        let mut told = Marks::new(self.alloc);
        let mut links = Links::new(self.alloc);
        add_triples(&mut told, &mut links, held.as_slice())?;
        tell_goals(&mut told, ids.as_slice())?;
        let mut waiting = from_last(self.alloc, ids.as_slice())?;
        spread(&mut told, &links, ids.as_slice(), &mut waiting)?;
        self.told = told;
        Ok(())
    }

    /// The level of an identifier, from 1 for what the top goal reaches, and none where no goal reaches it.
    pub fn level_of(&self, id: Sym) -> Option<u32>
        ensures { result ≡ level_told self.now id }
    {
        self.told.get(id)
    }
}

impl Leveled for Levels {
    ghost told = { λ levels. level_told levels };

    fn level_of(&self, id: Sym) -> Option<u32> {
        self.told.get(id)
    }
}

/// The identifiers of the goals, from the top.
fn ids_of(alloc: Global, goals: &[Goal]) -> Result<List<Sym>, NoMemory>
    ensures { IfOk result (λ ids. ids ≡ goal_ids goals.now) }
{
    let mut ids = List::new(alloc);
    'goals: for goal in goals {
        ids.push(goal.id)?;
    }
    Ok(ids)
}
