// Copies of productions and patterns, in memory of their own.
ghost use Rattle.std.specs.Prelude.{◌≡◌, IfOk, IsTrue, length};
ghost use Rattle.soar_rule.specs.Below.{conds_below};
ghost use Rattle.soar_rule.specs.Conditions.{conditions};
ghost use Rattle.soar_rule.specs.Productions.{production_seen};

use crate::cond::{Cond, Pattern};
use crate::production::Production;
use crate::renumbering::{renumber_actions, renumber_conds, renumber_pattern};
use soar_sym::{List, NoMemory, Text};
use std::alloc::Global;

impl Production {
    /// A copy that shares no memory with it.
    pub fn copy(&self, alloc: Global) -> Result<Production, NoMemory>
        ensures { IfOk result (λ copy. copy ≡ self.now) }
    {
        let conds = renumber_conds(None, self.conds.as_slice(), alloc)?;
        self.with_conds(conds, alloc)
    }

    /// A copy with these conditions in the place of its own.
    pub fn with_conds(&self, conds: List<Cond>, alloc: Global) -> Result<Production, NoMemory>
        requires { IsTrue (conds_below (length self.now.vars) conds) }
        ensures seen { IfOk result (λ copy. production_seen copy ≡ record (production_seen self.now) { conditions = conditions conds }) }
        ensures same { conds ≡ self.now.conds → IfOk result (λ copy. copy ≡ self.now) }
    {
        let doc = copy_doc(&self.doc, alloc)?;
        let vars = List::from_slice(alloc, self.vars.as_slice())?;
        let actions = renumber_actions(None, self.actions.as_slice(), alloc)?;
        Ok(Production {
            name: self.name,
            doc,
            kind: self.kind,
            support: self.support,
            vars,
            conds,
            actions,
        })
    }
}

impl Pattern {
    /// A copy that shares no memory with it.
    pub fn copy(&self, alloc: Global) -> Result<Pattern, NoMemory>
        ensures { IfOk result (λ copy. copy ≡ self.now) }
    {
        renumber_pattern(None, self, alloc)
    }
}

fn copy_doc(doc: &Option<Text>, alloc: Global) -> Result<Option<Text>, NoMemory>
    ensures { IfOk result (λ copy. copy ≡ doc.now) }
{
    match doc {
        None => Ok(None),
        Some(text) => Ok(Some(Text::from_str(alloc, text.as_str())?)),
    }
}
