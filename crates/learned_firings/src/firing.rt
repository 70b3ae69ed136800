// The firing of a learned rule.
ghost use Rattle.std.specs.Prelude.{◌≡◌, ◌≤◌, length, map, IfOk};
ghost use Rattle.soar_rule.specs.Symbols.{AreKnown};
ghost use Rattle.soar_rule.specs.Variables.{bound_variables};
ghost use Rattle.defs_match.specs.Rules.{rule_seen};
ghost use Rattle.defs_soar.specs.Goals.{goal_ids};
ghost use Rattle.wave_entries.specs.Recorded.{recorded_seen, standing};
ghost use Rattle.learned_firings.specs.Deciding.{AreThere};
ghost use Rattle.learned_firings.specs.Firings.{learned_as};

use crate::deciding::learned_kind;
use defs_match::{Instance, Rule};
use defs_soar::Wish;
use soar_sym::{List, NoMemory, Sym, SymTable};
use soar_wm::Element;
use std::alloc::{AllocError, Global};
use wave_entries::{Before, Recorded, goals_of, recorded};

/// The firing of a learned rule under a number, at the elements of its conditions, which takes over preferences of a
/// firing whose match goal is of the depth `explained` (Soar manual, chapter 4, chunking). Its support is that of its
/// kind, where it is a firing of a higher goal.
pub fn learned_firing(
    table: &SymTable,
    before: &Before<'_>,
    rule: &Rule,
    elements: &[Element],
    binds: List<Sym>,
    number: u64,
    explained: u32,
    made: &[Wish],
) -> Result<Recorded, NoMemory>
    requires binds { length binds ≡ length (bound_variables (rule_seen rule.now).production.conditions) }
    requires there { AreThere elements.now (standing before.now).elements }
    requires known { AreKnown table.now (goal_ids before.now.goals.now) }
    requires few { length before.now.goals.now ≤ 100 }
    ensures { IfOk result (λ r. recorded_seen r ≡ learned_as table.now (standing before.now) explained number (rule_seen rule.now) elements.now binds made.now) }
{
    let kind = learned_kind(before, rule, elements, binds.as_slice())?;
    let instance = Instance {
        rule: rule.number,
        tags: tags_of(before.alloc, elements)?,
        binds,
    };
    let goals = goals_of(before.alloc, table, before.goals, rule, &instance)?;
    let mut learned = recorded(before, rule, &instance, number, goals, made)?;
    learned.operator_kind = learned.firing.depth < explained && kind;
    Ok(learned)
}

fn tags_of(alloc: Global, elements: &[Element]) -> Result<List<u32>, AllocError>
    ensures { IfOk result (λ tags. tags ≡ map (λ e. e.tag) elements.now) }
{
    let mut tags = List::new(alloc);
    'elements: for element in elements {
        tags.push(element.tag)?;
    }
    Ok(tags)
}
