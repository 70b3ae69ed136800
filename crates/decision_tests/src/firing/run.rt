// Rows of actions, and what they make.
ghost use Rattle.std.specs.Prelude.{◌≡◌, [], ◌∷◌, length, pos, IfOk};
ghost use Rattle.soar_sym.specs.declared.symbol.Sym.TheVariants.{Ident, Int};
ghost use Rattle.soar_rule.specs.Productions.{production_seen};
ghost use Rattle.soar_rule.specs.Symbols.{AreKnown, symbols_of};
ghost use Rattle.soar_rule.specs.Variables.{bound_variables};

use crate::firing::production::{bind_two, spelled};
use crate::firing::render::{outcome, shown};
use defs_match::{Instance, Rule};
use defs_soar::{Goal, Impasse, Made};
use soar_fire::{FireFault, fire};
use soar_rule::Production;
use soar_sym::{Letters, List, Sym, SymTable, Text};
use std::alloc::{AllocError, Global};
use std::test::Fail;

pub const S1: Sym = Sym::Ident {
    letter: b'S',
    number: 1,
};

/// So many numbers of each letter are given.
fn letters_after(count: u32) -> Letters {
    let mut letters = Letters::new();
    for letter in b'A'..91 {
        letters.starting(letter, count);
    }
    letters
}

/// A goal stack of one goal, S1.
fn one_goal(alloc: Global) -> Result<List<Goal>, AllocError> {
    Ok(List::from_vec(vec![in alloc;
        Goal {
            id: S1,
            impasse: Impasse::Top,
            items: List::new(alloc),
            selected: None,
        },
    ]?))
}

/// An instance of rule 1 that binds S1 and 5.
fn instance(alloc: Global) -> Result<Instance, AllocError>
    ensures { IfOk result (λ i. i.binds ≡ Ident 83 1 ∷ Int (pos 5) ∷ []) }
{
    Ok(Instance {
        rule: 1,
        tags: List::new(alloc),
        binds: List::from_vec(vec![in alloc; S1, Sym::Int(5)]?),
    })
}

/// So many numbers of each letter are given before.
fn fire_production(
    alloc: Global,
    table: &mut SymTable,
    count: u32,
    production: Production,
) -> Result<Made, FireFault>
    requires known { AreKnown table.old (symbols_of (production_seen production)) }
    requires binds { length (bound_variables (production_seen production).conditions) ≡ 2 }
{
    let Ok(rule) = Rule::new(alloc, 1, production) else {
        return Err(FireFault::NoMemory);
    };
    let goals = one_goal(alloc)?;
    let instance = instance(alloc)?;
    let mut letters = letters_after(count);
    fire(alloc, table, &mut letters, &goals, &rule, &instance)
}

/// What actions make of the condition `(<s> ^nil <x>)`, where `<s>` is S1, a goal, and `<x>` is 5.
/// It finds no memory where they are no actions.
pub fn fired(
    alloc: Global,
    table: &mut SymTable,
    count: u32,
    actions: &str,
) -> Result<Made, FireFault> {
    let text = between(alloc, "sp {test (<s> ^nil <x>) --> ", actions, "}")?;
    match spelled(alloc, table, text.as_str())? {
        Some(production) if bind_two(production.conds.as_slice()) => {
            fire_production(alloc, table, count, production)
        }
        _ => Err(FireFault::NoMemory),
    }
}

/// A text with others in front and behind.
fn between(alloc: Global, front: &str, text: &str, behind: &str) -> Result<Text, AllocError> {
    let mut out = Text::from_str(alloc, front)?;
    out.push_str(text)?;
    out.push_str(behind)?;
    Ok(out)
}

/// Whether a row of actions and what they make holds.
pub fn fires_to(alloc: Global, row: &str) -> Result<bool, Fail> {
    match row.split_once(" => ") {
        Some((actions, wanted)) => fires_as(alloc, actions, wanted),
        None => Ok(false),
    }
}

fn fires_as(alloc: Global, actions: &str, wanted: &str) -> Result<bool, Fail> {
    let mut table = SymTable::new(alloc)?;
    let made = fired(alloc, &mut table, 0, actions)?;
    let out = shown(alloc, &table, &made)?;
    Ok(out.as_str() == wanted)
}

/// What an action of this value makes.
fn fired_with(alloc: Global, table: &mut SymTable, value: &str) -> Result<Made, FireFault> {
    let text = between(alloc, "(<s> ^nil ", value, ")")?;
    fired(alloc, table, 0, text.as_str())
}

/// Whether a row of a value and what it stands for holds.
pub fn gives(alloc: Global, row: &str) -> Result<bool, Fail> {
    match row.split_once(" => ") {
        Some((value, wanted)) => stands_for(alloc, value, wanted),
        None => Ok(false),
    }
}

fn stands_for(alloc: Global, value: &str, wanted: &str) -> Result<bool, Fail> {
    let mut table = SymTable::new(alloc)?;
    let made = fired_with(alloc, &mut table, value)?;
    let out = outcome(alloc, &table, &made)?;
    Ok(out.as_str() == wanted)
}

/// Whether the value is a word, and not dropped as too long.
pub fn makes_a_word(alloc: Global, value: &str) -> Result<bool, Fail> {
    let mut table = SymTable::new(alloc)?;
    let made = fired_with(alloc, &mut table, value)?;
    match made.dropped.as_slice() {
        [] => Ok(matches!(made.wishes.as_slice(), [wish] if matches!(wish.value, Sym::Word(_)))),
        _ => Ok(false),
    }
}
