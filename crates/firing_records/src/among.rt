// The goals among the symbols of a firing, in symbol order.
ghost use Rattle.std.specs.Prelude.{◌≡◌, ◌++◌, ◌≤◌, length, IfOk, MatchOption, OnOk};
ghost use Rattle.std.specs.List.{insert};
ghost use Rattle.soar_rule.specs.Productions.{production_seen};
ghost use Rattle.soar_rule.specs.Symbols.{AreKnown, constants_of};
ghost use Rattle.soar_sym.specs.Words.{IsKnown};
ghost use Rattle.defs_match.specs.Rules.{rule_seen};
ghost use Rattle.defs_soar.specs.Goals.{goal_ids};
ghost use Rattle.defs_soar.specs.Sorted.{with_symbol};
ghost use Rattle.defs_soar.specs.WaveAtHand.{goals_among};
ghost use Rattle.firing_records.specs.Among.{goals_in, in_order};

use crate::constants::{add_constants, add_symbols};
use defs_match::{Instance, Rule};
use defs_soar::Goal;
use soar_rule::Production;
use soar_sym::{List, NoMemory, Sym, SymTable, is_symbol};
use std::alloc::Global;

/// The goals among the symbols of a firing: what the variables of its rule stand for, and the rule's constants.
pub fn goals_of(
    alloc: Global,
    table: &SymTable,
    goals: &List<Goal>,
    rule: &Rule,
    instance: &Instance,
) -> Result<List<Sym>, NoMemory>
    requires known { AreKnown table.now (goal_ids goals.now) }
    ensures { IfOk result (λ among. among ≡ goals_among table.now goals.now (instance.now.binds ++ constants_of (rule_seen rule.now).production)) }
{
    let found = found_in(
        alloc,
        goals.as_slice(),
        instance.binds.as_slice(),
        &rule.production,
    )?;
    in_order(alloc, table, found.as_slice())
}

/// Those of the symbols and of the production's constants that are goals.
fn found_in(
    alloc: Global,
    goals: &[Goal],
    symbols: &[Sym],
    production: &Production,
) -> Result<List<Sym>, NoMemory>
    ensures { IfOk result (λ found. found ≡ goals_in goals.now (symbols.now ++ constants_of (production_seen production.now))) }
{
    let mut found = List::new(alloc);
    add_symbols(&mut found, goals, symbols)?;
    add_constants(&mut found, goals, production)?;
    Ok(found)
}

fn in_order(alloc: Global, table: &SymTable, symbols: &[Sym]) -> Result<List<Sym>, NoMemory>
    requires { AreKnown table.now symbols.now }
    ensures { IfOk result (λ ordered. ordered ≡ in_order table.now symbols.now) }
{
    let mut ordered = Vec::with_capacity(alloc, symbols.len())?;
    'symbols: for at in (0..symbols.len()).rev() {
        add_symbol(table, &mut ordered, symbols[at])?;
    }
    Ok(List::from_vec(ordered))
}

/// Adds a symbol at its place, where it is new.
fn add_symbol(table: &SymTable, symbols: &mut Vec<Sym>, symbol: Sym) -> Result<(), NoMemory>
    requires all { AreKnown table.now symbols.old.items }
    requires one { IsKnown table.now symbol }
    ensures { OnOk result (symbols.new.items ≡ with_symbol table.now symbols.old.items symbol) }
{
    if let Some(at) = place(table, symbols.as_slice(), symbol) {
        symbols.insert(at, symbol)?;
    }
    Ok(())
}

/// The place of a new symbol among symbols in their order.
fn place(table: &SymTable, symbols: &[Sym], symbol: Sym) -> Option<usize>
    requires all { AreKnown table.now symbols.now }
    requires one { IsKnown table.now symbol }
    ensures within { MatchOption result (Unit {0}) (λ at. at ≤ length symbols.now) }
    ensures place { MatchOption result (with_symbol table.now symbols.now symbol ≡ symbols.now) (λ at. with_symbol table.now symbols.now symbol ≡ insert symbols.now at symbol) }
{
    'symbols: for (at, other) in symbols.iter().enumerate() {
        if is_symbol(symbol, *other) {
            return None;
        }
        if table.compare(symbol, *other).is_lt() {
            return Some(at);
        }
    }
    Some(symbols.len())
}
