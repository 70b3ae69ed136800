// Productions of texts, and rules under their fingerprints.
use crate::rules::production::spelled;
use body_marks::fingerprint;
use defs_match::Rule;
use rule_shelf::Rules;
use soar_sym::{List, NoMemory, SymTable};
use std::alloc::Global;

/// Whether two texts spell productions of one fingerprint, if both spell one.
pub fn are_alike(alloc: Global, one: &str, other: &str) -> Result<Option<bool>, NoMemory> {
    let mut table = SymTable::new(alloc)?;
    let one = mark_of(alloc, &mut table, one)?;
    let other = mark_of(alloc, &mut table, other)?;
    match (one, other) {
        (Some(one), Some(other)) => Ok(Some(one == other)),
        _ => Ok(None),
    }
}

fn mark_of(alloc: Global, table: &mut SymTable, text: &str) -> Result<Option<u64>, NoMemory> {
    match spelled(alloc, table, text)? {
        Some(production) => Ok(Some(fingerprint(&production))),
        None => Ok(None),
    }
}

/// The numbers of the rules of these texts, from 1, that are of the fingerprint of a text.
pub fn found(alloc: Global, texts: &[&str], text: &str) -> Result<List<u64>, NoMemory> {
    let mut table = SymTable::new(alloc)?;
    let rules = rules(alloc, &mut table, texts)?;
    numbers(alloc, &mut table, &rules, text)
}

/// The same once the rule of a number went.
pub fn behind_removal(
    alloc: Global,
    texts: &[&str],
    number: u64,
    text: &str,
) -> Result<List<u64>, NoMemory> {
    let mut table = SymTable::new(alloc)?;
    let mut rules = rules(alloc, &mut table, texts)?;
    rules.remove(number);
    numbers(alloc, &mut table, &rules, text)
}

fn rules(alloc: Global, table: &mut SymTable, texts: &[&str]) -> Result<Rules, NoMemory> {
    let mut rules = Rules::new(alloc);
    let mut number: u64 = 1;
    for text in texts {
        join(alloc, table, &mut rules, number, text)?;
        number = number.wrapping_add(1);
    }
    Ok(rules)
}

fn join(
    alloc: Global,
    table: &mut SymTable,
    rules: &mut Rules,
    number: u64,
    text: &str,
) -> Result<(), NoMemory> {
    if let Some(production) = spelled(alloc, table, text)? {
        if rules.are_below(number) {
            rules.push(Rule::new(alloc, number, production)?)?;
        }
    }
    Ok(())
}

fn numbers(
    alloc: Global,
    table: &mut SymTable,
    rules: &Rules,
    text: &str,
) -> Result<List<u64>, NoMemory> {
    let mut numbers = List::new(alloc);
    if let Some(mark) = mark_of(alloc, table, text)? {
        for place in rules.alike(mark) {
            numbers.push(place.1)?;
        }
    }
    Ok(numbers)
}
