// Rows of preferences and the choice among them.
use crate::choice::slot::{are_fit, preferences};
use crate::choice::symbols::{push_integer, push_symbol};
use defs_soar::Preference;
use soar_choose::{Choice, Scored, choose};
use soar_sym::{List, NoMemory, SymTable, Text};
use std::alloc::{AllocError, Global};

/// Whether a row of preferences and their choice holds.
pub fn gives(alloc: Global, row: &str) -> Result<bool, NoMemory> {
    match row.split_once(" => ") {
        Some((slot, wanted)) => Ok(chosen(alloc, slot)?.as_str() == wanted),
        None => Ok(false),
    }
}

/// The choice among the preferences of a text, as a text.
fn chosen(alloc: Global, slot: &str) -> Result<Text, NoMemory> {
    let rows = preferences(alloc, slot)?;
    let choice = choice_among(alloc, &rows)?;
    Ok(shown(alloc, &choice)?)
}

/// The choice among rows. Rows that are not fit have no candidate.
fn choice_among(alloc: Global, rows: &List<Preference>) -> Result<Choice, NoMemory> {
    let table = SymTable::new(alloc)?;
    if rows.len() <= 1_000 && are_fit(&table, rows.as_slice()) {
        choose(alloc, &table, rows)
    } else {
        Ok(Choice::NoCandidate)
    }
}

fn shown(alloc: Global, choice: &Choice) -> Result<Text, AllocError> {
    match choice {
        Choice::Left(all) => with_scored(alloc, "left", all.as_slice()),
        Choice::Tie(all) => with_scored(alloc, "tie", all.as_slice()),
        Choice::Conflict(all) => with_scored(alloc, "conflict", all.as_slice()),
        Choice::Constraint(all) => with_scored(alloc, "constraint", all.as_slice()),
        Choice::NoCandidate => Text::from_str(alloc, "none"),
    }
}

fn with_scored(alloc: Global, name: &str, all: &[Scored]) -> Result<Text, AllocError> {
    let mut out = Text::from_str(alloc, name)?;
    for scored in all {
        push_scored(&mut out, scored)?;
    }
    Ok(out)
}

/// A value, with its sum where it has numbers.
fn push_scored(out: &mut Text, scored: &Scored) -> Result<(), AllocError> {
    out.push_str(" ")?;
    push_symbol(out, scored.value)?;
    if scored.numeric || scored.sum != 0 {
        out.push_str("=")?;
        push_integer(out, scored.sum)?;
    }
    Ok(())
}
