// Rows of a goal's operator slot, and what the goal comes to in a decision.
use crate::choice::draws::{is_fraction, mode_of};
use crate::choice::slot::{are_fit, preferences};
use crate::choice::symbols::{push_symbol, symbol};
use defs_soar::{Goal, Impasse, Item, Mode, Preference, Selection};
use soar_decide::{Outcome, View, decide};
use soar_prefs::Prefs;
use soar_sym::{List, NoMemory, Sym, SymTable, Text, Triple};
use soar_wm::Memory;
use std::alloc::{AllocError, Global};

const TOP: Sym = Sym::Ident {
    letter: b'S',
    number: 1,
};

/// Whether a row of a decision and what it comes to holds.
pub fn decides(alloc: Global, row: &str) -> Result<bool, NoMemory> {
    match row.split_once(" => ") {
        Some((case, wanted)) => Ok(decided(alloc, case)?.as_str() == wanted),
        None => Ok(false),
    }
}

/// What a case comes to, as a text: the selected operator, a mode and a random word, then the preferences.
fn decided(alloc: Global, case: &str) -> Result<Text, NoMemory> {
    match case.split_once(": ") {
        Some((head, slot)) => of_slot(alloc, head, slot),
        None => Ok(Text::new(alloc)),
    }
}

fn of_slot(alloc: Global, head: &str, slot: &str) -> Result<Text, NoMemory> {
    let rows = preferences(alloc, slot)?;
    let prefs = prefs_of(alloc, rows.as_slice())?;
    let memory = memory_of(alloc, rows.as_slice())?;
    match parts(head) {
        Some((selected, mode, word)) => of_goal(alloc, &prefs, &memory, mode, word, selected),
        None => Ok(Text::new(alloc)),
    }
}

/// The selected operator, the mode and the word.
fn parts(head: &str) -> Option<(Option<Sym>, Mode, u64)> {
    let (selected, drawing) = head.split_once(" ")?;
    let (mode, word) = drawing.split_once(" ")?;
    let mode = mode_of(mode)?;
    match word.parse::<u64>() {
        Ok(word) => Some((symbol(selected), mode, word)),
        Err(_) => None,
    }
}

fn of_goal(
    alloc: Global,
    prefs: &Prefs,
    memory: &Memory,
    mode: Mode,
    word: u64,
    selected: Option<Sym>,
) -> Result<Text, NoMemory> {
    let table = SymTable::new(alloc)?;
    let rows = prefs.all(alloc)?;
    let view = View {
        alloc,
        table: &table,
        prefs,
        memory,
        mode,
        random: &[word],
    };
    if rows.len() <= 1_000 && are_fit(&table, rows.as_slice()) && is_fraction(mode) {
        Ok(shown(alloc, &decide(&view, &goal_with(alloc, selected))?)?)
    } else {
        Ok(Text::new(alloc))
    }
}

fn goal_with(alloc: Global, selected: Option<Sym>) -> Goal {
    Goal {
        id: TOP,
        impasse: Impasse::Top,
        items: List::new(alloc),
        selected: match selected {
            Some(operator) => Some(Selection {
                operator,
                tag: 0,
                maker: 0,
            }),
            None => None,
        },
    }
}

fn prefs_of(alloc: Global, rows: &[Preference]) -> Result<Prefs, NoMemory> {
    let mut prefs = Prefs::new(alloc, 1_000)?;
    for row in rows {
        if prefs.add(*row).is_err() {
            return Err(NoMemory);
        }
    }
    Ok(prefs)
}

/// A marked element for each value, in their order.
fn memory_of(alloc: Global, rows: &[Preference]) -> Result<Memory, NoMemory> {
    let mut memory = Memory::new(alloc, 1_000, 0)?;
    for row in rows {
        let marked = Triple {
            id: row.wish.id,
            attr: row.wish.attr,
            value: row.wish.value,
            accept: true,
        };
        let _ = memory.add(marked, true);
    }
    Ok(memory)
}

fn shown(alloc: Global, outcome: &Outcome) -> Result<Text, AllocError> {
    match outcome {
        Outcome::Stays => Text::from_str(alloc, "stays"),
        Outcome::Selects {
            selection,
            takes_word,
        } => shown_selection(alloc, selection, *takes_word),
        Outcome::Impasse { why, items } => shown_impasse(alloc, *why, items.as_slice()),
    }
}

/// The operator, the place of its element, and whether that took a word.
fn shown_selection(
    alloc: Global,
    selection: &Selection,
    takes_word: bool,
) -> Result<Text, AllocError> {
    let mut out = Text::from_str(alloc, if takes_word { "draws " } else { "takes " })?;
    push_symbol(&mut out, selection.operator)?;
    out.push_str(match (selection.tag, selection.maker) {
        (1, 1) => ", the first",
        (2, 1) => ", the second",
        _ => ", of none",
    })?;
    Ok(out)
}

fn shown_impasse(alloc: Global, why: Impasse, items: &[Item]) -> Result<Text, AllocError> {
    let mut out = Text::from_str(alloc, name_of(why))?;
    for item in items {
        out.push_str(if item.tag == 0 { " ?" } else { " " })?;
        push_symbol(&mut out, item.value)?;
    }
    Ok(out)
}

fn name_of(why: Impasse) -> &'static str {
    match why {
        Impasse::Tie => "tie",
        Impasse::Conflict => "conflict",
        Impasse::Constraint => "constraint",
        Impasse::StateNoChange => "no change",
        Impasse::Top | Impasse::OperatorNoChange => "other",
    }
}
