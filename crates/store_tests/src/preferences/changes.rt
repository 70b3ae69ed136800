// Rows of what is done to preference memory, and of the triples whose rows came or went by it.
use crate::preferences::{COLOR, S1};
use soar_prefs::{PrefKind, Preference, Prefs, Wish};
use soar_sym::{NoMemory, Sym, Text, Triple};
use std::alloc::{AllocError, Global};

/// Whether these changes are told after what a row says is done.
pub fn tells(prefs: &mut Prefs, alloc: Global, row: &str) -> Result<bool, NoMemory> {
    match row.split_once("=>") {
        Some((words, wanted)) => {
            for word in words.split_whitespace() {
                obey(prefs, word);
            }
            Ok(told(prefs, alloc)?.as_str() == wanted)
        }
        None => Ok(false),
    }
}

/// Firing 1 wants the colour 2, `1+2`, or rejects it, `1-2`; it is retracted, `1.`; all rows of the colour go, `2!`, or all of the identifier, `S1`.
fn obey(prefs: &mut Prefs, word: &str) {
    if let Some((firing, value)) = word.split_once("+") {
        add(prefs, number(firing), number(value), PrefKind::Accept);
    } else if let Some((firing, value)) = word.split_once("-") {
        add(prefs, number(firing), number(value), PrefKind::Reject);
    } else if let Some(firing) = word.strip_suffix(".") {
        prefs.retract(number(firing) as u64);
    } else if let Some(value) = word.strip_suffix("!") {
        prefs.reject_now(color(number(value)));
    } else {
        prefs.drop_id(S1);
    }
}

fn number(text: &str) -> u32 {
    match text.parse::<u32>() {
        Ok(number) => number,
        Err(_) => 0,
    }
}

fn color(value: u32) -> Triple {
    Triple {
        id: S1,
        attr: COLOR,
        value: Sym::Word(value),
        accept: false,
    }
}

fn add(prefs: &mut Prefs, firing: u32, value: u32, kind: PrefKind) {
    let _ = prefs.add(Preference {
        firing: firing as u64,
        wish: Wish {
            id: S1,
            attr: COLOR,
            value: Sym::Word(value),
            kind,
            referent: None,
        },
        operator_support: false,
    });
}

/// The colours that changed, each with `+` where rows hold it up.
fn told(prefs: &mut Prefs, alloc: Global) -> Result<Text, NoMemory> {
    let triples = prefs.take_changes(alloc)?;
    let mut out = Text::new(alloc);
    for triple in triples.as_slice() {
        out.push_str(name_of(triple.value))?;
        out.push_str(if prefs.holds(*triple, false) { "+" } else { "" })?;
    }
    Ok(out)
}

fn name_of(value: Sym) -> &'static str {
    match value {
        Sym::Word(1) => " 1",
        Sym::Word(2) => " 2",
        Sym::Word(3) => " 3",
        _ => " ?",
    }
}
