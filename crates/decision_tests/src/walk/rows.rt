// The preferences for the operators of goals, from a text.
ghost use Rattle.std.specs.Prelude.{IsTrue};
ghost use Rattle.soar_sym.specs.Words.{IsKnown};
ghost use Rattle.soar_choose.specs.Rows.{AreInRange, AreKnown, IsNumberInRange, IsReferentKnown};

use crate::walk::symbols::{goal_below, symbol};
use defs_soar::{PrefKind, Preference, Wish};
use soar_prefs::Prefs;
use soar_sym::{NoMemory, Sym, SymTable};
use std::alloc::Global;

/// The preferences that words such as `1A+` and `2A>B` spell: the number of a goal, and what is said there. A word that
/// spells none is left out.
pub fn prefs_of(alloc: Global, text: &str) -> Result<Prefs, NoMemory> {
    let mut prefs = Prefs::new(alloc, 1_000)?;
    for word in text.split_whitespace() {
        if let Some(row) = preference(word) {
            if prefs.add(row).is_err() {
                return Err(NoMemory);
            }
        }
    }
    Ok(prefs)
}

fn preference(word: &str) -> Option<Preference> {
    let (id, said) = goal_and_rest(word)?;
    let (value, sign, referent) = parts(said)?;
    let referent = symbol(referent);
    Some(Preference {
        firing: 1,
        wish: Wish {
            id,
            attr: Sym::Word(7),
            value: symbol(value)?,
            kind: kind_of(sign, referent)?,
            referent,
        },
        operator_support: false,
    })
}

/// The goal of a digit at the front, and what stands behind.
fn goal_and_rest(word: &str) -> Option<(Sym, &str)> {
    for (above, digit) in ["1", "2", "3"].iter().enumerate() {
        if let Some(rest) = word.strip_prefix(*digit) {
            return Some((goal_below(above), rest));
        }
    }
    None
}

/// What stands before a sign, the sign, and what stands behind it.
fn parts(word: &str) -> Option<(&str, char, &str)> {
    for sign in ['+', '!', '~', '>', '=', '-'] {
        if let Some((value, referent)) = word.split_once(sign) {
            return Some((value, sign, referent));
        }
    }
    None
}

fn kind_of(sign: char, referent: Option<Sym>) -> Option<PrefKind> {
    match (sign, referent) {
        ('+', None) => Some(PrefKind::Accept),
        ('!', None) => Some(PrefKind::Require),
        ('-', None) => Some(PrefKind::Reject),
        ('~', None) => Some(PrefKind::Prohibit),
        ('>', Some(_)) => Some(PrefKind::Better),
        ('=', None) => Some(PrefKind::Indifferent),
        _ => None,
    }
}

/// Whether a decision can be made over these rows.
pub fn are_fit(table: &SymTable, rows: &[Preference]) -> bool
    ensures known { IsTrue result → AreKnown table.now rows.now }
    ensures range { IsTrue result → AreInRange rows.now }
{
    'rows: for row in rows {
        if !is_fit(table, row) {
            return false;
        }
    }
    true
}

fn is_fit(table: &SymTable, row: &Preference) -> bool
    ensures value { IsTrue result → IsKnown table.now row.now.wish.value }
    ensures referent { IsTrue result → IsReferentKnown table.now row.now.wish.referent }
    ensures range { IsTrue result → IsNumberInRange row.now.wish.kind row.now.wish.referent }
{
    is_known(table, row.wish.value) && is_referent_fit(table, row.wish.referent)
}

fn is_referent_fit(table: &SymTable, referent: Option<Sym>) -> bool
    ensures known { IsTrue result → IsReferentKnown table.now referent }
    ensures range { (kind : PrefKind) → IsTrue result → IsNumberInRange kind referent }
{
    match referent {
        Some(Sym::Int(number)) => -1_000_000_000 <= number && number <= 1_000_000_000,
        Some(symbol) => is_known(table, symbol),
        None => true,
    }
}

fn is_known(table: &SymTable, symbol: Sym) -> bool
    ensures { IsTrue result → IsKnown table.now symbol }
{
    match symbol {
        Sym::Word(word) => word < table.word_count(),
        Sym::Ident { letter, number: _ } => b'A' <= letter && letter <= b'Z',
        Sym::Int(_) => true,
    }
}
