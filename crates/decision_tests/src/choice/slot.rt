// The preferences of a slot, from a text.
ghost use Rattle.std.specs.Prelude.{IsTrue};
ghost use Rattle.soar_sym.specs.Words.{IsKnown};
ghost use Rattle.soar_choose.specs.Rows.{AreInRange, AreKnown, IsNumberInRange, IsReferentKnown};

use crate::choice::symbols::symbol;
use defs_soar::{PrefKind, Preference, Wish};
use soar_sym::{List, Sym, SymTable};
use std::alloc::{AllocError, Global};

/// The preferences that words such as `A+`, `A>B` and `A=5` spell. A word that spells none is left out.
pub fn preferences(alloc: Global, text: &str) -> Result<List<Preference>, AllocError> {
    let mut rows = List::new(alloc);
    for word in text.split_whitespace() {
        if let Some(row) = preference(word) {
            rows.push(row)?;
        }
    }
    Ok(rows)
}

fn preference(word: &str) -> Option<Preference> {
    let (value, sign, referent) = parts(word)?;
    let value = symbol(value)?;
    let referent = symbol(referent);
    let kind = kind_of(sign, referent)?;
    Some(Preference {
        firing: 1,
        wish: Wish {
            id: Sym::Ident {
                letter: b'S',
                number: 1,
            },
            attr: Sym::Word(7),
            value,
            kind,
            referent,
        },
        operator_support: false,
    })
}

/// What stands before a sign, the sign, and what stands behind it.
fn parts(word: &str) -> Option<(&str, char, &str)> {
    for sign in ['+', '!', '~', '>', '<', '=', '-'] {
        if let Some((value, referent)) = word.split_once(sign) {
            return Some((value, sign, referent));
        }
    }
    None
}

fn kind_of(sign: char, referent: Option<Sym>) -> Option<PrefKind> {
    match (sign, referent) {
        ('+', None) => Some(PrefKind::Accept),
        ('!', None) => Some(PrefKind::Require),
        ('-', None) => Some(PrefKind::Reject),
        ('~', None) => Some(PrefKind::Prohibit),
        ('>', Some(_)) => Some(PrefKind::Better),
        ('<', Some(_)) => Some(PrefKind::Worse),
        ('>', None) => Some(PrefKind::Best),
        ('<', None) => Some(PrefKind::Worst),
        ('=', None) => Some(PrefKind::Indifferent),
        ('=', Some(Sym::Int(_))) => Some(PrefKind::Numeric),
        ('=', Some(_)) => Some(PrefKind::IndifferentTo),
        _ => None,
    }
}

/// Whether a choice can be made among these rows.
pub fn are_fit(table: &SymTable, rows: &[Preference]) -> bool
    ensures known { IsTrue result → AreKnown table.now rows.now }
    ensures range { IsTrue result → AreInRange rows.now }
{
    'rows: for row in rows {
        if !is_fit(table, row) {
            return false;
        }
    }
    true
}

fn is_fit(table: &SymTable, row: &Preference) -> bool
    ensures value { IsTrue result → IsKnown table.now row.now.wish.value }
    ensures referent { IsTrue result → IsReferentKnown table.now row.now.wish.referent }
    ensures range { IsTrue result → IsNumberInRange row.now.wish.kind row.now.wish.referent }
{
    is_known(table, row.wish.value) && is_referent_fit(table, row.wish.referent)
}

fn is_referent_fit(table: &SymTable, referent: Option<Sym>) -> bool
    ensures known { IsTrue result → IsReferentKnown table.now referent }
    ensures range { (kind : PrefKind) → IsTrue result → IsNumberInRange kind referent }
{
    match referent {
        Some(Sym::Int(number)) => -1_000_000_000 <= number && number <= 1_000_000_000,
        Some(symbol) => is_known(table, symbol),
        None => true,
    }
}

fn is_known(table: &SymTable, symbol: Sym) -> bool
    ensures { IsTrue result → IsKnown table.now symbol }
{
    match symbol {
        Sym::Word(word) => word < table.word_count(),
        Sym::Ident { letter, number: _ } => b'A' <= letter && letter <= b'Z',
        Sym::Int(_) => true,
    }
}
