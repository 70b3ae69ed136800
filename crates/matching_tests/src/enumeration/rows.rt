// Conditions, elements and symbols as rows of bytes.
//
// `+a1` is the condition `(<0> ^a <1>)`, and `-a1` its negation; `6a1` is the element of the top state with the tag
// 6, the attribute a and the value 1. The attributes a to d are the words 24 to 27.
ghost use Rattle.std.specs.Prelude.{◌<◌, IfOk, IsTrue};
ghost use Rattle.soar_rule.specs.Below.{cond_below, conds_below};

use super::build::{pattern, top, variable};
use soar_rule::{Cond, Relation};
use soar_sym::{List, NoMemory, Sym};
use soar_wm::Element;
use std::alloc::Global;

pub const S1: Sym = Sym::Ident {
    letter: b'S',
    number: 1,
};

fn digit(byte: u8) -> u32
    ensures { result < 10 }
{
    u32::from(byte.saturating_sub(b'0').min(9))
}

fn word(letter: u8) -> u32 {
    u32::from(letter.saturating_sub(b'a')) + 24
}

pub fn conds_of(alloc: Global, rows: &[[u8; 3]]) -> Result<List<Cond>, NoMemory>
    ensures { IfOk result (λ conds. IsTrue (conds_below 10 conds)) }
{
    let mut conds = List::new(alloc);
    'rows: for row in rows {
        conds.push(cond_of(alloc, *row)?)?;
    }
    Ok(conds)
}

fn cond_of(alloc: Global, row: [u8; 3]) -> Result<Cond, NoMemory>
    ensures { IfOk result (λ cond. IsTrue (cond_below 10 cond)) }
{
    let [sign, attr, value] = row;
    let value = vec![in alloc; variable(digit(value))]?;
    let pattern = pattern(alloc, word(attr), value)?;
    if sign == b'-' {
        Ok(Cond::Neg(pattern))
    } else {
        Ok(Cond::Pos(pattern))
    }
}

pub fn elements_of(alloc: Global, rows: &[[u8; 3]]) -> Result<Vec<Element>, NoMemory> {
    let mut elements = vec![in alloc]?;
    for row in rows {
        elements.push(element_of(*row))?;
    }
    Ok(elements)
}

fn element_of(row: [u8; 3]) -> Element {
    let [tag, attr, value] = row;
    top(digit(tag), word(attr), symbol_of(value))
}

/// A digit is an integer, `m` -1 and `x` 24; `S` and `T` are S1 and S2, and other letters words.
pub fn symbol_of(byte: u8) -> Sym {
    match byte {
        b'S' => S1,
        b'T' => Sym::Ident {
            letter: b'S',
            number: 2,
        },
        b'm' => Sym::Int(-1),
        b'x' => Sym::Int(24),
        b'w' => Sym::Word(24),
        b'v' => Sym::Word(27),
        _ => Sym::Int(i64::from(digit(byte))),
    }
}

/// `{` is `<=`, `}` is `>=`, and `=` is `<=>`.
pub fn relation_of(byte: u8) -> Relation {
    match byte {
        b'<' => Relation::Less,
        b'>' => Relation::Greater,
        b'{' => Relation::AtMost,
        b'}' => Relation::AtLeast,
        b'=' => Relation::SameKind,
        _ => Relation::Differ,
    }
}

/// The negation of these conditions.
pub fn conjunctive(inside: List<Cond>) -> Cond
    requires { IsTrue (conds_below 10 inside) }
    ensures { IsTrue (cond_below 10 result) }
{
    Cond::Conj(inside)
}
