// What a firing made, as a text.
use defs_soar::{DropCause, Dropped, Made, PrefKind, Wish};
use itoa::Buffer;
use soar_sym::{Sym, SymTable, Text};
use std::alloc::{AllocError, Global};

/// The wishes, the dropped actions with their places and causes, the text, and whether it halts.
pub fn shown(alloc: Global, table: &SymTable, made: &Made) -> Result<Text, AllocError> {
    let mut out = Text::new(alloc);
    for wish in made.wishes.as_slice() {
        push_wish(&mut out, table, wish)?;
    }
    for dropped in made.dropped.as_slice() {
        push_dropped(&mut out, dropped)?;
    }
    if !made.texts.as_str().is_empty() {
        push_part(&mut out, made.texts.as_str())?;
    }
    if made.halted {
        push_part(&mut out, "halts")?;
    }
    Ok(out)
}

/// A part behind the others.
fn push_part(out: &mut Text, part: &str) -> Result<(), AllocError> {
    if !out.as_str().is_empty() {
        out.push_str("; ")?;
    }
    out.push_str(part)
}

fn push_dropped(out: &mut Text, dropped: &Dropped) -> Result<(), AllocError> {
    let mut buffer = Buffer::new();
    push_part(out, buffer.format(dropped.action))?;
    out.push_str(" ")?;
    out.push_str(cause(dropped.cause))
}

/// The value of the only wish, or the cause for which the only action is dropped.
pub fn outcome(alloc: Global, table: &SymTable, made: &Made) -> Result<Text, AllocError> {
    let mut out = Text::new(alloc);
    match (made.wishes.as_slice(), made.dropped.as_slice()) {
        ([wish], []) => push_symbol(&mut out, table, wish.value)?,
        ([], [dropped]) => out.push_str(cause(dropped.cause))?,
        _ => out.push_str("neither")?,
    }
    Ok(out)
}

fn push_wish(out: &mut Text, table: &SymTable, wish: &Wish) -> Result<(), AllocError> {
    push_part(out, "")?;
    push_symbol(out, table, wish.id)?;
    out.push_str(" ")?;
    push_symbol(out, table, wish.attr)?;
    out.push_str(" ")?;
    push_symbol(out, table, wish.value)?;
    out.push_str(mark(wish.kind))?;
    match wish.referent {
        Some(symbol) => push_symbol(out, table, symbol),
        None => Ok(()),
    }
}

/// A word without bars.
fn push_symbol(out: &mut Text, table: &SymTable, symbol: Sym) -> Result<(), AllocError> {
    let mut buffer = Buffer::new();
    match symbol {
        Sym::Ident { letter, number } => {
            out.push(letter as char)?;
            out.push_str(buffer.format(number))
        }
        Sym::Int(value) => out.push_str(buffer.format(value)),
        Sym::Word(word) if word < table.word_count() => out.push_str(table.text(word)),
        Sym::Word(_) => out.push_str("no word"),
    }
}

fn mark(kind: PrefKind) -> &'static str {
    match kind {
        PrefKind::Accept => " +",
        PrefKind::Require => " !",
        PrefKind::Reject => " -",
        PrefKind::Prohibit => " ~",
        PrefKind::Better => " > ",
        PrefKind::Worse => " < ",
        PrefKind::Best => " >",
        PrefKind::Worst => " <",
        PrefKind::Indifferent => " =",
        PrefKind::Numeric => " number ",
        PrefKind::IndifferentTo => " = ",
    }
}

fn cause(cause: DropCause) -> &'static str {
    match cause {
        DropCause::Overflow => "overflow",
        DropCause::ZeroDivisor => "zero divisor",
        DropCause::NotANumber => "not a number",
        DropCause::TooLong => "too long",
        DropCause::NotAnIdentifier => "not an identifier",
        DropCause::NotAnOperator => "not an operator",
        DropCause::OutOfRange => "out of range",
    }
}
