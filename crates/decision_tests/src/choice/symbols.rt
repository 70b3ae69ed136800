// Symbols by short texts.
use soar_sym::{Sym, Text};
use std::alloc::AllocError;

/// An identifier by a capital and a number, `nil`, `io` or an integer.
pub fn symbol(text: &str) -> Option<Sym> {
    match text {
        "nil" => Some(Sym::Word(1)),
        "io" => Some(Sym::Word(2)),
        "A" => Some(identifier(b'A', 1)),
        "B" => Some(identifier(b'B', 1)),
        "B2" => Some(identifier(b'B', 2)),
        "C" => Some(identifier(b'C', 1)),
        _ => match text.parse::<i64>() {
            Ok(value) => Some(Sym::Int(value)),
            Err(_) => None,
        },
    }
}

fn identifier(letter: u8, number: u32) -> Sym {
    Sym::Ident { letter, number }
}

/// The text of a symbol, where it has one.
pub fn push_symbol(out: &mut Text, symbol: Sym) -> Result<(), AllocError> {
    match symbol {
        Sym::Word(1) => out.push_str("nil"),
        Sym::Word(2) => out.push_str("io"),
        Sym::Ident { letter, number: 1 } => out.push(letter as char),
        Sym::Ident { .. } => out.push_str("B2"),
        Sym::Int(value) => push_integer(out, value),
        _ => Ok(()),
    }
}

pub fn push_integer(out: &mut Text, value: i64) -> Result<(), AllocError> {
    let mut buffer = itoa::Buffer::new();
    out.push_str(buffer.format(value))
}
