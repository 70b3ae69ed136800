// Symbols by short texts.
use soar_sym::{Sym, Text};
use std::alloc::AllocError;

/// An identifier by a capital.
pub fn symbol(text: &str) -> Option<Sym> {
    match text {
        "A" => Some(identifier(b'A')),
        "B" => Some(identifier(b'B')),
        "C" => Some(identifier(b'C')),
        _ => None,
    }
}

fn identifier(letter: u8) -> Sym {
    Sym::Ident { letter, number: 1 }
}

/// The letter of a symbol, where it has one.
pub fn push_symbol(out: &mut Text, symbol: Sym) -> Result<(), AllocError> {
    match symbol {
        Sym::Ident { letter, .. } => out.push(letter as char),
        _ => out.push_str("?"),
    }
}

/// The identifier of the goal with so many above it.
pub fn goal_below(above: usize) -> Sym {
    let number = match u32::try_from(above) {
        Ok(number) => number.saturating_add(1),
        Err(_) => 0,
    };
    Sym::Ident {
        letter: b'S',
        number,
    }
}
