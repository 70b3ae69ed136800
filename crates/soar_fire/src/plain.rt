// Symbols as plain texts, words without bars.
ghost use Rattle.std.specs.Prelude.{◌≡◌, ◌≤◌, ◌<◌, ◌^◌, ◌∷◌, ◌++◌, decimal, length, IfOk, OnOk};
ghost use Rattle.std.specs.Fmt.{signed_decimal};
ghost use Rattle.soar_sym.specs.Words.{text_of, IsKnown};
ghost use Rattle.defs_soar.specs.Functions.{joined, plain_text};
ghost use Rattle.soar_fire.specs.Known.{Knows};

use itoa::Buffer;
use soar_sym::{Sym, SymTable, Text};
use std::alloc::{AllocError, Global};

/// The text of a word, and none of a word that the table has not.
pub fn text_of(table: &SymTable, word: u32) -> &str
    ensures { result.now ≡ text_of table.now word }
{
    if word < table.word_count() {
        table.text(word)
    } else {
        ""
    }
}

/// The plain texts of symbols, one behind the other.
pub fn joined(alloc: Global, table: &SymTable, symbols: &[Sym]) -> Result<Text, AllocError>
    requires { Knows table.now symbols.now }
    ensures { IfOk result (λ text. text ≡ joined table.now symbols.now) }
{
    let mut text = Text::new(alloc);
    push_joined(&mut text, table, symbols)?;
    Ok(text)
}

/// Appends the plain texts of symbols.
pub fn push_joined(out: &mut Text, table: &SymTable, symbols: &[Sym]) -> Result<(), AllocError>
    requires { Knows table.now symbols.now }
    ensures { OnOk result (out.new ≡ out.old ++ joined table.now symbols.now) }
{
    'symbols: for symbol in symbols {
        push_plain(out, table, *symbol)?;
    }
    Ok(())
}

fn push_plain(out: &mut Text, table: &SymTable, symbol: Sym) -> Result<(), AllocError>
    requires { IsKnown table.now symbol }
    ensures { OnOk result (out.new ≡ out.old ++ plain_text table.now symbol) }
{
    match symbol {
        Sym::Ident { letter, number } => push_identifier(out, letter, number),
        Sym::Int(value) => push_integer(out, value),
        Sym::Word(word) => out.push_str(text_of(table, word)),
    }
}

fn push_identifier(out: &mut Text, letter: u8, number: u32) -> Result<(), AllocError>
    requires { letter ≤ 90 }
    ensures { OnOk result (out.new ≡ out.old ++ (letter ∷ decimal number)) }
{
    out.push(letter as char)?;
    let mut buffer = Buffer::new();
    out.push_str(buffer.format(number))
}

fn push_integer(out: &mut Text, value: i64) -> Result<(), AllocError>
    ensures { OnOk result (out.new ≡ out.old ++ signed_decimal value) }
{
    let mut buffer = Buffer::new();
    out.push_str(buffer.format(value))
}

/// How many bytes the plain text of a symbol has.
pub fn plain_length(table: &SymTable, symbol: Sym) -> usize
    ensures bytes { result ≡ length (plain_text table.now symbol) }
    ensures within { result < 2 ^ 63 }
{
    let mut buffer = Buffer::new();
    match symbol {
        Sym::Ident { letter: _, number } => buffer.format(number).len() + 1,
        Sym::Int(value) => buffer.format(value).len(),
        Sym::Word(word) => text_of(table, word).len(),
    }
}
