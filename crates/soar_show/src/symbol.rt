ghost use Rattle.std.specs.Prelude.{◌≡◌, ◌≤◌, ◌∷◌, ◌++◌, decimal, IfOk, OnOk, OnErr};
ghost use Rattle.std.specs.Fmt.{signed_decimal};
ghost use Rattle.soar_sym.specs.Words.{text_of, IsKnown};
ghost use Rattle.defs_text.specs.Symbols.{symbol_text};
ghost use Rattle.defs_read.specs.PrintingConditions.{bare_text};
ghost use Rattle.soar_show.specs.Known.{HasBareText};

use crate::word::push_word;
use itoa::Buffer;
use soar_sym::{NoMemory, Sym, SymTable, Text};
use std::alloc::{AllocError, Global};

/// Appends the text of a symbol: a word in bars where it would not be read back bare.
pub fn show_symbol(out: &mut Text, table: &SymTable, symbol: Sym) -> Result<(), NoMemory>
    requires { IsKnown table.now symbol }
    ensures ok { OnOk result (out.new ≡ out.old ++ symbol_text table.now symbol) }
    ensures err { OnErr result (out.new ≡ out.old) }
{
    let text = symbol_text(out.allocator(), table, symbol)?;
    out.push_str(text.as_str())?;
    Ok(())
}

/// The text of a symbol, as `show_symbol` appends it.
pub fn symbol_text(alloc: Global, table: &SymTable, symbol: Sym) -> Result<Text, AllocError>
    requires { IsKnown table.now symbol }
    ensures { IfOk result (λ text. text ≡ symbol_text table.now symbol) }
{
    let mut text = Text::new(alloc);
    push_symbol(&mut text, table, symbol)?;
    Ok(text)
}

/// Appends the text of a symbol. Want of memory may leave a part of it.
pub fn push_symbol(out: &mut Text, table: &SymTable, symbol: Sym) -> Result<(), AllocError>
    requires { IsKnown table.now symbol }
    ensures { OnOk result (out.new ≡ out.old ++ symbol_text table.now symbol) }
{
    match symbol {
        Sym::Ident { letter, number } => push_identifier(out, letter, number),
        Sym::Int(value) => push_integer(out, value),
        Sym::Word(word) => push_word(out, table.text(word)),
    }
}

/// Appends the text of a symbol, a word without bars.
pub fn push_bare(out: &mut Text, table: &SymTable, symbol: Sym) -> Result<(), AllocError>
    requires { HasBareText symbol }
    ensures { OnOk result (out.new ≡ out.old ++ bare_text table.now symbol) }
{
    match symbol {
        Sym::Ident { letter, number } => push_identifier(out, letter, number),
        Sym::Int(value) => push_integer(out, value),
        Sym::Word(word) => out.push_str(text_of_word(table, word)),
    }
}

/// The text of a word, and none of a word that the table has not.
fn text_of_word(table: &SymTable, word: u32) -> &str
    ensures { result.now ≡ text_of table.now word }
{
    if word < table.word_count() {
        table.text(word)
    } else {
        ""
    }
}

fn push_identifier(out: &mut Text, letter: u8, number: u32) -> Result<(), AllocError>
    requires { letter ≤ 90 }
    ensures { OnOk result (out.new ≡ out.old ++ (letter ∷ decimal number)) }
{
    out.push(letter as char)?;
    let mut buffer = Buffer::new();
    out.push_str(buffer.format(number))
}

fn push_integer(out: &mut Text, value: i64) -> Result<(), AllocError>
    ensures { OnOk result (out.new ≡ out.old ++ signed_decimal value) }
{
    let mut buffer = Buffer::new();
    out.push_str(buffer.format(value))
}
