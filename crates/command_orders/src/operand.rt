// What arguments stand for: symbols, and labels.
ghost use Rattle.std.specs.Prelude.{◌≡◌, ◌≤◌, ◌-◌, ◌||◌, if◌then◌else◌, option_map, Some, None, IfOk, IfSome};
ghost use Rattle.soar_sym.specs.Words.{IsKnown, text_of};
ghost use Rattle.defs_read.specs.Sayings.{IsWordKnown};
ghost use Rattle.defs_text.specs.Bytes.{is_capital, is_small};
ghost use Rattle.defs_text.specs.Numbered.{word_in};
ghost use Rattle.defs_text.specs.Symbols.{is_identifier_form};
ghost use Rattle.defs_run.specs.Arguments.{attribute_of, bare, bare_symbol, id_of, identifier_of, is_small_form, name_of, operand_of};
ghost use Rattle.defs_run.specs.Orders.{is_label, is_symbol};
ghost use Rattle.command_orders.specs.Asked.{operand_seen};
ghost use Rattle.command_orders.specs.Behind.{IsArgumentKnown, argument_seen};
ghost use Rattle.command_orders.specs.Known.{IsOperandKnown};

use crate::argument::Argument;
use defs_run::Operand;
use soar_lex::capital;
use soar_show::{identifier_number, is_identifier_form};
use soar_sym::{NoMemory, Sym, SymTable, Text};
use std::alloc::Global;

/// What stands as a value.
pub fn operand_of(
    alloc: Global,
    table: &SymTable,
    argument: Argument,
) -> Result<Option<Operand>, NoMemory>
    requires { IsArgumentKnown table.now argument }
    ensures operand { IfOk result (λ operand. option_map operand_seen operand ≡ operand_of table.now (argument_seen table.now argument)) }
    ensures known { IfOk result (λ operand. IfSome operand (λ o. IsOperandKnown table.now o)) }
{
    match argument {
        Argument::Label(name) => Ok(Some(label_of(alloc, table, name)?)),
        _ => Ok(as_operand(attribute_of(table, argument))),
    }
}

/// What stands as an attribute, which is no label.
pub fn attribute_of(table: &SymTable, argument: Argument) -> Option<Sym>
    requires { IsArgumentKnown table.now argument }
    ensures symbol { option_map is_symbol result ≡ attribute_of table.now (argument_seen table.now argument) }
    ensures known { IfSome result (λ symbol. IsKnown table.now symbol) }
{
    match argument {
        Argument::Bare(word) => Some(bare_symbol(table, word)),
        Argument::Barred(word) => Some(word_symbol(table, word)),
        Argument::Number(number) => Some(Sym::Int(number as i64)),
        Argument::Signed(value) => Some(Sym::Int(value)),
        Argument::Label(_) | Argument::Caret | Argument::Other => None,
    }
}

/// What stands as an identifier, whose letter may be small.
pub fn id_of(
    alloc: Global,
    table: &SymTable,
    argument: Argument,
) -> Result<Option<Operand>, NoMemory>
    requires { IsArgumentKnown table.now argument }
    ensures operand { IfOk result (λ operand. option_map operand_seen operand ≡ id_of (argument_seen table.now argument)) }
    ensures known { IfOk result (λ operand. IfSome operand (λ o. IsOperandKnown table.now o)) }
{
    match argument {
        Argument::Label(name) => Ok(Some(label_of(alloc, table, name)?)),
        Argument::Bare(word) => Ok(as_operand(identifier_of(table.text(word).as_bytes()))),
        _ => Ok(None),
    }
}

/// What stands as a name, which is a word and no identifier.
pub fn name_of(table: &SymTable, argument: Argument) -> Option<Sym>
    requires { IsArgumentKnown table.now argument }
    ensures name { result ≡ name_of table.now (argument_seen table.now argument) }
    ensures known { IfSome result (λ name. IsKnown table.now name) }
{
    match argument {
        Argument::Bare(word) => bare_name(table, word),
        Argument::Barred(word) => Some(word_symbol(table, word)),
        _ => None,
    }
}

/// The name of a word that stands bare.
fn bare_name(table: &SymTable, word: u32) -> Option<Sym>
    requires { IsWordKnown table.now (Sym.Word word) }
    ensures name { result ≡ name_of table.now (bare (text_of table.now word)) }
    ensures known { IfSome result (λ name. IsKnown table.now name) }
{
    if is_identifier_form(table.text(word).as_bytes()) {
        None
    } else {
        Some(word_symbol(table, word))
    }
}

/// A label, by the word of its name.
pub fn label_of(alloc: Global, table: &SymTable, name: u32) -> Result<Operand, NoMemory>
    requires { IsWordKnown table.now (Sym.Word name) }
    ensures operand { IfOk result (λ operand. operand_seen operand ≡ is_label (text_of table.now name)) }
    ensures known { IfOk result (λ operand. IsOperandKnown table.now operand) }
{
    Ok(Operand::Label(Text::from_str(alloc, table.text(name))?))
}

fn as_operand(symbol: Option<Sym>) -> Option<Operand>
    ensures operand { option_map operand_seen result ≡ option_map is_symbol symbol }
    ensures known { IfSome symbol (λ s. IfSome result (λ o. o ≡ Operand.Symbol s)) }
{
    match symbol {
        Some(symbol) => Some(Operand::Symbol(symbol)),
        None => None,
    }
}

/// The word of a word's text, which is the word.
pub fn word_symbol(table: &SymTable, word: u32) -> Sym
    requires { IsWordKnown table.now (Sym.Word word) }
    ensures symbol { result ≡ word_in table.now (text_of table.now word) }
    ensures known { IsKnown table.now result }
{
    table.law();
    Sym::Word(word)
}

/// The symbol of a word that stands bare: an identifier, where it has the form of one.
fn bare_symbol(table: &SymTable, word: u32) -> Sym
    requires { IsWordKnown table.now (Sym.Word word) }
    ensures symbol { result ≡ bare_symbol table.now (text_of table.now word) }
    ensures known { IsKnown table.now result }
{
    match capital_identifier(table.text(word).as_bytes()) {
        Some(id) => id,
        None => word_symbol(table, word),
    }
}

/// The identifier of a text of its form, as `S1`.
fn capital_identifier(text: &[u8]) -> Option<Sym>
    ensures { result ≡ (if is_identifier_form text.now then Some (identifier_of text.now) else None) }
{
    if is_identifier_form(text) {
        identifier_of(text)
    } else {
        None
    }
}

/// The identifier of a text of its form, or of the same with a small letter.
pub fn identifier_of(text: &[u8]) -> Option<Sym>
    ensures { result ≡ (if is_identifier_form text.now || is_small_form text.now then Some (identifier_of text.now) else None) }
{
    let (letter, digits) = text.split_first()?;
    let letter = capital_of(*letter)?;
    let number = identifier_number(digits)?;
    Some(Sym::Ident { letter, number })
}

/// A letter as a capital.
fn capital_of(letter: u8) -> Option<u8>
    ensures capital { result ≡ (if is_capital letter || is_small letter then Some (if is_small letter then letter - 32 else letter) else None) }
    ensures range { IfSome result (λ capital. (65 ≤ capital) × (capital ≤ 90)) }
{
    if is_small(letter) {
        Some(letter - 32)
    } else if capital(letter) {
        Some(letter)
    } else {
        None
    }
}

/// `a` to `z`.
fn is_small(letter: u8) -> bool
    ensures { result ≡ is_small letter }
{
    b'a' <= letter && letter <= b'z'
}
