// Tokens behind a command's word, as arguments.
ghost use Rattle.std.specs.Prelude.{◌≡◌, ◌-◌, drop, map, IfOk};
ghost use Rattle.soar_sym.specs.Words.{Texts};
ghost use Rattle.defs_read.specs.Sayings.{AreTokensKnown, IsKindKnown, IsWordKnown};
ghost use Rattle.defs_run.specs.Arguments.{as_integer, as_mark};
ghost use Rattle.defs_text.specs.Runs.{begins_digit};
ghost use Rattle.command_orders.specs.Behind.{AreArgumentsKnown, IsArgumentKnown, argument_at, argument_seen, label_argument, word_argument};

use defs_text::{Token, TokenKind};
use soar_lex::digit;
use soar_sym::{List, NoMemory, Sym};
use std::alloc::Global;

/// A token behind a command's word: a word or the name of a variable, by its place in the table of words, an integer
/// without or with a sign, `^`, or some other.
#[derive(Clone, Copy, PartialEq, Eq)]
pub enum Argument {
    Bare(u32),
    Barred(u32),
    Label(u32),
    Number(u64),
    Signed(i64),
    Caret,
    Other,
}

/// The arguments behind the first token. The text is that which the tokens were cut from.
pub fn arguments_behind(
    alloc: Global,
    text: &[u8],
    tokens: &[Token],
) -> Result<List<Argument>, NoMemory>
    ensures arguments { IfOk result (λ arguments. (words : Texts) → map (argument_seen words) arguments ≡ map (argument_at words text.now) (drop 1 tokens.now)) }
    ensures known { IfOk result (λ arguments. (words : Texts) → AreTokensKnown words tokens.now → AreArgumentsKnown words arguments) }
{
    match tokens.split_first() {
        Some((_, behind)) => arguments_of(alloc, text, behind),
        None => Ok(List::new(alloc)),
    }
}

fn arguments_of(alloc: Global, text: &[u8], tokens: &[Token]) -> Result<List<Argument>, NoMemory>
    ensures arguments { IfOk result (λ arguments. (words : Texts) → map (argument_seen words) arguments ≡ map (argument_at words text.now) tokens.now) }
    ensures known { IfOk result (λ arguments. (words : Texts) → AreTokensKnown words tokens.now → AreArgumentsKnown words arguments) }
{
    let mut arguments = List::new(alloc);
    'tokens: for token in tokens {
        arguments.push(argument_at(text, token))?;
    }
    Ok(arguments)
}

/// What a token says as an argument.
fn argument_at(text: &[u8], token: &Token) -> Argument
    ensures argument { (words : Texts) → argument_seen words result ≡ argument_at words text.now token.now }
    ensures known { (words : Texts) → IsKindKnown words token.now.kind → IsArgumentKnown words result }
{
    match &token.kind {
        TokenKind::Word(word, bare) => word_argument(*word, *bare),
        TokenKind::Var(name) => label_argument(*name),
        TokenKind::Int(value) => integer_argument(from_place(text, token.start), *value),
        TokenKind::Mark(mark) => mark_argument(*mark),
        _ => Argument::Other,
    }
}

fn word_argument(word: Sym, bare: bool) -> Argument
    ensures argument { (words : Texts) → argument_seen words result ≡ word_argument words word bare }
    ensures known { (words : Texts) → IsWordKnown words word → IsArgumentKnown words result }
{
    match word {
        Sym::Word(word) if bare => Argument::Bare(word),
        Sym::Word(word) => Argument::Barred(word),
        _ => Argument::Other,
    }
}

fn label_argument(name: Sym) -> Argument
    ensures argument { (words : Texts) → argument_seen words result ≡ label_argument words name }
    ensures known { (words : Texts) → IsWordKnown words name → IsArgumentKnown words result }
{
    match name {
        Sym::Word(word) => Argument::Label(word),
        _ => Argument::Other,
    }
}

/// A number is an integer whose first byte is a digit, so that it has no sign.
fn integer_argument(text: &[u8], value: i64) -> Argument
    ensures argument { (words : Texts) → argument_seen words result ≡ as_integer text.now value }
    ensures known { (words : Texts) → IsArgumentKnown words result }
{
    if begins_digit(text) && value >= 0 {
        Argument::Number(value as u64)
    } else {
        Argument::Signed(value)
    }
}

fn mark_argument(mark: u8) -> Argument
    ensures argument { (words : Texts) → argument_seen words result ≡ as_mark mark }
    ensures known { (words : Texts) → IsArgumentKnown words result }
{
    if mark == b'^' {
        Argument::Caret
    } else {
        Argument::Other
    }
}

/// The bytes from a place on.
fn from_place(text: &[u8], place: u32) -> &[u8]
    ensures { result.now ≡ drop place text.now }
{
    let (_, rest) = text.split_at((place as usize).min(text.len()));
    rest
}

fn begins_digit(text: &[u8]) -> bool
    ensures { result ≡ begins_digit text.now }
{
    match text.first() {
        Some(byte) => digit(*byte),
        None => false,
    }
}
