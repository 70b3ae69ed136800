// Why a command is refused.
ghost use Rattle.std.specs.Prelude.{◌≡◌, ◌++◌, decimal, IfOk};
ghost use Rattle.soar_sym.specs.Words.{IsKnown, Texts};
ghost use Rattle.defs_text.specs.Symbols.{symbol_text};
ghost use Rattle.soar_cmd.specs.Answers.{IsShownKnown, reason_of, refusal_of};
ghost use Rattle.session_parts.specs.Reasons.{IsReasonKnown, refusal_by};

use crate::texts::{bare_text, symbol_text};
use soar_cmd::Shown;
use soar_sym::{NoMemory, Sym, SymTable, Text};
use std::alloc::Global;

/// Why a command is refused, with what the text of that shows.
#[derive(Clone, Copy)]
pub enum Reason<'a> {
    /// What its words alone decide: the number of the refusal, and what is shown.
    Read(u32, Shown),
    Unfinished,
    UnknownIdentifier(&'a str),
    NoProduction(Sym),
    NotALearnedRule(Sym),
    NoElement(u64),
    NotAnInput(u32),
    AlreadyThere(u32),
    ReservedAttribute,
    Halted,
    NotOfTheTopState,
    NoFile(&'a str),
    SourcesTooDeep,
    TooManyFiles,
}

impl Reason<'_> {
    /// The number of the refusal.
    pub fn number(&self) -> u32
        ensures { (words : Texts) → result ≡ (refusal_by words self.now).number }
    {
        match *self {
            Reason::Read(number, _) => number,
            Reason::Unfinished => 11,
            Reason::UnknownIdentifier(_) => 31,
            Reason::NoProduction(_) => 32,
            Reason::NoElement(_) => 33,
            Reason::NotAnInput(_) => 34,
            Reason::AlreadyThere(_) => 35,
            Reason::ReservedAttribute => 36,
            Reason::Halted => 37,
            Reason::NotOfTheTopState => 38,
            Reason::NotALearnedRule(_) => 39,
            Reason::NoFile(_) => 40,
            Reason::SourcesTooDeep => 41,
            Reason::TooManyFiles => 42,
        }
    }
}

/// The text of a reason.
pub fn text_of(alloc: Global, table: &SymTable, reason: &Reason<'_>) -> Result<Text, NoMemory>
    requires { IsReasonKnown table.now reason.now }
    ensures { IfOk result (λ text. text ≡ (refusal_by table.now reason.now).text) }
{
    match *reason {
        Reason::Read(number, shown) => text_of_read(alloc, table, number, shown),
        Reason::Unfinished => Ok(Text::from_str(alloc, "unfinished command")?),
        Reason::UnknownIdentifier(text) => with_text(alloc, "unknown identifier ", text),
        Reason::NoProduction(name) => with_symbol(alloc, "no production ", table, name),
        Reason::NotALearnedRule(name) => with_symbol(alloc, "not a learned rule ", table, name),
        Reason::NoElement(tag) => with_number(alloc, "no element ", tag),
        Reason::NotAnInput(tag) => with_number(alloc, "not an input element ", u64::from(tag)),
        Reason::AlreadyThere(tag) => with_number(alloc, "already there as ", u64::from(tag)),
        Reason::ReservedAttribute => Ok(Text::from_str(alloc, "reserved attribute")?),
        Reason::Halted => Ok(Text::from_str(alloc, "halted")?),
        Reason::NotOfTheTopState => Ok(Text::from_str(alloc, "not of the top state")?),
        Reason::NoFile(name) => with_text(alloc, "no file ", name),
        Reason::SourcesTooDeep => Ok(Text::from_str(alloc, "sources too deep")?),
        Reason::TooManyFiles => Ok(Text::from_str(alloc, "too many files")?),
    }
}

fn with_text(alloc: Global, phrase: &str, text: &str) -> Result<Text, NoMemory>
    ensures { IfOk result (λ it. it ≡ phrase.now ++ text.now) }
{
    let mut it = Text::from_str(alloc, phrase)?;
    it.push_str(text)?;
    Ok(it)
}

fn with_symbol(alloc: Global, phrase: &str, table: &SymTable, symbol: Sym) -> Result<Text, NoMemory>
    requires { IsKnown table.now symbol }
    ensures { IfOk result (λ it. it ≡ phrase.now ++ symbol_text table.now symbol) }
{
    let symbol = symbol_text(alloc, table, symbol)?;
    with_text(alloc, phrase, symbol.as_str())
}

fn with_number(alloc: Global, phrase: &str, number: u64) -> Result<Text, NoMemory>
    ensures { IfOk result (λ it. it ≡ phrase.now ++ decimal number) }
{
    Ok(Text::from_string(format!(in alloc; "{phrase}{number}")?))
}

/// The reason that the words of a command give, by its number, and what is shown.
fn text_of_read(
    alloc: Global,
    table: &SymTable,
    number: u32,
    shown: Shown,
) -> Result<Text, NoMemory>
    requires { IsShownKnown table.now shown }
    ensures { IfOk result (λ text. text ≡ (refusal_of table.now number shown).text) }
{
    let reason = reason_of(number);
    match shown {
        Shown::Nothing => Ok(Text::from_str(alloc, reason)?),
        Shown::Place(place) => Ok(Text::from_string(format!(in alloc;
            "{reason} at byte {place}"
        )?)),
        Shown::Number(told) => Ok(Text::from_string(format!(in alloc; "{reason} {told}")?)),
        Shown::Variable(name) => {
            let name = bare_text(alloc, table, name)?;
            let name = name.as_str();
            Ok(Text::from_string(format!(in alloc; "{reason} <{name}>")?))
        }
    }
}

/// What a number of a refused command stands for.
fn reason_of(number: u32) -> &'static str
    ensures { result.now ≡ reason_of number }
{
    match number {
        10 => "unknown command",
        12 => "bad byte",
        13 => "floating-point number",
        14 => "number too wide",
        15 => "open string",
        16 => "unexpected token",
        17 => "nesting too deep",
        20 => "no state condition",
        21 => "unbound variable",
        22 => "unconnected condition",
        23 => "too many",
        24 => "too deep",
        25 => "preference for an ordinary attribute",
        _ => "wrong words",
    }
}
