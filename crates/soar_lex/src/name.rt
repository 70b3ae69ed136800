// Texts of tokens as words of a table.
ghost use Rattle.soar_lex.specs.Naming.{IsInterned, IsNamed};
ghost use Rattle.soar_lex.specs.Pieces.{saying};

use crate::front::Says;
use crate::quote::meant;
use defs_text::{LexFault, TokenKind};
use soar_sym::{InternFault, Sym, SymTable, Text};
use std::alloc::Global;

/// What a token is, once its text is a word of the table.
pub fn named(alloc: Global, table: &mut SymTable, says: Says<'_>) -> Result<TokenKind, LexFault>
    ensures { IsNamed table.old table.new (saying says.entry) result }
{
    match says {
        Says::Mark(byte) => Ok(TokenKind::Mark(byte)),
        Says::Arrow => Ok(TokenKind::Arrow),
        Says::OpenSet => Ok(TokenKind::OpenSet),
        Says::CloseSet => Ok(TokenKind::CloseSet),
        Says::Sign(place) => Ok(TokenKind::Sign(place)),
        Says::Integer(value) => Ok(TokenKind::Int(value)),
        Says::Variable(name) => Ok(TokenKind::Var(word(table, name)?)),
        Says::Bare(text) => Ok(TokenKind::Word(word(table, text)?, true)),
        Says::Barred(inside) => {
            let text = meant(alloc, inside)?;
            Ok(TokenKind::Word(word(table, text.as_str())?, false))
        }
        Says::Quoted(inside) => Ok(TokenKind::Doc(Text::from_string(meant(alloc, inside)?))),
    }
}

/// The word of a text.
#[tactic(auto, using(crate::proofs::WordLemmas::word_is, crate::proofs::WordLemmas::with_new))]
fn word(table: &mut SymTable, text: &str) -> Result<Sym, LexFault>
    ensures { IsInterned table.old table.new text.now result }
{
    match table.intern(text) {
        Ok(symbol) => Ok(symbol),
        Err(InternFault::WordsSpent) => Err(LexFault::WordsSpent),
        Err(InternFault::NoMemory) => Err(LexFault::NoMemory),
    }
}
