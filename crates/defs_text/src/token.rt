use soar_sym::{Sym, Text};
use thiserror::Error;

/// A token of the production language and of commands. Words and variables are words of a table.
#[derive(Drop)]
pub enum TokenKind {
    /// One of the bytes `(){}^.!~`.
    Mark(u8),
    /// `-->`
    Arrow,
    /// `<<`
    OpenSet,
    /// `>>`
    CloseSet,
    /// A sign, by its place from 0 in `<`, `>`, `<=`, `>=`, `<>`, `<=>`, `=`, `+`, `-`.
    Sign(u8),
    /// A variable, by the word of its name without brackets.
    Var(Sym),
    Int(i64),
    /// A word, and whether it stands bare and not in bars.
    Word(Sym, bool),
    /// A text in quotes.
    Doc(Text),
}

/// A token, the byte at which it begins and the one behind it, counted from 0.
#[derive(Drop)]
pub struct Token {
    pub kind: TokenKind,
    pub start: u32,
    pub end: u32,
}

/// Why a text was not cut into tokens, with the byte at which that shows, counted from 0.
#[derive(Clone, Copy, Debug, PartialEq, Eq, Error)]
pub enum LexFault {
    #[error("bad byte at byte {0}")]
    BadByte(u32),
    #[error("open string at byte {0}")]
    OpenString(u32),
    #[error("number too wide at byte {0}")]
    WideNumber(u32),
    #[error("floating-point number at byte {0}")]
    FloatNumber(u32),
    #[error("no word is left")]
    WordsSpent,
    #[error("out of memory")]
    NoMemory,
}
