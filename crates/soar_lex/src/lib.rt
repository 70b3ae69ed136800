//! Bytes into tokens.
#![tactic(auto)]

mod bytes;
mod cut;
mod front;
mod name;
mod number;
mod quote;
mod run;

pub use bytes::{blank, capital, digit, run_byte};
pub use cut::lex;
pub use defs_text::{LexFault, Token, TokenKind};
pub use front::{Piece, Says, front as first_piece};
pub use name::named;
pub use number::decimal_value;
pub use run::{Run, run_kind};
