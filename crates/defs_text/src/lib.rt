//! What is read from bytes and what is printed: tokens, and the texts of symbols and instances.
#![tactic(auto)]

mod token;

pub use token::{LexFault, Token, TokenKind};
