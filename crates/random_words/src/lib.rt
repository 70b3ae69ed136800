//! Random words read: integers without a sign, which may be as large as 2^64 - 1.
#![tactic(auto)]

mod cut;
mod front;
mod number;

pub use cut::lex_random;
