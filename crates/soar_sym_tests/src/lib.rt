//! Tests of symbols, the table of words, letters, lists and texts.
#![tactic(auto)]

#[cfg(test)]
mod tests;
