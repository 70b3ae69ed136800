//! Tests of the generator.
#![tactic(auto)]

#[cfg(test)]
mod tests;
