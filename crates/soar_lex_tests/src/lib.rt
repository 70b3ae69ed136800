//! Tests of tokens and runs, as they were worked out by hand.
#![tactic(auto)]

#[cfg(test)]
mod runs;
#[cfg(test)]
mod texts;
