//! Tests of productions, elements and the reading of productions.
#![tactic(auto)]

#[cfg(test)]
mod elements;
#[cfg(test)]
mod productions;
#[cfg(test)]
mod reading;
