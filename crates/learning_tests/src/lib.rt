//! Tests of backtracing and candidates for chunks.
#![tactic(auto)]

#[cfg(test)]
mod backtracing;
#[cfg(test)]
mod candidates;
#[cfg(test)]
mod forms;
