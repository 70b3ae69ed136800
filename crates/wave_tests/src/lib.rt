//! Tests of the parts of waves, and an agent.
#![tactic(auto)]

#[cfg(test)]
mod agent;
#[cfg(test)]
mod firings;
#[cfg(test)]
mod pending;
#[cfg(test)]
mod records;
#[cfg(test)]
mod trimming;
