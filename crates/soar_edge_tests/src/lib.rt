//! Tests of the outside: sources, sinks, shelves, commands cut from a stream, statuses.
#![tactic(auto)]

#[cfg(test)]
mod cutting;
#[cfg(test)]
mod moving;
