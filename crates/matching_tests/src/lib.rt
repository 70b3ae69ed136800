//! Tests of matchers: by enumeration, the network and its patterns, what waits to fire, and the rules of an agent.
#![tactic(auto)]

#[cfg(test)]
mod enumeration;
#[cfg(test)]
mod network;
#[cfg(test)]
mod patterns;
#[cfg(test)]
mod rules;
#[cfg(test)]
mod waiting;
