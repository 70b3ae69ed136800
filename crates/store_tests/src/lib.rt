//! Tests of preference memory, levels, queues and the output link.
#![tactic(auto)]

#[cfg(test)]
mod changed_levels;
#[cfg(test)]
mod output;
#[cfg(test)]
mod preferences;
#[cfg(test)]
mod queues;
#[cfg(test)]
mod reached;
