//! Tests of firing, goals, choice and the walk of a decision.
#![tactic(auto)]

#[cfg(test)]
mod choice;
#[cfg(test)]
mod firing;
#[cfg(test)]
mod goals;
#[cfg(test)]
mod walk;
