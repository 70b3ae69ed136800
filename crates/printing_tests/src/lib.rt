//! Tests of printed texts: productions, explanations, the lines of the trace, and lists.
#![tactic(auto)]

#[cfg(test)]
mod details;
#[cfg(test)]
mod explanations;
#[cfg(test)]
mod lines;
#[cfg(test)]
mod lists;
#[cfg(test)]
mod shown_texts;
