//! A decision over the parts of an agent: the walk over its goals, what follows it, and what is told of both.
#![tactic(auto)]

mod deciding;
mod decision;
mod ending;
mod leaving;
mod merging;
mod pushing;
mod saying;
mod selecting;
mod settling;
mod walking;

pub use deciding::decide;
pub use decision::Decision;
pub use wave_parts::{
    Changes, CyclePart, Done, Kept, LearnedRule, Parts, Settings, Stop, Work, count_more,
};
