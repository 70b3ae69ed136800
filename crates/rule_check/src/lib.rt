//! The check of a production: its faults, and its conditions in match order.
#![tactic(auto)]

mod binding;
mod checking;
mod lacking;
mod level;
mod linking;
mod marks;
mod order;
mod readiness;
mod sizes;
mod taking;
mod unbound;
mod waiting;

pub use checking::check;
