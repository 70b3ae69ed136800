// Whether a condition can come next.
ghost use Rattle.std.specs.Prelude.{◌≡◌, ℕ, Bool, List as ListOf, IfOk};
ghost use Rattle.soar_rule.specs.Conditions.{negated, positive};
ghost use Rattle.soar_rule.specs.MatchOrder.{readiness};
ghost use Rattle.rule_check.specs.Levels.{Lasts, readiness_seen};
ghost use Rattle.rule_check.specs.Members.{members};

use crate::lacking::{is_linked, missing_in};
use crate::marks::Marks;
use crate::waiting::awaited_in_pattern;
use soar_rule::{Cond, Pattern};
use soar_sym::NoMemory;
use std::alloc::Global;

/// Whether a condition can come next, and what it lacks else.
#[derive(Drop)]
pub(crate) enum Readiness {
    /// It can, with its inside in match order.
    Ready(Cond),
    /// This variable is not bound yet.
    Waits(u32),
    /// This variable is not bound, and nothing that can still come binds it.
    Lacks(u32),
    /// Its identifier is not bound yet.
    Unlinked,
}

pub(crate) fn positive_readiness(
    alloc: Global,
    pattern: &Pattern,
    inside: bool,
    bound: &Marks,
) -> Result<Readiness, NoMemory>
    ensures same { (outside : ListOf ℕ) → IfOk result (λ found. readiness_seen found ≡ readiness (positive pattern.now) inside outside (members bound.now.marks)) }
    ensures lasts { (outside : ListOf ℕ) → IfOk result (λ found. Lasts (positive pattern.now) outside (members bound.now.marks) found) }
{
    if !inside && !is_linked(bound, pattern) {
        return Ok(Readiness::Unlinked);
    }
    match missing_in(bound, pattern) {
        Some(number) => Ok(Readiness::Waits(number)),
        None => Ok(Readiness::Ready(Cond::Pos(pattern.copy(alloc)?))),
    }
}

pub(crate) fn negated_readiness(
    alloc: Global,
    pattern: &Pattern,
    outside: &Marks,
    bound: &Marks,
) -> Result<Readiness, NoMemory>
    ensures same { (inside : Bool) → IfOk result (λ found. readiness_seen found ≡ readiness (negated pattern.now) inside (members outside.now.marks) (members bound.now.marks)) }
    ensures lasts { IfOk result (λ found. Lasts (negated pattern.now) (members outside.now.marks) (members bound.now.marks) found) }
{
    if let Some(number) = awaited_in_pattern(outside, bound, pattern) {
        return Ok(Readiness::Waits(number));
    }
    match missing_in(bound, pattern) {
        Some(number) => Ok(Readiness::Lacks(number)),
        None => Ok(Readiness::Ready(Cond::Neg(pattern.copy(alloc)?))),
    }
}
