// The conditions of one list, taken one after another in match order.
ghost use Rattle.std.specs.Prelude.{◌≡◌, ℕ, ◌+◌, ◌<◌, ◌^◌, Bool, List as ListOf, length, IfOk, OnOk};
ghost use Rattle.soar_rule.specs.Conditions.{condition, conditions, conjunctive};
ghost use Rattle.soar_rule.specs.MatchOrder.{is_positive, readiness};
ghost use Rattle.rule_check.specs.Levels.{IsKnown, IsLevel, Lasts, is_taken, readiness_seen, standing_at, taken_seen};
ghost use Rattle.rule_check.specs.Marking.{AreMarked};
ghost use Rattle.rule_check.specs.Members.{members};
ghost use Rattle.rule_check.specs.Taking.{IsFound, IsNoted, IsOrdered, KeepsTaken, LooksAt};

use crate::binding::plain_outside;
use crate::level::{Left, Level, Standing};
use crate::marks::Marks;
use crate::readiness::{Readiness, negated_readiness, positive_readiness};
use crate::waiting::awaited_in_conds;
use soar_rule::Cond;
use soar_sym::{List, NoMemory};
use std::alloc::Global;

/// What a look through conditions finds.
#[derive(Drop)]
enum Found {
    /// The first that is ready, at its place from 0.
    Ready(usize, Cond),
    /// None is ready.
    Nothing(Left),
}

/// Conditions in match order, the variables bound after them, and what those lack that were left.
#[derive(Drop)]
pub(crate) struct InOrder {
    pub conds: List<Cond>,
    pub bound: Marks,
    pub left: Left,
}

fn is_positive(cond: &Cond) -> bool
    ensures { result ≡ is_positive (condition cond.now) }
{
    match cond {
        Cond::Pos(_) => true,
        Cond::Neg(_) | Cond::Conj(_) => false,
    }
}

#[cycle(taking)]
fn readiness(
    alloc: Global,
    cond: &Cond,
    inside: bool,
    outside: &Marks,
    bound: &Marks,
) -> Result<Readiness, NoMemory>
    ensures same { IfOk result (λ found. readiness_seen found ≡ readiness (condition cond.now) inside (members outside.now.marks) (members bound.now.marks)) }
    ensures lasts { IfOk result (λ found. Lasts (condition cond.now) (members outside.now.marks) (members bound.now.marks) found) }
{
    match cond {
        Cond::Pos(pattern) => positive_readiness(alloc, pattern, inside, bound),
        Cond::Neg(pattern) => negated_readiness(alloc, pattern, outside, bound),
        Cond::Conj(conds) => conjunctive_readiness(alloc, conds.as_slice(), outside, bound),
    }
}

#[cycle(taking)]
fn conjunctive_readiness(
    alloc: Global,
    conds: &[Cond],
    outside: &Marks,
    bound: &Marks,
) -> Result<Readiness, NoMemory>
    ensures same { (inside : Bool) → IfOk result (λ found. readiness_seen found ≡ readiness (conjunctive (conditions conds.now)) inside (members outside.now.marks) (members bound.now.marks)) }
    ensures lasts { IfOk result (λ found. Lasts (conjunctive (conditions conds.now)) (members outside.now.marks) (members bound.now.marks) found) }
{
    if let Some(number) = awaited_in_conds(outside, bound, conds) {
        return Ok(Readiness::Waits(number));
    }
    let order = take_all(alloc, conds, true, bound.copy(alloc)?)?;
    match order.left.positive.or(order.left.negation) {
        Some(number) => Ok(Readiness::Lacks(number)),
        None => Ok(Readiness::Ready(Cond::Conj(order.conds))),
    }
}

/// The readiness of a condition of which this is known.
#[cycle(taking)]
fn ask(
    alloc: Global,
    cond: &Cond,
    inside: bool,
    outside: &Marks,
    bound: &Marks,
    standing: Standing,
) -> Result<Readiness, NoMemory>
    ensures same { IsKnown (condition cond.now) inside (members outside.now.marks) (members bound.now.marks) standing → IfOk result (λ found. readiness_seen found ≡ readiness (condition cond.now) inside (members outside.now.marks) (members bound.now.marks)) }
    ensures lasts { IsKnown (condition cond.now) inside (members outside.now.marks) (members bound.now.marks) standing → IfOk result (λ found. Lasts (condition cond.now) (members outside.now.marks) (members bound.now.marks) found) }
{
    match standing {
        Standing::Lacks(number) => Ok(Readiness::Lacks(number)),
        Standing::Open | Standing::Taken => readiness(alloc, cond, inside, outside, bound),
    }
}

/// Answers the condition at a place where it is ready, and else notes what it lacks.
#[cycle(taking)]
fn look_at(
    alloc: Global,
    cond: &Cond,
    place: usize,
    inside: bool,
    outside: &Marks,
    level: &mut Level,
    left: &mut Left,
) -> Result<Option<Cond>, NoMemory>
    requires within { place < length level.old.standings }
    requires counted { place + 1 < 2 ^ 64 }
    requires known { IsKnown (condition cond.now) inside (members outside.now.marks) (members level.old.bound.marks) (standing_at level.old.standings place) }
    ensures noted { OnOk result (IsNoted (condition cond.now) inside (members outside.now.marks) place level.old level.new) }
    ensures found { IfOk result (λ ready. LooksAt (condition cond.now) inside (members outside.now.marks) (members level.old.bound.marks) place (is_taken (standing_at level.old.standings place)) left.old left.new ready) }
{
    let standing = level.standing(place);
    if let Standing::Taken = standing {
        return Ok(None);
    }
    let found = ask(alloc, cond, inside, outside, &level.bound, standing)?;
    Ok(level.note(left, is_positive(cond), place, found))
}

/// Looks for the first condition that is ready, and asks none twice.
#[cycle(taking)]
fn look(
    alloc: Global,
    conds: &[Cond],
    inside: bool,
    outside: &Marks,
    level: &mut Level,
) -> Result<Found, NoMemory>
    requires { IsLevel conds.now inside (members outside.now.marks) level.old }
    ensures level { OnOk result (IsLevel conds.now inside (members outside.now.marks) level.new) }
    ensures kept { OnOk result (KeepsTaken level.old level.new) }
    ensures found { IfOk result (λ found. IsFound (conditions conds.now) inside (members outside.now.marks) (taken_seen level.old) found) }
{
    let mut left = Left::nothing();
    'conds: for (place, cond) in conds.iter().enumerate() {
        if let Some(ready) = look_at(alloc, cond, place, inside, outside, level, &mut left)? {
            return Ok(Found::Ready(place, ready));
        }
    }
    Ok(Found::Nothing(left))
}

/// Takes again and again the first condition that is ready.
#[cycle(taking)]
pub(crate) fn take_all(
    alloc: Global,
    conds: &[Cond],
    inside: bool,
    bound: Marks,
) -> Result<InOrder, NoMemory>
    ensures { (variables : ListOf ℕ) → AreMarked bound.marks variables → IfOk result (λ order. IsOrdered (conditions conds.now) inside variables order) }
{
    let outside = plain_outside(alloc, conds)?;
    let mut level = Level::new(alloc, conds.len(), bound)?;
    'rounds: loop {
        match look(alloc, conds, inside, &outside, &mut level)? {
            Found::Ready(place, cond) => level.take(place, cond)?,
            Found::Nothing(left) => {
                return Ok(InOrder {
                    conds: level.conds,
                    bound: level.bound,
                    left,
                })
            }
        }
    }
}
