// Negations with variables of their own.
ghost use Rattle.std.specs.Prelude.{◌≡◌, ◌+◌, ◌^◌, ◌<◌, ◌≤◌, ◌++◌, ◌∷◌, [], length, map, IfOk, OnOk};
ghost use Rattle.defs_soar.specs.Negations.{own_count, renumbered_from, with_own_from, with_own_variables};
ghost use Rattle.soar_rule.specs.Canonical.{place_among};
ghost use Rattle.soar_rule.specs.Conditions.{condition};
ghost use Rattle.soar_rule.specs.Variables.{variables_of_condition, with_each};

use crate::meeting::variables_of;
use condition_copies::{Replaces, cond_with};
use soar_rule::{Atom, Cond};
use soar_sym::{List, NoMemory};
use std::alloc::Global;

/// New numbers of variables, in their order, from a first one on.
#[derive(Drop)]
struct Numbers {
    first: u32,
    order: List<u32>,
    ghost fit: { first + length order < 2 ^ 32 },
}

impl Numbers {
    /// Numbers for the variables of a condition, by first occurrence. Where 32 bits do not hold them, memory is wanting.
    fn of(alloc: Global, first: u32, cond: &Cond) -> Result<Numbers, NoMemory>
        ensures first { IfOk result (λ numbers. numbers.first ≡ first) }
        ensures order { IfOk result (λ numbers. numbers.order ≡ with_each [] (variables_of_condition (condition cond.now))) }
    {
        let order = variables_of(alloc, cond)?;
        if order.len() > (u32::MAX - first) as usize {
            return Err(NoMemory);
        }
        Ok(Numbers { first, order })
    }

    /// The number after them.
    fn next(&self) -> u32
        ensures { result ≡ self.now.first + length self.now.order }
    {
        self.first + self.order.len() as u32
    }
}

impl Replaces for Numbers {
    ghost replaced = { λ numbers. renumbered_from numbers.first numbers.order };

    fn atom(&self, atom: Atom) -> Atom {
        match atom {
            Atom::Const(_) => atom,
            Atom::Var(variable) => {
                Atom::Var(self.first + place_among(self.order.as_slice(), variable) as u32)
            }
        }
    }
}

/// The place of a variable among these, and how many they are where it is not there.
fn place_among(order: &[u32], variable: u32) -> usize
    ensures place { result ≡ place_among order.now variable }
    ensures within { result ≤ length order.now }
{
    'order: for at in 0..order.len() {
        if variable == order[at] {
            return at;
        }
    }
    order.len()
}

/// The condition with its variables numbered from a number, by first occurrence.
pub(crate) fn with_own_from(alloc: Global, first: u32, cond: &Cond) -> Result<Cond, NoMemory>
    ensures { IfOk result (λ other. condition other ≡ with_own_from first (condition cond.now)) }
{
    let numbers = Numbers::of(alloc, first, cond)?;
    cond_with(alloc, &numbers, cond)
}

/// The negations, each with variables of its own, from 0.
pub(crate) fn with_own_variables(alloc: Global, negations: &[Cond]) -> Result<List<Cond>, NoMemory>
    ensures { IfOk result (λ others. map condition others ≡ with_own_variables 0 (map condition negations.now)) }
{
    let mut others = List::new(alloc);
    let mut first = 0;
    'negations: for negation in negations {
        first = add_own(alloc, &mut others, first, negation)?;
    }
    Ok(others)
}

/// Adds the negation with variables from a number, and answers the number after them.
fn add_own(
    alloc: Global,
    others: &mut List<Cond>,
    first: u32,
    negation: &Cond,
) -> Result<u32, NoMemory>
    ensures added { OnOk result (map condition others.new ≡ map condition others.old ++ with_own_from first (condition negation.now) ∷ []) }
    ensures next { IfOk result (λ next. next ≡ first + own_count (condition negation.now)) }
{
    let numbers = Numbers::of(alloc, first, negation)?;
    others.push(cond_with(alloc, &numbers, negation)?)?;
    Ok(numbers.next())
}
