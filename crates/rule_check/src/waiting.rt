// What a negation waits for: a variable that is plain outside and not bound yet.
ghost use Rattle.std.specs.Prelude.{◌≡◌, ◌&&◌, not};
ghost use Rattle.std.specs.Option.{option_to_list};
ghost use Rattle.soar_rule.specs.Conditions.{condition, conditions};
ghost use Rattle.soar_rule.specs.MatchOrder.{waits_for};
ghost use Rattle.soar_rule.specs.Variables.{is_among, variables_of_condition, variables_of_conditions, variables_of_field, variables_of_pattern, variables_of_test};
ghost use Rattle.rule_check.specs.Members.{members};

use crate::lacking::is_bound;
use crate::marks::Marks;
use soar_rule::{Atom, Cond, Field, Pattern, Test};

fn variable_of(test: &Test) -> Option<u32>
    ensures { option_to_list result ≡ variables_of_test test.now }
{
    match test {
        Test::Plain(Atom::Var(number)) | Test::Rel(_, Atom::Var(number)) => Some(*number),
        _ => None,
    }
}

fn is_awaited(outside: &Marks, bound: &Marks, number: u32) -> bool
    ensures { result ≡ (is_among (members outside.now.marks) number && not (is_among (members bound.now.marks) number)) }
{
    is_bound(outside, number) && !is_bound(bound, number)
}

fn awaited_in_field(outside: &Marks, bound: &Marks, field: &Field) -> Option<u32>
    ensures { result ≡ waits_for (members outside.now.marks) (members bound.now.marks) (variables_of_field field.now) }
{
    'tests: for test in field.tests.as_slice() {
        if let Some(number) = variable_of(test) {
            if is_awaited(outside, bound, number) {
                return Some(number);
            }
        }
    }
    None
}

/// What the negation of a pattern waits for.
#[tactic(auto, using(crate::proofs::WaitingLemmas::waits_joined))]
pub(crate) fn awaited_in_pattern(outside: &Marks, bound: &Marks, pattern: &Pattern) -> Option<u32>
    ensures { result ≡ waits_for (members outside.now.marks) (members bound.now.marks) (variables_of_pattern pattern.now) }
{
    let awaited = awaited_in_field(outside, bound, &pattern.id);
    if awaited.is_some() {
        return awaited;
    }
    let awaited = awaited_in_field(outside, bound, &pattern.attr);
    if awaited.is_some() {
        return awaited;
    }
    awaited_in_field(outside, bound, &pattern.value)
}

#[cycle(waiting)]
fn awaited_in_cond(outside: &Marks, bound: &Marks, cond: &Cond) -> Option<u32>
    ensures { result ≡ waits_for (members outside.now.marks) (members bound.now.marks) (variables_of_condition (condition cond.now)) }
{
    match cond {
        Cond::Pos(pattern) | Cond::Neg(pattern) => awaited_in_pattern(outside, bound, pattern),
        Cond::Conj(inside) => awaited_in_conds(outside, bound, inside.as_slice()),
    }
}

/// What a conjunctive negation waits for.
#[cycle(waiting)]
pub(crate) fn awaited_in_conds(outside: &Marks, bound: &Marks, conds: &[Cond]) -> Option<u32>
    ensures { result ≡ waits_for (members outside.now.marks) (members bound.now.marks) (variables_of_conditions (conditions conds.now)) }
{
    'conds: for cond in conds {
        let awaited = awaited_in_cond(outside, bound, cond);
        if awaited.is_some() {
            return awaited;
        }
    }
    None
}
