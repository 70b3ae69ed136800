// The variables that conditions bind.
ghost use Rattle.std.specs.Prelude.{IfOk, OnOk};
ghost use Rattle.soar_rule.specs.Conditions.{condition, conditions};
ghost use Rattle.soar_rule.specs.Variables.{bound_by, plain_in, plain_in_test, plain_of_pattern, plain_outside};
ghost use Rattle.rule_check.specs.Marking.{AreMarked, Joined};

use crate::marks::Marks;
use soar_rule::{Atom, Cond, Field, Pattern, Test};
use soar_sym::NoMemory;
use std::alloc::Global;

#[tactic(auto, using(crate::proofs::BindingLemmas::joined_none))]
fn join_test(marks: &mut Marks, test: &Test) -> Result<(), NoMemory>
    ensures { OnOk result (Joined marks.old.marks marks.new.marks (plain_in_test test.now)) }
{
    match test {
        Test::Plain(Atom::Var(number)) => marks.join(*number),
        _ => Ok(()),
    }
}

fn join_field(marks: &mut Marks, field: &Field) -> Result<(), NoMemory>
    ensures { OnOk result (Joined marks.old.marks marks.new.marks (plain_in field.now)) }
{
    'tests: for test in field.tests.as_slice() {
        join_test(marks, test)?;
    }
    Ok(())
}

fn join_pattern(marks: &mut Marks, pattern: &Pattern) -> Result<(), NoMemory>
    ensures { OnOk result (Joined marks.old.marks marks.new.marks (plain_of_pattern pattern.now)) }
{
    join_field(marks, &pattern.id)?;
    join_field(marks, &pattern.attr)?;
    join_field(marks, &pattern.value)
}

/// Joins the variables that a condition binds to these.
#[tactic(auto, using(crate::proofs::BindingLemmas::joined_none))]
pub(crate) fn join_bound(marks: &mut Marks, cond: &Cond) -> Result<(), NoMemory>
    ensures { OnOk result (Joined marks.old.marks marks.new.marks (bound_by (condition cond.now))) }
{
    match cond {
        Cond::Pos(pattern) => join_pattern(marks, pattern),
        Cond::Neg(_) | Cond::Conj(_) => Ok(()),
    }
}

/// The variables that are plain in a positive condition, outside negations.
pub(crate) fn plain_outside(alloc: Global, conds: &[Cond]) -> Result<Marks, NoMemory>
    ensures { IfOk result (λ outside. AreMarked outside.marks (plain_outside (conditions conds.now))) }
{
    let mut outside = Marks::new(alloc);
    'conds: for cond in conds {
        join_bound(&mut outside, cond)?;
    }
    Ok(outside)
}
