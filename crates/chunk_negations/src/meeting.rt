// The variables of a condition, in order of first occurrence.
ghost use Rattle.std.specs.Prelude.{◌≡◌, [], ◌∷◌, IfOk, OnOk};
ghost use Rattle.soar_rule.specs.Conditions.{condition, conditions};
ghost use Rattle.soar_rule.specs.Variables.{is_among, variables_of_condition, variables_of_conditions, variables_of_field, variables_of_pattern, variables_of_test, with_each};

use soar_rule::{Atom, Cond, Field, Pattern, Test};
use soar_sym::{List, NoMemory};
use std::alloc::Global;

/// The variables of a condition, each where it first occurs.
pub(crate) fn variables_of(alloc: Global, cond: &Cond) -> Result<List<u32>, NoMemory>
    ensures { IfOk result (λ met. met ≡ with_each [] (variables_of_condition (condition cond.now))) }
{
    let mut met = List::new(alloc);
    meet_cond(&mut met, cond)?;
    Ok(met)
}

#[cycle(meeting)]
fn meet_conds(met: &mut List<u32>, conds: &[Cond]) -> Result<(), NoMemory>
    ensures { OnOk result (met.new ≡ with_each met.old (variables_of_conditions (conditions conds.now))) }
{
    'conds: for cond in conds {
        meet_cond(met, cond)?;
    }
    Ok(())
}

#[cycle(meeting)]
fn meet_cond(met: &mut List<u32>, cond: &Cond) -> Result<(), NoMemory>
    ensures { OnOk result (met.new ≡ with_each met.old (variables_of_condition (condition cond.now))) }
{
    match cond {
        Cond::Pos(pattern) => meet_pattern(met, pattern),
        Cond::Neg(pattern) => meet_pattern(met, pattern),
        Cond::Conj(inside) => meet_conds(met, inside.as_slice()),
    }
}

#[tactic(auto, using(soar_rule::proofs::OccurrenceLemmas::each_of_both))]
fn meet_pattern(met: &mut List<u32>, pattern: &Pattern) -> Result<(), NoMemory>
    ensures { OnOk result (met.new ≡ with_each met.old (variables_of_pattern pattern.now)) }
{
    meet_field(met, &pattern.id)?;
    meet_field(met, &pattern.attr)?;
    meet_field(met, &pattern.value)
}

fn meet_field(met: &mut List<u32>, field: &Field) -> Result<(), NoMemory>
    ensures { OnOk result (met.new ≡ with_each met.old (variables_of_field field.now)) }
{
    'tests: for test in field.tests.as_slice() {
        meet_test(met, test)?;
    }
    Ok(())
}

fn meet_test(met: &mut List<u32>, test: &Test) -> Result<(), NoMemory>
    ensures { OnOk result (met.new ≡ with_each met.old (variables_of_test test.now)) }
{
    match test {
        Test::Plain(Atom::Var(variable)) => meet(met, *variable),
        Test::Rel(_, Atom::Var(variable)) => meet(met, *variable),
        _ => Ok(()),
    }
}

/// Meets a variable, which joins the others where it is new.
fn meet(met: &mut List<u32>, variable: u32) -> Result<(), NoMemory>
    ensures { OnOk result (met.new ≡ with_each met.old (variable ∷ [])) }
{
    if !is_among(met.as_slice(), variable) {
        met.push(variable)?;
    }
    Ok(())
}

fn is_among(variables: &[u32], variable: u32) -> bool
    ensures { result ≡ is_among variables.now variable }
{
    'variables: for other in variables {
        if variable == *other {
            return true;
        }
    }
    false
}
