// What has a variable, met in the order of the conditions and then of the results.
ghost use Rattle.std.specs.Prelude.{◌≡◌, ◌++◌, [], flat_map, IfOk, OnOk};
ghost use Rattle.defs_soar.specs.Variablized.{each_variablized_once, variablized_in_condition, variablized_in_conditions, variablized_in_field, variablized_in_referent, variablized_in_test, variablized_in_wish};
ghost use Rattle.soar_rule.specs.Conditions.{condition, conditions};
ghost use Rattle.chunk_variables.specs.Seen.{variablized_in_pattern};

use crate::variables::Variables;
use defs_soar::Wish;
use soar_rule::{Atom, Cond, Field, Pattern, Test};
use soar_sym::{NoMemory, Sym};
use std::alloc::Global;

/// What has a variable in the rule of conditions and results, by first occurrence: in the general form identifiers, in
/// both negations' own variables (Soar manual, chapter 4, variablization).
#[tactic(auto, using(crate::proofs::OccurrenceLemmas::once_of_both))]
pub fn variables_in(
    alloc: Global,
    general: bool,
    conds: &[Cond],
    results: &[Wish],
) -> Result<Variables, NoMemory>
    ensures { IfOk result (λ variables. variables ≡ each_variablized_once [] (variablized_in_conditions general (conditions conds.now) ++ flat_map (variablized_in_wish general) results.now)) }
{
    let mut variables = Variables::new(alloc);
    meet_conds(&mut variables, general, conds)?;
    meet_results(&mut variables, general, results)?;
    Ok(variables)
}

// ---- conditions

#[cycle(conditions)]
fn meet_conds(variables: &mut Variables, general: bool, conds: &[Cond]) -> Result<(), NoMemory>
    ensures { OnOk result (variables.new ≡ each_variablized_once variables.old (variablized_in_conditions general (conditions conds.now))) }
{
    'conds: for cond in conds {
        meet_cond(variables, general, cond)?;
    }
    Ok(())
}

#[cycle(conditions)]
fn meet_cond(variables: &mut Variables, general: bool, cond: &Cond) -> Result<(), NoMemory>
    ensures { OnOk result (variables.new ≡ each_variablized_once variables.old (variablized_in_condition general (condition cond.now))) }
{
    match cond {
        Cond::Pos(pattern) => meet_pattern(variables, general, pattern),
        Cond::Neg(pattern) => meet_pattern(variables, general, pattern),
        Cond::Conj(inside) => meet_conds(variables, general, inside.as_slice()),
    }
}

#[tactic(auto, using(crate::proofs::OccurrenceLemmas::once_of_both))]
fn meet_pattern(variables: &mut Variables, general: bool, pattern: &Pattern) -> Result<(), NoMemory>
    ensures { OnOk result (variables.new ≡ each_variablized_once variables.old (variablized_in_pattern general pattern.now)) }
{
    meet_field(variables, general, &pattern.id)?;
    meet_field(variables, general, &pattern.attr)?;
    meet_field(variables, general, &pattern.value)
}

fn meet_field(variables: &mut Variables, general: bool, field: &Field) -> Result<(), NoMemory>
    ensures { OnOk result (variables.new ≡ each_variablized_once variables.old (variablized_in_field general field.now)) }
{
    'tests: for test in field.tests.as_slice() {
        meet_test(variables, general, test)?;
    }
    Ok(())
}

fn meet_test(variables: &mut Variables, general: bool, test: &Test) -> Result<(), NoMemory>
    ensures { OnOk result (variables.new ≡ each_variablized_once variables.old (variablized_in_test general test.now)) }
{
    match test {
        Test::Plain(atom) => variables.meet(general, *atom),
        Test::Rel(_, atom) => variables.meet(general, *atom),
        Test::OneOf(_) => Ok(()),
    }
}

// ---- results

fn meet_results(variables: &mut Variables, general: bool, results: &[Wish]) -> Result<(), NoMemory>
    ensures { OnOk result (variables.new ≡ each_variablized_once variables.old (flat_map (variablized_in_wish general) results.now)) }
{
    'results: for wish in results {
        meet_wish(variables, general, wish)?;
    }
    Ok(())
}

#[tactic(auto, using(crate::proofs::OccurrenceLemmas::once_of_both))]
fn meet_wish(variables: &mut Variables, general: bool, wish: &Wish) -> Result<(), NoMemory>
    ensures { OnOk result (variables.new ≡ each_variablized_once variables.old (variablized_in_wish general wish.now)) }
{
    variables.meet(general, Atom::Const(wish.id))?;
    variables.meet(general, Atom::Const(wish.attr))?;
    variables.meet(general, Atom::Const(wish.value))?;
    meet_referent(variables, general, wish.referent)
}

fn meet_referent(
    variables: &mut Variables,
    general: bool,
    referent: Option<Sym>,
) -> Result<(), NoMemory>
    ensures { OnOk result (variables.new ≡ each_variablized_once variables.old (variablized_in_referent general referent)) }
{
    match referent {
        Some(symbol) => variables.meet(general, Atom::Const(symbol)),
        None => Ok(()),
    }
}
