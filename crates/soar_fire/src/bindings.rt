// What the conditions of a rule bound for an instance.
ghost use Rattle.std.specs.Prelude.{◌≡◌, [], ◌∷◌, flat_map, IfOk, OnOk};
ghost use Rattle.soar_rule.specs.Conditions.{condition, conditions};
ghost use Rattle.soar_rule.specs.Variables.{bound_by, bound_variables, is_among, plain_in_test, plain_of_pattern, with_each};
ghost use Rattle.defs_match.specs.Conflict.{paired};

use soar_rule::{Atom, Cond, Pattern, Test};
use soar_sym::Sym;
use std::alloc::{AllocError, Global};

/// The variables that conditions bind, with the symbols of an instance.
pub fn bindings_of(
    alloc: Global,
    conds: &[Cond],
    binds: &[Sym],
) -> Result<Vec<(u32, Sym)>, AllocError>
    ensures { IfOk result (λ bindings. bindings.items ≡ paired (bound_variables (conditions conds.now)) binds.now) }
{
    let variables = bound_variables(alloc, conds)?;
    paired(alloc, variables.as_slice(), binds)
}

fn paired(alloc: Global, variables: &[u32], symbols: &[Sym]) -> Result<Vec<(u32, Sym)>, AllocError>
    ensures { IfOk result (λ bindings. bindings.items ≡ paired variables.now symbols.now) }
{
    let mut bindings = Vec::new(alloc);
    let mut left = symbols;
    'variables: for variable in variables {
        match left.split_first() {
            Some((symbol, others)) => {
                bindings.push((*variable, *symbol))?;
                left = others;
            }
            None => return Ok(bindings),
        }
    }
    Ok(bindings)
}

/// The variables that conditions bind, in the order in which a match binds them.
pub fn bound_variables(alloc: Global, conds: &[Cond]) -> Result<Vec<u32>, AllocError>
    ensures { IfOk result (λ variables. variables.items ≡ bound_variables (conditions conds.now)) }
{
    let mut seen = Vec::new(alloc);
    'conds: for cond in conds {
        add_bound(&mut seen, cond)?;
    }
    Ok(seen)
}

fn add_bound(seen: &mut Vec<u32>, cond: &Cond) -> Result<(), AllocError>
    ensures { OnOk result (seen.new.items ≡ with_each seen.old.items (bound_by (condition cond.now))) }
{
    match cond {
        Cond::Pos(pattern) => add_pattern(seen, pattern),
        _ => Ok(()),
    }
}

#[tactic(auto, using(crate::proofs::BindingLemmas::each_append))]
fn add_pattern(seen: &mut Vec<u32>, pattern: &Pattern) -> Result<(), AllocError>
    ensures { OnOk result (seen.new.items ≡ with_each seen.old.items (plain_of_pattern pattern.now)) }
{
    add_plain(seen, pattern.id.tests.as_slice())?;
    add_plain(seen, pattern.attr.tests.as_slice())?;
    add_plain(seen, pattern.value.tests.as_slice())
}

/// Adds the variables of plain tests.
#[tactic(auto, using(crate::proofs::BindingLemmas::each_append))]
fn add_plain(seen: &mut Vec<u32>, tests: &[Test]) -> Result<(), AllocError>
    ensures { OnOk result (seen.new.items ≡ with_each seen.old.items (flat_map plain_in_test tests.now)) }
{
    'tests: for test in tests {
        if let Test::Plain(Atom::Var(variable)) = test {
            add_variable(seen, *variable)?;
        }
    }
    Ok(())
}

/// Adds a variable that is not there yet.
fn add_variable(seen: &mut Vec<u32>, variable: u32) -> Result<(), AllocError>
    ensures { OnOk result (seen.new.items ≡ with_each seen.old.items (variable ∷ [])) }
{
    if !is_among(seen.as_slice(), variable) {
        seen.push(variable)?;
    }
    Ok(())
}

fn is_among(variables: &[u32], variable: u32) -> bool
    ensures { result ≡ is_among variables.now variable }
{
    'variables: for other in variables {
        if variable == *other {
            return true;
        }
    }
    false
}
