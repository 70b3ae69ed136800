// What the variables of a firing's rule stand for.
ghost use Rattle.std.specs.Prelude.{◌≡◌, ◌∷◌, [], flat_map, IfOk, OnOk};
ghost use Rattle.defs_match.specs.Conflict.{paired};
ghost use Rattle.defs_match.specs.Testing.{symbol_of};
ghost use Rattle.defs_soar.specs.History.{firing_seen};
ghost use Rattle.defs_soar.specs.Negations.{bindings_in};
ghost use Rattle.soar_rule.specs.Conditions.{condition, conditions};
ghost use Rattle.soar_rule.specs.Variables.{bound_by, bound_variables, is_among, plain_in_test, plain_of_pattern, with_each};

use defs_soar::Firing;
use soar_rule::{Atom, Cond, Pattern, Test};
use soar_sym::{NoMemory, Sym};
use std::alloc::Global;

/// The variables that the conditions of the firing's rule bind, in the order in which a match binds them, each with
/// its symbol.
pub fn bindings_of(alloc: Global, firing: &Firing) -> Result<Vec<(u32, Sym)>, NoMemory>
    ensures { IfOk result (λ bindings. bindings.items ≡ bindings_in (firing_seen firing.now)) }
{
    let variables = bound_variables(alloc, firing.rule.production.conds.as_slice())?;
    paired(
        alloc,
        variables.as_slice(),
        firing.instance.binds.as_slice(),
    )
}

/// What a variable stands for, where it is bound.
pub fn symbol_of(bindings: &[(u32, Sym)], variable: u32) -> Option<Sym>
    ensures { result ≡ symbol_of variable bindings.now }
{
    'bindings: for binding in bindings {
        if binding.0 == variable {
            return Some(binding.1);
        }
    }
    None
}

fn paired(alloc: Global, variables: &[u32], symbols: &[Sym]) -> Result<Vec<(u32, Sym)>, NoMemory>
    ensures { IfOk result (λ bindings. bindings.items ≡ paired variables.now symbols.now) }
{
    let mut bindings = Vec::new(alloc);
    let mut left = symbols;
    'variables: for variable in variables {
        match left.split_first() {
            Some((symbol, others)) => {
                bindings.push((*variable, *symbol))?;
                left = others;
            }
            None => return Ok(bindings),
        }
    }
    Ok(bindings)
}

// ---- the variables that conditions bind

fn bound_variables(alloc: Global, conds: &[Cond]) -> Result<Vec<u32>, NoMemory>
    ensures { IfOk result (λ variables. variables.items ≡ bound_variables (conditions conds.now)) }
{
    let mut seen = Vec::new(alloc);
    'conds: for cond in conds {
        add_bound(&mut seen, cond)?;
    }
    Ok(seen)
}

fn add_bound(seen: &mut Vec<u32>, cond: &Cond) -> Result<(), NoMemory>
    ensures { OnOk result (seen.new.items ≡ with_each seen.old.items (bound_by (condition cond.now))) }
{
    match cond {
        Cond::Pos(pattern) => add_pattern(seen, pattern),
        _ => Ok(()),
    }
}

#[tactic(auto, using(crate::proofs::BindingLemmas::each_append))]
fn add_pattern(seen: &mut Vec<u32>, pattern: &Pattern) -> Result<(), NoMemory>
    ensures { OnOk result (seen.new.items ≡ with_each seen.old.items (plain_of_pattern pattern.now)) }
{
    add_plain(seen, pattern.id.tests.as_slice())?;
    add_plain(seen, pattern.attr.tests.as_slice())?;
    add_plain(seen, pattern.value.tests.as_slice())
}

/// Adds the variables of plain tests.
#[tactic(auto, using(crate::proofs::BindingLemmas::each_append))]
fn add_plain(seen: &mut Vec<u32>, tests: &[Test]) -> Result<(), NoMemory>
    ensures { OnOk result (seen.new.items ≡ with_each seen.old.items (flat_map plain_in_test tests.now)) }
{
    'tests: for test in tests {
        if let Test::Plain(Atom::Var(variable)) = test {
            add_variable(seen, *variable)?;
        }
    }
    Ok(())
}

/// Adds a variable that is not there yet.
fn add_variable(seen: &mut Vec<u32>, variable: u32) -> Result<(), NoMemory>
    ensures { OnOk result (seen.new.items ≡ with_each seen.old.items (variable ∷ [])) }
{
    if !has_variable(seen.as_slice(), variable) {
        seen.push(variable)?;
    }
    Ok(())
}

fn has_variable(variables: &[u32], variable: u32) -> bool
    ensures { result ≡ is_among variables.now variable }
{
    'variables: for other in variables {
        if variable == *other {
            return true;
        }
    }
    false
}
