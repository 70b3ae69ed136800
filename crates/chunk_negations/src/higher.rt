// Negations about higher goals.
ghost use Rattle.std.specs.Prelude.{◌≡◌, ◌++◌, IfOk, OnOk};
ghost use Rattle.defs_soar.specs.History.{chain_seen};
ghost use Rattle.defs_soar.specs.Negations.{are_about_higher, is_about_higher, is_higher_pattern, is_higher_test, values_bound};
ghost use Rattle.soar_rule.specs.declared.cond.Atom.TheVariants.{Var};
ghost use Rattle.soar_rule.specs.declared.cond.Test.TheVariants.{Plain};
ghost use Rattle.soar_rule.specs.Conditions.{condition, conditions};
ghost use Rattle.soar_rule.specs.Variables.{plain_in, plain_in_test};

use chain_identifiers::{Identifiers, symbol_of};
use soar_rule::{Atom, Cond, Field, Pattern, Test};
use soar_sym::{List, NoMemory, Sym};
use std::alloc::Global;

/// Whether each identifier field of a condition is of a higher goal. `values` holds the variables that stand as values
/// earlier inside.
#[cycle(higher)]
pub(crate) fn is_about_higher(
    alloc: Global,
    told: &Identifiers<'_>,
    bindings: &[(u32, Sym)],
    values: &[u32],
    cond: &Cond,
) -> Result<bool, NoMemory>
    ensures { IfOk result (λ about. about ≡ is_about_higher (chain_seen told.now.chain.now) told.now.depth bindings.now values.now (condition cond.now)) }
{
    match cond {
        Cond::Pos(pattern) => Ok(is_higher_pattern(told, bindings, values, pattern)),
        Cond::Neg(pattern) => Ok(is_higher_pattern(told, bindings, values, pattern)),
        Cond::Conj(inside) => are_about_higher(alloc, told, bindings, values, inside.as_slice()),
    }
}

#[cycle(higher)]
fn are_about_higher(
    alloc: Global,
    told: &Identifiers<'_>,
    bindings: &[(u32, Sym)],
    values: &[u32],
    inside: &[Cond],
) -> Result<bool, NoMemory>
    ensures { IfOk result (λ about. about ≡ are_about_higher (chain_seen told.now.chain.now) told.now.depth bindings.now values.now (conditions inside.now)) }
{
    let mut within = List::from_slice(alloc, values)?;
    'inside: for cond in inside {
        if !is_about_higher(alloc, told, bindings, within.as_slice(), cond)? {
            return Ok(false);
        }
        add_values(&mut within, cond)?;
    }
    Ok(true)
}

// ---- identifier fields

fn is_higher_pattern(
    told: &Identifiers<'_>,
    bindings: &[(u32, Sym)],
    values: &[u32],
    pattern: &Pattern,
) -> bool
    ensures { result ≡ is_higher_pattern (chain_seen told.now.chain.now) told.now.depth bindings.now values.now pattern.now }
{
    'tests: for test in pattern.id.tests.as_slice() {
        if is_higher_test(told, bindings, values, test) {
            return true;
        }
    }
    false
}

fn is_higher_test(
    told: &Identifiers<'_>,
    bindings: &[(u32, Sym)],
    values: &[u32],
    test: &Test,
) -> bool
    ensures { result ≡ is_higher_test (chain_seen told.now.chain.now) told.now.depth bindings.now values.now test.now }
{
    match test {
        Test::Plain(Atom::Const(symbol)) => told.is_higher(*symbol),
        Test::Plain(Atom::Var(variable)) => is_higher_variable(told, bindings, values, *variable),
        _ => false,
    }
}

/// Whether a variable is bound to a higher identifier, or is a value earlier inside.
fn is_higher_variable(
    told: &Identifiers<'_>,
    bindings: &[(u32, Sym)],
    values: &[u32],
    variable: u32,
) -> bool
    ensures { result ≡ is_higher_test (chain_seen told.now.chain.now) told.now.depth bindings.now values.now (Plain (Var variable)) }
{
    match symbol_of(bindings, variable) {
        Some(symbol) => told.is_higher(symbol),
        None => values.contains(&variable),
    }
}

// ---- values

/// Adds the variables that a condition has as values.
#[tactic(auto, using(crate::proofs::Lists::with_none))]
fn add_values(values: &mut List<u32>, cond: &Cond) -> Result<(), NoMemory>
    ensures { OnOk result (values.new ≡ values.old ++ values_bound (condition cond.now)) }
{
    match cond {
        Cond::Pos(pattern) => add_plain(values, &pattern.value),
        Cond::Neg(_) => Ok(()),
        Cond::Conj(_) => Ok(()),
    }
}

fn add_plain(values: &mut List<u32>, field: &Field) -> Result<(), NoMemory>
    ensures { OnOk result (values.new ≡ values.old ++ plain_in field.now) }
{
    'tests: for test in field.tests.as_slice() {
        add_plain_in(values, test)?;
    }
    Ok(())
}

#[tactic(auto, using(crate::proofs::Lists::with_none))]
fn add_plain_in(values: &mut List<u32>, test: &Test) -> Result<(), NoMemory>
    ensures { OnOk result (values.new ≡ values.old ++ plain_in_test test.now) }
{
    match test {
        Test::Plain(Atom::Var(variable)) => {
            values.push(*variable)?;
            Ok(())
        }
        _ => Ok(()),
    }
}
