// The walk that copies conditions.
ghost use Rattle.std.specs.Prelude.{◌≡◌, ◌++◌, map, IfOk, OnOk};
ghost use Rattle.soar_rule.specs.Conditions.{condition, conditions};
ghost use Rattle.soar_rule.specs.Renaming.{condition_with, conditions_with, field_with, pattern_with, test_with};

use crate::replacing::{AsItStands, Replaces};
use soar_rule::{Cond, Field, Pattern, Test};
use soar_sym::{List, NoMemory};
use std::alloc::Global;

/// Adds copies of conditions as they stand, which share no memory with them.
pub fn add_copies(alloc: Global, out: &mut List<Cond>, conds: &[Cond]) -> Result<(), NoMemory>
    ensures { OnOk result (map condition out.new ≡ map condition out.old ++ map condition conds.now) }
{
    'conds: for cond in conds {
        out.push(copied(alloc, cond)?)?;
    }
    Ok(())
}

fn copied(alloc: Global, cond: &Cond) -> Result<Cond, NoMemory>
    ensures { IfOk result (λ copy. condition copy ≡ condition cond.now) }
{
    cond_with(alloc, &AsItStands, cond)
}

/// Copies of conditions, which share no memory with them, with the atoms that are told in the places of theirs.
#[cycle(conditions)]
pub fn conds_with<R: Replaces>(
    alloc: Global,
    atoms: &R,
    conds: &[Cond],
) -> Result<List<Cond>, NoMemory>
    ensures each { IfOk result (λ copy. map condition copy ≡ map (condition_with (R.replaced atoms.now)) (map condition conds.now)) }
    ensures whole { IfOk result (λ copy. conditions copy ≡ conditions_with (R.replaced atoms.now) (conditions conds.now)) }
{
    let mut out = List::new(alloc);
    'conds: for cond in conds {
        out.push(cond_with(alloc, atoms, cond)?)?;
    }
    Ok(out)
}

/// A copy of one condition.
#[cycle(conditions)]
pub fn cond_with<R: Replaces>(alloc: Global, atoms: &R, cond: &Cond) -> Result<Cond, NoMemory>
    ensures { IfOk result (λ copy. condition copy ≡ condition_with (R.replaced atoms.now) (condition cond.now)) }
{
    match cond {
        Cond::Pos(pattern) => Ok(Cond::Pos(pattern_with(alloc, atoms, pattern)?)),
        Cond::Neg(pattern) => Ok(Cond::Neg(pattern_with(alloc, atoms, pattern)?)),
        Cond::Conj(inside) => Ok(Cond::Conj(conds_with(alloc, atoms, inside.as_slice())?)),
    }
}

fn pattern_with<R: Replaces>(
    alloc: Global,
    atoms: &R,
    pattern: &Pattern,
) -> Result<Pattern, NoMemory>
    ensures { IfOk result (λ copy. copy ≡ pattern_with (R.replaced atoms.now) pattern.now) }
{
    let id = field_with(alloc, atoms, &pattern.id)?;
    let attr = field_with(alloc, atoms, &pattern.attr)?;
    let value = field_with(alloc, atoms, &pattern.value)?;
    Ok(Pattern {
        state: pattern.state,
        id,
        attr,
        value,
        accept: pattern.accept,
    })
}

fn field_with<R: Replaces>(alloc: Global, atoms: &R, field: &Field) -> Result<Field, NoMemory>
    ensures { IfOk result (λ copy. copy ≡ field_with (R.replaced atoms.now) field.now) }
{
    let mut tests = List::new(alloc);
    'tests: for test in field.tests.as_slice() {
        tests.push(test_with(alloc, atoms, test)?)?;
    }
    Ok(Field { tests })
}

fn test_with<R: Replaces>(alloc: Global, atoms: &R, test: &Test) -> Result<Test, NoMemory>
    ensures { IfOk result (λ copy. copy ≡ test_with (R.replaced atoms.now) test.now) }
{
    match test {
        Test::Plain(atom) => Ok(Test::Plain(atoms.atom(*atom))),
        Test::Rel(relation, atom) => Ok(Test::Rel(*relation, atoms.atom(*atom))),
        Test::OneOf(symbols) => Ok(Test::OneOf(List::from_slice(alloc, symbols.as_slice())?)),
    }
}
