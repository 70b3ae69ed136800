// How large a production is.
ghost use Rattle.std.specs.Prelude.{◌≡◌, ◌+◌, IfOk};
ghost use Rattle.chunk_learn.specs.Told.{too_large_in};
ghost use Rattle.soar_rule.specs.Conditions.{condition, conditions};
ghost use Rattle.soar_rule.specs.Productions.{production_seen};
ghost use Rattle.soar_rule.specs.Sizes.{size_of, size_of_all};

use soar_rule::{Cond, Production};
use soar_sym::NoMemory;

const MOST_CONDITIONS: u32 = 1000;

const MOST_VARIABLES: u32 = 2000;

/// How many conditions it has, where these are too many, or else variables. A number that does not fit is want of memory.
pub fn too_large(production: &Production) -> Result<Option<u32>, NoMemory>
    ensures { IfOk result (λ size. size ≡ too_large_in (production_seen production.now)) }
{
    let size = size_of_all(production.conds.as_slice())?;
    if size > MOST_CONDITIONS {
        return Ok(Some(size));
    }
    let variables = told(production.vars.len())?;
    if variables > MOST_VARIABLES {
        return Ok(Some(variables));
    }
    Ok(None)
}

fn told(number: usize) -> Result<u32, NoMemory>
    ensures { IfOk result (λ n. n ≡ number) }
{
    if number > u32::MAX as usize {
        return Err(NoMemory);
    }
    Ok(number as u32)
}

/// How many conditions there are; each negation and each condition inside one counts.
#[cycle(sizes)]
fn size_of_all(conds: &[Cond]) -> Result<u32, NoMemory>
    ensures { IfOk result (λ size. size ≡ size_of_all (conditions conds.now)) }
{
    let mut size: u32 = 0;
    'conds: for cond in conds {
        size = sum(size, size_of(cond)?)?;
    }
    Ok(size)
}

#[cycle(sizes)]
fn size_of(cond: &Cond) -> Result<u32, NoMemory>
    ensures { IfOk result (λ size. size ≡ size_of (condition cond.now)) }
{
    match cond {
        Cond::Pos(_) => Ok(1),
        Cond::Neg(_) => Ok(1),
        Cond::Conj(inside) => sum(size_of_all(inside.as_slice())?, 1),
    }
}

fn sum(a: u32, b: u32) -> Result<u32, NoMemory>
    ensures { IfOk result (λ c. c ≡ a + b) }
{
    match a.checked_add(b) {
        Some(c) => Ok(c),
        None => Err(NoMemory),
    }
}
