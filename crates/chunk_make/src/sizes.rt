// How many conditions and variables a form has.
ghost use Rattle.std.specs.Prelude.{◌≡◌, ◌+◌, IfOk};
ghost use Rattle.chunk_forms.specs.Forms.{form_seen};
ghost use Rattle.defs_soar.specs.Outcome.{as_cause, too_large};
ghost use Rattle.defs_soar.specs.declared.learning.Cause.TheVariants as causes;
ghost use Rattle.soar_rule.specs.Conditions.{condition, conditions};
ghost use Rattle.soar_rule.specs.Sizes.{size_of, size_of_all};
ghost use Rattle.soar_rule.specs.declared.production.Kind.TheVariants.{Chunk};

use chunk_forms::Form;
use defs_soar::Cause;
use soar_rule::Cond;
use soar_sym::NoMemory;

const MOST_CONDITIONS: u32 = 1000;

const MOST_VARIABLES: usize = 2000;

/// Too many conditions, or else too many variables. A number past 2^32 - 1 counts as want of memory.
pub(crate) fn cause_of_size(form: &Form) -> Result<Option<Cause>, NoMemory>
    ensures { IfOk result (λ cause. cause ≡ as_cause causes.TooLarge (too_large (form_seen Chunk form.now))) }
{
    let conditions = size_of_all(form.conds.as_slice())?;
    if conditions > MOST_CONDITIONS {
        return Ok(Some(Cause::TooLarge(conditions)));
    }
    let variables = form.names.len();
    if variables > u32::MAX as usize {
        return Err(NoMemory);
    }
    if variables > MOST_VARIABLES {
        return Ok(Some(Cause::TooLarge(variables as u32)));
    }
    Ok(None)
}

/// How many conditions there are; a conjunctive negation counts beside those inside it.
#[cycle(sizes)]
fn size_of_all(conds: &[Cond]) -> Result<u32, NoMemory>
    ensures { IfOk result (λ size. size ≡ size_of_all (conditions conds.now)) }
{
    let mut size: u32 = 0;
    'conds: for cond in conds {
        let one = size_of(cond)?;
        size = sum(size, one)?;
    }
    Ok(size)
}

#[cycle(sizes)]
fn size_of(cond: &Cond) -> Result<u32, NoMemory>
    ensures { IfOk result (λ size. size ≡ size_of (condition cond.now)) }
{
    match cond {
        Cond::Pos(_) => Ok(1),
        Cond::Neg(_) => Ok(1),
        Cond::Conj(inside) => {
            let size = size_of_all(inside.as_slice())?;
            let size = sum(size, 1)?;
            Ok(size)
        }
    }
}

fn sum(a: u32, b: u32) -> Result<u32, NoMemory>
    ensures { IfOk result (λ sum. sum ≡ a + b) }
{
    if b > u32::MAX - a {
        return Err(NoMemory);
    }
    Ok(a + b)
}
