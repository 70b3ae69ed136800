// Lists of conditions.
ghost use Rattle.std.specs.Prelude.{◌≡◌, [], ◌∷◌, ◌++◌, map, IfOk, OnOk};
ghost use Rattle.soar_rule.specs.Conditions.{condition};
ghost use Rattle.defs_read.specs.ConditionExpansion.{negation_of, signed};

use soar_rule::Cond;
use soar_sym::{List, NoMemory};
use std::alloc::Global;

/// A list of one condition.
pub fn one_condition(alloc: Global, cond: Cond) -> Result<List<Cond>, NoMemory>
    ensures { IfOk result (λ conds. map condition conds ≡ condition cond ∷ []) }
{
    let mut conds = List::new(alloc);
    conds.push(cond)?;
    Ok(conds)
}

/// Puts more conditions behind.
pub fn append_conditions(out: &mut List<Cond>, more: List<Cond>) -> Result<(), NoMemory>
    ensures { OnOk result (map condition out.new ≡ map condition out.old ++ map condition more) }
{
    'more: for cond in more.into_vec() {
        out.push(cond)?;
    }
    Ok(())
}

/// One positive triple is negated as it is, anything else as a whole.
fn negation(mut conds: List<Cond>) -> Result<Cond, NoMemory>
    ensures { IfOk result (λ cond. condition cond ≡ negation_of (map condition conds)) }
{
    match conds.pop() {
        None => Ok(Cond::Conj(conds)),
        Some(last) => {
            if conds.is_empty() {
                if let Cond::Pos(pattern) = last {
                    return Ok(Cond::Neg(pattern));
                }
            }
            conds.push(last)?;
            Ok(Cond::Conj(conds))
        }
    }
}

/// Conditions, negated where they are to be.
pub fn signed(alloc: Global, negative: bool, conds: List<Cond>) -> Result<List<Cond>, NoMemory>
    ensures { IfOk result (λ out. map condition out ≡ signed negative (map condition conds)) }
{
    if !negative {
        return Ok(conds);
    }
    one_condition(alloc, negation(conds)?)
}
