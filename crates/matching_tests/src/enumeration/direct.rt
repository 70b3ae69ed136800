// A matcher that is told of changes.
ghost use Rattle.std.specs.Prelude.{◌≡◌, false, true, [], ◌∷◌, IfOk, IsTrue, OnOk};
ghost use Rattle.soar_rule.specs.AsItStands.{can_be_matched};
ghost use Rattle.soar_rule.specs.Below.{conds_below};
ghost use Rattle.soar_rule.specs.Conditions.{conditions, all_of, positive, negated};
ghost use Rattle.soar_rule.specs.Productions.{production_seen};
ghost use Rattle.soar_rule.specs.declared.cond.Atom.TheVariants.{Var as VarOf};
ghost use Rattle.soar_rule.specs.declared.cond.Test.TheVariants.{Plain as PlainOf};
ghost use Rattle.defs_match.specs.Contents.{Works};
ghost use Rattle.defs_match.specs.Worked.{pattern_of};

use super::build::{lacks, takes, top};
use super::shown::{rule_of, shown};
use defs_match::{Matcher, Rule};
use match_direct::Direct;
use soar_rule::Cond;
use soar_sym::{List, NoMemory, Sym};
use std::alloc::Global;
use std::test::Fail;

/// `(<s> ^a <x>) (<s> ^c <y>) -(<s> ^b <x>)`
fn blocked_join(alloc: Global) -> Result<List<Cond>, NoMemory>
    ensures seen { IfOk result (λ conds. conditions conds ≡ all_of (positive (pattern_of false 0 24 (PlainOf (VarOf 1) ∷ [])) ∷ positive (pattern_of false 0 26 (PlainOf (VarOf 2) ∷ [])) ∷ negated (pattern_of false 0 25 (PlainOf (VarOf 1) ∷ [])) ∷ [])) }
    ensures below { IfOk result (λ conds. IsTrue (conds_below 10 conds)) }
{
    let conds = vec![in alloc;
        takes(alloc, 24, 1)?,
        takes(alloc, 26, 2)?,
        lacks(alloc, 25, 1)?,
    ]?;
    Ok(List::from_vec(conds))
}

/// Whether the rule has one instance without its blocker, and none with it or once the rule is gone.
fn comes_and_goes<M: Matcher>(alloc: Global, matcher: &mut M, rule: &Rule) -> Result<bool, NoMemory>
    requires working { M.failed matcher.old ≡ false }
    requires rules { M.rules matcher.old ≡ [] }
    requires elements { M.elements matcher.old ≡ [] }
    requires number { rule.now.number ≡ 5 }
    requires matchable { can_be_matched (production_seen rule.now.production) ≡ true }
{
    matcher.add_element(top(7, 25, Sym::Int(1)))?;
    matcher.add_element(top(6, 24, Sym::Int(1)))?;
    matcher.add_rule(rule)?;
    matcher.add_element(top(8, 26, Sym::Int(2)))?;
    let blocked = is_shown(alloc, matcher, "")?;
    matcher.remove_element(7)?;
    let free = is_shown(alloc, matcher, "5:68;")?;
    matcher.remove_rule(5);
    let gone = is_shown(alloc, matcher, "")?;
    Ok(blocked && free && gone)
}

/// Whether the conflict set is this.
fn is_shown<M: Matcher>(alloc: Global, matcher: &mut M, wanted: &str) -> Result<bool, NoMemory>
    ensures works { OnOk result (Works (M.failed matcher.old) (M.failed matcher.new)) }
    ensures rules { OnOk result (M.rules matcher.new ≡ M.rules matcher.old) }
    ensures elements { OnOk result (M.elements matcher.new ≡ M.elements matcher.old) }
{
    let instances = matcher.conflict(alloc)?;
    Ok(shown(alloc, &instances)?.as_str() == wanted)
}

/// What becomes of the join in a new matcher.
fn direct_comes_and_goes(alloc: Global) -> Result<bool, NoMemory> {
    let rule = rule_of(alloc, 5, blocked_join(alloc)?)?;
    let mut matcher = Direct::new(alloc)?;
    comes_and_goes(alloc, &mut matcher, &rule)
}

#[test]
fn a_join_comes_when_its_blocker_goes(rt: HostRuntime) -> Result<(), Fail> {
    assert!(rt; direct_comes_and_goes(rt.alloc())?);
    Ok(())
}
