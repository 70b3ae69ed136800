// What a matcher is told of rules that go and come by themselves.
ghost use Rattle.std.specs.Prelude.{◌≡◌, false, map, OnOk, List as ListOf};
ghost use Rattle.defs_match.specs.Rules.{rule_seen};
ghost use Rattle.live_firings.specs.declared.live.Live.{Live as LiveOf};
ghost use Rattle.cycle_parts.specs.Retelling.{AreHeld, AreNewAbove, with_each_above, without_each_rule};

use outstanding::Outstanding;
use rule_shelf::Rules;
use soar_sym::NoMemory;

/// Lets go of the rules of these numbers, one after the other. It takes no memory.
pub fn forget<M: Outstanding>(matcher: &mut M, numbers: &[u64])
    requires works { M.failed matcher.old ≡ false }
    requires held { AreHeld (M.rules matcher.old) numbers.now }
    ensures works { M.failed matcher.new ≡ false }
    ensures rules { M.rules matcher.new ≡ without_each_rule (M.rules matcher.old) numbers.now }
    ensures elements { M.elements matcher.new ≡ M.elements matcher.old }
    ensures knows { (live : ListOf LiveOf) → M.knows matcher.old live → M.knows matcher.new live }
{
    'numbers: for number in numbers {
        matcher.rule_goes(*number);
    }
}

/// Takes in the rules that are numbered above the last before, in turn.
pub fn take_up<M: Outstanding>(matcher: &mut M, last: u64, rules: &Rules) -> Result<(), NoMemory>
    requires works { M.failed matcher.old ≡ false }
    requires new { AreNewAbove last (M.rules matcher.old) (map rule_seen rules.now) }
    ensures works { OnOk result (M.failed matcher.new ≡ false) }
    ensures rules { OnOk result (M.rules matcher.new ≡ with_each_above last (M.rules matcher.old) (map rule_seen rules.now)) }
    ensures elements { OnOk result (M.elements matcher.new ≡ M.elements matcher.old) }
    ensures knows { OnOk result ((live : ListOf LiveOf) → M.knows matcher.old live → M.knows matcher.new live) }
{
    'rules: for (_, rule) in rules.after(last) {
        matcher.rule_comes(rule)?;
    }
    Ok(())
}
