// The explanations of learned rules.
ghost use Rattle.std.specs.Prelude.{◌≡◌, map};
ghost use Rattle.std.specs.Option.{option_copied, option_map};
ghost use Rattle.defs_run.specs.Carrying.{chain_of_rule};
ghost use Rattle.defs_soar.specs.History.{chain_seen};
ghost use Rattle.cycle_phases.specs.Hands.{learned_rule_seen};

use cycle_phases::LearnedRule;
use defs_soar::Chain;

/// The explanation of the rule of a number, where that was learned.
pub fn chain_of_rule(chains: &[LearnedRule], rule: u64) -> Option<&Chain>
    ensures { option_map chain_seen (option_copied result) ≡ chain_of_rule (map learned_rule_seen chains.now) rule }
{
    'chains: for learned in chains {
        if learned.rule == rule {
            return Some(&learned.chain);
        }
    }
    None
}
