ghost use Rattle.std.specs.Prelude.{◌≡◌, map, IfOk};
ghost use Rattle.std.specs.Option.{option_copied, option_map};
ghost use Rattle.defs_match.specs.Contents.{rule_numbered};
ghost use Rattle.defs_match.specs.Rules.{rule_seen};

use shared_values::Shared;
use soar_rule::Production;
use soar_wm::NoMemory;
use std::alloc::Global;

/// A loaded production, under the number by which rules are ordered. Whatever holds the rule shares the production.
#[derive(Drop)]
pub struct Rule {
    pub number: u64,
    pub production: Shared<Production>,
}

impl Rule {
    /// A production under its number.
    pub fn new(alloc: Global, number: u64, production: Production) -> Result<Rule, NoMemory>
        ensures { IfOk result (λ rule. rule ≡ record { number = number; production = production }) }
    {
        Ok(Rule {
            number,
            production: Shared::new(alloc, production)?,
        })
    }

    /// The rule once more, with the same production in memory.
    pub fn share(&self) -> Result<Rule, NoMemory>
        ensures { IfOk result (λ rule. rule ≡ self.now) }
    {
        Ok(Rule {
            number: self.number,
            production: self.production.share()?,
        })
    }
}

/// The first rule of a number.
pub fn rule_numbered(rules: &[Rule], number: u64) -> Option<&Rule>
    ensures { option_map rule_seen (option_copied result) ≡ rule_numbered number (map rule_seen rules.now) }
{
    'rules: for rule in rules {
        if rule.number == number {
            return Some(rule);
        }
    }
    None
}
