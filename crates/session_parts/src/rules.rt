// Loaded productions by number.
ghost use Rattle.std.specs.Prelude.{◌≡◌, map};
ghost use Rattle.soar_sym.specs.Words.{IsKnown};
ghost use Rattle.defs_match.specs.Rules.{rule_seen};
ghost use Rattle.defs_run.specs.Listing.{rule_name};
ghost use Rattle.soar_settle.specs.Known.{AreRulesKnown};

use rule_shelf::Rules;
use soar_sym::{Sym, SymTable};

/// The name of the rule of a number.
#[tactic(auto, using(crate::proofs::RuleLemmas::name_known))]
pub fn rule_name(table: &SymTable, rules: &Rules, number: u64) -> Sym
    requires { AreRulesKnown table.now (map rule_seen rules.now) }
    ensures name { result ≡ rule_name (map rule_seen rules.now) number }
    ensures known { IsKnown table.now result }
{
    let _ = table;
    name_of(rules, number)
}

fn name_of(rules: &Rules, number: u64) -> Sym
    ensures { result ≡ rule_name (map rule_seen rules.now) number }
{
    match rules.get(number) {
        Some(rule) => rule.production.name,
        None => Sym::Int(0),
    }
}
