// Rules that go from an agent and from its matcher, with their explanations.
ghost use Rattle.std.specs.Prelude.{◌≡◌, false, map, List as ListOf};
ghost use Rattle.defs_match.specs.Contents.{HasRule, without_rule};
ghost use Rattle.defs_match.specs.Rules.{rule_seen};
ghost use Rattle.live_firings.specs.declared.live.Live.{Live as LiveOf};
ghost use Rattle.cycle_parts.specs.Dropping.{AreDropped, is_of_name, unnamed, unnamed_chains};
ghost use Rattle.pending_work.specs.Firables.{AreNumbered};
ghost use Rattle.decision_parts.specs.Hands.{learned_rule_seen};

use decision_parts::{LearnedRule, Parts};
use outstanding::Outstanding;
use rule_shelf::Rules;
use soar_sym::{List, Sym, is_symbol};

/// Takes the rules of a name away, and their explanations.
pub fn drop_named<M: Outstanding>(parts: &mut Parts, matcher: &mut M, name: Sym)
    requires works { M.failed matcher.old ≡ false }
    requires held { M.rules matcher.old ≡ map rule_seen parts.old.rules }
    requires numbered { AreNumbered (map rule_seen parts.old.rules) }
    ensures works { M.failed matcher.new ≡ false }
    ensures held { M.rules matcher.new ≡ map rule_seen parts.new.rules }
    ensures elements { M.elements matcher.new ≡ M.elements matcher.old }
    ensures knows { (live : ListOf LiveOf) → M.knows matcher.old live → M.knows matcher.new live }
    ensures dropped { AreDropped parts.old parts.new name }
    ensures table { parts.new.table ≡ parts.old.table }
    ensures settings { parts.new.settings ≡ parts.old.settings }
{
    drop_chains(&mut parts.chains, &parts.rules, name);
    drop_rules(&mut parts.rules, matcher, name);
}

/// Takes the rules of a name away.
fn drop_rules<M: Outstanding>(rules: &mut Rules, matcher: &mut M, name: Sym)
    requires works { M.failed matcher.old ≡ false }
    requires held { M.rules matcher.old ≡ map rule_seen rules.old }
    requires numbered { AreNumbered (map rule_seen rules.old) }
    ensures works { M.failed matcher.new ≡ false }
    ensures held { M.rules matcher.new ≡ map rule_seen rules.new }
    ensures elements { M.elements matcher.new ≡ M.elements matcher.old }
    ensures knows { (live : ListOf LiveOf) → M.knows matcher.old live → M.knows matcher.new live }
    ensures dropped { map rule_seen rules.new ≡ unnamed name (map rule_seen rules.old) }
{
    'rules: loop {
        match rules.first_named(name) {
            Some(number) => drop_numbered(rules, matcher, number),
            None => return,
        }
    }
}

/// Takes the rule of a number away.
fn drop_numbered<M: Outstanding>(rules: &mut Rules, matcher: &mut M, number: u64)
    requires there { HasRule (map rule_seen rules.old) number }
    requires works { M.failed matcher.old ≡ false }
    requires held { M.rules matcher.old ≡ map rule_seen rules.old }
    ensures works { M.failed matcher.new ≡ false }
    ensures held { M.rules matcher.new ≡ map rule_seen rules.new }
    ensures elements { M.elements matcher.new ≡ M.elements matcher.old }
    ensures knows { (live : ListOf LiveOf) → M.knows matcher.old live → M.knows matcher.new live }
    ensures dropped { map rule_seen rules.new ≡ without_rule (map rule_seen rules.old) number }
{
    let _ = rules.remove(number);
    matcher.rule_goes(number);
}

/// Takes the explanations of the rules of a name away.
fn drop_chains(chains: &mut List<LearnedRule>, rules: &Rules, name: Sym)
    ensures { map learned_rule_seen chains.new ≡ unnamed_chains name (map rule_seen rules.now) (map learned_rule_seen chains.old) }
{
    if rules.has_name(name) {
        drop_chains_of(chains, rules, name);
    }
}

fn drop_chains_of(chains: &mut List<LearnedRule>, rules: &Rules, name: Sym)
    ensures { map learned_rule_seen chains.new ≡ unnamed_chains name (map rule_seen rules.now) (map learned_rule_seen chains.old) }
{
    let mut at = 0;
    'chains: while at < chains.len() {
        if is_of_name(name, rules, chains.as_slice()[at].rule) {
            chains.remove(at);
        } else {
            at += 1;
        }
    }
}

/// Whether the rule of a number has this name.
fn is_of_name(name: Sym, rules: &Rules, number: u64) -> bool
    ensures { result ≡ is_of_name name (map rule_seen rules.now) number }
{
    rules.law();
    match rules.get(number) {
        Some(rule) => is_symbol(rule.production.name, name),
        None => false,
    }
}
