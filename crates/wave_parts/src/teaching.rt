// Rules that go, with their explanations: justifications, once they are spent.
ghost use Rattle.std.specs.Prelude.{◌≡◌, [], map, IfOk, OnOk};
ghost use Rattle.defs_match.specs.Contents.{rule_numbered};
ghost use Rattle.defs_match.specs.Rules.{rule_seen};
ghost use Rattle.defs_soar.specs.Start.{without_justifications};
ghost use Rattle.defs_soar.specs.Waves.{is_spent, without_spent};
ghost use Rattle.live_firings.specs.Living.{live_seen};
ghost use Rattle.wave_learning.specs.Hands.{learned_rule_seen};
ghost use Rattle.wave_parts.specs.Programs.{AreExplained, chains_of, is_explained_in, is_justified, numbers_where, program_of};
ghost use Rattle.wave_parts.specs.Seen.{IsSound};
ghost use Rattle.wave_parts.specs.Spent.{is_justified_at, with_each_justified, with_justified};
ghost use Rattle.wave_parts.specs.Teaching.{numbers_among, without_numbers};

use crate::parts::Parts;
use defs_match::Rule;
use live_firings::Live;
use rule_shelf::Rules;
use soar_rule::Kind;
use soar_sym::{List, NoMemory};
use std::alloc::Global;
use std::collections::BTreeSet;
use wave_learning::LearnedRule;

impl Parts {
    /// Takes all justifications away, which have these numbers, with their explanations.
    pub(crate) fn drop_justifications(&mut self, numbers: &[u64])
        requires sound { IsSound self.old }
        requires numbers { numbers.now ≡ numbers_where is_justified (map rule_seen self.old.rules) }
        ensures program { program_of self.new ≡ without_justifications (program_of self.old) }
        ensures rules { map rule_seen self.new.rules ≡ without_numbers numbers.now (map rule_seen self.old.rules) }
        ensures numbers { numbers.now ≡ numbers_among numbers.now (map rule_seen self.old.rules) }
        ensures same { self.new ≡ record self.old { rules = self.new.rules; chains = self.new.chains } }
        ensures sound { IsSound self.new }
    {
        self.drop_numbered(numbers);
    }

    /// Takes the justifications of these firings away, with their explanations. Gives their numbers.
    pub(crate) fn drop_spent(&mut self, alloc: Global, gone: &[Live]) -> Result<List<u64>, NoMemory>
        requires { IsSound self.old }
        ensures program { OnOk result (program_of self.new ≡ without_spent (map live_seen gone.now) (program_of self.old)) }
        ensures rules { IfOk result (λ numbers. map rule_seen self.new.rules ≡ without_numbers numbers (map rule_seen self.old.rules)) }
        ensures numbers { IfOk result (λ numbers. numbers ≡ numbers_where (is_spent (map live_seen gone.now)) (map rule_seen self.old.rules)) }
        ensures same { self.new ≡ record self.old { rules = self.new.rules; chains = self.new.chains } }
        ensures sound { IsSound self.new }
    {
        let numbers = spent(alloc, &self.rules, gone)?;
        self.drop_numbered(numbers.as_slice());
        Ok(numbers)
    }

    /// Takes the rules of these numbers away, and the explanations that have no rule then. Without numbers it looks at
    /// none.
    #[tactic(auto, using(crate::proofs::ExplainedLemmas::all_explained))]
    fn drop_numbered(&mut self, numbers: &[u64])
        requires { AreExplained (map rule_seen self.old.rules) (map learned_rule_seen self.old.chains) }
        ensures rules { map rule_seen self.new.rules ≡ without_numbers numbers.now (map rule_seen self.old.rules) }
        ensures chains { map learned_rule_seen self.new.chains ≡ chains_of (map rule_seen self.new.rules) (map learned_rule_seen self.old.chains) }
        ensures same { self.new ≡ record self.old { rules = self.new.rules; chains = self.new.chains } }
    {
        if numbers.is_empty() {
            return;
        }
        drop_rules(&mut self.rules, numbers);
        drop_chains(&mut self.chains, &self.rules);
    }
}

// ---- numbers

/// The numbers of the justifications of which these are the firings, in order.
#[tactic(auto, using(crate::proofs::SpentLemmas::spent_found))]
fn spent(alloc: Global, rules: &Rules, gone: &[Live]) -> Result<List<u64>, NoMemory>
    ensures { IfOk result (λ numbers. numbers ≡ numbers_where (is_spent (map live_seen gone.now)) (map rule_seen rules.now)) }
{
    rules.law();
    let found = justified(alloc, rules, gone)?;
    let numbers = listed(alloc, &found)?;
    Ok(numbers)
}

/// The numbers of the rules of these firings that are justifications.
fn justified(alloc: Global, rules: &Rules, gone: &[Live]) -> Result<BTreeSet<u64>, NoMemory>
    ensures { IfOk result (λ found. found.keys ≡ with_each_justified (map rule_seen rules.now) [] gone.now) }
{
    let mut found = BTreeSet::new(alloc);
    'gone: for firing in gone {
        add_justified(&mut found, rules, firing.instance.rule)?;
    }
    Ok(found)
}

/// Adds the number, where it is of a justification.
fn add_justified(found: &mut BTreeSet<u64>, rules: &Rules, number: u64) -> Result<(), NoMemory>
    ensures { OnOk result (found.new.keys ≡ with_justified (map rule_seen rules.now) found.old.keys number) }
{
    if is_justified(rules, number) {
        found.insert(number)?;
    }
    Ok(())
}

/// Whether the rule of this number is a justification.
fn is_justified(rules: &Rules, number: u64) -> bool
    ensures { result ≡ is_justified_at (rule_numbered number (map rule_seen rules.now)) }
{
    match rules.get(number) {
        Some(rule) => is_justification(rule),
        None => false,
    }
}

fn is_justification(rule: &Rule) -> bool
    ensures { result ≡ is_justified (rule_seen rule.now) }
{
    matches!(rule.production.kind, Kind::Justification)
}

fn listed(alloc: Global, found: &BTreeSet<u64>) -> Result<List<u64>, NoMemory>
    ensures { IfOk result (λ numbers. numbers ≡ found.now.keys) }
{
    let mut numbers = List::new(alloc);
    'numbers: for number in found.iter() {
        numbers.push(*number)?;
    }
    Ok(numbers)
}

// ---- what goes

fn drop_rules(rules: &mut Rules, numbers: &[u64])
    ensures { map rule_seen rules.new ≡ without_numbers numbers.now (map rule_seen rules.old) }
{
    'numbers: for number in numbers {
        let _ = rules.remove(*number);
    }
}

/// Keeps the explanations of these rules.
fn drop_chains(chains: &mut List<LearnedRule>, rules: &Rules)
    ensures { map learned_rule_seen chains.new ≡ chains_of (map rule_seen rules.now) (map learned_rule_seen chains.old) }
{
    let mut at = 0;
    'chains: while at < chains.len() {
        if has_rule(rules, &chains.as_slice()[at]) {
            at += 1;
        } else {
            let _ = chains.remove(at);
        }
    }
}

fn has_rule(rules: &Rules, learned: &LearnedRule) -> bool
    ensures { result ≡ is_explained_in (map rule_seen rules.now) (learned_rule_seen learned.now) }
{
    rules.get(learned.rule).is_some()
}
