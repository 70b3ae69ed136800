ghost use Rattle.std.specs.Prelude.{◌≡◌, ◌↔◌, ◌++◌, [], ◌∷◌, length, map, filter, nat_lt, IsTrue, OnOk, OnErr, IfOk};
ghost use Rattle.std.specs.List.{list_any};
ghost use Rattle.std.specs.Map.{values_of};
ghost use Rattle.std.specs.Option.{option_copied, option_map};
ghost use Rattle.defs_match.specs.Contents.{rule_numbered, without_rule};
ghost use Rattle.defs_match.specs.Rules.{rule_seen};
ghost use Rattle.defs_run.specs.Carrying.{is_named, rule_named};
ghost use Rattle.rule_shelf.specs.Shelf.{alike_numbers, is_justified, justification_numbers, AreBelow, IsRising};

use crate::index::{Index, first_number};
use body_marks::fingerprint;
use defs_match::Rule;
use soar_rule::Kind;
use soar_sym::{List, NoMemory, Sym};
use std::alloc::Global;
use std::collections::btree_map::{Range, Values};
use std::collections::{BTreeMap, btree_set};
use std::marker::Model;
use std::ops::Bound;

/// The rules of an agent, in order of number, found by number, by name and by fingerprint.
#[derive(Drop)]
pub struct Rules {
    by_number: BTreeMap<u64, Rule>,
    index: Index,
}

impl Model for Rules {
    ghost use Rattle.std.specs.Prelude.{List as ListOf};
    ghost use Rattle.std.specs.Coded.{coded_list};
    ghost use Rattle.std.specs.Map.{values_of};
    ghost use Rattle.defs_match.specs.contracts.rule.Rule as rule;
    ghost use Rattle.defs_match.specs.declared.rule.Rule.{Rule as RuleKept};
    ghost use Rattle.rule_shelf.specs.Marks.{IsShelf};

    ghost Value = { ListOf RuleKept };

    ghost coded = { coded_list rule.the_row.coded };

    ghost view = { λ r. values_of r.by_number.entries };

    ghost invariant = { λ r. IsShelf r.by_number.entries r.index };
}

impl Rules {
    /// No rules. It takes no memory.
    pub fn new(alloc: Global) -> Rules
        ensures { result ≡ [] }
    {
        Rules {
            by_number: BTreeMap::new(alloc),
            index: Index::new(alloc),
        }
    }

    /// Adds a rule behind all others. Where memory is refused all stays as it was.
    pub fn push(&mut self, rule: Rule) -> Result<(), NoMemory>
        requires { AreBelow rule.number (map rule_seen self.old) }
        ensures ok { OnOk result (self.new ≡ self.old ++ rule ∷ []) }
        ensures err { OnErr result (self.new ≡ self.old) }
    {
        let name = rule.production.name;
        let number = rule.number;
        let mark = fingerprint(&rule.production);
        self.index.note(name, number, mark, is_justified(&rule))?;
        match self.by_number.insert(number, rule) {
            Ok(_) => Ok(()),
            Err(_) => {
                self.index.forget(name, number, mark);
                Err(NoMemory)
            }
        }
    }

    /// Takes the rule of a number away, and answers it. It takes no memory.
    pub fn remove(&mut self, number: u64) -> Option<Rule>
        ensures removed { option_map rule_seen result ≡ rule_numbered number (map rule_seen self.old) }
        ensures rest { map rule_seen self.new ≡ without_rule (map rule_seen self.old) number }
    {
        match self.by_number.remove(&number) {
            Some(rule) => {
                let mark = fingerprint(&rule.production);
                self.index.forget(rule.production.name, number, mark);
                Some(rule)
            }
            None => None,
        }
    }

    /// The rule of a number.
    pub fn get(&self, number: u64) -> Option<&Rule>
        ensures { option_map rule_seen (option_copied result) ≡ rule_numbered number (map rule_seen self.now) }
    {
        self.by_number.get(&number)
    }

    /// The number of the first rule of a name.
    pub fn first_named(&self, name: Sym) -> Option<u64>
        ensures { result ≡ option_map (λ rule. rule.number) (rule_named (map rule_seen self.now) name) }
    {
        first_number(self.index.of_name(name))
    }

    /// The first rule of a name.
    pub fn named(&self, name: Sym) -> Option<&Rule>
        ensures { option_map rule_seen (option_copied result) ≡ rule_named (map rule_seen self.now) name }
    {
        self.law();
        match self.first_named(name) {
            Some(number) => self.get(number),
            None => None,
        }
    }

    /// Whether a rule has this name.
    pub fn has_name(&self, name: Sym) -> bool
        ensures { result ≡ list_any (is_named name) (map rule_seen self.now) }
    {
        self.first_named(name).is_some()
    }

    /// The numbers of the rules of a fingerprint, each behind it, in order. It takes no memory.
    pub fn alike(&self, fingerprint: u64) -> btree_set::Range<'_, (u64, u64)>
        ensures { map (λ place. place.1) result ≡ alike_numbers fingerprint (map rule_seen self.now) }
    {
        self.index.of_print(fingerprint)
    }

    /// The numbers of the justifications, in order (Soar manual, chapter 4, justifications).
    pub fn justifications(&self, alloc: Global) -> Result<List<u64>, NoMemory>
        ensures { IfOk result (λ numbers. numbers ≡ justification_numbers (map rule_seen self.now)) }
    {
        self.index.justifications(alloc)
    }

    /// How many rules there are.
    pub fn len(&self) -> usize
        ensures { result ≡ length self.now }
    {
        self.by_number.len()
    }

    /// Whether the numbers of all rules are below this one, so that a rule of it can be pushed.
    pub fn are_below(&self, number: u64) -> bool
        ensures { IsTrue result ↔ AreBelow number (map rule_seen self.now) }
    {
        match self.by_number.last_key_value() {
            Some((last, _)) => *last < number,
            None => true,
        }
    }

    /// All rules, in order of number.
    pub fn iter(&self) -> Values<'_, u64, Rule>
        ensures { result ≡ self.now }
    {
        self.by_number.values()
    }

    /// The rules with a number above this one, in order, each with its number.
    pub fn after(&self, number: u64) -> Range<'_, u64, Rule>
        ensures { map rule_seen (values_of result) ≡ filter (λ rule. nat_lt number rule.number) (map rule_seen self.now) }
    {
        self.by_number
            .range((Bound::Excluded(number), Bound::Unbounded))
    }

    /// Numbers rise strictly.
    pub fn law(&self)
        ensures { IsRising (map rule_seen self.now) }
    {
        let _count = self.by_number.len();
    }
}

fn is_justified(rule: &Rule) -> bool
    ensures { result ≡ is_justified (rule_seen rule.now) }
{
    matches!(rule.production.kind, Kind::Justification)
}
