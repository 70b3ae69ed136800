ghost use Rattle.std.specs.Prelude.{◌≡◌, ◌||◌, IfOk, OnOk};
ghost use Rattle.defs_match.specs.Conflict.{conflict};
ghost use Rattle.defs_match.specs.Contents.{Works};
ghost use Rattle.match_changes.specs.Told.{of_rule};
ghost use Rattle.outstanding.specs.Outstanding.{unfired, unmatched};
ghost use Rattle.outstanding.specs.Wrapping.{wrapped};

use crate::answer::{Open, Outstanding};
use crate::comparing::{compare, of_rule};
use defs_match::{Instance, Matcher, Rule};
use live_firings::LiveFirings;
use soar_sym::{List, NoMemory};
use soar_wm::Element;
use std::alloc::Global;
use std::marker::Model;

/// A matcher that says nothing of its changes: the whole conflict set is compared with all live firings.
#[derive(Drop)]
pub struct Compared<M: Matcher> {
    matcher: M,
    failed: bool,
}

impl<M: Matcher> Model for Compared<M> {
    ghost use Rattle.outstanding.specs.Wrapping.{Wrapped, wrapped_code};

    ghost Value = { Wrapped M };

    ghost coded = { wrapped_code M.code };

    ghost view = { λ c. record { matcher = c.matcher; failed = c.failed } };
}

impl<M: Matcher> Compared<M> {
    /// The matcher, with what it holds. It takes no memory.
    pub fn new(matcher: M) -> Compared<M>
        ensures { result ≡ wrapped matcher }
    {
        Compared {
            matcher,
            failed: false,
        }
    }
}

impl<M: Matcher> Matcher for Compared<M> {
    ghost rules = { λ c. M.rules c.matcher };

    ghost elements = { λ c. M.elements c.matcher };

    ghost failed = { λ c. c.failed || M.failed c.matcher };

    fn add_element(&mut self, element: Element) -> Result<(), NoMemory> {
        if self.failed {
            return Err(NoMemory);
        }
        self.matcher.add_element(element)
    }

    fn remove_element(&mut self, tag: u32) -> Result<(), NoMemory> {
        if self.failed {
            return Err(NoMemory);
        }
        self.matcher.remove_element(tag)
    }

    fn add_rule(&mut self, rule: &Rule) -> Result<(), NoMemory> {
        if self.failed {
            return Err(NoMemory);
        }
        self.matcher.add_rule(rule)
    }

    fn remove_rule(&mut self, number: u64) {
        if !self.failed {
            self.matcher.remove_rule(number);
        }
    }

    fn conflict(&mut self, alloc: Global) -> Result<List<Instance>, NoMemory> {
        if self.failed {
            return Err(NoMemory);
        }
        self.matcher.conflict(alloc)
    }
}

impl<M: Matcher> Outstanding for Compared<M> {
    ghost knows = { λ c live. Unit {0} };

    fn begin(&mut self) {}

    fn element_comes(&mut self, element: Element) -> Result<(), NoMemory> {
        self.add_element(element)
    }

    fn element_goes(&mut self, tag: u32) -> Result<(), NoMemory> {
        self.remove_element(tag)
    }

    fn rule_comes(&mut self, rule: &Rule) -> Result<(), NoMemory> {
        self.add_rule(rule)
    }

    fn rule_goes(&mut self, number: u64) {
        self.remove_rule(number);
    }

    fn instances(&mut self, alloc: Global) -> Result<List<Instance>, NoMemory> {
        self.conflict(alloc)
    }

    fn instances_of(&mut self, alloc: Global, number: u64) -> Result<List<Instance>, NoMemory> {
        if self.failed {
            return Err(NoMemory);
        }
        let found = out_of_conflict(alloc, &mut self.matcher, number);
        self.failed = found.is_err();
        found
    }

    fn outstanding(&mut self, alloc: Global, live: &mut LiveFirings) -> Result<Open, NoMemory> {
        if self.failed {
            return Err(NoMemory);
        }
        live.settle();
        let answer = by_conflict(alloc, &mut self.matcher, live);
        self.failed = answer.is_err();
        answer
    }
}

/// The instances of the rule of a number, out of the conflict set.
fn out_of_conflict<M: Matcher>(
    alloc: Global,
    matcher: &mut M,
    number: u64,
) -> Result<List<Instance>, NoMemory>
    ensures works { OnOk result (Works (M.failed matcher.old) (M.failed matcher.new)) }
    ensures found { IfOk result (λ found. found ≡ of_rule number (conflict (M.rules matcher.old) (M.elements matcher.old))) }
    ensures rules { OnOk result (M.rules matcher.new ≡ M.rules matcher.old) }
    ensures elements { OnOk result (M.elements matcher.new ≡ M.elements matcher.old) }
{
    let instances = matcher.conflict(alloc)?;
    of_rule(alloc, instances, number)
}

/// What is outstanding, by the conflict set.
fn by_conflict<M: Matcher>(
    alloc: Global,
    matcher: &mut M,
    live: &LiveFirings,
) -> Result<Open, NoMemory>
    ensures works { OnOk result (Works (M.failed matcher.old) (M.failed matcher.new)) }
    ensures unfired { IfOk result (λ answer. answer.unfired ≡ unfired (conflict (M.rules matcher.old) (M.elements matcher.old)) live.now.list) }
    ensures unmatched { IfOk result (λ answer. answer.unmatched ≡ unmatched (conflict (M.rules matcher.old) (M.elements matcher.old)) live.now.list) }
    ensures rules { OnOk result (M.rules matcher.new ≡ M.rules matcher.old) }
    ensures elements { OnOk result (M.elements matcher.new ≡ M.elements matcher.old) }
{
    let instances = matcher.conflict(alloc)?;
    compare(alloc, instances, live)
}
