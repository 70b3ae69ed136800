ghost use Rattle.std.specs.Prelude.{◌≡◌, false, true, [], IfOk, OnOk, OnErr};
ghost use Rattle.soar_wm.specs.WorkingMemory.{without_tag};
ghost use Rattle.defs_match.specs.Conflict.{conflict};
ghost use Rattle.defs_match.specs.Contents.{with_element, with_rule, without_rule, IsNewElement, HasTag, IsNewRule, HasRule, Works};
ghost use Rattle.defs_match.specs.Rules.{rule_seen};
ghost use Rattle.live_firings.specs.Living.{keys_of};
ghost use Rattle.match_changes.specs.Told.{of_rule};
ghost use Rattle.outstanding.specs.Following.{AreCounted, followed};

use crate::answer::{Open, Outstanding};
use crate::asking::ask;
use crate::telling;
use defs_match::{Instance, Matcher, Rule};
use live_firings::LiveFirings;
use match_changes::MatchChanges;
use open_instances::Kept;
use soar_sym::{List, NoMemory};
use soar_wm::Element;
use std::alloc::Global;
use std::marker::Model;

/// A matcher that tells its changes: what is outstanding is kept, and only what changed is looked at again.
#[derive(Drop)]
pub struct Followed<M: MatchChanges> {
    matcher: M,
    kept: Kept,
    failed: bool,
    alloc: Global,
}

impl<M: MatchChanges> Model for Followed<M> {
    ghost use Rattle.std.specs.Prelude.{◌≡◌, false};
    ghost use Rattle.outstanding.specs.Following.{Follower, follower_code};
    ghost use Rattle.outstanding.specs.Holding.{Holds};

    ghost Value = { Follower M };

    ghost coded = { follower_code M.code };

    ghost view = { λ f. record { matcher = f.matcher; failed = f.failed; counts = f.kept.counts.entries } };

    ghost invariant = { λ f. f.failed ≡ false → (M.failed f.matcher ≡ false) × Holds (M.rules f.matcher) (M.elements f.matcher) f.kept };
}

impl<M: MatchChanges> Followed<M> {
    /// Follows a matcher that has no rule and no element yet. What is kept gets its memory from `alloc`; making it takes none.
    pub fn new(alloc: Global, matcher: M) -> Followed<M>
        requires works { M.failed matcher ≡ false }
        requires rules { M.rules matcher ≡ [] }
        requires elements { M.elements matcher ≡ [] }
        ensures is { result ≡ followed matcher }
        ensures knows { AreCounted result.counts [] }
    {
        Followed {
            matcher,
            kept: Kept::new(alloc),
            failed: false,
            alloc,
        }
    }

    /// Counts no firing, where there is no rule and no element.
    fn start(&mut self)
        requires rules { self.old.failed ≡ false → M.rules self.old.matcher ≡ [] }
        requires elements { self.old.failed ≡ false → M.elements self.old.matcher ≡ [] }
        ensures { self.new ≡ record self.old { counts = [] } }
    {
        self.kept = Kept::new(self.alloc);
    }

    /// Takes an element in.
    fn take_element(&mut self, element: Element) -> Result<(), NoMemory>
        requires new { self.old.failed ≡ false → IsNewElement (M.elements self.old.matcher) element }
        ensures works { OnOk result (Works self.old.failed self.new.failed) }
        ensures rules { OnOk result (M.rules self.new.matcher ≡ M.rules self.old.matcher) }
        ensures elements { OnOk result (M.elements self.new.matcher ≡ with_element (M.elements self.old.matcher) element) }
        ensures counts { OnOk result (self.new.counts ≡ self.old.counts) }
        ensures err { OnErr result (self.new.failed ≡ true) }
    {
        if self.failed {
            return Err(NoMemory);
        }
        let added = telling::add_element(self.alloc, &mut self.matcher, &mut self.kept, element);
        self.failed = added.is_err();
        added
    }

    /// Takes the element of a tag out.
    fn leave_element(&mut self, tag: u32) -> Result<(), NoMemory>
        requires there { self.old.failed ≡ false → HasTag (M.elements self.old.matcher) tag }
        ensures works { OnOk result (Works self.old.failed self.new.failed) }
        ensures rules { OnOk result (M.rules self.new.matcher ≡ M.rules self.old.matcher) }
        ensures elements { OnOk result (M.elements self.new.matcher ≡ without_tag tag (M.elements self.old.matcher)) }
        ensures counts { OnOk result (self.new.counts ≡ self.old.counts) }
        ensures err { OnErr result (self.new.failed ≡ true) }
    {
        if self.failed {
            return Err(NoMemory);
        }
        let removed = telling::remove_element(self.alloc, &mut self.matcher, &mut self.kept, tag);
        self.failed = removed.is_err();
        removed
    }

    /// Takes a rule in.
    fn take_rule(&mut self, rule: &Rule) -> Result<(), NoMemory>
        requires new { self.old.failed ≡ false → IsNewRule (M.rules self.old.matcher) (rule_seen rule.now) }
        ensures works { OnOk result (Works self.old.failed self.new.failed) }
        ensures rules { OnOk result (M.rules self.new.matcher ≡ with_rule (M.rules self.old.matcher) (rule_seen rule.now)) }
        ensures elements { OnOk result (M.elements self.new.matcher ≡ M.elements self.old.matcher) }
        ensures counts { OnOk result (self.new.counts ≡ self.old.counts) }
        ensures err { OnErr result (self.new.failed ≡ true) }
    {
        if self.failed {
            return Err(NoMemory);
        }
        let added = telling::add_rule(self.alloc, &mut self.matcher, &mut self.kept, rule);
        self.failed = added.is_err();
        added
    }

    /// Takes the rule of a number out. It takes no memory.
    fn leave_rule(&mut self, number: u64)
        requires there { self.old.failed ≡ false → HasRule (M.rules self.old.matcher) number }
        ensures works { self.new.failed ≡ self.old.failed }
        ensures rules { self.old.failed ≡ false → M.rules self.new.matcher ≡ without_rule (M.rules self.old.matcher) number }
        ensures elements { self.old.failed ≡ false → M.elements self.new.matcher ≡ M.elements self.old.matcher }
        ensures counts { self.new.counts ≡ self.old.counts }
    {
        if !self.failed {
            telling::remove_rule(&mut self.matcher, &mut self.kept, number);
        }
    }

    /// The conflict set.
    fn all(&mut self, alloc: Global) -> Result<List<Instance>, NoMemory>
        ensures works { OnOk result (Works self.old.failed self.new.failed) }
        ensures conflict { IfOk result (λ instances. instances ≡ conflict (M.rules self.old.matcher) (M.elements self.old.matcher)) }
        ensures rules { OnOk result (M.rules self.new.matcher ≡ M.rules self.old.matcher) }
        ensures elements { OnOk result (M.elements self.new.matcher ≡ M.elements self.old.matcher) }
        ensures counts { OnOk result (self.new.counts ≡ self.old.counts) }
        ensures err { OnErr result (self.new.failed ≡ true) }
    {
        if self.failed {
            return Err(NoMemory);
        }
        let instances = self.matcher.conflict(alloc);
        self.failed = instances.is_err();
        instances
    }

    /// The instances of the rule of a number.
    fn all_of(&mut self, alloc: Global, number: u64) -> Result<List<Instance>, NoMemory>
        ensures works { OnOk result (Works self.old.failed self.new.failed) }
        ensures found { IfOk result (λ found. found ≡ of_rule number (conflict (M.rules self.old.matcher) (M.elements self.old.matcher))) }
        ensures rules { OnOk result (M.rules self.new.matcher ≡ M.rules self.old.matcher) }
        ensures elements { OnOk result (M.elements self.new.matcher ≡ M.elements self.old.matcher) }
        ensures counts { OnOk result (self.new.counts ≡ self.old.counts) }
        ensures err { OnErr result (self.new.failed ≡ true) }
    {
        if self.failed {
            return Err(NoMemory);
        }
        let found = self.matcher.instances_of(alloc, number);
        self.failed = found.is_err();
        found
    }
}

impl<M: MatchChanges> Matcher for Followed<M> {
    ghost rules = { λ f. M.rules f.matcher };

    ghost elements = { λ f. M.elements f.matcher };

    ghost failed = { λ f. f.failed };

    fn add_element(&mut self, element: Element) -> Result<(), NoMemory> {
        self.take_element(element)
    }

    fn remove_element(&mut self, tag: u32) -> Result<(), NoMemory> {
        self.leave_element(tag)
    }

    fn add_rule(&mut self, rule: &Rule) -> Result<(), NoMemory> {
        self.take_rule(rule)
    }

    fn remove_rule(&mut self, number: u64) {
        self.leave_rule(number);
    }

    fn conflict(&mut self, alloc: Global) -> Result<List<Instance>, NoMemory> {
        self.all(alloc)
    }
}

impl<M: MatchChanges> Outstanding for Followed<M> {
    ghost knows = { λ f live. AreCounted f.counts (keys_of live) };

    fn begin(&mut self) {
        self.start();
    }

    fn element_comes(&mut self, element: Element) -> Result<(), NoMemory> {
        self.take_element(element)
    }

    fn element_goes(&mut self, tag: u32) -> Result<(), NoMemory> {
        self.leave_element(tag)
    }

    fn rule_comes(&mut self, rule: &Rule) -> Result<(), NoMemory> {
        self.take_rule(rule)
    }

    fn rule_goes(&mut self, number: u64) {
        self.leave_rule(number);
    }

    fn instances(&mut self, alloc: Global) -> Result<List<Instance>, NoMemory> {
        self.all(alloc)
    }

    fn instances_of(&mut self, alloc: Global, number: u64) -> Result<List<Instance>, NoMemory> {
        self.all_of(alloc, number)
    }

    fn outstanding(&mut self, alloc: Global, live: &mut LiveFirings) -> Result<Open, NoMemory> {
        if self.failed {
            return Err(NoMemory);
        }
        let answer = ask(alloc, &mut self.matcher, &mut self.kept, live);
        self.failed = answer.is_err();
        answer
    }
}
