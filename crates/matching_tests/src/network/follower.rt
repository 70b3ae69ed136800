// A conflict set that is kept by what a network tells.
ghost use Rattle.std.specs.Prelude.{◌≡◌, ◌||◌, map, false, OnOk, IfOk};
ghost use Rattle.rete_net.specs.Chains.{rule_of};
ghost use Rattle.rete_net.specs.Nets.{IsEmpty};
ghost use Rattle.matching_tests.specs.NetworkWorlds.{SameContents};

use super::shown::same_instances;
use defs_match::{Instance, Matcher, Rule};
use match_changes::{MatchChanges, MatchKey};
use rete_net::Net;
use soar_sym::{List, NoMemory};
use soar_wm::Element;
use std::alloc::Global;
use std::collections::BTreeMap;

/// A network, and the conflict set that what it told so far makes.
#[derive(Drop)]
pub struct Follower {
    net: Net,
    set: BTreeMap<MatchKey, Instance>,

    /// Whether that was the conflict set each time that it was asked for.
    agrees: bool,
    failed: bool,
    alloc: Global,
}

impl Follower {
    /// No rule and no element.
    pub fn new(alloc: Global) -> Result<Follower, NoMemory>
        ensures net { IfOk result (λ f. IsEmpty f.net) }
        ensures works { IfOk result (λ f. f.failed ≡ false) }
    {
        Ok(Follower {
            net: Net::new(alloc)?,
            set: BTreeMap::new(alloc),
            agrees: true,
            failed: false,
            alloc,
        })
    }

    /// Whether it had the conflict set each time that it was asked for it.
    pub fn agrees(&self) -> bool {
        self.agrees
    }
}

/// Brings the instance of a told key up to date.
fn follow_one(
    alloc: Global,
    net: &mut Net,
    set: &mut BTreeMap<MatchKey, Instance>,
    key: MatchKey,
) -> Result<(), NoMemory>
    ensures { OnOk result (SameContents net.old net.new) }
{
    set.remove(&key);
    if let Some(instance) = net.instance(alloc, &key)? {
        set.insert(key, instance)?;
    }
    Ok(())
}

/// Brings the instances of told keys up to date.
fn follow(
    alloc: Global,
    net: &mut Net,
    set: &mut BTreeMap<MatchKey, Instance>,
    told: List<MatchKey>,
) -> Result<(), NoMemory>
    ensures { OnOk result (SameContents net.old net.new) }
{
    'told: for key in told.into_vec() {
        follow_one(alloc, net, set, key)?;
    }
    Ok(())
}

impl Matcher for Follower {
    ghost rules = { λ f. map rule_of f.net.chains };

    ghost elements = { λ f. f.net.elements };

    ghost failed = { λ f. f.failed || f.net.failed };

    fn add_element(&mut self, element: Element) -> Result<(), NoMemory> {
        if self.failed {
            return Err(NoMemory);
        }
        self.failed = true;
        let told = self.net.add_element_told(self.alloc, element)?;
        follow(self.alloc, &mut self.net, &mut self.set, told)?;
        self.failed = false;
        Ok(())
    }

    fn remove_element(&mut self, tag: u32) -> Result<(), NoMemory> {
        if self.failed {
            return Err(NoMemory);
        }
        self.failed = true;
        let told = self.net.remove_element_told(self.alloc, tag)?;
        follow(self.alloc, &mut self.net, &mut self.set, told)?;
        self.failed = false;
        Ok(())
    }

    fn add_rule(&mut self, rule: &Rule) -> Result<(), NoMemory> {
        if self.failed {
            return Err(NoMemory);
        }
        self.failed = true;
        let told = self.net.add_rule_told(self.alloc, rule)?;
        follow(self.alloc, &mut self.net, &mut self.set, told)?;
        self.failed = false;
        Ok(())
    }

    fn remove_rule(&mut self, number: u64) {
        if !self.failed {
            self.net.remove_rule(number);
            self.set.retain(|key, _| key.rule != number);
        }
    }

    fn conflict(&mut self, alloc: Global) -> Result<List<Instance>, NoMemory> {
        if self.failed {
            return Err(NoMemory);
        }
        self.failed = true;
        let instances = self.net.conflict(alloc)?;
        if !same_instances(alloc, &self.set, &instances)? {
            self.agrees = false;
        }
        self.failed = false;
        Ok(instances)
    }
}
