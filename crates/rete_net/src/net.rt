ghost use Rattle.std.specs.Prelude.{◌≡◌, map, false, IfOk};
ghost use Rattle.rete_net.specs.Chains.{rule_of};
ghost use Rattle.rete_net.specs.Nets.{IsEmpty, IsShared, live_nodes};

use crate::loaded::{self, Loaded};
use crate::told;
use defs_match::{Instance, Matcher, Rule};
use match_changes::{MatchChanges, MatchKey};
use soar_sym::{List, NoMemory};
use soar_wm::Element;
use std::alloc::Global;
use std::marker::Model;

/// The matcher that keeps the partial matches of its rules in a network (Forgy 1982; Doorenbos 1995).
///
/// Rules that begin alike, up to the names of their variables, share the nodes of what they have in common.
#[derive(Drop)]
pub struct Net {
    loaded: Loaded,
    failed: bool,
    alloc: Global,
}

impl Model for Net {
    ghost use Rattle.std.specs.Coded.{codes};
    ghost use Rattle.rete_net.specs.contracts.chain.Chain as chain;
    ghost use Rattle.rete_net.specs.Nets.{NetOf};

    ghost Value = { NetOf };

    ghost coded = { Prim.hlevel (codes, chain.the_row.coded) };

    ghost use Rattle.rete_net.specs.Insides.{net_view, IsNet};

    ghost view = { net_view };

    ghost invariant = { IsNet };
}

impl Net {
    /// No rule and no element. Nodes, copies of rules and elements get their memory from `alloc`.
    pub fn new(alloc: Global) -> Result<Net, NoMemory>
        ensures { IfOk result (λ net. IsEmpty net) }
    {
        let loaded = loaded::start(alloc)?;
        Ok(Net {
            loaded,
            failed: false,
            alloc,
        })
    }

    /// How many nodes are live, the root among them. It takes no memory.
    pub fn nodes(&self) -> usize
        ensures { result ≡ live_nodes self.now }
    {
        self.loaded.joins.nodes()
    }

    /// No two live nodes have the same parent and the same condition, and each but the root is on the way of a loaded rule.
    pub fn law(&self)
        ensures { self.now.failed ≡ false → IsShared self.now }
    {
        self.loaded.joins.law();
    }
}

impl Matcher for Net {
    ghost rules = { λ n. map rule_of n.chains };

    ghost elements = { λ n. n.elements };

    ghost failed = { λ n. n.failed };

    fn add_element(&mut self, element: Element) -> Result<(), NoMemory> {
        if self.failed {
            return Err(NoMemory);
        }
        let added = loaded::add(&mut self.loaded, element);
        self.failed = added.is_err();
        added?;
        Ok(())
    }

    fn remove_element(&mut self, tag: u32) -> Result<(), NoMemory> {
        if self.failed {
            return Err(NoMemory);
        }
        let removed = loaded::remove(&mut self.loaded, tag);
        self.failed = removed.is_err();
        removed?;
        Ok(())
    }

    fn add_rule(&mut self, rule: &Rule) -> Result<(), NoMemory> {
        if self.failed {
            return Err(NoMemory);
        }
        let added = loaded::load(self.alloc, &mut self.loaded, rule);
        self.failed = added.is_err();
        added
    }

    fn remove_rule(&mut self, number: u64) {
        if !self.failed {
            loaded::unload(&mut self.loaded, number);
        }
    }

    fn conflict(&mut self, alloc: Global) -> Result<List<Instance>, NoMemory> {
        if self.failed {
            return Err(NoMemory);
        }
        let instances = loaded::conflict(alloc, &self.loaded);
        self.failed = instances.is_err();
        instances
    }
}

impl MatchChanges for Net {
    fn add_element_told(
        &mut self,
        alloc: Global,
        element: Element,
    ) -> Result<List<MatchKey>, NoMemory> {
        if self.failed {
            return Err(NoMemory);
        }
        let told = told::add(alloc, &mut self.loaded, element);
        self.failed = told.is_err();
        told
    }

    fn remove_element_told(&mut self, alloc: Global, tag: u32) -> Result<List<MatchKey>, NoMemory> {
        if self.failed {
            return Err(NoMemory);
        }
        let told = told::remove(alloc, &mut self.loaded, tag);
        self.failed = told.is_err();
        told
    }

    fn add_rule_told(&mut self, alloc: Global, rule: &Rule) -> Result<List<MatchKey>, NoMemory> {
        if self.failed {
            return Err(NoMemory);
        }
        let told = told::load(self.alloc, alloc, &mut self.loaded, rule);
        self.failed = told.is_err();
        told
    }

    fn instance(&mut self, alloc: Global, key: &MatchKey) -> Result<Option<Instance>, NoMemory> {
        if self.failed {
            return Err(NoMemory);
        }
        let found = told::instance(alloc, &self.loaded, key);
        self.failed = found.is_err();
        found
    }

    fn instances_of(&mut self, alloc: Global, number: u64) -> Result<List<Instance>, NoMemory> {
        if self.failed {
            return Err(NoMemory);
        }
        let found = told::instances_of(alloc, &self.loaded, number);
        self.failed = found.is_err();
        found
    }
}
