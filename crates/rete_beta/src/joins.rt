ghost use Rattle.std.specs.Prelude.{◌≡◌, false, true, map, OnOk, OnErr, IfOk};
ghost use Rattle.std.specs.List.{list_any};
ghost use Rattle.soar_wm.specs.WorkingMemory.{has_tag, without_tag};
ghost use Rattle.defs_match.specs.Conflict.{instance_of};
ghost use Rattle.defs_match.specs.Contents.{with_element, HasTag, Works};
ghost use Rattle.defs_match.specs.Rows.{rows};
ghost use Rattle.node_table.specs.declared.node.Step.TheVariants.{Join, Negation};
ghost use Rattle.rete_beta.specs.Joins.{node_at, key_at, IsLive, SameNodes, Asks, CanDrop, Drops, IsStart, AreNodes, live_count, told_at};
ghost use Rattle.rete_beta.specs.Networks.{key_made};
ghost use Rattle.rete_beta.specs.Told.{IsTold, IsRowOf};
ghost use Rattle.rete_beta.specs.Ways.{Way, IsWay, conditions_of};

use crate::asking::{ask_join, ask_negation};
use crate::changing::{minus, plus};
use crate::dropping::drop_at;
use crate::network::{Network, start};
use crate::reading::{come_to, gone_from, row_at, tokens_at};
use defs_match::Instance;
use match_row::Row;
use soar_rule::Pattern;
use soar_sym::{List, NoMemory};
use soar_wm::Element;
use std::alloc::Global;
use std::marker::Model;

/// A network: node 0 is the root, and each other node extends the rows of its parent by a pattern, or keeps those with which
/// no row of another node begins.
///
/// Nodes hold their rows whenever no call is under way: a new one at once, and all of them after each change of an element.
/// Where a call was refused memory, it tells no contents any more, and each later call that can says that there is no memory.
#[derive(Drop)]
pub struct Joins {
    network: Network,
    failed: bool,
    alloc: Global,
}

impl Model for Joins {
    ghost use Rattle.rete_beta.specs.Joins.{JoinsOf};

    ghost Value = { JoinsOf };

    ghost use Rattle.rete_beta.specs.Insides.{joins_view, IsJoins};

    ghost view = { joins_view };

    ghost invariant = { IsJoins };
}

impl Joins {
    /// The root alone, and no elements.
    pub fn new(alloc: Global) -> Result<Joins, NoMemory>
        ensures { IfOk result (λ j. IsStart j) }
    {
        let network = start(alloc)?;
        Ok(Joins {
            network,
            failed: false,
            alloc,
        })
    }

    /// One request more for the join of a live node and a pattern, and its number. Equal parents and patterns have one number.
    ///
    /// A new node holds the rows of its conditions at once.
    pub fn node(&mut self, parent: usize, pattern: &Pattern) -> Result<usize, NoMemory>
        requires live { self.old.failed ≡ false → IsLive self.old parent }
        ensures works { OnOk result (Works self.old.failed self.new.failed) }
        ensures asks { IfOk result (λ n. Asks (node_at self.old) (node_at self.new) (key_made parent (Join pattern.now)) n) }
        ensures elements { OnOk result (self.new.elements ≡ self.old.elements) }
        ensures err { OnErr result (self.new.failed ≡ true) }
    {
        if self.failed {
            return Err(NoMemory);
        }
        let asked = ask_join(self.alloc, &mut self.network, parent, pattern);
        self.failed = asked.is_err();
        asked
    }

    /// One request more for the negation of a live node behind another, and its number.
    pub fn negation(&mut self, parent: usize, inner: usize) -> Result<usize, NoMemory>
        requires live { self.old.failed ≡ false → IsLive self.old parent }
        requires inner { self.old.failed ≡ false → IsLive self.old inner }
        ensures works { OnOk result (Works self.old.failed self.new.failed) }
        ensures asks { IfOk result (λ n. Asks (node_at self.old) (node_at self.new) (key_made parent (Negation inner)) n) }
        ensures elements { OnOk result (self.new.elements ≡ self.old.elements) }
        ensures err { OnErr result (self.new.failed ≡ true) }
    {
        if self.failed {
            return Err(NoMemory);
        }
        let asked = ask_negation(self.alloc, &mut self.network, parent, inner);
        self.failed = asked.is_err();
        asked
    }

    /// Takes one request back. With the last, the number is not live any more, and may be given again. It takes no memory.
    pub fn drop_node(&mut self, n: usize)
        requires can { self.old.failed ≡ false → CanDrop (node_at self.old) n }
        ensures works { self.new.failed ≡ self.old.failed }
        ensures drops { self.old.failed ≡ false → Drops (node_at self.old) (node_at self.new) n }
        ensures elements { self.old.failed ≡ false → self.new.elements ≡ self.old.elements }
    {
        if !self.failed {
            drop_at(&mut self.network, n);
        }
    }

    /// Takes in an element whose tag is new, serves each node that it reaches, and answers which.
    ///
    /// Rows of no other node come or go. What came to one of these and went from it, `come` and `gone` tell.
    pub fn add(&mut self, e: Element) -> Result<List<usize>, NoMemory>
        requires new { self.old.failed ≡ false → list_any (has_tag e.tag) self.old.elements ≡ false }
        ensures works { OnOk result (Works self.old.failed self.new.failed) }
        ensures elements { OnOk result (self.new.elements ≡ with_element self.old.elements e) }
        ensures nodes { OnOk result (SameNodes self.old self.new) }
        ensures told { IfOk result (λ served. IsTold self.old self.new served) }
        ensures err { OnErr result (self.new.failed ≡ true) }
    {
        if self.failed {
            return Err(NoMemory);
        }
        let added = plus(self.alloc, &mut self.network, e);
        self.failed = added.is_err();
        added
    }

    /// Takes the element of a tag out, serves each node that this reaches, and answers which, as `add` does.
    pub fn remove(&mut self, tag: u32) -> Result<List<usize>, NoMemory>
        requires there { self.old.failed ≡ false → HasTag self.old.elements tag }
        ensures works { OnOk result (Works self.old.failed self.new.failed) }
        ensures elements { OnOk result (self.new.elements ≡ without_tag tag self.old.elements) }
        ensures nodes { OnOk result (SameNodes self.old self.new) }
        ensures told { IfOk result (λ served. IsTold self.old self.new served) }
        ensures err { OnErr result (self.new.failed ≡ true) }
    {
        if self.failed {
            return Err(NoMemory);
        }
        let removed = minus(self.alloc, &mut self.network, tag);
        self.failed = removed.is_err();
        removed
    }

    /// The rows of a node as instances of rule 0: those of the conditions on the way to it, in order.
    pub fn tokens(&self, alloc: Global, n: usize) -> Result<List<Instance>, NoMemory>
        requires live { self.now.failed ≡ false → IsLive self.now n }
        ensures works { OnOk result (self.now.failed ≡ false) }
        ensures tokens { IfOk result (λ v. (way : Way) → IsWay (key_at self.now) way n → v ≡ map (instance_of 0) (rows (conditions_of way) self.now.elements)) }
    {
        if self.failed {
            return Err(NoMemory);
        }
        tokens_at(alloc, &self.network, n)
    }

    /// The row of a live node with these tags as an instance of rule 0, where there is one.
    pub fn row(
        &self,
        alloc: Global,
        n: usize,
        tags: &List<u32>,
    ) -> Result<Option<Instance>, NoMemory>
        requires live { self.now.failed ≡ false → IsLive self.now n }
        ensures works { OnOk result (self.now.failed ≡ false) }
        ensures row { IfOk result (λ i. (way : Way) → IsWay (key_at self.now) way n → IsRowOf (rows (conditions_of way) self.now.elements) tags.now i) }
    {
        if self.failed {
            return Err(NoMemory);
        }
        row_at(alloc, &self.network, n, tags)
    }

    /// The rows that came to a node at the last change that it served; some may have been there. It takes no memory.
    pub fn come(&self, n: usize) -> &[Row]
        ensures { result.now ≡ (told_at self.now n).come }
    {
        come_to(&self.network.nodes, n)
    }

    /// The tags of the rows that went from a node at the last change that it served; some may not have been there. It takes no memory.
    pub fn gone(&self, n: usize) -> &[List<u32>]
        ensures { result.now ≡ (told_at self.now n).gone }
    {
        gone_from(&self.network.nodes, n)
    }

    /// How many nodes are live, the root among them. It takes no memory.
    pub fn nodes(&self) -> usize
        ensures { result ≡ live_count self.now }
    {
        self.network.nodes.len()
    }

    /// Live nodes differ in parent or step, and each has a request.
    pub fn law(&self)
        ensures { self.now.failed ≡ false → AreNodes (node_at self.now) }
    {
        let _failed = self.failed;
    }
}
