ghost use Rattle.std.specs.Prelude.{◌≡◌, map, IfOk};
ghost use Rattle.defs_match.specs.Rules.{rule_seen};
ghost use Rattle.match_direct.specs.Contents.{no_contents};

use crate::contents;
use crate::enumeration::conflict;
use defs_match::{Instance, Matcher, Rule};
use soar_sym::{List, NoMemory};
use soar_wm::Element;
use std::alloc::Global;
use std::marker::Model;

/// The matcher that keeps nothing between two conflict sets but the rules, which it copies, and the elements.
#[derive(Drop)]
pub struct Direct {
    rules: Vec<Rule>,
    elements: Vec<Element>,
    failed: bool,
    alloc: Global,
}

impl Model for Direct {
    ghost use Rattle.std.specs.Coded.{codes};
    ghost use Rattle.defs_match.specs.contracts.rule.Rule as rule;
    ghost use Rattle.match_direct.specs.Contents.{Contents};

    ghost Value = { Contents };

    ghost coded = { Prim.hlevel (codes, rule.the_row.coded) };

    ghost view = { λ m. record { rules = m.rules.items; elements = m.elements.items; failed = m.failed } };
}

impl Direct {
    /// Rules, copies and elements get their memory from `alloc`. Making it takes none.
    pub fn new(alloc: Global) -> Result<Direct, NoMemory>
        ensures { IfOk result (λ matcher. matcher ≡ no_contents) }
    {
        Ok(Direct {
            rules: Vec::new(alloc),
            elements: Vec::new(alloc),
            failed: false,
            alloc,
        })
    }
}

impl Matcher for Direct {
    ghost rules = { λ m. map rule_seen m.rules };

    ghost elements = { λ m. m.elements };

    ghost failed = { λ m. m.failed };

    fn add_element(&mut self, element: Element) -> Result<(), NoMemory> {
        if self.failed {
            return Err(NoMemory);
        }
        let added = contents::insert_element(&mut self.elements, element);
        self.failed = added.is_err();
        added
    }

    fn remove_element(&mut self, tag: u32) -> Result<(), NoMemory> {
        if self.failed {
            return Err(NoMemory);
        }
        contents::remove_element(&mut self.elements, tag);
        Ok(())
    }

    fn add_rule(&mut self, rule: &Rule) -> Result<(), NoMemory> {
        if self.failed {
            return Err(NoMemory);
        }
        let added = contents::insert_copy(self.alloc, &mut self.rules, rule);
        self.failed = added.is_err();
        added
    }

    fn remove_rule(&mut self, number: u64) {
        if !self.failed {
            contents::remove_rule(&mut self.rules, number);
        }
    }

    fn conflict(&mut self, alloc: Global) -> Result<List<Instance>, NoMemory> {
        if self.failed {
            return Err(NoMemory);
        }
        let instances = conflict(alloc, self.rules.as_slice(), self.elements.as_slice());
        self.failed = instances.is_err();
        instances
    }
}
