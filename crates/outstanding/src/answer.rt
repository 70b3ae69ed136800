ghost use Rattle.std.specs.Prelude.{◌≡◌, true, false, [], IfOk, OnOk, OnErr, List as ListOf};
ghost use Rattle.soar_wm.specs.WorkingMemory.{without_tag};
ghost use Rattle.defs_match.specs.Conflict.{conflict};
ghost use Rattle.defs_match.specs.Contents.{with_element, with_rule, without_rule, IsNewElement, HasTag, IsNewRule, HasRule, Works};
ghost use Rattle.defs_match.specs.Rules.{rule_seen};
ghost use Rattle.live_firings.specs.declared.live.Live.{Live as LiveOf};
ghost use Rattle.match_changes.specs.Told.{of_rule};
ghost use Rattle.outstanding.specs.Outstanding.{unfired, unmatched};

use defs_match::{Instance, Matcher, Rule};
use live_firings::{Live, LiveFirings};
use soar_sym::{List, NoMemory};
use soar_wm::Element;
use std::alloc::Global;

/// What is outstanding in a conflict set: the instances that no live firing has, and the live firings whose instances
/// are not in it.
#[derive(Drop)]
pub struct Open {
    pub unfired: List<Instance>,
    pub unmatched: List<Live>,
}

/// A matcher that can be asked what is outstanding. It takes up from time to time what live firings there are; its calls
/// of its own do what those of `Matcher` do, and say too that what it took up stays.
pub trait Outstanding: Matcher {
    /// Whether these are the live firings that it took up last.
    ghost knows: { Self → ListOf LiveOf → Type 0 };

    /// Begins with no live firing, where there is no rule and no element. It takes no memory.
    fn begin(&mut self)
        requires rules { Self.failed self.old ≡ false → Self.rules self.old ≡ [] }
        requires elements { Self.failed self.old ≡ false → Self.elements self.old ≡ [] }
        ensures works { Self.failed self.new ≡ Self.failed self.old }
        ensures rules { Self.failed self.old ≡ false → Self.rules self.new ≡ Self.rules self.old }
        ensures elements { Self.failed self.old ≡ false → Self.elements self.new ≡ Self.elements self.old }
        ensures knows { knows self.new [] };

    /// Takes in an element whose tag and triple are new.
    fn element_comes(&mut self, element: Element) -> Result<(), NoMemory>
        requires new { Self.failed self.old ≡ false → IsNewElement (Self.elements self.old) element }
        ensures works { OnOk result (Works (Self.failed self.old) (Self.failed self.new)) }
        ensures rules { OnOk result (Self.rules self.new ≡ Self.rules self.old) }
        ensures elements { OnOk result (Self.elements self.new ≡ with_element (Self.elements self.old) element) }
        ensures knows { OnOk result ((live : ListOf LiveOf) → knows self.old live → knows self.new live) }
        ensures err { OnErr result (Self.failed self.new ≡ true) };

    /// Takes the element of a tag out.
    fn element_goes(&mut self, tag: u32) -> Result<(), NoMemory>
        requires there { Self.failed self.old ≡ false → HasTag (Self.elements self.old) tag }
        ensures works { OnOk result (Works (Self.failed self.old) (Self.failed self.new)) }
        ensures rules { OnOk result (Self.rules self.new ≡ Self.rules self.old) }
        ensures elements { OnOk result (Self.elements self.new ≡ without_tag tag (Self.elements self.old)) }
        ensures knows { OnOk result ((live : ListOf LiveOf) → knows self.old live → knows self.new live) }
        ensures err { OnErr result (Self.failed self.new ≡ true) };

    /// Takes in a rule whose number is new.
    fn rule_comes(&mut self, rule: &Rule) -> Result<(), NoMemory>
        requires new { Self.failed self.old ≡ false → IsNewRule (Self.rules self.old) (rule_seen rule.now) }
        ensures works { OnOk result (Works (Self.failed self.old) (Self.failed self.new)) }
        ensures rules { OnOk result (Self.rules self.new ≡ with_rule (Self.rules self.old) (rule_seen rule.now)) }
        ensures elements { OnOk result (Self.elements self.new ≡ Self.elements self.old) }
        ensures knows { OnOk result ((live : ListOf LiveOf) → knows self.old live → knows self.new live) }
        ensures err { OnErr result (Self.failed self.new ≡ true) };

    /// Takes the rule of a number out. It takes no memory.
    fn rule_goes(&mut self, number: u64)
        requires there { Self.failed self.old ≡ false → HasRule (Self.rules self.old) number }
        ensures works { Self.failed self.new ≡ Self.failed self.old }
        ensures rules { Self.failed self.old ≡ false → Self.rules self.new ≡ without_rule (Self.rules self.old) number }
        ensures elements { Self.failed self.old ≡ false → Self.elements self.new ≡ Self.elements self.old }
        ensures knows { (live : ListOf LiveOf) → knows self.old live → knows self.new live };

    /// The conflict set: the instances of all rules, by rule number and then by tags.
    fn instances(&mut self, alloc: Global) -> Result<List<Instance>, NoMemory>
        ensures works { OnOk result (Works (Self.failed self.old) (Self.failed self.new)) }
        ensures conflict { IfOk result (λ instances. instances ≡ conflict (Self.rules self.old) (Self.elements self.old)) }
        ensures rules { OnOk result (Self.rules self.new ≡ Self.rules self.old) }
        ensures elements { OnOk result (Self.elements self.new ≡ Self.elements self.old) }
        ensures knows { OnOk result ((live : ListOf LiveOf) → knows self.old live → knows self.new live) }
        ensures err { OnErr result (Self.failed self.new ≡ true) };

    /// The instances of the rule of a number, in order of tags.
    fn instances_of(&mut self, alloc: Global, number: u64) -> Result<List<Instance>, NoMemory>
        ensures works { OnOk result (Works (Self.failed self.old) (Self.failed self.new)) }
        ensures found { IfOk result (λ found. found ≡ of_rule number (conflict (Self.rules self.old) (Self.elements self.old))) }
        ensures rules { OnOk result (Self.rules self.new ≡ Self.rules self.old) }
        ensures elements { OnOk result (Self.elements self.new ≡ Self.elements self.old) }
        ensures knows { OnOk result ((live : ListOf LiveOf) → knows self.old live → knows self.new live) }
        ensures err { OnErr result (Self.failed self.new ≡ true) };

    /// The instances of the conflict set that no live firing has, in its order, and the live firings whose instances
    /// are not in it, as they are listed (Soar manual, chapter 2, elaboration cycle; Forgy 1982, conflict set). It takes
    /// up what live firings came and went, and these count as told then.
    fn outstanding(&mut self, alloc: Global, live: &mut LiveFirings) -> Result<Open, NoMemory>
        requires knows { Self.failed self.old ≡ false → knows self.old live.old.told }
        ensures works { OnOk result (Works (Self.failed self.old) (Self.failed self.new)) }
        ensures unfired { IfOk result (λ answer. answer.unfired ≡ unfired (conflict (Self.rules self.old) (Self.elements self.old)) live.old.list) }
        ensures unmatched { IfOk result (λ answer. answer.unmatched ≡ unmatched (conflict (Self.rules self.old) (Self.elements self.old)) live.old.list) }
        ensures rules { OnOk result (Self.rules self.new ≡ Self.rules self.old) }
        ensures elements { OnOk result (Self.elements self.new ≡ Self.elements self.old) }
        ensures knows { OnOk result (knows self.new live.old.list) }
        ensures list { live.new.list ≡ live.old.list }
        ensures told { OnOk result (live.new.told ≡ live.old.list) }
        ensures err { OnErr result (Self.failed self.new ≡ true) };
}
