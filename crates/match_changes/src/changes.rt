ghost use Rattle.std.specs.Prelude.{◌≡◌, false, true, IfOk, OnOk, OnErr};
ghost use Rattle.defs_match.specs.WorkingMemory.{without_tag};
ghost use Rattle.defs_match.specs.Conflict.{conflict};
ghost use Rattle.defs_match.specs.Contents.{with_element, with_rule, IsNewElement, HasTag, IsNewRule, Works};
ghost use Rattle.defs_match.specs.Rules.{rule_seen};
ghost use Rattle.match_changes.specs.Told.{AreTold, IsTheOne, of_rule};

use crate::key::MatchKey;
use defs_match::{Element, Instance, Matcher, Rule};
use soar_sym::{List, NoMemory};
use std::alloc::Global;

/// A matcher that tells what its calls change of the conflict set.
///
/// The key of each instance that came or went is told. A key that is told may also have stayed:
/// whether it has an instance now, `instance` answers.
pub trait MatchChanges: Matcher {
    /// Takes in an element whose tag and triple are new, and tells what changed.
    fn add_element_told(
        &mut self,
        alloc: Global,
        element: Element,
    ) -> Result<List<MatchKey>, NoMemory>
        requires new { Self.failed self.old ≡ false → IsNewElement (Self.elements self.old) element }
        ensures works { OnOk result (Works (Self.failed self.old) (Self.failed self.new)) }
        ensures rules { OnOk result (Self.rules self.new ≡ Self.rules self.old) }
        ensures elements { OnOk result (Self.elements self.new ≡ with_element (Self.elements self.old) element) }
        ensures told { IfOk result (λ told. AreTold (conflict (Self.rules self.old) (Self.elements self.old)) (conflict (Self.rules self.new) (Self.elements self.new)) told) }
        ensures err { OnErr result (Self.failed self.new ≡ true) };

    /// Takes the element of a tag out, and tells what changed.
    fn remove_element_told(&mut self, alloc: Global, tag: u32) -> Result<List<MatchKey>, NoMemory>
        requires there { Self.failed self.old ≡ false → HasTag (Self.elements self.old) tag }
        ensures works { OnOk result (Works (Self.failed self.old) (Self.failed self.new)) }
        ensures rules { OnOk result (Self.rules self.new ≡ Self.rules self.old) }
        ensures elements { OnOk result (Self.elements self.new ≡ without_tag tag (Self.elements self.old)) }
        ensures told { IfOk result (λ told. AreTold (conflict (Self.rules self.old) (Self.elements self.old)) (conflict (Self.rules self.new) (Self.elements self.new)) told) }
        ensures err { OnErr result (Self.failed self.new ≡ true) };

    /// Takes in a rule whose number is new, and tells its instances.
    fn add_rule_told(&mut self, alloc: Global, rule: &Rule) -> Result<List<MatchKey>, NoMemory>
        requires new { Self.failed self.old ≡ false → IsNewRule (Self.rules self.old) (rule_seen rule.now) }
        ensures works { OnOk result (Works (Self.failed self.old) (Self.failed self.new)) }
        ensures rules { OnOk result (Self.rules self.new ≡ with_rule (Self.rules self.old) (rule_seen rule.now)) }
        ensures elements { OnOk result (Self.elements self.new ≡ Self.elements self.old) }
        ensures told { IfOk result (λ told. AreTold (conflict (Self.rules self.old) (Self.elements self.old)) (conflict (Self.rules self.new) (Self.elements self.new)) told) }
        ensures err { OnErr result (Self.failed self.new ≡ true) };

    /// The instance of a key, where there is one.
    fn instance(&mut self, alloc: Global, key: &MatchKey) -> Result<Option<Instance>, NoMemory>
        ensures works { OnOk result (Works (Self.failed self.old) (Self.failed self.new)) }
        ensures rules { OnOk result (Self.rules self.new ≡ Self.rules self.old) }
        ensures elements { OnOk result (Self.elements self.new ≡ Self.elements self.old) }
        ensures found { IfOk result (λ found. IsTheOne (conflict (Self.rules self.old) (Self.elements self.old)) key.now found) }
        ensures err { OnErr result (Self.failed self.new ≡ true) };

    /// The instances of the rule of a number, in order of tags. Other rules are not looked at.
    fn instances_of(&mut self, alloc: Global, number: u64) -> Result<List<Instance>, NoMemory>
        ensures works { OnOk result (Works (Self.failed self.old) (Self.failed self.new)) }
        ensures rules { OnOk result (Self.rules self.new ≡ Self.rules self.old) }
        ensures elements { OnOk result (Self.elements self.new ≡ Self.elements self.old) }
        ensures found { IfOk result (λ found. found ≡ of_rule number (conflict (Self.rules self.old) (Self.elements self.old))) }
        ensures err { OnErr result (Self.failed self.new ≡ true) };
}
