ghost use Rattle.std.specs.Prelude.{◌≡◌, List, Bool, false, true, IfOk, OnOk, OnErr};
ghost use Rattle.soar_wm.specs.declared.element.Element.{Element as ElementOf};
ghost use Rattle.soar_wm.specs.WorkingMemory.{without_tag};
ghost use Rattle.defs_match.specs.Conflict as meaning;
ghost use Rattle.defs_match.specs.Contents.{with_element, with_rule, without_rule, IsNewElement, HasTag, IsNewRule, HasRule, Works};
ghost use Rattle.defs_match.specs.Rules.{RuleOf, rule_seen};

use crate::instance::Instance;
use crate::rule::Rule;
use soar_wm::{Element, List, NoMemory};
use std::alloc::Global;

/// What matches rules against working memory.
///
/// Where a call was refused memory, the matcher has failed: it says nothing of its contents any more,
/// and each later call that can says that there is no memory.
pub trait Matcher {
    /// The rules, by number.
    ghost rules: { Self → List RuleOf };

    /// The elements, by tag.
    ghost elements: { Self → List ElementOf };

    /// Whether it has failed.
    ghost failed: { Self → Bool };

    /// Takes in an element whose tag and triple are new.
    fn add_element(&mut self, element: Element) -> Result<(), NoMemory>
        requires new { failed self.old ≡ false → IsNewElement (elements self.old) element }
        ensures works { OnOk result (Works (failed self.old) (failed self.new)) }
        ensures rules { OnOk result (rules self.new ≡ rules self.old) }
        ensures elements { OnOk result (elements self.new ≡ with_element (elements self.old) element) }
        ensures err { OnErr result (failed self.new ≡ true) };

    /// Takes the element of a tag out.
    fn remove_element(&mut self, tag: u32) -> Result<(), NoMemory>
        requires there { failed self.old ≡ false → HasTag (elements self.old) tag }
        ensures works { OnOk result (Works (failed self.old) (failed self.new)) }
        ensures rules { OnOk result (rules self.new ≡ rules self.old) }
        ensures elements { OnOk result (elements self.new ≡ without_tag tag (elements self.old)) }
        ensures err { OnErr result (failed self.new ≡ true) };

    /// Takes in a rule whose number is new.
    fn add_rule(&mut self, rule: &Rule) -> Result<(), NoMemory>
        requires new { failed self.old ≡ false → IsNewRule (rules self.old) (rule_seen rule.now) }
        ensures works { OnOk result (Works (failed self.old) (failed self.new)) }
        ensures rules { OnOk result (rules self.new ≡ with_rule (rules self.old) (rule_seen rule.now)) }
        ensures elements { OnOk result (elements self.new ≡ elements self.old) }
        ensures err { OnErr result (failed self.new ≡ true) };

    /// Takes the rule of a number out. It takes no memory.
    fn remove_rule(&mut self, number: u64)
        requires there { failed self.old ≡ false → HasRule (rules self.old) number }
        ensures works { failed self.new ≡ failed self.old }
        ensures rules { failed self.old ≡ false → rules self.new ≡ without_rule (rules self.old) number }
        ensures elements { failed self.old ≡ false → elements self.new ≡ elements self.old };

    /// The conflict set: the instances of all rules, by rule number and then by tags.
    fn conflict(&mut self, alloc: Global) -> Result<List<Instance>, NoMemory>
        ensures works { OnOk result (Works (failed self.old) (failed self.new)) }
        ensures conflict { IfOk result (λ instances. instances ≡ meaning.conflict (rules self.old) (elements self.old)) }
        ensures rules { OnOk result (rules self.new ≡ rules self.old) }
        ensures elements { OnOk result (elements self.new ≡ elements self.old) }
        ensures err { OnErr result (failed self.new ≡ true) };
}
