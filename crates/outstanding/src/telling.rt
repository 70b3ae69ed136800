// A matcher and what is kept of its conflict set, told of each change.
ghost use Rattle.std.specs.Prelude.{◌≡◌, false, IfOk, OnOk};
ghost use Rattle.soar_wm.specs.WorkingMemory.{without_tag};
ghost use Rattle.defs_match.specs.Conflict.{conflict};
ghost use Rattle.defs_match.specs.Contents.{with_element, with_rule, without_rule, IsNewElement, HasTag, IsNewRule, HasRule, Works};
ghost use Rattle.defs_match.specs.Rules.{rule_seen};
ghost use Rattle.outstanding.specs.Holding.{Holds};

use defs_match::Rule;
use match_changes::MatchChanges;
use open_instances::{Kept, leave_rule, told};
use soar_sym::NoMemory;
use soar_wm::Element;
use std::alloc::Global;

/// Takes an element in.
pub fn add_element<M: MatchChanges>(
    alloc: Global,
    matcher: &mut M,
    kept: &mut Kept,
    element: Element,
) -> Result<(), NoMemory>
    requires works { M.failed matcher.old ≡ false }
    requires new { IsNewElement (M.elements matcher.old) element }
    requires holds { Holds (M.rules matcher.old) (M.elements matcher.old) kept.old }
    ensures works { OnOk result (M.failed matcher.new ≡ false) }
    ensures rules { OnOk result (M.rules matcher.new ≡ M.rules matcher.old) }
    ensures elements { OnOk result (M.elements matcher.new ≡ with_element (M.elements matcher.old) element) }
    ensures holds { OnOk result (Holds (M.rules matcher.new) (M.elements matcher.new) kept.new) }
    ensures counts { OnOk result (kept.new.counts ≡ kept.old.counts) }
{
    let keys = matcher.add_element_told(alloc, element)?;
    told(kept, keys)
}

/// Takes an element out.
pub fn remove_element<M: MatchChanges>(
    alloc: Global,
    matcher: &mut M,
    kept: &mut Kept,
    tag: u32,
) -> Result<(), NoMemory>
    requires works { M.failed matcher.old ≡ false }
    requires there { HasTag (M.elements matcher.old) tag }
    requires holds { Holds (M.rules matcher.old) (M.elements matcher.old) kept.old }
    ensures works { OnOk result (M.failed matcher.new ≡ false) }
    ensures rules { OnOk result (M.rules matcher.new ≡ M.rules matcher.old) }
    ensures elements { OnOk result (M.elements matcher.new ≡ without_tag tag (M.elements matcher.old)) }
    ensures holds { OnOk result (Holds (M.rules matcher.new) (M.elements matcher.new) kept.new) }
    ensures counts { OnOk result (kept.new.counts ≡ kept.old.counts) }
{
    let keys = matcher.remove_element_told(alloc, tag)?;
    told(kept, keys)
}

/// Takes a rule in.
pub fn add_rule<M: MatchChanges>(
    alloc: Global,
    matcher: &mut M,
    kept: &mut Kept,
    rule: &Rule,
) -> Result<(), NoMemory>
    requires works { M.failed matcher.old ≡ false }
    requires new { IsNewRule (M.rules matcher.old) (rule_seen rule.now) }
    requires holds { Holds (M.rules matcher.old) (M.elements matcher.old) kept.old }
    ensures works { OnOk result (M.failed matcher.new ≡ false) }
    ensures rules { OnOk result (M.rules matcher.new ≡ with_rule (M.rules matcher.old) (rule_seen rule.now)) }
    ensures elements { OnOk result (M.elements matcher.new ≡ M.elements matcher.old) }
    ensures holds { OnOk result (Holds (M.rules matcher.new) (M.elements matcher.new) kept.new) }
    ensures counts { OnOk result (kept.new.counts ≡ kept.old.counts) }
{
    let keys = matcher.add_rule_told(alloc, rule)?;
    told(kept, keys)
}

/// Takes a rule out. It takes no memory.
pub fn remove_rule<M: MatchChanges>(matcher: &mut M, kept: &mut Kept, number: u64)
    requires works { M.failed matcher.old ≡ false }
    requires there { HasRule (M.rules matcher.old) number }
    requires holds { Holds (M.rules matcher.old) (M.elements matcher.old) kept.old }
    ensures works { M.failed matcher.new ≡ false }
    ensures rules { M.rules matcher.new ≡ without_rule (M.rules matcher.old) number }
    ensures elements { M.elements matcher.new ≡ M.elements matcher.old }
    ensures holds { Holds (M.rules matcher.new) (M.elements matcher.new) kept.new }
    ensures counts { kept.new.counts ≡ kept.old.counts }
{
    matcher.remove_rule(number);
    leave_rule(kept, number);
}
