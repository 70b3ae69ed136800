// Changes of the loaded rules and of elements, and what they change of the conflict set.
ghost use Rattle.std.specs.Prelude.{◌≡◌, map, false, OnOk, IfOk};
ghost use Rattle.std.specs.List.{list_any};
ghost use Rattle.std.specs.Map.{values_of};
ghost use Rattle.soar_wm.specs.WorkingMemory.{has_tag, without_tag};
ghost use Rattle.defs_match.specs.Conflict as meaning;
ghost use Rattle.defs_match.specs.Contents.{with_element, with_rule, is_numbered, HasTag};
ghost use Rattle.defs_match.specs.Laws.{IsIn};
ghost use Rattle.defs_match.specs.Rules.{rule_seen};
ghost use Rattle.defs_match.specs.declared.instance.Instance.{Instance as InstanceOf};
ghost use Rattle.match_changes.specs.Told.{AreTold, IsTheOne, key_of, of_rule};
ghost use Rattle.rete_net.specs.Chains.{rule_of};
ghost use Rattle.rete_net.specs.Loads.{IsLoaded, conflict_in};

use crate::loaded::{self, Loaded};
use crate::reading;
use crate::telling::{keys_of, tell};
use defs_match::{Instance, Rule};
use match_changes::MatchKey;
use net_laws::canonical_forms_match;
use soar_sym::{List, NoMemory};
use soar_wm::Element;
use std::alloc::Global;

/// Takes in an element whose tag is new, and tells what changed.
pub fn add(alloc: Global, loaded: &mut Loaded, element: Element) -> Result<List<MatchKey>, NoMemory>
    requires loaded { IsLoaded loaded.old }
    requires new { list_any (has_tag element.tag) loaded.old.joins.elements ≡ false }
    ensures loaded { OnOk result (IsLoaded loaded.new) }
    ensures chains { OnOk result (loaded.new.chains.entries ≡ loaded.old.chains.entries) }
    ensures elements { OnOk result (loaded.new.joins.elements ≡ with_element loaded.old.joins.elements element) }
    ensures told { IfOk result (AreTold (conflict_in loaded.old) (conflict_in loaded.new)) }
{
    canonical_forms_match();
    let served = loaded::add(loaded, element)?;
    let told = tell(alloc, &loaded.joins, &loaded.ends, served.as_slice())?;
    Ok(told)
}

/// Takes the element of a tag out, and tells what changed.
pub fn remove(alloc: Global, loaded: &mut Loaded, tag: u32) -> Result<List<MatchKey>, NoMemory>
    requires loaded { IsLoaded loaded.old }
    requires there { HasTag loaded.old.joins.elements tag }
    ensures loaded { OnOk result (IsLoaded loaded.new) }
    ensures chains { OnOk result (loaded.new.chains.entries ≡ loaded.old.chains.entries) }
    ensures elements { OnOk result (loaded.new.joins.elements ≡ without_tag tag loaded.old.joins.elements) }
    ensures told { IfOk result (AreTold (conflict_in loaded.old) (conflict_in loaded.new)) }
{
    canonical_forms_match();
    let served = loaded::remove(loaded, tag)?;
    let told = tell(alloc, &loaded.joins, &loaded.ends, served.as_slice())?;
    Ok(told)
}

/// The instances of the rule of a number, in order of tags.
pub fn instances_of(alloc: Global, loaded: &Loaded, number: u64) -> Result<List<Instance>, NoMemory>
    requires { IsLoaded loaded.now }
    ensures { IfOk result (λ found. found ≡ of_rule number (conflict_in loaded.now)) }
{
    let mut found = List::new(alloc);
    let Some(chain) = loaded.chains.get(&number) else {
        return Ok(found);
    };
    reading::add_instances(alloc, &loaded.joins, chain, &mut found)?;
    Ok(found)
}

/// The keys of the instances of the rule of a number.
fn keys_of_rule(alloc: Global, loaded: &Loaded, number: u64) -> Result<List<MatchKey>, NoMemory>
    requires { IsLoaded loaded.now }
    ensures { IfOk result (λ keys. (i : InstanceOf) → IsIn i (conflict_in loaded.now) → i.rule ≡ number → IsIn (key_of i) keys) }
{
    let Some(chain) = loaded.chains.get(&number) else {
        return Ok(List::new(alloc));
    };
    let mut instances = List::new(alloc);
    reading::add_instances(alloc, &loaded.joins, chain, &mut instances)?;
    let keys = keys_of(alloc, instances)?;
    Ok(keys)
}

/// Loads a rule whose number is new, and tells its instances.
pub fn load(
    alloc: Global,
    answers: Global,
    loaded: &mut Loaded,
    rule: &Rule,
) -> Result<List<MatchKey>, NoMemory>
    requires loaded { IsLoaded loaded.old }
    requires new { list_any (is_numbered rule.now.number) (map rule_of (values_of loaded.old.chains.entries)) ≡ false }
    ensures loaded { OnOk result (IsLoaded loaded.new) }
    ensures rules { OnOk result (map rule_of (values_of loaded.new.chains.entries) ≡ with_rule (map rule_of (values_of loaded.old.chains.entries)) (rule_seen rule.now)) }
    ensures elements { OnOk result (loaded.new.joins.elements ≡ loaded.old.joins.elements) }
    ensures told { IfOk result (AreTold (conflict_in loaded.old) (conflict_in loaded.new)) }
{
    loaded::load(alloc, loaded, rule)?;
    let told = keys_of_rule(answers, loaded, rule.number)?;
    Ok(told)
}

/// The instance of a key, where there is one.
pub fn instance(
    alloc: Global,
    loaded: &Loaded,
    key: &MatchKey,
) -> Result<Option<Instance>, NoMemory>
    requires { IsLoaded loaded.now }
    ensures { IfOk result (IsTheOne (conflict_in loaded.now) key.now) }
{
    let Some(chain) = loaded.chains.get(&key.rule) else {
        return Ok(None);
    };
    reading::instance(alloc, &loaded.joins, chain, &key.tags)
}
