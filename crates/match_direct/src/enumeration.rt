ghost use Rattle.std.specs.Prelude.{◌≡◌, ◌++◌, map, IfOk, OnOk};
ghost use Rattle.defs_match.specs.Conflict as meaning;
ghost use Rattle.defs_match.specs.Rules.{rule_seen};

use defs_match::{Instance, Rule};
use match_row::{Row, rows};
use soar_sym::{List, NoMemory};
use soar_wm::Element;
use std::alloc::Global;

/// The conflict set of rules over elements: the instances rule by rule, those of a rule by their tags.
pub fn conflict(
    alloc: Global,
    rules: &[Rule],
    elements: &[Element],
) -> Result<List<Instance>, NoMemory>
    ensures { IfOk result (λ instances. instances ≡ meaning.conflict (map rule_seen rules.now) elements.now) }
{
    let mut out = List::new(alloc);
    'rules: for rule in rules {
        add_instances(alloc, rule, elements, &mut out)?;
    }
    Ok(out)
}

/// Adds the instances of a rule.
fn add_instances(
    alloc: Global,
    rule: &Rule,
    elements: &[Element],
    out: &mut List<Instance>,
) -> Result<(), NoMemory>
    ensures { OnOk result (out.new ≡ out.old ++ meaning.instances_of elements.now (rule_seen rule.now)) }
{
    let rows = rows(alloc, rule.production.conds.as_slice(), elements)?;
    'rows: for row in rows {
        out.push(instance_of(alloc, rule.number, row)?)?;
    }
    Ok(())
}

fn instance_of(alloc: Global, rule: u64, row: Row) -> Result<Instance, NoMemory>
    ensures { IfOk result (λ instance. instance ≡ meaning.instance_of rule row) }
{
    let (tags, binds) = row.into_parts(alloc)?;
    Ok(Instance { rule, tags, binds })
}
