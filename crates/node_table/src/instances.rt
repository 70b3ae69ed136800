// The rows of a node, as instances in order of tags.
ghost use Rattle.std.specs.Prelude.{◌≡◌, ◌++◌, ◌∷◌, [], map, OnOk, IfOk, List as ListOf};
ghost use Rattle.std.specs.Ordering.{nat_cmp};
ghost use Rattle.std.specs.Cmp.Lexicographic.{slice_cmp};
ghost use Rattle.std.specs.BTreeMap.{IsOrdered};
ghost use Rattle.defs_match.specs.Conflict.{instance_of};
ghost use Rattle.defs_match.specs.Rows.{rows};
ghost use Rattle.soar_rule.specs.Conditions.{Conditions};
ghost use Rattle.soar_wm.specs.WorkingMemory.{IsRising};
ghost use Rattle.soar_wm.specs.declared.element.Element.{Element as ElementOf};
ghost use Rattle.node_memory.specs.Memories.{rows_in};
ghost use Rattle.node_memory.specs.Held.{Holds};
ghost use Rattle.node_table.specs.Serving.{found};

use defs_match::Instance;
use match_row::Row;
use node_memory::Memory;
use row_tags::RowTags;
use soar_sym::{List, NoMemory, Sym};
use std::alloc::Global;
use std::collections::BTreeMap;

/// Adds the instance of a row.
fn add_token(
    alloc: Global,
    tags: &RowTags,
    bindings: &List<(u32, Sym)>,
    out: &mut List<Instance>,
) -> Result<(), NoMemory>
    ensures { OnOk result (out.new ≡ out.old ++ instance_of 0 (record { tags = tags.now; bindings = bindings.now }) ∷ []) }
{
    let tags = List::from_slice(alloc, tags.as_slice())?;
    let bindings = List::from_slice(alloc, bindings.as_slice())?;
    let (tags, binds) = Row::new(tags, bindings).into_parts(alloc)?;
    out.push(Instance {
        rule: 0,
        tags,
        binds,
    })?;
    Ok(())
}

/// The instances of all rows of a map.
fn all_tokens(
    alloc: Global,
    rows: &BTreeMap<RowTags, List<(u32, Sym)>>,
) -> Result<List<Instance>, NoMemory>
    ensures tokens { IfOk result (λ v. v ≡ map (instance_of 0) (rows_in rows.now.entries)) }
    ensures ordered { OnOk result (IsOrdered (slice_cmp nat_cmp) rows.now) }
{
    let _count = rows.len();
    let mut out = List::new(alloc);
    'rows: for (tags, bindings) in rows.iter() {
        add_token(alloc, tags, bindings, &mut out)?;
    }
    Ok(out)
}

/// The rows of a memory as instances of rule 0: those of the conditions whose rows it holds, in their order.
pub fn tokens(alloc: Global, memory: &Memory) -> Result<List<Instance>, NoMemory>
    ensures { IfOk result (λ v. (cs : Conditions) (w : ListOf ElementOf) → IsRising w → Holds (found memory.now) (rows cs w) → v ≡ map (instance_of 0) (rows cs w)) }
{
    all_tokens(alloc, &memory.rows)
}
