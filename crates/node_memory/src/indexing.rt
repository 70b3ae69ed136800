// A memory is indexed by more variables.
ghost use Rattle.std.specs.Prelude.{◌≡◌, ◌↔◌, ◌⊎◌, ◌++◌, ◌∷◌, [], map, OnOk, IfOk};
ghost use Rattle.std.specs.Ordering.{nat_cmp};
ghost use Rattle.std.specs.Cmp.Lexicographic.{slice_cmp};
ghost use Rattle.std.specs.BTreeMap.{get, keys, IsOrdered};
ghost use Rattle.defs_match.specs.Laws.{IsIn};
ghost use Rattle.node_memory.specs.Memories.{IsIndexed, key_for, rows_in};
ghost use Rattle.node_memory.specs.Symbols.{SymbolKeyOf};

use crate::memory::{Memory, add_key};
use crate::symbols::{Joined, SymbolIndex};
use match_row::Row;
use row_tags::RowTags;
use soar_sym::{List, NoMemory, Sym};
use std::alloc::Global;
use std::collections::BTreeMap;

/// All rows of a map.
pub fn all_rows(
    alloc: Global,
    rows: &BTreeMap<RowTags, List<(u32, Sym)>>,
) -> Result<Vec<Row>, NoMemory>
    ensures rows { IfOk result (λ v. v.items ≡ rows_in rows.now.entries) }
    ensures ordered { OnOk result (IsOrdered (slice_cmp nat_cmp) rows.now) }
{
    let _count = rows.len();
    let mut out = Vec::new(alloc);
    'rows: for (tags, bindings) in rows.iter() {
        let tags = List::from_slice(alloc, tags.as_slice())?;
        let bindings = List::from_slice(alloc, bindings.as_slice())?;
        out.push(Row::new(tags, bindings))?;
    }
    Ok(out)
}

/// Adds the keys of rows for variables.
fn add_rows_keys(
    alloc: Global,
    index: &mut SymbolIndex,
    joined: Joined,
    rows: &[Row],
) -> Result<(), NoMemory>
    ensures { OnOk result ((k : SymbolKeyOf) → IsIn k index.new ↔ (IsIn k (map (key_for joined) rows.now) ⊎ IsIn k index.old)) }
{
    'rows: for row in rows {
        add_key(alloc, index, joined, row)?;
    }
    Ok(())
}

/// Indexes a memory by these variables too.
pub fn index_by(alloc: Global, memory: &mut Memory, joined: Joined) -> Result<(), NoMemory>
    requires indexed { IsIndexed memory.old.joined.items (get (slice_cmp nat_cmp) memory.old.rows) memory.old.index }
    ensures joined { OnOk result (memory.new.joined.items ≡ memory.old.joined.items ++ joined ∷ []) }
    ensures rows { OnOk result (memory.new.rows.entries ≡ memory.old.rows.entries) }
    ensures indexed { OnOk result (IsIndexed memory.new.joined.items (get (slice_cmp nat_cmp) memory.new.rows) memory.new.index) }
{
    let rows = all_rows(alloc, &memory.rows)?;
    add_rows_keys(alloc, &mut memory.index, joined, rows.as_slice())?;
    memory.joined.push(joined)?;
    Ok(())
}
