// The rows of a node: by tags, and again by what some variables stand for.
ghost use Rattle.std.specs.Prelude.{◌≡◌, ◌↔◌, ◌⊎◌, ◌≢◌, ◌++◌, ℕ, List as ListOf, [], flat_map, OnOk, IfOk};
ghost use Rattle.std.specs.Ordering.{nat_cmp};
ghost use Rattle.std.specs.Cmp.Lexicographic.{slice_cmp};
ghost use Rattle.std.specs.BTreeMap.{get};
ghost use Rattle.defs_match.specs.Laws.{IsIn};
ghost use Rattle.defs_match.specs.Rows.{Row as RowOf};
ghost use Rattle.node_memory.specs.Memories.{has, symbol_in, symbols_in, key_for, keys_for, IsIndexed, row_found, put_at, taken_at, puts, takens};
ghost use Rattle.node_memory.specs.Changes.{RowsChange, OneEach};
ghost use Rattle.node_memory.specs.Held.{Holds};
ghost use Rattle.node_memory.specs.Symbols.{SymbolKeyOf};

use crate::packed::PackedSymbolKey;
use crate::symbols::{Joined, SymbolIndex, Symbols};
use match_row::{Row, symbol_of};
use row_tags::RowTags;
use soar_sym::{List, NoMemory, Sym};
use std::alloc::Global;
use std::collections::BTreeMap;

/// The rows of a node: by tags, and for the variables on which each node below joins by what they stand for.
#[derive(Drop)]
pub struct Memory {
    pub rows: BTreeMap<RowTags, List<(u32, Sym)>>,
    pub index: SymbolIndex,
    pub joined: Vec<Joined>,
}

/// Adds the key of a row for variables.
pub fn add_key(
    alloc: Global,
    index: &mut SymbolIndex,
    joined: Joined,
    row: &Row,
) -> Result<(), NoMemory>
    ensures { OnOk result ((k : SymbolKeyOf) → IsIn k index.new ↔ ((key_for joined row.now ≡ k) ⊎ IsIn k index.old)) }
{
    let tags = RowTags::of(alloc, row.tags())?;
    index.add(key_of(joined, tags, row.bindings()))?;
    Ok(())
}

/// Adds the keys of a row for all these variables.
fn add_keys(
    alloc: Global,
    index: &mut SymbolIndex,
    all: &[Joined],
    row: &Row,
) -> Result<(), NoMemory>
    ensures { OnOk result ((k : SymbolKeyOf) → IsIn k index.new ↔ (IsIn k (keys_for all.now row.now) ⊎ IsIn k index.old)) }
{
    'all: for joined in all {
        add_key(alloc, index, *joined, row)?;
    }
    Ok(())
}

/// What a variable, if there is one, stands for.
fn symbol_in(variable: Option<u32>, bindings: &[(u32, Sym)]) -> Option<Sym>
    ensures { result ≡ symbol_in variable bindings.now }
{
    match variable {
        Some(variable) => symbol_of(variable, bindings),
        None => None,
    }
}

/// The key of a row for variables. It takes no memory.
fn key_of(joined: Joined, tags: RowTags, bindings: &[(u32, Sym)]) -> PackedSymbolKey
    ensures { result ≡ key_for joined (record { tags = tags; bindings = bindings.now }) }
{
    let symbols = Symbols {
        id: symbol_in(joined.id, bindings),
        value: symbol_in(joined.value, bindings),
    };
    PackedSymbolKey::new(joined, symbols, tags)
}

/// Takes the key of a row for variables out, and answers the tags. It takes no memory.
fn remove_key(
    index: &mut SymbolIndex,
    joined: Joined,
    tags: RowTags,
    bindings: &[(u32, Sym)],
) -> RowTags
    ensures tags { result ≡ tags }
    ensures index { (k : SymbolKeyOf) → IsIn k index.new ↔ (IsIn k index.old × (key_for joined (record { tags = tags; bindings = bindings.now }) ≢ k)) }
{
    let key = key_of(joined, tags, bindings);
    index.remove(&key);
    key.into_tags()
}

/// Takes the keys of a row for all these variables out. It takes no memory.
fn remove_keys(index: &mut SymbolIndex, all: &[Joined], mut tags: RowTags, bindings: &[(u32, Sym)])
    ensures { (k : SymbolKeyOf) → IsIn k index.new ↔ (IsIn k index.old × (IsIn k (keys_for all.now (record { tags = tags; bindings = bindings.now })) → ⊥)) }
{
    'all: for joined in all {
        tags = remove_key(index, *joined, tags, bindings);
    }
}

/// Puts a row, unless one with its tags is there.
pub fn put(alloc: Global, memory: &mut Memory, row: &Row) -> Result<(), NoMemory>
    requires indexed { IsIndexed memory.old.joined.items (get (slice_cmp nat_cmp) memory.old.rows) memory.old.index }
    ensures found { OnOk result ((q : ListOf ℕ) → get (slice_cmp nat_cmp) memory.new.rows q ≡ put_at row.now (get (slice_cmp nat_cmp) memory.old.rows) q) }
    ensures joined { OnOk result (memory.new.joined.items ≡ memory.old.joined.items) }
    ensures indexed { OnOk result (IsIndexed memory.new.joined.items (get (slice_cmp nat_cmp) memory.new.rows) memory.new.index) }
{
    let tags = RowTags::of(alloc, row.tags())?;
    if memory.rows.contains_key(&tags) {
        return Ok(());
    }
    let bindings = List::from_slice(alloc, row.bindings())?;
    add_keys(alloc, &mut memory.index, memory.joined.as_slice(), row)?;
    memory.rows.insert(tags, bindings)?;
    Ok(())
}

/// Takes the row of these tags away, where there is one. It takes no memory.
pub fn take(memory: &mut Memory, tags: RowTags)
    requires indexed { IsIndexed memory.old.joined.items (get (slice_cmp nat_cmp) memory.old.rows) memory.old.index }
    ensures found { (q : ListOf ℕ) → get (slice_cmp nat_cmp) memory.new.rows q ≡ taken_at tags (get (slice_cmp nat_cmp) memory.old.rows) q }
    ensures joined { memory.new.joined.items ≡ memory.old.joined.items }
    ensures indexed { IsIndexed memory.new.joined.items (get (slice_cmp nat_cmp) memory.new.rows) memory.new.index }
{
    if let Some(bindings) = memory.rows.remove(&tags) {
        remove_keys(
            &mut memory.index,
            memory.joined.as_slice(),
            tags,
            bindings.as_slice(),
        );
    }
}

/// Adds the row under these tags, where there is one. The tags become those of the row.
fn add_row(
    alloc: Global,
    rows: &BTreeMap<RowTags, List<(u32, Sym)>>,
    tags: List<u32>,
    out: &mut Vec<Row>,
) -> Result<(), NoMemory>
    ensures { OnOk result (out.new.items ≡ out.old.items ++ row_found tags (get (slice_cmp nat_cmp) rows.now tags)) }
{
    let tags = RowTags::new(tags);
    if let Some(bindings) = rows.get(&tags) {
        let bindings = List::from_slice(alloc, bindings.as_slice())?;
        out.push(Row::new(tags.into_list(), bindings))?;
    }
    Ok(())
}

/// Adds the row under these tags, where there is one.
pub fn add_found(
    alloc: Global,
    rows: &BTreeMap<RowTags, List<(u32, Sym)>>,
    tags: &List<u32>,
    out: &mut Vec<Row>,
) -> Result<(), NoMemory>
    ensures { OnOk result (out.new.items ≡ out.old.items ++ row_found tags.now (get (slice_cmp nat_cmp) rows.now tags.now)) }
{
    let tags = List::from_slice(alloc, tags.as_slice())?;
    add_row(alloc, rows, tags, out)
}

/// The rows under these tags.
fn rows_at(
    alloc: Global,
    rows: &BTreeMap<RowTags, List<(u32, Sym)>>,
    all: Vec<List<u32>>,
) -> Result<Vec<Row>, NoMemory>
    ensures { IfOk result (λ v. v.items ≡ flat_map (λ t. row_found t (get (slice_cmp nat_cmp) rows.now t)) all.items) }
{
    let mut out = Vec::new(alloc);
    'all: for tags in all {
        add_row(alloc, rows, tags, &mut out)?;
    }
    Ok(out)
}

/// The rows in which variables, by which the memory is indexed, stand for these symbols.
pub fn rows_with(
    alloc: Global,
    memory: &Memory,
    joined: Joined,
    symbols: Symbols,
) -> Result<Vec<Row>, NoMemory>
    requires indexed { IsIndexed memory.now.joined.items (get (slice_cmp nat_cmp) memory.now.rows) memory.now.index }
    requires joined { IsIn joined memory.now.joined.items }
    ensures { IfOk result (λ v. (x : RowOf) → IsIn x v.items ↔ (has (get (slice_cmp nat_cmp) memory.now.rows) x × (symbols_in joined x.bindings ≡ symbols))) }
{
    let all = memory.index.with_symbols(alloc, joined, symbols)?;
    rows_at(alloc, &memory.rows, all)
}

/// Takes the rows of these tags away.
fn take_all(alloc: Global, memory: &mut Memory, gone: &[List<u32>]) -> Result<(), NoMemory>
    requires indexed { IsIndexed memory.old.joined.items (get (slice_cmp nat_cmp) memory.old.rows) memory.old.index }
    ensures found { OnOk result ((q : ListOf ℕ) → get (slice_cmp nat_cmp) memory.new.rows q ≡ takens gone.now (get (slice_cmp nat_cmp) memory.old.rows) q) }
    ensures joined { OnOk result (memory.new.joined.items ≡ memory.old.joined.items) }
    ensures indexed { OnOk result (IsIndexed memory.new.joined.items (get (slice_cmp nat_cmp) memory.new.rows) memory.new.index) }
{
    'gone: for tags in gone {
        let tags = RowTags::of(alloc, tags.as_slice())?;
        take(memory, tags);
    }
    Ok(())
}

/// Puts these rows.
fn put_all(alloc: Global, memory: &mut Memory, come: &[Row]) -> Result<(), NoMemory>
    requires indexed { IsIndexed memory.old.joined.items (get (slice_cmp nat_cmp) memory.old.rows) memory.old.index }
    ensures found { OnOk result ((q : ListOf ℕ) → get (slice_cmp nat_cmp) memory.new.rows q ≡ puts come.now (get (slice_cmp nat_cmp) memory.old.rows) q) }
    ensures joined { OnOk result (memory.new.joined.items ≡ memory.old.joined.items) }
    ensures indexed { OnOk result (IsIndexed memory.new.joined.items (get (slice_cmp nat_cmp) memory.new.rows) memory.new.index) }
{
    'come: for row in come {
        put(alloc, memory, row)?;
    }
    Ok(())
}

/// Puts a change into effect: a memory that held the rows before it holds those after it.
pub fn change(
    alloc: Global,
    memory: &mut Memory,
    come: &[Row],
    gone: &[List<u32>],
) -> Result<(), NoMemory>
    requires indexed { IsIndexed memory.old.joined.items (get (slice_cmp nat_cmp) memory.old.rows) memory.old.index }
    ensures holds { OnOk result ((rows0 rows1 : ListOf RowOf) → Holds (get (slice_cmp nat_cmp) memory.old.rows) rows0 → RowsChange rows0 rows1 come.now gone.now → OneEach rows1 → Holds (get (slice_cmp nat_cmp) memory.new.rows) rows1) }
    ensures joined { OnOk result (memory.new.joined.items ≡ memory.old.joined.items) }
    ensures indexed { OnOk result (IsIndexed memory.new.joined.items (get (slice_cmp nat_cmp) memory.new.rows) memory.new.index) }
{
    take_all(alloc, memory, gone)?;
    put_all(alloc, memory, come)
}

/// A memory without rows. It takes no memory.
pub fn empty(alloc: Global) -> Memory
    ensures holds { Holds (get (slice_cmp nat_cmp) result.rows) [] }
    ensures indexed { IsIndexed result.joined.items (get (slice_cmp nat_cmp) result.rows) result.index }
{
    Memory {
        rows: BTreeMap::new(alloc),
        index: SymbolIndex::new(alloc),
        joined: Vec::new(alloc),
    }
}

/// A memory with these rows.
pub fn filled(alloc: Global, rows: &[Row]) -> Result<Memory, NoMemory>
    ensures holds { IfOk result (λ m. OneEach rows.now → Holds (get (slice_cmp nat_cmp) m.rows) rows.now) }
    ensures indexed { IfOk result (λ m. IsIndexed m.joined.items (get (slice_cmp nat_cmp) m.rows) m.index) }
{
    let mut memory = empty(alloc);
    change(alloc, &mut memory, rows, &[])?;
    Ok(memory)
}
