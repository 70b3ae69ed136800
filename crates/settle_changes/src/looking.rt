// Which identifiers are looked at, and what their levels say.
ghost use Rattle.std.specs.Prelude.{◌≡◌, ◌++◌, filter, is_some, not, IfOk, OnOk, map};
ghost use Rattle.soar_sym.specs.declared.symbol.Triple.{Triple as TripleOf};
ghost use Rattle.defs_soar.specs.Levels.{is_level_one};
ghost use Rattle.kept_triples.specs.Kept.{level_in_kept};
ghost use Rattle.settle_changes.specs.Naming.{ids_of};

use kept_triples::Kept;
use soar_sym::{List, NoMemory, Sym, Triple};
use std::alloc::Global;

/// The identifiers of the triples, and those that moved.
pub fn looked_at(alloc: Global, triples: &[Triple], moved: &[Sym]) -> Result<List<Sym>, NoMemory>
    ensures { IfOk result (λ ids. ids ≡ ids_of triples.now ++ moved.now) }
{
    let mut ids = List::from_vec(Vec::with_capacity(alloc, triples.len())?);
    add_ids(triples, &mut ids)?;
    ids.extend_from_slice(moved)?;
    Ok(ids)
}

fn add_ids(triples: &[Triple], ids: &mut List<Sym>) -> Result<(), NoMemory>
    ensures { OnOk result (ids.new ≡ ids.old ++ ids_of triples.now) }
{
    'triples: for triple in triples {
        ids.push(triple.id)?;
    }
    Ok(())
}

/// Those of these identifiers that are not of the top level.
pub fn below_top(alloc: Global, kept: &Kept, ids: &[Sym]) -> Result<List<Sym>, NoMemory>
    ensures { IfOk result (λ below. below ≡ filter (λ id. not (is_level_one (level_in_kept kept.now id))) ids.now) }
{
    let mut below = List::new(alloc);
    'ids: for id in ids {
        if !is_top(kept, *id) {
            below.push(*id)?;
        }
    }
    Ok(below)
}

fn is_top(kept: &Kept, id: Sym) -> bool
    ensures { result ≡ is_level_one (level_in_kept kept.now id) }
{
    match kept.level_of(id) {
        Some(level) => level == 1,
        None => false,
    }
}

/// Those of these identifiers that no goal reaches.
pub fn unreached(alloc: Global, kept: &Kept, ids: &[Sym]) -> Result<List<Sym>, NoMemory>
    ensures { IfOk result (λ found. found ≡ filter (λ id. not (is_some (level_in_kept kept.now id))) ids.now) }
{
    let mut found = List::new(alloc);
    'ids: for id in ids {
        if kept.level_of(*id).is_none() {
            found.push(*id)?;
        }
    }
    Ok(found)
}
