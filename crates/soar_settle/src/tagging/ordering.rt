// Triples in their order: those that are in it already as they are, others by halves.
ghost use Rattle.std.specs.Prelude.{◌≡◌, IfOk};
ghost use Rattle.defs_soar.specs.Sorted.{in_order};
ghost use Rattle.soar_settle.specs.Known.{AreTriplesKnown};
ghost use Rattle.soar_settle.specs.Merging.{IsSorting, is_rising, rises_after};
ghost use Rattle.soar_settle.specs.Tagging.{IsTripleKnown};

use crate::tagging::comparing::compare;
use crate::tagging::merging::merged;
use soar_sym::{List, NoMemory, SymTable, Triple};
use std::alloc::Global;

/// These triples in their order, each once.
pub fn in_order(
    alloc: Global,
    table: &SymTable,
    triples: &[Triple],
) -> Result<List<Triple>, NoMemory>
    requires { AreTriplesKnown table.now triples.now }
    ensures { IfOk result (λ ordered. ordered ≡ in_order table.now triples.now) }
{
    table.law();
    let ordered = sorted(alloc, table, triples)?;
    Ok(ordered)
}

/// Triples in an order in which each comes before all after it.
fn sorted(alloc: Global, table: &SymTable, triples: &[Triple]) -> Result<List<Triple>, NoMemory>
    requires { AreTriplesKnown table.now triples.now }
    ensures { IfOk result (IsSorting table.now triples.now) }
{
    if is_rising(table, triples) {
        let same = List::from_slice(alloc, triples)?;
        return Ok(same);
    }
    table.law();
    let (front, back) = triples.split_at(triples.len() / 2);
    let first = sorted(alloc, table, front)?;
    let second = sorted(alloc, table, back)?;
    let both = merged(alloc, table, first.as_slice(), second.as_slice())?;
    Ok(both)
}

/// Whether each of these comes before the next.
fn is_rising(table: &SymTable, triples: &[Triple]) -> bool
    requires { AreTriplesKnown table.now triples.now }
    ensures { result ≡ is_rising table.now triples.now }
{
    match triples.split_first() {
        Some((first, rest)) => rises_after(table, *first, rest),
        None => true,
    }
}

/// Whether a triple comes before the first of these, and each before the next.
fn rises_after(table: &SymTable, first: Triple, triples: &[Triple]) -> bool
    requires first { IsTripleKnown table.now first }
    requires rest { AreTriplesKnown table.now triples.now }
    ensures { result ≡ rises_after table.now first triples.now }
{
    let mut last = first;
    'triples: for triple in triples {
        if !compare(table, last, *triple).is_lt() {
            return false;
        }
        last = *triple;
    }
    true
}
