// Two lists of triples in their order made one.
ghost use Rattle.std.specs.Prelude.{◌≡◌, ◌≤◌, ◌++◌, drop, length, IfOk, OnOk};
ghost use Rattle.soar_settle.specs.Known.{AreTriplesKnown};
ghost use Rattle.soar_settle.specs.Merging.{left, merged, moved};
ghost use Rattle.soar_settle.specs.Tagging.{IsTripleKnown};

use crate::tagging::comparing::compare;
use soar_sym::{List, NoMemory, SymTable, Triple};
use std::alloc::Global;
use std::cmp::Ordering;

/// The triples of both in their order, and one of two that are the same.
pub fn merged(
    alloc: Global,
    table: &SymTable,
    a: &[Triple],
    b: &[Triple],
) -> Result<List<Triple>, NoMemory>
    requires first { AreTriplesKnown table.now a.now }
    requires second { AreTriplesKnown table.now b.now }
    ensures { IfOk result (λ both. both ≡ merged table.now a.now b.now) }
{
    let mut out = Vec::with_capacity(alloc, a.len().saturating_add(b.len()))?;
    let mut from = 0;
    'triples: for triple in a {
        from = add_before(table, &mut out, b, from, *triple)?;
        out.push(*triple)?;
    }
    let (_, rest) = b.split_at(from);
    out.extend_from_slice(rest)?;
    Ok(List::from_vec(out))
}

/// Adds those that come before a triple, and tells where those begin that come after it.
fn add_before(
    table: &SymTable,
    out: &mut Vec<Triple>,
    triples: &[Triple],
    from: usize,
    triple: Triple,
) -> Result<usize, NoMemory>
    requires all { AreTriplesKnown table.now triples.now }
    requires one { IsTripleKnown table.now triple }
    requires from { from ≤ length triples.now }
    ensures within { IfOk result (λ at. at ≤ length triples.now) }
    ensures moved { OnOk result (out.new.items ≡ out.old.items ++ moved table.now triple (drop from triples.now)) }
    ensures left { IfOk result (λ at. drop at triples.now ≡ left table.now triple (drop from triples.now)) }
{
    'triples: for at in from..triples.len() {
        let other = triples[at];
        match compare(table, triple, other) {
            Ordering::Less => return Ok(at),
            Ordering::Equal => {}
            Ordering::Greater => out.push(other)?,
        }
    }
    Ok(triples.len())
}
