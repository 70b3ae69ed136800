// What the output link shows no longer, and what is new there.
ghost use Rattle.std.specs.Prelude.{◌≡◌, IfOk};
ghost use Rattle.soar_sym.specs.declared.symbol.Triple.{Triple as TripleOf};
ghost use Rattle.defs_soar.specs.Cycle.{without_triples};
ghost use Rattle.defs_soar.specs.Sorted.{in_order};
ghost use Rattle.defs_soar.specs.Values.{has_triple_among};
ghost use Rattle.soar_settle.specs.Known.{AreTriplesKnown};

use soar_settle::{TripleSet, in_order};
use soar_sym::{List, NoMemory, SymTable, Triple};
use std::alloc::Global;

/// What changed on the output link, each in order of triple.
#[derive(Drop)]
pub struct OutputChanges {
    /// What is shown no longer.
    pub gone: List<Triple>,

    /// What was not shown before.
    pub new: List<Triple>,
}

/// What changed between what the output link showed before and what it shows now.
pub fn output_changes(
    alloc: Global,
    table: &SymTable,
    before: &List<Triple>,
    now: &List<Triple>,
) -> Result<OutputChanges, NoMemory>
    requires before { AreTriplesKnown table.now before.now }
    requires now { AreTriplesKnown table.now now.now }
    ensures gone { IfOk result (λ changes. changes.gone ≡ in_order table.now (without_triples now.now before.now)) }
    ensures new { IfOk result (λ changes. changes.new ≡ in_order table.now (without_triples before.now now.now)) }
    ensures known { IfOk result (λ changes. AreTriplesKnown table.now changes.gone × AreTriplesKnown table.now changes.new) }
{
    let gone = those_without(alloc, table, now.as_slice(), before.as_slice())?;
    let new = those_without(alloc, table, before.as_slice(), now.as_slice())?;
    Ok(OutputChanges { gone, new })
}

/// The triples that are not among others, in order.
fn those_without(
    alloc: Global,
    table: &SymTable,
    others: &[Triple],
    triples: &[Triple],
) -> Result<List<Triple>, NoMemory>
    requires { AreTriplesKnown table.now triples.now }
    ensures out { IfOk result (λ out. out ≡ in_order table.now (without_triples others.now triples.now)) }
    ensures known { IfOk result (λ out. AreTriplesKnown table.now out) }
{
    let others = set_of(alloc, others)?;
    let left = without(alloc, &others, triples)?;
    in_order(alloc, table, left.as_slice())
}

/// Triples as a set.
fn set_of(alloc: Global, triples: &[Triple]) -> Result<TripleSet, NoMemory>
    ensures { IfOk result (λ set. (t : TripleOf) → has_triple_among set t ≡ has_triple_among triples.now t) }
{
    let mut set = TripleSet::new(alloc);
    'triples: for triple in triples {
        set.add(*triple)?;
    }
    Ok(set)
}

/// The triples that are not in a set.
fn without(alloc: Global, others: &TripleSet, triples: &[Triple]) -> Result<List<Triple>, NoMemory>
    ensures { IfOk result (λ out. out ≡ without_triples others.now triples.now) }
{
    let mut out = List::new(alloc);
    'triples: for triple in triples {
        if !others.has(*triple) {
            out.push(*triple)?;
        }
    }
    Ok(out)
}
