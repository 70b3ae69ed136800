// Links out and in, as triples come and go. Each is in as often as it is out, so how often is looked up among the links out alone.
ghost use Rattle.std.specs.Prelude.{OnOk, List as ListOf};
ghost use Rattle.soar_sym.specs.declared.symbol.Triple.{Triple as TripleOf};
ghost use Rattle.level_change.specs.Counts.{IsChanged, edge_count};
ghost use Rattle.level_change.specs.Edges.{with_triple, without_triple, with_all, without_all};
ghost use Rattle.level_change.specs.Links.{Counts, Facts as FactsOf, IsCounted, turned};

use crate::links::{one_less, one_more, put};
use crate::store::{Facts, Late};
use soar_sym::{NoMemory, Triple, is_identifier};

/// Counts the links of triples that come and go.
pub fn recount(
    out: &Facts,
    out_late: &mut Late,
    into_late: &mut Late,
    gone: &[Triple],
    come: &[Triple],
) -> Result<(), NoMemory>
    ensures out { OnOk result ((held after : ListOf TripleOf) → IsChanged held gone.now come.now after → IsCounted (edge_count held) out.now.entries out_late.old.entries → IsCounted (edge_count after) out.now.entries out_late.new.entries) }
    ensures into { OnOk result ((into : FactsOf) (held after : ListOf TripleOf) → IsChanged held gone.now come.now after → IsCounted (edge_count held) out.now.entries out_late.old.entries
        → IsCounted (turned (edge_count held)) into into_late.old.entries → IsCounted (turned (edge_count after)) into into_late.new.entries) }
{
    add_triples(out, out_late, into_late, come)?;
    take_triples(out, out_late, into_late, gone)
}

/// Adds the links of triples, out and in.
fn add_triples(
    out: &Facts,
    out_late: &mut Late,
    into_late: &mut Late,
    triples: &[Triple],
) -> Result<(), NoMemory>
    ensures out { OnOk result ((counts : Counts) → IsCounted counts out.now.entries out_late.old.entries → IsCounted (with_all triples.now counts) out.now.entries out_late.new.entries) }
    ensures into { OnOk result ((into : FactsOf) (counts : Counts) → IsCounted counts out.now.entries out_late.old.entries
        → IsCounted (turned counts) into into_late.old.entries → IsCounted (turned (with_all triples.now counts)) into into_late.new.entries) }
{
    'triples: for triple in triples {
        add_triple(out, out_late, into_late, *triple)?;
    }
    Ok(())
}

/// Takes the links of triples away, out and in, as far as they are there.
fn take_triples(
    out: &Facts,
    out_late: &mut Late,
    into_late: &mut Late,
    triples: &[Triple],
) -> Result<(), NoMemory>
    ensures out { OnOk result ((counts : Counts) → IsCounted counts out.now.entries out_late.old.entries → IsCounted (without_all triples.now counts) out.now.entries out_late.new.entries) }
    ensures into { OnOk result ((into : FactsOf) (counts : Counts) → IsCounted counts out.now.entries out_late.old.entries
        → IsCounted (turned counts) into into_late.old.entries → IsCounted (turned (without_all triples.now counts)) into into_late.new.entries) }
{
    'triples: for triple in triples {
        take_triple(out, out_late, into_late, *triple)?;
    }
    Ok(())
}

/// Adds the link of a triple whose value is an identifier.
#[tactic(auto, using(crate::proofs::EdgeLemmas::same_with, crate::proofs::EdgeLemmas::same_test))]
fn add_triple(
    out: &Facts,
    out_late: &mut Late,
    into_late: &mut Late,
    triple: Triple,
) -> Result<(), NoMemory>
    ensures out { OnOk result ((counts : Counts) → IsCounted counts out.now.entries out_late.old.entries → IsCounted (with_triple triple counts) out.now.entries out_late.new.entries) }
    ensures into { OnOk result ((into : FactsOf) (counts : Counts) → IsCounted counts out.now.entries out_late.old.entries
        → IsCounted (turned counts) into into_late.old.entries → IsCounted (turned (with_triple triple counts)) into into_late.new.entries) }
{
    if is_identifier(triple.value) {
        let more = one_more(out, out_late, triple.id, triple.value)?;
        put(out_late, triple.id, triple.value, Some(more))?;
        put(into_late, triple.value, triple.id, Some(more))?;
    }
    Ok(())
}

/// Takes the link of a triple away whose value is an identifier.
#[tactic(auto, using(crate::proofs::EdgeLemmas::same_without, crate::proofs::EdgeLemmas::same_test))]
fn take_triple(
    out: &Facts,
    out_late: &mut Late,
    into_late: &mut Late,
    triple: Triple,
) -> Result<(), NoMemory>
    ensures out { OnOk result ((counts : Counts) → IsCounted counts out.now.entries out_late.old.entries → IsCounted (without_triple triple counts) out.now.entries out_late.new.entries) }
    ensures into { OnOk result ((into : FactsOf) (counts : Counts) → IsCounted counts out.now.entries out_late.old.entries
        → IsCounted (turned counts) into into_late.old.entries → IsCounted (turned (without_triple triple counts)) into into_late.new.entries) }
{
    if is_identifier(triple.value) {
        let rest = one_less(out, out_late, triple.id, triple.value);
        put(out_late, triple.id, triple.value, rest)?;
        put(into_late, triple.value, triple.id, rest)?;
    }
    Ok(())
}
