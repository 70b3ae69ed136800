// The highest goal that lost an element on which it depends (Soar manual, chapter 2, goal dependency sets).
ghost use Rattle.std.specs.Prelude.{◌≡◌, ◌++◌, filter, IfOk, OnOk};
ghost use Rattle.soar_wm.specs.WorkingMemory.{triple_of, IsLawful};
ghost use Rattle.defs_soar.specs.Trimming.{is_lost};
ghost use Rattle.goal_trimming.specs.Broken.{highest_broken_by};
ghost use Rattle.goal_trimming.specs.Lost.{lost_among, lost_at, lost_of, lost_with, where_lost, with_mark, AreLooked};

use dependency_tables::Dependencies;
use kept_triples::Kept;
use soar_sym::{List, NoMemory, Triple};
use soar_wm::{Element, Memory};
use std::alloc::Global;

/// The depth of the highest goal that is broken. Looks only at the tags that are doubted, and at those of the triples
/// that were looked at, and at none where there is no goal below the top.
#[tactic(auto, using(crate::proofs::BrokenLemmas::none_below))]
pub fn highest_broken(
    alloc: Global,
    memory: &Memory,
    depends: &Dependencies,
    kept: &Kept,
    doubted: &List<u32>,
    touched: &[Triple],
) -> Result<Option<usize>, NoMemory>
    requires looked { AreLooked depends.now memory.now.elements kept.now.triples doubted.now touched.now }
    ensures { IfOk result (λ depth. depth ≡ highest_broken_by depends.now memory.now.elements kept.now.triples 2) }
{
    if depends.len() == 0 {
        return Ok(None);
    }
    no_triple_twice(memory);
    let lost = lost_among(alloc, memory, kept, doubted, touched)?;
    Ok(depends.highest_with(lost.as_slice()))
}

/// Each tag and each triple stands once in working memory.
fn no_triple_twice(memory: &Memory)
    ensures { IsLawful memory.now }
{
    let _ = memory.get(0);
}

/// The tags that are lost.
fn lost_among(
    alloc: Global,
    memory: &Memory,
    kept: &Kept,
    doubted: &List<u32>,
    touched: &[Triple],
) -> Result<List<u32>, NoMemory>
    ensures { IfOk result (λ lost. lost ≡ lost_among memory.now.elements kept.now.triples doubted.now touched.now) }
{
    let mut lost = List::new(alloc);
    add_doubted(memory, kept, doubted.as_slice(), &mut lost)?;
    add_touched(memory, kept, touched, &mut lost)?;
    Ok(lost)
}

fn add_doubted(
    memory: &Memory,
    kept: &Kept,
    doubted: &[u32],
    lost: &mut List<u32>,
) -> Result<(), NoMemory>
    ensures { OnOk result (lost.new ≡ lost.old ++ filter (is_lost memory.now.elements kept.now.triples) doubted.now) }
{
    'doubted: for tag in doubted {
        if is_lost(memory, kept, *tag) {
            lost.push(*tag)?;
        }
    }
    Ok(())
}

fn add_touched(
    memory: &Memory,
    kept: &Kept,
    touched: &[Triple],
    lost: &mut List<u32>,
) -> Result<(), NoMemory>
    ensures { OnOk result (lost.new ≡ lost.old ++ lost_of memory.now.elements kept.now.triples touched.now) }
{
    'touched: for triple in touched {
        add_both(memory, kept, *triple, lost)?;
    }
    Ok(())
}

/// Adds what is lost of a triple, unmarked and marked.
#[tactic(auto, using(crate::proofs::LostLemmas::both_added))]
fn add_both(
    memory: &Memory,
    kept: &Kept,
    triple: Triple,
    lost: &mut List<u32>,
) -> Result<(), NoMemory>
    ensures { OnOk result (lost.new ≡ lost.old ++ lost_at memory.now.elements kept.now.triples triple) }
{
    add_of(memory, kept, with_mark(triple, false), lost)?;
    add_of(memory, kept, with_mark(triple, true), lost)
}

fn with_mark(triple: Triple, mark: bool) -> Triple
    ensures { result ≡ with_mark triple mark }
{
    Triple {
        id: triple.id,
        attr: triple.attr,
        value: triple.value,
        accept: mark,
    }
}

/// Adds the tag of a triple, where it is lost.
fn add_of(
    memory: &Memory,
    kept: &Kept,
    triple: Triple,
    lost: &mut List<u32>,
) -> Result<(), NoMemory>
    ensures { OnOk result (lost.new ≡ lost.old ++ lost_with memory.now.elements kept.now.triples triple) }
{
    match memory.find(triple) {
        Some(tag) => add_where_lost(memory, kept, tag, lost),
        None => Ok(()),
    }
}

fn add_where_lost(
    memory: &Memory,
    kept: &Kept,
    tag: u32,
    lost: &mut List<u32>,
) -> Result<(), NoMemory>
    ensures { OnOk result (lost.new ≡ lost.old ++ where_lost memory.now.elements kept.now.triples tag) }
{
    if is_lost(memory, kept, tag) {
        lost.push(tag)?;
    }
    Ok(())
}

/// Whether the element of a tag is gone, or its triple is not kept.
fn is_lost(memory: &Memory, kept: &Kept, tag: u32) -> bool
    ensures { result ≡ is_lost memory.now.elements kept.now.triples tag }
{
    match memory.get(tag) {
        None => true,
        Some(element) => !kept.has(triple_of(element)),
    }
}

fn triple_of(element: Element) -> Triple
    ensures { result ≡ triple_of element }
{
    Triple {
        id: element.id,
        attr: element.attr,
        value: element.value,
        accept: element.accept,
    }
}
