// What becomes of the triples that are looked at.
ghost use Rattle.std.specs.Prelude.{◌≡◌, ◌&&◌, [], not, Some, filter, filter_map, IfOk};
ghost use Rattle.soar_wm.specs.WorkingMemory.{triple_of};
ghost use Rattle.defs_soar.specs.Values.{has_triple_among};
ghost use Rattle.touched_tags.specs.Looked.{comes, first_with, gone_of, is_flagged, unless_stays, with_elements};

use crate::kept_set::KeptSet;
use crate::looking::triple_of;
use crate::tag_order::add_element;
use defs_soar::{Goal, is_goal};
use soar_sym::{List, NoMemory, Triple};
use soar_wm::{Element, Memory};
use std::alloc::Global;
use std::collections::BTreeMap;

/// The elements that go, by tag, and the triples that come, in the order in which they were looked at.
#[derive(Drop)]
pub struct Judged {
    pub gone: BTreeMap<u32, Element>,
    pub come: List<Triple>,
}

/// What becomes of one triple: the element that goes, and whether the triple comes.
#[derive(Clone, Copy)]
struct Verdict {
    gone: Option<Element>,
    comes: bool,
}

/// What goes and what comes of the triples that are looked at. Each is looked up once in working memory, and once in
/// what is kept.
pub fn judge_all<K: KeptSet>(
    alloc: Global,
    goals: &[Goal],
    kept: &K,
    looked: &[Triple],
    memory: &Memory,
) -> Result<Judged, NoMemory>
    ensures gone { IfOk result (λ judged. judged.gone.entries ≡ with_elements (filter_map (gone_of goals.now (K.triples kept.now) memory.now.elements) looked.now) []) }
    ensures come { IfOk result (λ judged. judged.come ≡ filter (comes goals.now (K.triples kept.now) memory.now.elements) looked.now) }
{
    let mut gone = BTreeMap::new(alloc);
    let mut come = List::from_vec(Vec::with_capacity(alloc, looked.len() / 2)?);
    'looked: for triple in looked {
        let verdict = verdict_of_triple(goals, kept, memory, *triple);
        if let Some(element) = verdict.gone {
            add_element(&mut gone, element)?;
        }
        if verdict.comes {
            come.push(*triple)?;
        }
    }
    Ok(Judged { gone, come })
}

/// An element that has the triple goes where it does not stay. The triple comes where it is kept, and no element with
/// the right flag has it.
fn verdict_of_triple<K: KeptSet>(
    goals: &[Goal],
    kept: &K,
    memory: &Memory,
    triple: Triple,
) -> Verdict
    ensures gone { result.gone ≡ gone_of goals.now (K.triples kept.now) memory.now.elements triple }
    ensures comes { result.comes ≡ comes goals.now (K.triples kept.now) memory.now.elements triple }
{
    match element_with(memory, triple) {
        Some(element) => verdict_of_element(goals, kept, element),
        None => Verdict {
            gone: None,
            comes: kept.has(triple),
        },
    }
}

/// An element goes where its triple is not kept, or its flag is not that of its identifier. Its triple comes where it
/// is kept, and the flag is another.
fn verdict_of_element<K: KeptSet>(goals: &[Goal], kept: &K, element: Element) -> Verdict
    ensures gone { result.gone ≡ unless_stays goals.now (K.triples kept.now) (Some element) }
    ensures comes { result.comes ≡ (has_triple_among (K.triples kept.now) (triple_of element) && not (is_flagged goals.now element)) }
{
    let has = kept.has(triple_of(&element));
    let flagged = is_flagged(goals, element);
    let gone = if has && flagged { None } else { Some(element) };
    Verdict {
        gone,
        comes: has && !flagged,
    }
}

/// Whether the flag of an element is that of its identifier.
fn is_flagged(goals: &[Goal], element: Element) -> bool
    ensures { result ≡ is_flagged goals.now element }
{
    element.of_state == is_goal(goals, element.id)
}

/// The element that has a triple.
fn element_with(memory: &Memory, triple: Triple) -> Option<Element>
    ensures { result ≡ first_with triple memory.now.elements }
{
    match memory.find(triple) {
        Some(tag) => memory.get(tag),
        None => None,
    }
}
