// Looking again at what holds triples up (Soar manual, chapter 2, support).
ghost use Rattle.std.specs.Prelude.{◌≡◌, ◌||◌, ◌&&◌, [], not, cond, IfOk, OnOk};
ghost use Rattle.soar_sym.specs.declared.symbol.Triple.{Triple as TripleOf};
ghost use Rattle.defs_soar.specs.Values.{has_triple_among, triple_eq};
ghost use Rattle.settling_laws.specs.Changes.{has_value, rows_hold};
ghost use Rattle.soar_settle.specs.Memory.{has_plain};
ghost use Rattle.kept_triples.specs.Looking.{Balances, is_held_now, with_mark};

use crate::held::HeldTriples;
use crate::own::Own;
use defs_soar::{Goal, is_operator_slot};
use input_memory::Inputs;
use soar_settle::Prefs;
use soar_sym::{List, NoMemory, Triple};
use std::alloc::Global;

/// The triples that went, and those that came.
#[derive(Drop)]
pub struct Difference {
    pub gone: List<Triple>,
    pub come: List<Triple>,
}

impl Difference {
    /// Nothing, with room for so many of each.
    pub fn with_room(alloc: Global, most: usize) -> Result<Difference, NoMemory>
        ensures gone { IfOk result (λ difference. difference.gone ≡ []) }
        ensures come { IfOk result (λ difference. difference.come ≡ []) }
    {
        Ok(Difference {
            gone: List::from_vec(Vec::with_capacity(alloc, most)?),
            come: List::from_vec(Vec::with_capacity(alloc, most)?),
        })
    }
}

/// Looks again at what holds each of the triples up, marked and unmarked, and notes what went and what came.
pub fn look_at_all(
    own: &Own,
    goals: &[Goal],
    prefs: &Prefs,
    inputs: &Inputs,
    changed: &[Triple],
    held: &mut HeldTriples,
    difference: &mut Difference,
) -> Result<(), NoMemory>
    ensures members { OnOk result ((t : TripleOf) → has_triple_among held.new t ≡ cond (has_plain changed.now t) (is_held_now own.now.triples goals.now prefs.now.rows inputs.now t) (has_triple_among held.old t)) }
    ensures counts { OnOk result (Balances held.old difference.old held.new difference.new) }
{
    'changed: for triple in changed {
        look_at(own, goals, prefs, inputs, *triple, held, difference)?;
    }
    Ok(())
}

/// Looks again at what holds a triple up, marked and unmarked.
fn look_at(
    own: &Own,
    goals: &[Goal],
    prefs: &Prefs,
    inputs: &Inputs,
    triple: Triple,
    held: &mut HeldTriples,
    difference: &mut Difference,
) -> Result<(), NoMemory>
    ensures members { OnOk result ((t : TripleOf) → has_triple_among held.new t ≡ cond (has_value t.id t.attr t.value triple) (is_held_now own.now.triples goals.now prefs.now.rows inputs.now t) (has_triple_among held.old t)) }
    ensures counts { OnOk result (Balances held.old difference.old held.new difference.new) }
{
    let plain = with_mark(triple, false);
    let marked = with_mark(triple, true);
    let is_plain_held = is_held(own, goals, prefs, inputs, plain);
    let is_marked_held = is_held(own, goals, prefs, inputs, marked);
    renew(held, difference, plain, is_plain_held)?;
    renew(held, difference, marked, is_marked_held)
}

fn with_mark(triple: Triple, accept: bool) -> Triple
    ensures { result ≡ with_mark triple accept }
{
    Triple {
        id: triple.id,
        attr: triple.attr,
        value: triple.value,
        accept,
    }
}

/// Whether something holds a triple up: the goals themselves, an input, or rows.
fn is_held(own: &Own, goals: &[Goal], prefs: &Prefs, inputs: &Inputs, triple: Triple) -> bool
    ensures { result ≡ is_held_now own.now.triples goals.now prefs.now.rows inputs.now triple }
{
    own.has(triple) || (inputs.has(triple) || do_rows_hold(goals, prefs, triple))
}

fn do_rows_hold(goals: &[Goal], prefs: &Prefs, triple: Triple) -> bool
    ensures { result ≡ rows_hold goals.now prefs.now.rows triple }
{
    prefs.holds(triple, is_operator_slot(goals, triple.id, triple.attr))
}

/// Puts a triple among those that are held, or takes it away.
fn renew(
    held: &mut HeldTriples,
    difference: &mut Difference,
    triple: Triple,
    is_held: bool,
) -> Result<(), NoMemory>
    ensures members { OnOk result ((t : TripleOf) → has_triple_among held.new t ≡ cond (triple_eq t triple) is_held (has_triple_among held.old t)) }
    ensures counts { OnOk result (Balances held.old difference.old held.new difference.new) }
{
    if is_held {
        come(held, difference, triple)
    } else {
        go(held, difference, triple)
    }
}

fn come(held: &mut HeldTriples, difference: &mut Difference, triple: Triple) -> Result<(), NoMemory>
    ensures members { OnOk result ((t : TripleOf) → has_triple_among held.new t ≡ (triple_eq t triple || has_triple_among held.old t)) }
    ensures counts { OnOk result (Balances held.old difference.old held.new difference.new) }
{
    let is_new = held.add(triple)?;
    if !is_new {
        return Ok(());
    }
    difference.come.push(triple)?;
    Ok(())
}

fn go(held: &mut HeldTriples, difference: &mut Difference, triple: Triple) -> Result<(), NoMemory>
    ensures members { OnOk result ((t : TripleOf) → has_triple_among held.new t ≡ (not (triple_eq t triple) && has_triple_among held.old t)) }
    ensures counts { OnOk result (Balances held.old difference.old held.new difference.new) }
{
    if !held.remove(triple) {
        return Ok(());
    }
    difference.gone.push(triple)?;
    Ok(())
}
