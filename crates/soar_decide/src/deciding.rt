// The choice of a goal, and what it comes to.
ghost use Rattle.std.specs.Prelude.{◌≡◌, ◌<◌, ◌≤◌, length, IfOk};
ghost use Rattle.defs_soar.specs.Sorted.{has_symbol};
ghost use Rattle.defs_soar.specs.Verdicts.{are_left, is_impasse, values_of_scored, verdict_of};
ghost use Rattle.defs_soar.specs.Walk.{is_among_left};
ghost use Rattle.soar_choose.specs.Rows.{AreInRange, AreKnown, AreLeftWithin, AreSumsWithin, IsFraction, IsSomeLeft};
ghost use Rattle.soar_decide.specs.Outcomes.{operator_rows, outcome_at, outcome_of, outcome_seen, selection_at, view_seen};

use crate::drawing::{drawn, uses_word};
use crate::items::{items_for, marked_tag};
use crate::maker::maker_of;
use crate::outcome::Outcome;
use crate::view::View;
use defs_soar::{Choice, Goal, Impasse, Preference, Scored, Selection};
use soar_choose::choose;
use soar_sym::architecture::OPERATOR;
use soar_sym::{List, NoMemory, Sym, is_symbol};

/// What a goal comes to: its selected operator stays where it is left, else one that is left is drawn, and where
/// none is there is an impasse (Soar manual, chapter 2, decision procedure).
#[tactic(auto, using(crate::proofs::SlotLemmas::slot_known, crate::proofs::SlotLemmas::slot_few, crate::proofs::SlotLemmas::slot_in_range))]
pub fn decide(view: &View<'_>, goal: &Goal) -> Result<Outcome, NoMemory>
    requires known { AreKnown view.now.table.now view.now.prefs.now.rows }
    requires few { length view.now.prefs.now.rows ≤ 1000000 }
    requires range { AreInRange view.now.prefs.now.rows }
    requires fraction { IsFraction view.now.mode }
    ensures { IfOk result (λ outcome. outcome_seen outcome ≡ outcome_at (view_seen view.now) goal.now) }
{
    let rows = view.prefs.slot(view.alloc, goal.id, OPERATOR)?;
    let choice = choose(view.alloc, view.table, &rows)?;
    of_choice(view, goal, &rows, choice)
}

/// What the choice among the values of a goal's operator slot comes to.
fn of_choice(
    view: &View<'_>,
    goal: &Goal,
    rows: &List<Preference>,
    choice: Choice,
) -> Result<Outcome, NoMemory>
    requires rows { rows.now ≡ operator_rows view.now.prefs.now.rows goal.now.id }
    requires fraction { IsFraction view.now.mode }
    requires some { IsSomeLeft choice }
    requires sums { AreLeftWithin choice }
    ensures { IfOk result (λ outcome. outcome_seen outcome ≡ outcome_of (view_seen view.now) goal.now (verdict_of choice)) }
{
    match choice {
        Choice::Left(left) => Ok(of_left(view, goal, rows, &left)),
        Choice::Tie(scored) => impasse(view, goal, Impasse::Tie, scored.as_slice()),
        Choice::Conflict(scored) => impasse(view, goal, Impasse::Conflict, scored.as_slice()),
        Choice::Constraint(scored) => impasse(view, goal, Impasse::Constraint, scored.as_slice()),
        Choice::NoCandidate => impasse(view, goal, Impasse::StateNoChange, &[]),
    }
}

/// The selected operator stays where it is left, and else one is drawn.
fn of_left(view: &View<'_>, goal: &Goal, rows: &List<Preference>, left: &List<Scored>) -> Outcome
    requires rows { rows.now ≡ operator_rows view.now.prefs.now.rows goal.now.id }
    requires fraction { IsFraction view.now.mode }
    requires some { 0 < length left.now }
    requires sums { AreSumsWithin left.now }
    ensures { outcome_seen result ≡ outcome_of (view_seen view.now) goal.now (are_left left.now) }
{
    if is_among_left(left.as_slice(), goal.selected) {
        return Outcome::Stays;
    }
    let operator = drawn(view.mode, view.random, left);
    Outcome::Selects {
        selection: selection_at(view, goal, rows, operator),
        takes_word: uses_word(view.mode, left.len()),
    }
}

/// The selection of an operator, as its element and its rows are.
#[tactic(auto, using(crate::proofs::MakerLemmas::maker_is))]
fn selection_at(view: &View<'_>, goal: &Goal, rows: &List<Preference>, operator: Sym) -> Selection
    requires rows { rows.now ≡ operator_rows view.now.prefs.now.rows goal.now.id }
    ensures { result ≡ selection_at (view_seen view.now) goal.now.id operator }
{
    Selection {
        operator,
        tag: marked_tag(view.memory, goal.id, operator),
        maker: maker_of(rows.as_slice(), operator),
    }
}

/// Whether the selected operator, if there is one, is among those that are left.
fn is_among_left(left: &[Scored], selected: Option<Selection>) -> bool
    ensures { result ≡ is_among_left left.now selected }
{
    match selected {
        Some(selection) => has_value(left, selection.operator),
        None => false,
    }
}

fn has_value(left: &[Scored], operator: Sym) -> bool
    ensures { result ≡ has_symbol (values_of_scored left.now) operator }
{
    'left: for scored in left {
        if is_symbol(operator, scored.value) {
            return true;
        }
    }
    false
}

/// An impasse over some values.
fn impasse(
    view: &View<'_>,
    goal: &Goal,
    why: Impasse,
    scored: &[Scored],
) -> Result<Outcome, NoMemory>
    ensures { IfOk result (λ outcome. outcome_seen outcome ≡ outcome_of (view_seen view.now) goal.now (is_impasse why scored.now)) }
{
    let items = items_for(view, goal.id, scored)?;
    Ok(Outcome::Impasse { why, items })
}
