ghost use Rattle.std.specs.Prelude.{◌≡◌, ◌&&◌, true, [], map};
ghost use Rattle.std.specs.List.{list_all};
ghost use Rattle.chunk_replay.specs.LookedUp.{of_tags};
ghost use Rattle.defs_soar.specs.History.{step_seen};
ghost use Rattle.learning_laws.specs.Replay.{is_known, is_there, passed_on, replay_step};
ghost use Rattle.soar_rule.specs.Conditions.{conditions};

use crate::elements::are_known;
use crate::known::{has_tag, is_known};
use crate::passing::conditions_pass;
use defs_soar::{Firing, Step, Wish};
use soar_sym::List;
use soar_wm::Element;

/// Whether a step of an explanation goes again: always for a goal's own element; for an item where an element of the
/// tag that it names is there; for a selection where the marked triple is known; for a firing where the positive
/// conditions of its rule pass on its elements and these are known. Known are the triples of `rows`, and what `made`,
/// the preferences of the steps before, holds up.
pub fn replay_step(step: &Step, rows: &List<Element>, made: &List<Wish>) -> bool
    ensures { result ≡ replay_step (step_seen step.now) rows.now made.now }
{
    match step {
        Step::Architecture(_) => true,
        Step::Item(_, tag) => has_tag(rows.as_slice(), *tag),
        Step::Select(element, _) => { is_known(rows.as_slice(), made.as_slice(), marked(*element)) }
        Step::Fire(firing) => fires_again(firing, rows.as_slice(), made.as_slice()),
    }
}

/// The element with the acceptable mark.
fn marked(element: Element) -> Element
    ensures { result ≡ record element { accept = true } }
{
    Element {
        tag: element.tag,
        id: element.id,
        attr: element.attr,
        value: element.value,
        accept: true,
        of_state: element.of_state,
    }
}

/// Whether the positive conditions of its rule pass on the firing's elements, and these are known.
fn fires_again(firing: &Firing, rows: &[Element], made: &[Wish]) -> bool
    ensures { result ≡ (is_there (passed_on (conditions firing.now.rule.production.conds) (of_tags firing.now.used firing.now.instance.tags) []) && list_all (is_known rows.now made.now) (of_tags firing.now.used firing.now.instance.tags)) }
{
    passes(firing)
        && are_known(
            firing.used.as_slice(),
            firing.instance.tags.as_slice(),
            rows,
            made,
        )
}

#[tactic(auto, using(crate::proofs::PassedLemmas::passed))]
fn passes(firing: &Firing) -> bool
    ensures { result ≡ is_there (passed_on (conditions firing.now.rule.production.conds) (of_tags firing.now.used firing.now.instance.tags) []) }
{
    conditions_pass(
        firing.rule.production.conds.as_slice(),
        firing.used.as_slice(),
        firing.instance.tags.as_slice(),
    )
}
