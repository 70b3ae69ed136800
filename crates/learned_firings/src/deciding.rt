// Whether the firing of a learned rule is of operator kind: its elements are in the order of its conditions, by which the
// first of two that tell a selected operator of one goal counts.
ghost use Rattle.std.specs.Prelude.{◌≡◌, ◌++◌, [], length, map, IfOk, OnOk};
ghost use Rattle.soar_rule.specs.Variables.{bound_variables};
ghost use Rattle.defs_match.specs.Conflict.{paired};
ghost use Rattle.defs_match.specs.Rules.{rule_seen};
ghost use Rattle.defs_soar.specs.Support.{operator_kind as kind_of};
ghost use Rattle.wave_entries.specs.Recorded.{standing};
ghost use Rattle.learned_firings.specs.Deciding.{AreThere, deciding, tags_if, tells_selected, with_seen};

use chain_identifiers::is_among;
use defs_match::{Instance, Rule};
use soar_sym::architecture::OPERATOR;
use soar_sym::{List, Sym, is_symbol};
use soar_wm::Element;
use std::alloc::{AllocError, Global};
use wave_entries::{Before, operator_kind};

/// The kind of the firing, for elements in this order.
pub(crate) fn learned_kind(
    before: &Before<'_>,
    rule: &Rule,
    elements: &[Element],
    binds: &[Sym],
) -> Result<bool, AllocError>
    requires binds { length binds.now ≡ length (bound_variables (rule_seen rule.now).production.conditions) }
    requires there { AreThere elements.now (standing before.now).elements }
    ensures { IfOk result (λ kind. kind ≡ kind_of before.now.goals.now elements.now (paired (bound_variables (rule_seen rule.now).production.conditions) binds.now) (rule_seen rule.now).production) }
{
    let instance = Instance {
        rule: rule.number,
        tags: deciding_tags(before.alloc, elements)?,
        binds: List::from_slice(before.alloc, binds)?,
    };
    Ok(operator_kind(rule, &instance, before.goals, before.memory))
}

/// The tags of the elements, without those that tell a selected operator where one before tells one of the same goal.
fn deciding_tags(alloc: Global, elements: &[Element]) -> Result<List<u32>, AllocError>
    ensures { IfOk result (λ tags. tags ≡ map (λ e. e.tag) (deciding [] elements.now)) }
{
    let mut tags = List::new(alloc);
    let mut seen = List::new(alloc);
    'elements: for element in elements {
        add_tag(&mut tags, seen.as_slice(), element)?;
        see(&mut seen, element)?;
    }
    Ok(tags)
}

fn add_tag(tags: &mut List<u32>, seen: &[Sym], element: &Element) -> Result<(), AllocError>
    ensures { OnOk result (tags.new ≡ tags.old ++ tags_if seen.now element.now) }
{
    if !(tells_selected(element) && is_among(seen, element.id)) {
        tags.push(element.tag)?;
    }
    Ok(())
}

fn see(seen: &mut List<Sym>, element: &Element) -> Result<(), AllocError>
    ensures { OnOk result (seen.new ≡ with_seen seen.old element.now) }
{
    if tells_selected(element) {
        seen.push(element.id)?;
    }
    Ok(())
}

fn tells_selected(element: &Element) -> bool
    ensures { result ≡ tells_selected element.now }
{
    is_symbol(element.attr, OPERATOR) && !element.accept
}
