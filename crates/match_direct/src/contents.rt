// Rules in order of number, and elements in order of tag.
ghost use Rattle.std.specs.Prelude.{◌≡◌, ◌≤◌, length, map, OnOk};
ghost use Rattle.soar_wm.specs.WorkingMemory.{without_tag};
ghost use Rattle.defs_match.specs.Contents.{with_element, with_rule, without_rule};
ghost use Rattle.defs_match.specs.Rules.{rule_seen};
ghost use Rattle.match_direct.specs.Contents.{place_for_tag, place_of_tag, place_for_number};

use defs_match::Rule;
use soar_sym::NoMemory;
use soar_wm::Element;
use std::alloc::Global;

/// Puts an element at the place of its tag.
pub fn insert_element(elements: &mut Vec<Element>, element: Element) -> Result<(), NoMemory>
    ensures { OnOk result (elements.new.items ≡ with_element elements.old.items element) }
{
    let place = place_for_tag(elements.as_slice(), element.tag);
    elements.insert(place, element)?;
    Ok(())
}

/// Drops the first element of a tag.
pub fn remove_element(elements: &mut Vec<Element>, tag: u32)
    ensures { elements.new.items ≡ without_tag tag elements.old.items }
{
    let place = place_of_tag(elements.as_slice(), tag);
    if place < elements.len() {
        elements.remove(place);
    }
}

/// Puts a copy of a rule at the place of its number.
pub fn insert_copy(alloc: Global, rules: &mut Vec<Rule>, rule: &Rule) -> Result<(), NoMemory>
    ensures { OnOk result (map rule_seen rules.new.items ≡ with_rule (map rule_seen rules.old.items) (rule_seen rule.now)) }
{
    let copy = rule.share()?;
    let place = place_for_number(rules.as_slice(), rule.number);
    rules.insert(place, copy)?;
    Ok(())
}

/// Drops each rule of a number.
pub fn remove_rule(rules: &mut Vec<Rule>, number: u64)
    ensures { map rule_seen rules.new.items ≡ without_rule (map rule_seen rules.old.items) number }
{
    rules.retain(|rule| rule.number != number);
}

fn place_for_tag(elements: &[Element], tag: u32) -> usize
    ensures place { result ≡ place_for_tag tag elements.now }
    ensures within { result ≤ length elements.now }
{
    elements
        .iter()
        .take_while(|element| element.tag <= tag)
        .count()
}

fn place_of_tag(elements: &[Element], tag: u32) -> usize
    ensures { result ≡ place_of_tag tag elements.now }
{
    elements
        .iter()
        .take_while(|element| element.tag != tag)
        .count()
}

fn place_for_number(rules: &[Rule], number: u64) -> usize
    ensures place { result ≡ place_for_number number rules.now }
    ensures within { result ≤ length rules.now }
{
    rules
        .iter()
        .take_while(|rule| rule.number <= number)
        .count()
}
